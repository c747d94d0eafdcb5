//! What an entry settles of which cell, and the book that entries change.

ghost use Rattle.std.specs.Prelude.{◌≡◌, ◌+◌, ◌<◌, ◌≤◌, ◌++◌, length, take, insert, vec_len, vec_capacity};

use mf_alloc::{Cell, Instalment, Share};
use mf_base::Fault;
use std::alloc::Global;
use std::marker::Model;

/// How a part of a cell was settled.
#[derive(Clone, Copy, PartialEq, Eq)]
pub enum How {
    Paid,
    Waived,
    WrittenOff,
}

/// What an entry settled in a cell, in whole cents. Places are from 1 within the entry.
#[derive(Clone, Copy, PartialEq, Eq)]
pub struct SettledPart {
    pub seq: u32,
    pub place: u32,
    pub cell: Cell,
    pub how: How,
    pub amount: u64,
}

impl SettledPart {
    ghost use Rattle.std.specs.Prelude.{◌≡◌};
    ghost use Rattle.mf_account.specs.Account.{share_of};

    /// The part as a share of its cell.
    pub fn share(&self) -> Share
        ensures { result ≡ share_of self.now }
    {
        Share {
            cell: self.cell,
            amount: self.amount,
        }
    }
}

/// The state of an account: its instalments, and what is overpaid and refunded, in whole cents.
pub struct Book {
    pub rows: Vec<Instalment>,
    pub overpaid: u64,
    pub refunded: u64,
}

// By hand, since a derived drop is proved again in each function that may drop one.
impl Drop for Book {
    fn drop(self) {
        let Book {
            rows: _,
            overpaid: _,
            refunded: _,
        } = self;
    }
}

impl Model for Book {
    ghost use Rattle.std.specs.Prelude.{ℕ};
    ghost use Rattle.mf_account.specs.Effect.{State};

    ghost Value = { State };

    ghost view = { λ book. record { rows = book.rows.items; overpaid = book.overpaid; refunded = book.refunded } };
}

impl Book {
    ghost use Rattle.std.specs.Prelude.{◌≡◌, IfOk, IsOkUnless};

    /// Another one of the same.
    pub(crate) fn copy(&self, alloc: Global) -> Result<Book, Fault>
        ensures same { IfOk result (λ book. book ≡ self.now) }
        ensures only { IsOkUnless result Fault.F20 }
    {
        let rows = Vec::from_slice(alloc, self.rows.as_slice())?;
        Ok(Book {
            rows,
            overpaid: self.overpaid,
            refunded: self.refunded,
        })
    }
}

/// Puts parts behind the first ones, of which so many stay. There is room for them.
pub(crate) fn put_behind(settled: &mut Vec<SettledPart>, kept: usize, parts: &[SettledPart])
    requires { vec_len settled.old + length parts.now ≤ vec_capacity settled.old }
    ensures { settled.new.items ≡ take kept settled.old.items ++ parts.now }
{
    settled.truncate(kept);
    let _put = settled.extend_from_slice(parts);
}

/// Puts the place of an entry into an order. There is room for it.
pub(crate) fn put_in(order: &mut Vec<usize>, place: usize, at: usize)
    requires within { place ≤ vec_len order.old }
    requires room { vec_len order.old < vec_capacity order.old }
    ensures { order.new.items ≡ insert order.old.items place at }
{
    let _put = order.insert(place, at);
}
