//! What one entry does to a loan's instalments and to the money beside them.

ghost use Rattle.std.specs.Prelude.{◌≡◌, ℕ, ◌≤◌, IfOk, OnOk, IsOkUnless, length, vec_len};
ghost use Rattle.mf_alloc.specs.Order.{order_at};
ghost use Rattle.mf_account.specs.Effect.{after_entry, parts_of, with_charge, parts_cleared};
ghost use Rattle.mf_account.specs.AtOnce.{with_cleared};
ghost use Rattle.mf_account.specs.Account.{parts_numbered};
ghost use Rattle.mf_account.specs.Applicable.{HasRow, IsApplicable};

use crate::effect::{add_paid, charge_and_clear, money_in, money_out};
use crate::entry::Entry;
use crate::settled::{Book, SettledPart};
use mf_alloc::{Instalment, Strategy, pay};
use mf_base::Fault;
use std::alloc::Global;

/// Charges and clears, in a vector.
fn charge_and_clear_in<T: Strategy>(
    alloc: Global,
    strategy: &T,
    rows: &mut Vec<Instalment>,
    entry: &Entry,
) -> Result<Vec<SettledPart>, Fault>
    requires few { length rows.old.items ≤ 360 }
    requires row { HasRow entry.now.kind entry.now rows.old.items }
    ensures rows { OnOk result (rows.new.items ≡ with_cleared (order_at (T.cell_at strategy.now) rows.old.items
        entry.now.day) entry.now (with_charge entry.now.kind entry.now rows.old.items)) }
    ensures size { length rows.new.items ≡ length rows.old.items }
    ensures parts { IfOk result (λ parts. parts.items ≡ parts_numbered entry.now.seq 1
        (parts_cleared (order_at (T.cell_at strategy.now) rows.old.items entry.now.day) entry.now
        (with_charge entry.now.kind entry.now rows.old.items))) }
    ensures few { IfOk result (λ parts. vec_len parts ≤ 1440) }
    ensures only { IsOkUnless result Fault.F20 }
{
    charge_and_clear(alloc, strategy, rows, entry)
}

/// Applies an entry to a book, and answers what it settles. After an error the book is given up.
pub(crate) fn apply_entry<T: Strategy>(
    alloc: Global,
    strategy: &T,
    book: &mut Book,
    entry: &Entry,
) -> Result<Vec<SettledPart>, Fault>
    requires few { length book.old.rows ≤ 360 }
    requires fits { IsApplicable entry.now (book.old) }
    ensures state { OnOk result (book.new ≡ after_entry (order_at (T.cell_at strategy.now) book.old.rows entry.now.day)
        entry.now (book.old)) }
    ensures only { IsOkUnless result Fault.F20 }
    ensures parts { IfOk result (λ parts. parts.items ≡ parts_numbered entry.now.seq 1
        (parts_of (order_at (T.cell_at strategy.now) book.old.rows entry.now.day) entry.now (book.old))) }
{
    let mut parts = charge_and_clear_in(alloc, strategy, &mut book.rows, entry)?;
    let given = money_out(entry.kind, book.overpaid);
    let money = money_in(entry.kind, entry.amount) + (book.overpaid - given);
    let (shares, rest) = pay(alloc, strategy, &mut book.rows, money, entry.day)?;
    add_paid(&mut parts, entry.seq, &shares)?;
    book.overpaid = rest;
    book.refunded += given;
    Ok(parts)
}
