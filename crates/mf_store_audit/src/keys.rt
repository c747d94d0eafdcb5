//! Rows by their keys: whether one comes after another, is numbered after it, or is there.

ghost use Rattle.std.specs.Prelude.{◌≡◌, ◌↔◌, ℕ, IsTrue, IsNone, IfSome, true, false, option_copied};
ghost use Rattle.std.specs.List.{Contains, list_any};
ghost use Rattle.mf_store_audit.specs.Keys.{by_key, is_at, is_beside, number_in_key};
ghost use Rattle.mf_store_audit.specs.Keys.{instalment_key, share_key};
ghost use Rattle.mf_store_audit.specs.Places.{IsAfter, number_within};

use crate::rows::find_row;
use mf_store_schema::{
    ChargeRow, ClientRow, EntryRow, InstalmentRow, LoanRow, OfficeRow, ProductRow, ShareRow,
    StaffRow,
};

/// A row that is known by an office, a loan and a number, or by some of these.
pub(crate) trait Keyed {
    ghost key: { Self → ℕ × ℕ × ℕ };

    /// Its office, its loan and its number, 0 for what it has none of.
    fn key(&self) -> (u32, u32, u32)
        ensures { result ≡ key self.now };
}

/// Whether a row comes after the one before it.
pub(crate) fn is_after<R: Keyed>(before: Option<&R>, row: &R) -> bool
    ensures { IsTrue result ↔ IsAfter (by_key R.key) (option_copied before.entry) row.now }
{
    match before {
        Some(before) => before.key() < row.key(),
        None => true,
    }
}

/// Whether a row is numbered next after the one before it, where both are of one owner, and else by 1.
pub(crate) fn is_next<R: Keyed>(before: Option<&R>, row: &R) -> bool
    ensures { IsTrue result ↔ (number_in_key R.key row.now ≡
        number_within (is_beside R.key row.now) (number_in_key R.key) (option_copied before.entry)) }
{
    let (office, loan, number) = row.key();
    let Some(before) = before else {
        return number == 1;
    };
    let (office_before, loan_before, number_before) = before.key();
    if loan_before == loan && office_before == office {
        u64::from(number) == u64::from(number_before) + 1
    } else {
        number == 1
    }
}

/// A row with this key, if there is one.
pub(crate) fn row_at<R: Keyed>(rows: &[R], key: (u32, u32, u32)) -> Option<&R>
    ensures found { IfSome result (λ row. Contains rows.now row.now × (is_at R.key key row.now ≡ true)) }
    ensures none { IsNone result → list_any (is_at R.key key) rows.now ≡ false }
{
    let searched = rows.binary_search_by_key(&key, |row| row.key());
    find_row(rows, searched, |row| row.key() == key)
}

impl Keyed for OfficeRow {
    ghost key = { λ row. (0, 0, row.number) };

    fn key(&self) -> (u32, u32, u32) {
        (0, 0, self.number)
    }
}

impl Keyed for StaffRow {
    ghost key = { λ row. (row.office, 0, row.number) };

    fn key(&self) -> (u32, u32, u32) {
        (self.office, 0, self.number)
    }
}

impl Keyed for ClientRow {
    ghost key = { λ row. (row.office, 0, row.number) };

    fn key(&self) -> (u32, u32, u32) {
        (self.office, 0, self.number)
    }
}

impl Keyed for ChargeRow {
    ghost key = { λ row. (0, 0, row.number) };

    fn key(&self) -> (u32, u32, u32) {
        (0, 0, self.number)
    }
}

impl Keyed for ProductRow {
    ghost key = { λ row. (0, 0, row.number) };

    fn key(&self) -> (u32, u32, u32) {
        (0, 0, self.number)
    }
}

impl Keyed for LoanRow {
    ghost key = { λ row. (row.office, 0, row.number) };

    fn key(&self) -> (u32, u32, u32) {
        (self.office, 0, self.number)
    }
}

impl Keyed for EntryRow {
    ghost key = { λ row. (row.office, row.loan, row.seq) };

    fn key(&self) -> (u32, u32, u32) {
        (self.office, self.loan, self.seq)
    }
}

impl Keyed for InstalmentRow {
    ghost key = { instalment_key };

    fn key(&self) -> (u32, u32, u32) {
        (self.office, self.loan, self.number)
    }
}

impl Keyed for ShareRow {
    ghost key = { share_key };

    fn key(&self) -> (u32, u32, u32) {
        (self.office, self.loan, self.seq)
    }
}
