//! Rows that are held against rows, one by one.

ghost use Rattle.std.specs.Prelude.{◌≡◌, ◌↔◌, IsTrue};

use mf_store_schema::{InstalmentRow, PortionSums, ReceiptRow, ShareRow};

/// A row that can be held against another.
pub trait Same {
    /// Whether the two are the same.
    fn is_same(&self, other: &Self) -> bool
        ensures { IsTrue result ↔ (self.now ≡ other.now) };
}

impl Same for ReceiptRow {
    fn is_same(&self, other: &ReceiptRow) -> bool {
        self.office == other.office
            && self.loan == other.loan
            && self.seq == other.seq
            && self.receipt.as_str() == other.receipt.as_str()
    }
}

impl Same for PortionSums {
    fn is_same(&self, other: &PortionSums) -> bool {
        self.owed == other.owed
            && self.paid == other.paid
            && self.waived == other.waived
            && self.written_off == other.written_off
    }
}

impl Same for InstalmentRow {
    fn is_same(&self, other: &InstalmentRow) -> bool {
        self.office == other.office
            && self.loan == other.loan
            && self.number == other.number
            && self.due.as_str() == other.due.as_str()
            && self.penalty.is_same(&other.penalty)
            && self.fee.is_same(&other.fee)
            && self.interest.is_same(&other.interest)
            && self.principal.is_same(&other.principal)
    }
}

impl Same for ShareRow {
    fn is_same(&self, other: &ShareRow) -> bool {
        self.office == other.office
            && self.loan == other.loan
            && self.seq == other.seq
            && self.place == other.place
            && self.instalment == other.instalment
            && self.portion == other.portion
            && self.how == other.how
            && self.amount == other.amount
    }
}

/// Whether the rows are the same, one by one.
pub fn are_same<T: Same>(rows: &[T], others: &[T]) -> bool
    ensures { IsTrue result ↔ (rows.now ≡ others.now) }
{
    if rows.len() != others.len() {
        return false;
    }
    for place in 0..rows.len() {
        if !rows[place].is_same(&others[place]) {
            return false;
        }
    }
    true
}
