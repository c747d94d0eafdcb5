//! The rows of entries, each by itself.

ghost use Rattle.std.specs.Prelude.{◌≡◌, ◌≢◌, ℕ, pos, ◌≤◌, ◌↔◌, IsTrue, length, IfSome, Some, None, ◌^◌};
ghost use Rattle.mf_account.specs.Loan.{HasColumns};
ghost use Rattle.mf_account.specs.declared.entry.Entry.{Entry};
ghost use Rattle.mf_account.specs.declared.entry.Kind.{Kind};
ghost use Rattle.mf_alloc.specs.declared.row.Portion.{Portion};
ghost use Rattle.mf_alloc.specs.declared.row.Portion.TheVariants.{Penalty, Fee, Principal};
ghost use Rattle.mf_alloc.specs.Portions.{portion_number};
ghost use Rattle.mf_account.specs.Receipts.{IsReceipt};
ghost use Rattle.mf_store_values.specs.Ledgers.{IsReadable};
ghost use Rattle.mf_store_sound.specs.Entries.{IsEntryRow};
ghost use Rattle.mf_store_values.specs.Flat.{entry_in};

use crate::amounts::is_amount;
use crate::numbered::NumberedRow;
use mf_account::{Kind, is_receipt};
use mf_alloc::Portion;
use mf_base::{Choice, Day};
use mf_store_schema::EntryRow;
use mf_store_values::entry_columns;

/// A disbursed loan, and what its entries are checked against.
#[derive(Clone, Copy)]
pub(crate) struct DisbursedLoan {
    pub(crate) office: u32,
    pub(crate) number: u32,
    /// How many instalments it has.
    pub(crate) periods: u32,
    /// The day of its disbursement.
    pub(crate) day: Day,
    /// The business day.
    pub(crate) today: Day,
}

/// Whether the numbers and texts of a row are those of an entry.
pub fn is_readable(row: &EntryRow) -> bool
    ensures { IsTrue result ↔ ((e : Entry) × IsReadable e × (entry_in row.now.office row.now.loan e ≡ row.now)) }
{
    entry_columns(row).is_some()
}

/// Whether a row's instalment is one of so many.
fn is_instalment(periods: u32, row: &EntryRow) -> bool
    ensures { IsTrue result ↔ ((1 ≤ row.now.instalment) × (row.now.instalment ≤ periods)) }
{
    row.instalment >= 1 && row.instalment <= periods
}

/// Whether a row's columns are those of a fee or a penalty, which this portion tells.
fn is_charge(portion: Portion, periods: u32, row: &EntryRow) -> bool
    ensures { (amount : ℕ) → pos amount ≡ row.now.amount →
        IsTrue result ↔
        ((1 ≤ amount) × (amount ≤ 10 ^ 12) × (1 ≤ row.now.instalment) × (row.now.instalment ≤ periods)
        × (row.now.portion ≡ portion_number portion) × (row.now.receipt ≡ None)) }
{
    is_amount(row.amount)
        && is_instalment(periods, row)
        && row.portion == portion.number()
        && row.receipt.is_none()
}

/// Whether a row's columns are those of a repayment.
fn is_repayment(row: &EntryRow) -> bool
    ensures { (amount : ℕ) → pos amount ≡ row.now.amount →
        IsTrue result ↔ ((1 ≤ amount) × (amount ≤ 10 ^ 12) × (row.now.instalment ≡ 0) × (row.now.portion ≡ 4)) }
{
    is_amount(row.amount) && row.instalment == 0 && row.portion == Portion::Principal.number()
}

/// Whether a row's columns are those of a waiver.
fn is_waiver(periods: u32, row: &EntryRow) -> bool
    ensures { (amount : ℕ) → pos amount ≡ row.now.amount →
        IsTrue result ↔
        ((amount ≡ 0) × (1 ≤ row.now.instalment) × (row.now.instalment ≤ periods) × (row.now.portion ≢ 4)
        × (row.now.receipt ≡ None)) }
{
    row.amount == 0
        && is_instalment(periods, row)
        && row.portion != Portion::Principal.number()
        && row.receipt.is_none()
}

/// Whether a row's columns are those of a write-off or a refund.
fn is_sealing(row: &EntryRow) -> bool
    ensures { (amount : ℕ) → pos amount ≡ row.now.amount →
        IsTrue result ↔ ((amount ≡ 0) × (row.now.instalment ≡ 0) × (row.now.portion ≡ 4) × (row.now.receipt ≡ None)) }
{
    row.amount == 0
        && row.instalment == 0
        && row.portion == Portion::Principal.number()
        && row.receipt.is_none()
}

/// Whether a row's columns are those of an entry of its kind, on a loan of so many instalments. Of a row that is none
/// of an entry it says nothing.
pub fn has_columns(periods: u32, row: &EntryRow) -> bool
    ensures { (e : Entry) → entry_in row.now.office row.now.loan e ≡ row.now →
        IsTrue result ↔ HasColumns e.kind periods e }
{
    match Kind::from_number(row.kind) {
        Some(Kind::Repay) => is_repayment(row),
        Some(Kind::Fee) => is_charge(Portion::Fee, periods, row),
        Some(Kind::Penalty) => is_charge(Portion::Penalty, periods, row),
        Some(Kind::Waive) => is_waiver(periods, row),
        Some(Kind::WriteOff | Kind::Refund) => is_sealing(row),
        None => false,
    }
}

/// Whether a row has no receipt, or one with a receipt's text.
pub fn has_right_receipt(row: &EntryRow) -> bool
    ensures { IsTrue result ↔ IfSome row.now.receipt IsReceipt }
{
    match &row.receipt {
        None => true,
        Some(text) => is_receipt(text.as_str().as_bytes()),
    }
}

/// Whether a row's day is from this day to today.
fn is_on_time(today: Day, day: Day, row: &EntryRow) -> bool
    ensures { (e : Entry) → IsReadable e → entry_in row.now.office row.now.loan e ≡ row.now →
        IsTrue result ↔ ((day ≤ e.day) × (e.day ≤ today)) }
{
    match Day::parse(row.day.as_str().as_bytes()) {
        Some(on) => day <= on && on <= today,
        None => false,
    }
}

/// The row of an entry of a loan, whoever entered it.
impl NumberedRow<DisbursedLoan> for EntryRow {
    ghost Setting = { λ loan. Unit {0} };

    ghost IsNumbered = { λ loan of number row.
        IsEntryRow loan.today loan.day loan.periods loan.office loan.number number row };

    fn is_numbered(&self, loan: DisbursedLoan, number: u32) -> bool {
        self.office == loan.office
            && self.loan == loan.number
            && self.seq == number
            && is_readable(self)
            && is_on_time(loan.today, loan.day, self)
            && has_columns(loan.periods, self)
            && has_right_receipt(self)
    }
}
