//! What is wrong with the rows of entries.

ghost use Rattle.std.specs.Prelude.{◌≡◌, ◌↔◌, Some, None, true, false, IsTrue, IsNone, IfSome, option_copied};
ghost use Rattle.std.specs.List.{Contains, list_any};
ghost use Rattle.mf_office.specs.Texts.{caller_of};
ghost use Rattle.mf_store_schema.specs.Rows.{by_loan};
ghost use Rattle.mf_store_schema.specs.declared.loans.LoanRow.{LoanRow};
ghost use Rattle.mf_store_sound.specs.Held.{Rises};
ghost use Rattle.mf_store_audit.specs.Entries.{is_own_loan, is_staff_named, AreInOrder, BreaksEntryIn, HasWrongColumns};
ghost use Rattle.mf_store_audit.specs.Entries.{IsEarly, IsLate, OnLoan};

use crate::charges::is_none;
use crate::finding::EntryFlaw;
use crate::keys::{is_after, is_next, row_at};
use crate::meta::is_day;
use crate::places::Row;
use crate::products::is_no_flag;
use crate::receipts::is_listed;
use crate::seals::is_not_last;
use mf_account::{Kind, MOST_ENTRIES};
use mf_alloc::Portion;
use mf_base::{Day, Fault};
use mf_office::Caller;
use mf_store_schema::{EntryRow, LoanRow, ReceiptRow, StaffRow};
use mf_store_sound::{has_columns, has_right_receipt, is_readable};
use mf_store_values::amount_from;

/// The rows of entries, and what they are checked against.
#[derive(Clone, Copy)]
pub(crate) struct EntrySetting<'a> {
    /// The business day.
    pub(crate) today: Day,
    pub(crate) loans: &'a [LoanRow],
    pub(crate) staff: &'a [StaffRow],
    pub(crate) receipts: &'a [ReceiptRow],
    pub(crate) entries: &'a [EntryRow],
}

/// Whether a row is that of an entry whose columns are not such as its kind has, on a loan of so many instalments. A
/// row that can't be read as an entry is not.
fn has_wrong_columns(periods: u32, row: &EntryRow) -> bool
    ensures { IsTrue result ↔ HasWrongColumns row.now periods }
{
    if !is_readable(row) {
        return false;
    }
    !has_columns(periods, row)
}

/// The row of an entry's loan, if it is there.
fn loan_of<'a>(loans: &'a [LoanRow], row: &EntryRow) -> Option<&'a LoanRow>
    ensures found { IfSome result (λ loan. Contains loans.now loan.now × (is_own_loan row.now loan.now ≡ true)) }
    ensures none { IsNone result → list_any (is_own_loan row.now) loans.now ≡ false }
    ensures only { Rises by_loan loans.now → (loan : LoanRow) → Contains loans.now loan
        → is_own_loan row.now loan ≡ true → option_copied result ≡ Some loan }
{
    row_at(loans, (row.office, 0, row.loan))
}

/// Whether an entry's loan is not disbursed. An entry without a loan is not on such a one.
fn is_on_undisbursed(loans: &[LoanRow], row: &EntryRow) -> bool
    ensures some { IsTrue result → OnLoan loans.now row.now (λ loan. loan.disbursed ≡ None) }
    ensures every { Rises by_loan loans.now → OnLoan loans.now row.now (λ loan. loan.disbursed ≡ None)
        → IsTrue result }
{
    match loan_of(loans, row) {
        Some(loan) => loan.disbursed.is_none(),
        None => false,
    }
}

/// Whether an entry's day is before its loan's disbursement.
fn is_before_disbursal(loans: &[LoanRow], row: &EntryRow) -> bool
    ensures some { IsTrue result → OnLoan loans.now row.now (IsEarly row.now) }
    ensures every { Rises by_loan loans.now → OnLoan loans.now row.now (IsEarly row.now) → IsTrue result }
{
    match loan_of(loans, row) {
        Some(loan) => is_early(loan, row),
        None => false,
    }
}

/// Whether an entry's columns are not such as its kind has on its loan.
fn is_wrong_on_loan(loans: &[LoanRow], row: &EntryRow) -> bool
    ensures some { IsTrue result → OnLoan loans.now row.now (λ loan. HasWrongColumns row.now loan.periods) }
    ensures every { Rises by_loan loans.now
        → OnLoan loans.now row.now (λ loan. HasWrongColumns row.now loan.periods) → IsTrue result }
{
    match loan_of(loans, row) {
        Some(loan) => has_wrong_columns(loan.periods, row),
        None => false,
    }
}

/// Whether the member of staff who entered a row's entry is there.
fn is_staff_there(staff: &[StaffRow], row: &EntryRow) -> bool
    ensures { result ≡ is_staff_named staff.now (caller_of row.now.staff) }
{
    match Caller::parse(row.staff.as_str().as_bytes()) {
        Some(caller) => row_at(staff, (caller.office.get(), 0, caller.staff.get())).is_some(),
        None => false,
    }
}

/// Whether a row's day is before its loan's disbursement. Texts of no day are not.
fn is_early(loan: &LoanRow, row: &EntryRow) -> bool
    ensures { IsTrue result ↔ IsEarly row.now loan.now }
{
    let Some(text) = &loan.disbursed else {
        return false;
    };
    let Some(first) = Day::parse(text.as_str().as_bytes()) else {
        return false;
    };
    match Day::parse(row.day.as_str().as_bytes()) {
        Some(day) => day < first,
        None => false,
    }
}

/// Whether a row's day is after the business day. A text of no day is not.
fn is_late(today: Day, row: &EntryRow) -> bool
    ensures { IsTrue result ↔ IsLate today row.now }
{
    match Day::parse(row.day.as_str().as_bytes()) {
        Some(day) => today < day,
        None => false,
    }
}

/// A row of an entry.
impl<'a> Row<&'a EntrySetting<'a>> for EntryRow {
    type Flaw = EntryFlaw;

    ghost Breaks = { λ setting flaw before row. BreaksEntryIn setting.now flaw before row };

    ghost IsInOrder = { λ setting. AreInOrder setting.now };

    fn breaks(
        &self,
        setting: &'a EntrySetting<'a>,
        before: Option<&Self>,
        flaw: EntryFlaw,
    ) -> Result<bool, Fault> {
        match flaw {
            EntryFlaw::Order => Ok(!is_after(before, self)),
            EntryFlaw::Loan => Ok(loan_of(setting.loans, self).is_none()),
            EntryFlaw::Undisbursed => Ok(is_on_undisbursed(setting.loans, self)),
            EntryFlaw::Number => Ok(!is_next(before, self)),
            EntryFlaw::Limit => Ok(self.seq > MOST_ENTRIES as u32),
            EntryFlaw::Kind => Ok(is_none::<Kind>(self.kind)),
            EntryFlaw::Day => Ok(!is_day(&self.day)),
            EntryFlaw::Early => Ok(is_before_disbursal(setting.loans, self)),
            EntryFlaw::Late => Ok(is_late(setting.today, self)),
            EntryFlaw::Amount => Ok(amount_from(self.amount).is_none()),
            EntryFlaw::Portion => Ok(is_none::<Portion>(self.portion)),
            EntryFlaw::Reversed => Ok(is_no_flag(self.reversed)),
            EntryFlaw::Columns => Ok(is_wrong_on_loan(setting.loans, self)),
            EntryFlaw::Receipt => Ok(!has_right_receipt(self)),
            EntryFlaw::Seal => Ok(is_not_last(setting.entries, self)),
            EntryFlaw::Staff => Ok(!is_staff_there(setting.staff, self)),
            EntryFlaw::Unlisted => Ok(!is_listed(setting.receipts, self)),
        }
    }
}
