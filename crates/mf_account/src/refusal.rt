//! Why an entry or a reversal is refused, and the status that an account has.

ghost use Rattle.std.specs.Prelude.{◌≡◌, ℕ, ◌-◌, ◌<◌, ◌≤◌, ◌&&◌, not, false, IsTrue, IfNone, length, is_some, All};
ghost use Rattle.mf_account.specs.Standing.{entry_at, entries_at, last_kind_of, standing_entries};
ghost use Rattle.mf_alloc.specs.Rows.{row_at};
ghost use Rattle.mf_account.specs.Applicable.{HasInstalment};
ghost use Rattle.mf_account.specs.Loan.{DisbursedLoan, AreEntries, IsSoundDisbursed, state_of_loan};
ghost use Rattle.mf_account.specs.Kinds.{is_write_off};
ghost use Rattle.std.specs.List.{list_any};
ghost use Rattle.mf_alloc.specs.Sums.{is_open};
ghost use Rattle.mf_account.specs.declared.entry.Entry.{Entry};
ghost use Rattle.mf_account.specs.Account.{status_of};
ghost use Rattle.mf_account.specs.Refusals.{is_sealed, admits};
ghost use Rattle.mf_account.specs.Refusals.{is_out_of_order, is_instalment_number};
ghost use Rattle.mf_account.specs.Refusals.{has_penalty, is_forbidden};
ghost use Rattle.mf_account.specs.Refusals.{forbids_penalty};
ghost use Rattle.mf_account.specs.Refusals.{is_out_of_limits, reversal_refused};

use crate::entry::{Entry, Kind};
use crate::status::{ACTIVE, CLOSED, OVERPAID, WRITTEN_OFF};
use mf_alloc::{Cell, Instalment, Portion, outstanding};
use mf_base::{Day, Fault};
use mf_catalog::GREATEST_AMOUNT;

/// Whether a kind is a write-off.
pub(crate) fn is_write_off(kind: Kind) -> bool
    ensures { result ≡ is_write_off kind }
{
    matches!(kind, Kind::WriteOff)
}

/// The kind of the last of the standing entries, whose places are given in their order.
fn last_kind(entries: &[Entry], order: &[usize]) -> Option<Kind>
    requires within { All (λ at. at < length entries.now) order.now }
    requires order { entries_at entries.now order.now ≡ standing_entries entries.now }
    ensures { result ≡ last_kind_of (standing_entries entries.now) }
{
    let last = order.last()?;
    Some(entries[*last].kind)
}

/// Whether a write-off stands. It is then the last of the standing entries, whose places are given in their order.
fn has_write_off(entries: &[Entry], order: &[usize]) -> bool
    requires within { All (λ at. at < length entries.now) order.now }
    requires order { entries_at entries.now order.now ≡ standing_entries entries.now }
    requires entries { (n : ℕ) × (day : ℕ) × AreEntries n day entries.now }
    ensures { result ≡ list_any (λ (e : Entry). not e.reversed && is_write_off e.kind) entries.now }
{
    last_kind(entries, order).is_some_and(is_write_off)
}

/// Whether anything is outstanding.
fn is_any_open(rows: &[Instalment]) -> bool
    ensures { result ≡ list_any is_open rows.now }
{
    rows.iter().any(|row| row.is_open())
}

/// The status of a disbursed loan: 601 where a write-off stands, else 300 where anything is outstanding, else 700
/// where something is overpaid, else 600.
pub(crate) fn status(entries: &[Entry], order: &[usize], rows: &[Instalment], overpaid: u64) -> u16
    requires within { All (λ at. at < length entries.now) order.now }
    requires order { entries_at entries.now order.now ≡ standing_entries entries.now }
    requires entries { (n : ℕ) × (day : ℕ) × AreEntries n day entries.now }
    ensures { result ≡ status_of entries.now (record { rows = rows.now; overpaid = overpaid; refunded = 0 }) }
{
    if has_write_off(entries, order) {
        WRITTEN_OFF
    } else if is_any_open(rows) {
        ACTIVE
    } else if overpaid > 0 {
        OVERPAID
    } else {
        CLOSED
    }
}

/// Whether a write-off or a refund stands. It is then the last of the standing entries, whose places are given in their
/// order.
pub(crate) fn is_sealed(entries: &[Entry], order: &[usize]) -> bool
    requires within { All (λ at. at < length entries.now) order.now }
    requires order { entries_at entries.now order.now ≡ standing_entries entries.now }
    requires entries { (n : ℕ) × (day : ℕ) × AreEntries n day entries.now }
    ensures { result ≡ is_sealed entries.now }
{
    last_kind(entries, order).is_some_and(Kind::is_seal)
}

/// Whether a status admits entries of a kind.
pub(crate) fn admits(kind: Kind, status: u16) -> bool
    ensures { result ≡ admits kind status }
{
    match kind {
        Kind::Refund => status == OVERPAID,
        Kind::Repay | Kind::Fee | Kind::Penalty | Kind::Waive | Kind::WriteOff => status == ACTIVE,
    }
}

/// Whether an entry's day lies outside its days, from the first to the last.
pub(crate) fn is_out_of_order(entry: &Entry, first: Day, last: Day) -> bool
    ensures { result ≡ is_out_of_order entry.now.kind first last entry.now.day }
{
    match entry.kind {
        Kind::Repay => entry.day < first || last < entry.day,
        Kind::Fee | Kind::Penalty | Kind::Waive | Kind::WriteOff | Kind::Refund => false,
    }
}

/// Whether things numbered from 1 to n have this number.
pub(crate) fn is_there(n: usize, number: u32) -> bool
    ensures value { result ≡ is_instalment_number n number }
    ensures there { IsTrue result → (1 ≤ number) × (number ≤ n) }
{
    1 <= number && number as usize <= n
}

/// Whether a penalty stands on the instalment of a row. The row then owes penalties, and only then: what it owes of
/// them is what the standing ones come to, each of a cent or more.
fn has_penalty(row: &Instalment) -> bool
    ensures { (loan : DisbursedLoan) (instalment : ℕ) → IsSoundDisbursed loan → 1 ≤ instalment
        → row.now ≡ row_at (state_of_loan loan).rows instalment
        → result ≡ has_penalty loan.entries instalment }
{
    row.owed[Portion::Penalty.index()] > 0
}

/// Whether an instalment that is there does not allow a penalty.
fn forbids_penalty(charged: bool, row: &Instalment, business_day: Day) -> bool
    ensures { (loan : DisbursedLoan) (instalment : ℕ) → IsSoundDisbursed loan → 1 ≤ instalment
        → row.now ≡ row_at (state_of_loan loan).rows instalment
        → result ≡ forbids_penalty charged row.now loan.entries instalment business_day }
{
    !charged || (business_day <= row.due || (!row.is_open() || has_penalty(row)))
}

/// Whether the instalment that an entry names does not allow it. `charged` says whether the product has an overdue
/// charge.
pub(crate) fn is_forbidden(
    charged: bool,
    rows: &[Instalment],
    entry: &Entry,
    business_day: Day,
) -> bool
    ensures there { result ≡ false → HasInstalment entry.now.kind entry.now (length rows.now) }
    ensures value { (loan : DisbursedLoan) → IsSoundDisbursed loan → rows.now ≡ (state_of_loan loan).rows
        → result ≡ is_forbidden entry.now.kind charged rows.now loan.entries entry.now business_day }
{
    match entry.kind {
        Kind::Repay | Kind::WriteOff | Kind::Refund => false,
        Kind::Fee => !is_there(rows.len(), entry.instalment),
        Kind::Penalty => {
            if !is_there(rows.len(), entry.instalment) {
                return true;
            }
            let row = &rows[(entry.instalment - 1) as usize];
            forbids_penalty(charged, row, business_day)
        }
        Kind::Waive => {
            if !is_there(rows.len(), entry.instalment) {
                return true;
            }
            let cell = Cell {
                instalment: entry.instalment,
                portion: entry.portion,
            };
            outstanding(rows, cell) == 0
        }
    }
}

/// Whether a fee or penalty came to nothing, or to more than 10^12 cents.
pub(crate) fn is_out_of_limits(entry: &Entry) -> bool
    ensures { result ≡ is_out_of_limits entry.now.kind entry.now.amount }
{
    match entry.kind {
        Kind::Fee | Kind::Penalty => entry.amount == 0 || GREATEST_AMOUNT < entry.amount,
        Kind::Repay | Kind::Waive | Kind::WriteOff | Kind::Refund => false,
    }
}

/// Why a reversal is refused: no such entry, reversed already, or another entry seals the loan. `sealed` says whether
/// one does.
pub(crate) fn reversal(entries: &[Entry], sealed: bool, seq: u32) -> Option<Fault>
    requires { sealed ≡ is_sealed entries.now }
    ensures value { result ≡ reversal_refused entries.now seq }
    ensures first { IfNone result (1 ≤ seq) }
    ensures last { IfNone result (seq ≤ length entries.now) }
    ensures stands { IfNone result ((entry_at entries.now (seq - 1)).reversed ≡ false) }
{
    if !is_there(entries.len(), seq) {
        return Some(Fault::F12);
    }
    let entry = &entries[(seq - 1) as usize];
    if entry.reversed {
        Some(Fault::F13)
    } else if sealed && !entry.kind.is_seal() {
        Some(Fault::F11)
    } else {
        None
    }
}
