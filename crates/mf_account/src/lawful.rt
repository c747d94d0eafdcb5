//! Whether what was read of a loan can be one: its terms within the limits, and its entries in order.

ghost use Rattle.std.specs.Prelude.{◌≡◌, ℕ, ◌+◌, ◌<◌, ◌≤◌, ◌^◌, IsTrue, IfSome, Some, All, length};
ghost use Rattle.mf_base.specs.DayText.{last_entered_day};
ghost use Rattle.mf_catalog.specs.Limits.{IsChargeWithinLimits, AreTermsWithinLimits};
ghost use Rattle.mf_schedule.specs.Fresh.{IsLoanWithinLimits};
ghost use Rattle.mf_account.specs.Standing.{entry_at};
ghost use Rattle.mf_account.specs.Loan.{IsEntry, HasColumns, SealIsLast, AreEntries};
ghost use Rattle.mf_account.specs.Lawful.{is_last_of, are_seals_last};

use crate::entry::{Entry, Kind};
use crate::replay::is_before;
use mf_alloc::Portion;
use mf_base::Day;
use mf_catalog::{
    ChargeDef, GREATEST_AMOUNT, GREATEST_RATE, MOST_PERIODS, Terms, greatest_value, longest_step,
};

/// The most entries that a loan may have.
pub const MOST_ENTRIES: usize = 9999;

/// Whether a charge's value lies within the limits.
pub(crate) fn is_charge_within_limits(charge: &ChargeDef) -> bool
    ensures within { IsTrue result → IsChargeWithinLimits charge.now }
    ensures exact { IsChargeWithinLimits charge.now → IsTrue result }
{
    1 <= charge.value && charge.value <= greatest_value(charge.calc)
}

/// The same of a charge that a product may have.
fn is_no_charge_outside(charge: &Option<ChargeDef>) -> bool
    ensures within { IsTrue result → IfSome charge.now IsChargeWithinLimits }
    ensures exact { IfSome charge.now IsChargeWithinLimits → IsTrue result }
{
    match charge {
        None => true,
        Some(charge) => is_charge_within_limits(charge),
    }
}

/// Whether terms lie within the limits.
fn are_terms_within_limits(terms: &Terms) -> bool
    ensures within { IsTrue result → AreTermsWithinLimits terms.now }
    ensures exact { AreTermsWithinLimits terms.now → IsTrue result }
{
    terms.rate <= GREATEST_RATE
        && 1 <= terms.every
        && terms.every <= longest_step(terms.freq)
        && is_no_charge_outside(&terms.disbursement)
        && is_no_charge_outside(&terms.instalment)
        && is_no_charge_outside(&terms.overdue)
}

/// Whether so much may be lent by terms, over so many periods.
pub(crate) fn is_loan_within_limits(terms: &Terms, principal: u64, periods: u32) -> bool
    ensures within { IsTrue result → IsLoanWithinLimits terms.now principal periods }
    ensures exact { IsLoanWithinLimits terms.now principal periods → IsTrue result }
{
    are_terms_within_limits(terms)
        && 1 <= principal
        && principal <= GREATEST_AMOUNT
        && periods <= MOST_PERIODS
        && terms.principal_grace < periods
        && terms.interest_grace < periods
}

/// Whether a day can be entered: one up to 2099-12-31.
pub(crate) fn can_be_entered(day: Day) -> bool
    ensures within { IsTrue result → day ≤ last_entered_day }
    ensures exact { day ≤ last_entered_day → IsTrue result }
{
    day <= Day::last_entered()
}

/// Whether an amount was entered: 1 to 10^12 cents.
fn is_amount(amount: u64) -> bool
    ensures within { IsTrue result → (1 ≤ amount) × (amount ≤ 10 ^ 12) }
    ensures exact { (1 ≤ amount) × (amount ≤ 10 ^ 12) → IsTrue result }
{
    1 <= amount && amount <= GREATEST_AMOUNT
}

/// Whether the columns of an entry are those of its kind, for a loan of so many periods.
fn has_columns(entry: &Entry, periods: u32) -> bool
    ensures within { IsTrue result → HasColumns entry.now.kind periods entry.now }
    ensures exact { HasColumns entry.now.kind periods entry.now → IsTrue result }
{
    let is_on_instalment = 1 <= entry.instalment && entry.instalment <= periods;
    let is_on_none = entry.instalment == 0 && entry.portion == Portion::Principal;
    match entry.kind {
        Kind::Repay => is_amount(entry.amount) && is_on_none,
        Kind::Fee => {
            is_amount(entry.amount)
                && is_on_instalment
                && entry.portion == Portion::Fee
                && entry.receipt.is_none()
        }
        Kind::Penalty => {
            is_amount(entry.amount)
                && is_on_instalment
                && entry.portion == Portion::Penalty
                && entry.receipt.is_none()
        }
        Kind::Waive => {
            entry.amount == 0
                && is_on_instalment
                && entry.portion != Portion::Principal
                && entry.receipt.is_none()
        }
        Kind::WriteOff | Kind::Refund => {
            entry.amount == 0 && is_on_none && entry.receipt.is_none()
        }
    }
}

/// Whether an entry can be one of a loan of so many periods that was disbursed on a day.
fn is_entry(entry: &Entry, periods: u32, day: Day) -> bool
    ensures within { IsTrue result → IsEntry periods day entry.now }
    ensures exact { IsEntry periods day entry.now → IsTrue result }
{
    day <= entry.day && has_columns(entry, periods)
}

/// Whether each of the entries can be one.
fn is_each_entry(entries: &[Entry], periods: u32, day: Day) -> bool
    ensures within { IsTrue result → All (IsEntry periods day) entries.now }
    ensures exact { All (IsEntry periods day) entries.now → IsTrue result }
{
    for k in 0..entries.len() {
        if !is_entry(&entries[k], periods, day) {
            return false;
        }
    }
    true
}

/// Whether entries are numbered from 1 in their order.
fn are_numbered(entries: &[Entry]) -> bool
    ensures within { IsTrue result → (i : ℕ) → i < length entries.now → (entry_at entries.now i).seq ≡ i + 1 }
    ensures exact { ((i : ℕ) → i < length entries.now → (entry_at entries.now i).seq ≡ i + 1) → IsTrue result }
{
    for k in 0..entries.len() {
        if entries[k].seq as usize != k + 1 {
            return false;
        }
    }
    true
}

/// Whether every other standing entry comes before one.
fn is_last(entries: &[Entry], entry: &Entry) -> bool
    ensures { result ≡ is_last_of entries.now entry.now }
{
    entries.iter().all(|other| other.reversed || other.seq == entry.seq || is_before(other, entry))
}

/// Whether a write-off or a refund that stands is the last of the standing entries.
fn is_seal_last(entries: &[Entry]) -> bool
    ensures { result ≡ are_seals_last entries.now }
{
    entries.iter().all(|entry| entry.reversed || !entry.kind.is_seal() || is_last(entries, entry))
}

/// Whether entries can be those of one loan of so many periods that was disbursed on a day.
pub(crate) fn are_entries(entries: &[Entry], periods: u32, day: Day) -> bool
    ensures within { IsTrue result → AreEntries periods day entries.now }
    ensures exact { AreEntries periods day entries.now → IsTrue result }
{
    entries.len() <= MOST_ENTRIES
        && are_numbered(entries)
        && is_each_entry(entries, periods, day)
        && is_seal_last(entries)
}

/// Whether no entry's day is after one.
pub(crate) fn are_days_by(entries: &[Entry], day: Day) -> bool
    ensures within { IsTrue result → (i : ℕ) → i < length entries.now → (entry_at entries.now i).day ≤ day }
    ensures exact { ((i : ℕ) → i < length entries.now → (entry_at entries.now i).day ≤ day) → IsTrue result }
{
    for k in 0..entries.len() {
        if entries[k].day > day {
            return false;
        }
    }
    true
}
