//! The status of a disbursed loan with nothing outstanding, told by its entries and its instalments without a replay.

ghost use Rattle.std.specs.Prelude.{◌≡◌, ◌≢◌, ◌&&◌, ◌<◌, ◌^◌, None, IfSome, false, if◌then◌else◌, not, nat_lt, sum};
ghost use Rattle.std.specs.Prelude.{sum_by};
ghost use Rattle.std.specs.List.{list_any};
ghost use Rattle.mf_alloc.specs.Sums.{Instalment, is_open};
ghost use Rattle.mf_account.specs.declared.entry.Entry.{Entry};
ghost use Rattle.mf_account.specs.Kinds.{is_refund, is_write_off};
ghost use Rattle.mf_account.specs.Kinds.{money_in};
ghost use Rattle.mf_account.specs.Balance.{sum_repaid};
ghost use Rattle.mf_account.specs.Loan.{DisbursedLoan, IsSoundDisbursed, state_of_loan, status_of_loan};

use crate::effect::money_in;
use crate::entry::{Entry, Kind};
use crate::refusal::is_write_off;
use crate::status::{CLOSED, OVERPAID, WRITTEN_OFF};
use mf_alloc::Instalment;

/// Whether a write-off stands.
fn is_written_off(entries: &[Entry]) -> bool
    ensures { result ≡ list_any (λ (e : Entry). not e.reversed && is_write_off e.kind) entries.now }
{
    entries
        .iter()
        .any(|entry| !entry.reversed && is_write_off(entry.kind))
}

/// Whether a refund stands.
fn is_refunded(entries: &[Entry]) -> bool
    ensures { result ≡ list_any (λ (e : Entry). not e.reversed && is_refund e.kind) entries.now }
{
    entries.iter().any(|entry| !entry.reversed && matches!(entry.kind, Kind::Refund))
}

/// What an entry repays while it stands.
fn repaid_by(entry: &Entry) -> u64
    ensures { result ≡ (if entry.now.reversed then 0 else money_in entry.now.kind entry.now.amount) }
{
    if entry.reversed {
        0
    } else {
        money_in(entry.kind, entry.amount)
    }
}

/// What the repayments that stand come to, where 64 bits hold it.
fn repaid(entries: &[Entry]) -> Option<u64>
    ensures total { IfSome result (λ total. total ≡ sum_repaid entries.now) }
    ensures some { sum_repaid entries.now < 2 ^ 64 → result ≢ None }
{
    let mut total: u64 = 0;
    for entry in entries {
        total = total.checked_add(repaid_by(entry))?;
    }
    Some(total)
}

/// The sum of amounts, where 64 bits hold it.
fn sum_of(amounts: &[u64]) -> Option<u64>
    ensures total { IfSome result (λ total. total ≡ sum amounts.now) }
    ensures some { sum amounts.now < 2 ^ 64 → result ≢ None }
{
    let mut total: u64 = 0;
    for amount in amounts {
        total = total.checked_add(*amount)?;
    }
    Some(total)
}

/// What is paid of all instalments, where 64 bits hold it.
fn paid(rows: &[Instalment]) -> Option<u64>
    ensures total { IfSome result (λ total. total ≡ sum_by (λ (row : Instalment). sum row.paid) rows.now) }
    ensures some { sum_by (λ (row : Instalment). sum row.paid) rows.now < 2 ^ 64 → result ≢ None }
{
    let mut total: u64 = 0;
    for row in rows {
        total = total.checked_add(sum_of(&row.paid)?)?;
    }
    Some(total)
}

/// Whether something is overpaid: more is repaid than is paid, and no refund gave it back. None where 64 bits don't
/// hold the sums, as they do of a sound loan.
fn is_overpaid(entries: &[Entry], rows: &[Instalment]) -> Option<bool>
    ensures value { (loan : DisbursedLoan) → IsSoundDisbursed loan → entries.now ≡ loan.entries
        → rows.now ≡ (state_of_loan loan).rows
        → IfSome result (λ over. over ≡ nat_lt 0 (state_of_loan loan).overpaid) }
    ensures some { (loan : DisbursedLoan) → IsSoundDisbursed loan → entries.now ≡ loan.entries
        → rows.now ≡ (state_of_loan loan).rows
        → result ≢ None }
{
    if is_refunded(entries) {
        return Some(false);
    }
    let brought = repaid(entries)?;
    let used = paid(rows)?;
    Some(used < brought)
}

/// The status of a disbursed loan with nothing outstanding in its instalments: 601 where a write-off stands, else 700
/// where something is overpaid, else 600. None where 64 bits don't hold what is repaid or paid in cents, as they do of
/// a sound loan.
pub fn settled_status(entries: &[Entry], rows: &[Instalment]) -> Option<u16>
    requires closed { list_any is_open rows.now ≡ false }
    ensures status { (loan : DisbursedLoan) → IsSoundDisbursed loan → entries.now ≡ loan.entries
        → rows.now ≡ (state_of_loan loan).rows
        → IfSome result (λ status. status ≡ status_of_loan loan) }
    ensures some { (loan : DisbursedLoan) → IsSoundDisbursed loan → entries.now ≡ loan.entries
        → rows.now ≡ (state_of_loan loan).rows
        → result ≢ None }
{
    if is_written_off(entries) {
        return Some(WRITTEN_OFF);
    }
    if is_overpaid(entries, rows)? {
        Some(OVERPAID)
    } else {
        Some(CLOSED)
    }
}
