//! An account's state from the instalments that are kept of it, without a replay.

ghost use Rattle.std.specs.Prelude.{◌≡◌, ◌≢◌, ℕ, ◌+◌, ◌-◌, ◌<◌, ◌^◌, ◌↔◌, None, true, IfSome, length, sum_by, All};
ghost use Rattle.mf_alloc.specs.Sums.{Instalment, AreWhole, AreWithin};
ghost use Rattle.mf_account.specs.declared.entry.Entry.{Entry};
ghost use Rattle.mf_account.specs.declared.entry.Kind.TheVariants.{Refund};
ghost use Rattle.mf_account.specs.Kinds.{money_in};
ghost use Rattle.mf_account.specs.Account.{sum_at};
ghost use Rattle.mf_account.specs.Balance.{HasRoom};
ghost use Rattle.mf_account.specs.Standing.{entries_at, entry_at, standing_entries};
ghost use Rattle.mf_account.specs.Loan.{DisbursedLoan, IsSoundDisbursed, state_of_loan};
ghost use Rattle.mf_account.specs.Safe.{most_kept, IsBounded};

use crate::balances::{Column, sum_by_portion};
use crate::effect::money_in;
use crate::entry::{Entry, Kind};
use crate::safe::is_bounded;
use crate::settled::Book;
use mf_alloc::Instalment;

/// What entries bring.
fn money_brought(entries: &[Entry], order: &[usize]) -> u64
    requires within { All (λ i. i < length entries.now) order.now }
    requires room { sum_by (λ (e : Entry). money_in e.kind e.amount) (entries_at entries.now order.now) < 2 ^ 64 }
    ensures { result ≡ sum_by (λ (e : Entry). money_in e.kind e.amount) (entries_at entries.now order.now) }
{
    let mut money = 0;
    for k in 0..order.len() {
        let entry = &entries[order[k]];
        money += money_in(entry.kind, entry.amount);
    }
    money
}

/// What is paid in all.
fn money_paid(rows: &[Instalment]) -> u64
    requires each { HasRoom rows.now }
    requires room { sum_at (λ (r : Instalment). r.paid) 0 rows.now
        + sum_at (λ (r : Instalment). r.paid) 1 rows.now + sum_at (λ (r : Instalment). r.paid) 2 rows.now
        + sum_at (λ (r : Instalment). r.paid) 3 rows.now < 2 ^ 64 }
    ensures { result ≡ sum_at (λ (r : Instalment). r.paid) 0 rows.now
        + sum_at (λ (r : Instalment). r.paid) 1 rows.now + sum_at (λ (r : Instalment). r.paid) 2 rows.now
        + sum_at (λ (r : Instalment). r.paid) 3 rows.now }
{
    let paid = sum_by_portion(rows, Column::Paid);
    paid[0] + paid[1] + paid[2] + paid[3]
}

/// Whether the last of entries in order is a refund.
fn ends_in_refund(entries: &[Entry], order: &[usize]) -> bool
    requires within { All (λ i. i < length entries.now) order.now }
    ensures { (result ≡ true) ↔ (0 < length order.now)
        × ((entry_at (entries_at entries.now order.now) (length order.now - 1)).kind ≡ Refund) }
{
    if order.len() == 0 {
        return false;
    }
    let last = &entries[order[order.len() - 1]];
    matches!(last.kind, Kind::Refund)
}

/// The book of a loan whose rows and order are known: what its repayments bring beyond what is paid is overpaid, or
/// refunded where a refund stands, which is then the last. None where the rows come to more than is kept.
pub(crate) fn resumed_book(
    entries: &[Entry],
    order: &[usize],
    rows: Vec<Instalment>,
) -> Option<Book>
    requires within { All (λ i. i < length entries.now) order.now }
    requires order { entries_at entries.now order.now ≡ standing_entries entries.now }
    requires sound { (loan : DisbursedLoan) × IsSoundDisbursed loan × (entries.now ≡ loan.entries) }
    requires whole { AreWhole rows.items }
    requires apart { AreWithin rows.items }
    ensures bounded { IfSome result (IsBounded (length rows.items) most_kept) }
    ensures book { (loan : DisbursedLoan) → IsSoundDisbursed loan → entries.now ≡ loan.entries
        → rows.items ≡ (state_of_loan loan).rows
        → IfSome result (λ book. book ≡ state_of_loan loan) }
    ensures some { (loan : DisbursedLoan) → IsSoundDisbursed loan → rows.items ≡ (state_of_loan loan).rows
        → result ≢ None }
{
    let mut book = Book {
        rows,
        overpaid: 0,
        refunded: 0,
    };
    if !is_bounded(&book) {
        return None;
    }
    let brought = money_brought(entries, order);
    let rest = brought.saturating_sub(money_paid(&book.rows));
    let (overpaid, refunded) = if ends_in_refund(entries, order) {
        (0, rest)
    } else {
        (rest, 0)
    };
    book.overpaid = overpaid;
    book.refunded = refunded;
    Some(book)
}
