//! A disbursed loan's account: made from its entries or resumed from what is kept, entered into, reversed, and shown.
//! Here stand what it keeps and what an entry and a reversal have in common.

ghost use Rattle.std.specs.Prelude.{◌≡◌, ◌≢◌, ℕ, ◌*◌, ◌≤◌, ◌++◌, IfOk, IfSome, IsTrue, IsOkUnless, None, length, take};
ghost use Rattle.mf_account.specs.Standing.{standing_entries};
ghost use Rattle.mf_account.specs.Change.{KeptAccount, IsChange, IsReplayed};
ghost use Rattle.mf_account.specs.Loan.{DisbursedLoan, IsKept, IsSoundDisbursed, settled_of_loan};
ghost use Rattle.mf_account.specs.Rewind.{IsRedone, state_before, settled_upto};
ghost use Rattle.mf_account.specs.Safe.{most_kept, IsShaped, IsBounded};
ghost use Rattle.mf_account.specs.Refusals.{is_sealed};
ghost use Rattle.mf_account.specs.Told.{settled_amount};

mod entered;
mod made;
mod reversed;
mod shown;

use crate::change::{Change, change_between};
use crate::loan::DisbursedLoan;
use crate::refusal::is_sealed;
use crate::rewind::rewind_to;
use crate::safe::{is_amount_within, is_bounded};
use crate::settled::{Book, SettledPart};
use mf_base::Fault;
use mf_schedule::FreshInstalment;
use std::alloc::Global;
use std::marker::Model;

/// The account of a disbursed loan: the loan, and beside it the instalments and what the entries settled, as they are
/// kept. Where these are what a replay gives (`IsReplayed`) they are the effects of the standing entries, in order of
/// day and number, on the fresh schedule with nothing paid; and so they stay. No call rests on that to be safe.
pub struct LoanAccount {
    loan: DisbursedLoan,
    /// Where the standing entries are among all, in their order, so that no call goes over those before a change.
    order: Vec<usize>,
    schedule: Vec<FreshInstalment>,
    disbursement_fee: u64,
    book: Book,
    settled: Vec<SettledPart>,
    change: Change,
}

// By hand, since a derived drop is proved again in each function that may drop one.
impl Drop for LoanAccount {
    fn drop(self) {
        let LoanAccount {
            loan: _,
            order: _,
            schedule: _,
            disbursement_fee: _,
            book: _,
            settled: _,
            change: _,
        } = self;
    }
}

impl Model for LoanAccount {
    ghost Value = { KeptAccount };

    ghost view = { λ a. record {
      loan = a.loan;
      state = a.book;
      settled = a.settled.items;
      change = a.change;
    } };

    ghost invariant = { λ a. IsKept a.loan a.order.items a.schedule.items a.disbursement_fee a.book a.settled.items };
}

impl LoanAccount {
    /// Whether a write-off or a refund stands.
    fn is_sealed(&self) -> bool
        ensures { result ≡ is_sealed self.now.loan.entries }
    {
        is_sealed(self.loan.entries(), &self.order)
    }

    /// The book before the standing entries from a place on, and how many parts are settled by then.
    fn rewound(&self, alloc: Global, place: usize) -> Result<(Book, usize), Fault>
        requires place { place ≤ length (standing_entries self.now.loan.entries) }
        ensures within { IfOk result (λ both. both.1 ≤ length self.now.settled) }
        ensures bounded { IfOk result (λ both. IsBounded self.now.loan.periods (2 * most_kept) both.0) }
        ensures back { IsReplayed self.now
            → IfOk result (λ both. (both.0 ≡ state_before self.now.loan place)
            × (take both.1 (settled_of_loan self.now.loan) ≡ settled_upto self.now.loan place)) }
        ensures only { IsOkUnless result Fault.F20 }
    {
        let mut book = self.book.copy(alloc)?;
        match self.rewind_copy(&mut book, place) {
            Some(kept) => Ok((book, kept)),
            None => Err(Fault::F20),
        }
    }

    /// Takes the standing entries from a place on back from a copy of the book, and answers how many parts are settled
    /// by then. None where more is settled of an instalment than would be owed, as it never is where the account is a
    /// replay's: the copy is then given up.
    fn rewind_copy(&self, book: &mut Book, place: usize) -> Option<usize>
        requires place { place ≤ length (standing_entries self.now.loan.entries) }
        requires same { book.old ≡ self.now.state }
        ensures within { IfSome result (λ kept. kept ≤ length self.now.settled) }
        ensures bounded { IfSome result (λ kept. IsBounded self.now.loan.periods (2 * most_kept) book.new) }
        ensures back { IsReplayed self.now
            → IfSome result (λ kept. (book.new ≡ state_before self.now.loan place)
            × (take kept (settled_of_loan self.now.loan) ≡ settled_upto self.now.loan place)) }
        ensures replayed { IsReplayed self.now → result ≢ None }
    {
        rewind_to(book, self.loan.entries(), &self.order, place, &self.settled)
    }

    /// Whether a book, and parts behind the first ones, of which so many stay, come to no more than is kept. What a
    /// change leads to always does where the account is a replay's.
    fn is_within_bounds(&self, book: &Book, kept: usize, parts: &[SettledPart]) -> bool
        requires within { kept ≤ length self.now.settled }
        ensures book { (n : ℕ) → IsShaped n book.now → IsTrue result → IsBounded n most_kept book.now }
        ensures parts { IsTrue result → settled_amount (take kept self.now.settled ++ parts.now) ≤ most_kept }
        ensures exact { (n : ℕ) → IsBounded n most_kept book.now
            → settled_amount (take kept self.now.settled ++ parts.now) ≤ most_kept → IsTrue result }
        ensures replayed { IsReplayed self.now → (new : DisbursedLoan) → IsSoundDisbursed new
            → IsRedone self.now.loan new book.now kept parts.now → IsTrue result }
    {
        is_bounded(book) && is_amount_within(&self.settled[..kept], parts)
    }

    /// What a change that leads to a book and parts changes.
    fn change_to(
        &self,
        alloc: Global,
        book: &Book,
        kept: usize,
        parts: &[SettledPart],
    ) -> Result<Change, Fault>
        requires size { length book.now.rows ≡ self.now.loan.periods }
        requires within { kept ≤ length self.now.settled }
        ensures change { IsReplayed self.now → (new : DisbursedLoan) → IsSoundDisbursed new
            → new.periods ≡ self.now.loan.periods
            → length self.now.loan.entries ≤ length new.entries → IsRedone self.now.loan new book.now kept parts.now
            → IfOk result (IsChange self.now.loan new) }
        ensures only { IsOkUnless result Fault.F20 }
    {
        let before = &self.settled[kept..];
        let change = change_between(alloc, &self.book, before, book, parts)?;
        Ok(change)
    }
}
