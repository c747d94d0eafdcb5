//! What is shown of an account.

ghost use Rattle.std.specs.Prelude.{◌≡◌, ℕ, ◌+◌, ◌<◌, ◌≤◌, ◌^◌, IfOk, IsTrue, IsOkUnless, length, sum, slice_index};
ghost use Rattle.mf_account.specs.Standing.{entry_at};
ghost use Rattle.mf_alloc.specs.Sums.{AreWithin};
ghost use Rattle.mf_account.specs.Account.{shares_in, status_of};
ghost use Rattle.mf_account.specs.Change.{IsReplayed, no_change, settled_in};
ghost use Rattle.mf_account.specs.Loan.{IsSoundDisbursed, fee_of_loan};
ghost use Rattle.mf_account.specs.Balance.{balances_by, open_in, sum_repaid};
ghost use Rattle.mf_account.specs.Told.{settled_amount, AreRowsSmall, AreNumbered, AreNumberedTo};

use super::LoanAccount;
use crate::balances::{Balances, book_sums};
use crate::change::{Change, no_change};
use crate::entry::Entry;
use crate::lawful::are_days_by;
use crate::refusal::status;
use crate::settled::SettledPart;
use mf_alloc::{Instalment, Portion, Share};
use mf_base::{Day, Fault};
use std::alloc::Global;

impl LoanAccount {
    /// Whether neither the day of disbursement nor that of any entry is after a day.
    pub fn is_by(&self, day: Day) -> bool
        ensures not_after { IsTrue result → (self.now.loan.day ≤ day) × ((i : ℕ) → i < length self.now.loan.entries
            → (entry_at self.now.loan.entries i).day ≤ day) }
        ensures exact { self.now.loan.day ≤ day → ((i : ℕ) → i < length self.now.loan.entries
            → (entry_at self.now.loan.entries i).day ≤ day) → IsTrue result }
    {
        self.day() <= day && are_days_by(self.entries(), day)
    }

    /// The loan's status: 601 where a write-off stands, else 300 where anything is outstanding, else 700 where
    /// something is overpaid, else 600.
    pub fn status(&self) -> u16
        ensures { result ≡ status_of self.now.loan.entries self.now.state }
    {
        let book = &self.book;
        status(self.loan.entries(), &self.order, &book.rows, book.overpaid)
    }

    /// The loan's sums over all instalments. In each portion what is paid, waived, written off and outstanding is what
    /// is owed. Where the account is a replay's, the standing repayments add up to all that is paid, overpaid and
    /// refunded; the principal disbursed is paid, written off or outstanding; and where something is overpaid nothing
    /// is outstanding.
    pub fn balances(&self) -> Balances
        ensures value { result ≡ balances_by (fee_of_loan self.now.loan) self.now.state }
        ensures repaid { IsReplayed self.now → sum result.paid + result.overpaid + result.refunded
            ≡ sum_repaid self.now.loan.entries }
        ensures principal { IsReplayed self.now → slice_index result.paid 3 + slice_index result.written_off 3
            + slice_index result.outstanding 3 ≡ self.now.loan.principal }
        ensures apart { IsReplayed self.now → 0 < result.overpaid → sum result.outstanding ≡ 0 }
        ensures whole { (p : ℕ) → p < 4
            → slice_index result.paid p + slice_index result.waived p + slice_index result.written_off p
            + slice_index result.outstanding p ≡ slice_index result.owed p }
    {
        self.sums()
    }

    /// What is outstanding of the principal; where the account is a replay's, at most 10^12 cents.
    pub fn principal_left(&self) -> u64
        ensures value { result ≡ open_in 3 self.now.state.rows }
        ensures most { IsReplayed self.now → result ≤ 10 ^ 12 }
    {
        let sums = self.sums();
        sums.outstanding[Portion::Principal.index()]
    }

    /// The sums, as they are kept.
    fn sums(&self) -> Balances
        ensures value { result ≡ balances_by (fee_of_loan self.now.loan) self.now.state }
        ensures apart { AreWithin self.now.state.rows }
        ensures sound { IsSoundDisbursed self.now.loan }
    {
        let book = &self.book;
        book_sums(
            &book.rows,
            book.overpaid,
            book.refunded,
            self.disbursement_fee,
        )
    }

    /// The instalments as they stand, at most 360. What is outstanding in each is below 2^64 cents.
    pub fn rows(&self) -> &[Instalment]
        ensures rows { result.now ≡ self.now.state.rows }
        ensures few { length result.now ≤ 360 }
        ensures small { AreRowsSmall result.now }
    {
        self.book.rows.as_slice()
    }

    /// What the last entry or reversal that succeeded changed: exactly the instalments whose rows, and the entries
    /// whose settled parts, differ from before it. Nothing after a replay.
    pub fn change(&self) -> &Change
        ensures { result.now ≡ self.now.change }
    {
        &self.change
    }

    /// Nothing counts as changed any more: the account is then as a replay gives it, where it is a replay's.
    pub fn forget_change(&mut self, alloc: Global)
        ensures { self.new ≡ record self.old { change = no_change } }
    {
        self.change = no_change(alloc);
    }

    /// The entries, in the order of their numbers.
    pub fn entries(&self) -> &[Entry]
        ensures { result.now ≡ self.now.loan.entries }
    {
        self.loan.entries()
    }

    /// How many entries there are, at most 9,999. The next one's number is one more.
    pub fn entry_count(&self) -> u32
        ensures count { result ≡ length self.now.loan.entries }
        ensures few { result ≤ 9999 }
    {
        let loan = &self.loan;
        loan.entries().len() as u32
    }

    /// The day of disbursement.
    pub fn day(&self) -> Day
        ensures { result ≡ self.now.loan.day }
    {
        self.loan.day
    }

    /// Gives the entries back, which are numbered from 1 in their order. It takes no memory.
    pub fn into_entries(self) -> Vec<Entry>
        ensures entries { result.items ≡ self.loan.entries }
        ensures numbers { AreNumbered result.items }
    {
        let LoanAccount {
            loan,
            order: _,
            schedule: _,
            disbursement_fee: _,
            book: _,
            settled: _,
            change: _,
        } = self;
        loan.into_entries()
    }

    /// What the standing entries settle, entry by entry in their order. In all it is below 2^64 cents, and each part
    /// has the number of one of the entries.
    pub fn settled_parts(&self) -> &[SettledPart]
        ensures parts { result.now ≡ self.now.settled }
        ensures small { settled_amount result.now < 2 ^ 64 }
        ensures numbers { AreNumberedTo (length self.now.loan.entries) result.now }
    {
        self.settled.as_slice()
    }

    /// What an entry settles, with places from 1 in the strategy's order of cells.
    pub fn settled_in(&self, alloc: Global, seq: u32) -> Result<Vec<SettledPart>, Fault>
        ensures settled { IfOk result (λ settled. settled.items ≡ settled_in seq self.now.settled) }
        ensures only { IsOkUnless result Fault.F20 }
    {
        let settled = self
            .settled
            .iter()
            .filter(|own| own.seq == seq)
            .map(|own| *own)
            .collect(alloc)?;
        Ok(settled)
    }

    /// What an entry settles, cell by cell in the strategy's order, zero ones left out. A reversed entry and a refund
    /// settle nothing.
    pub fn shares(&self, alloc: Global, seq: u32) -> Result<Vec<Share>, Fault>
        ensures shares { IfOk result (λ shares. shares.items ≡ shares_in seq self.now.settled) }
        ensures only { IsOkUnless result Fault.F20 }
    {
        let shares = self
            .settled
            .iter()
            .filter(|part| part.seq == seq)
            .map(|part| part.share())
            .collect(alloc)?;
        Ok(shares)
    }
}
