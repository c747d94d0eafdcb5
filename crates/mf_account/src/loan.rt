//! A disbursed loan: what it was disbursed on, and its entries.

ghost use Rattle.std.specs.Prelude.{◌≡◌, ◌<◌, ◌++◌, ◌∷◌, [], IfOk, IsOkUnless, IsTrue, OnErr, OnOk, length, true};
ghost use Rattle.mf_account.specs.Loan.{IsSoundDisbursed, fee_of_loan, schedule_of};
ghost use Rattle.mf_account.specs.Standing.{with_mark};

use crate::entry::Entry;
use crate::lawful::{are_entries, can_be_entered, is_loan_within_limits};
use mf_base::{Day, Fault};
use mf_catalog::{StrategyName, Terms};
use mf_schedule::{FreshInstalment, disbursement_fee, fresh};
use std::alloc::Global;
use std::marker::Model;

/// A disbursed loan. All else that is told of it is worked out from these.
pub struct DisbursedLoan {
    pub terms: Terms,
    /// What was lent, in whole cents.
    pub principal: u64,
    /// How many instalments it has.
    pub periods: u32,
    /// The day of disbursement.
    pub day: Day,
    /// In the order of their numbers, from 1.
    pub entries: Vec<Entry>,
}

// By hand, since a derived drop is proved again in each function that may drop one.
impl Drop for DisbursedLoan {
    fn drop(self) {
        let DisbursedLoan {
            terms: _,
            principal: _,
            periods: _,
            day: _,
            entries: _,
        } = self;
    }
}

impl Model for DisbursedLoan {
    ghost use Rattle.mf_account.specs.Loan.{DisbursedLoan};

    ghost Value = { DisbursedLoan };

    ghost view = { λ l. record {
      terms = l.terms;
      principal = l.principal;
      periods = l.periods;
      day = l.day;
      entries = l.entries.items;
    } };
}

impl DisbursedLoan {
    /// Whether its terms and sums lie within the limits, its day can be entered, and its entries are those of one loan.
    pub(crate) fn is_lawful(&self) -> bool
        ensures within { IsTrue result → IsSoundDisbursed self.now }
        ensures exact { IsSoundDisbursed self.now → IsTrue result }
    {
        is_loan_within_limits(&self.terms, self.principal, self.periods)
            && can_be_entered(self.day)
            && are_entries(&self.entries, self.periods, self.day)
    }

    /// The fresh schedule, and the fee at disbursement in cents.
    pub(crate) fn schedule_and_fee(
        &self,
        alloc: Global,
    ) -> Result<(Vec<FreshInstalment>, u64), Fault>
        requires { IsSoundDisbursed self.now }
        ensures schedule { IfOk result (λ both. both.0.items ≡ schedule_of self.now) }
        ensures fee { IfOk result (λ both. both.1 ≡ fee_of_loan self.now) }
        ensures only { IsOkUnless result Fault.F20 }
    {
        let schedule = fresh(alloc, &self.terms, self.principal, self.periods, self.day)?;
        let fee = disbursement_fee(&self.terms, self.principal, &schedule);
        Ok((schedule, fee))
    }

    /// In which order its payments fill the portions.
    pub(crate) fn strategy(&self) -> StrategyName
        ensures { result ≡ self.now.terms.strategy }
    {
        self.terms.strategy
    }

    /// The entries, in the order of their numbers.
    pub(crate) fn entries(&self) -> &[Entry]
        ensures { result.now ≡ self.now.entries }
    {
        self.entries.as_slice()
    }

    /// Adds an entry behind the others.
    pub(crate) fn add_entry(&mut self, entry: Entry) -> Result<(), Fault>
        ensures ok { OnOk result (self.new ≡ record self.old { entries = self.old.entries ++ entry ∷ [] }) }
        ensures only { IsOkUnless result Fault.F20 }
        ensures err { OnErr result (self.new ≡ self.old) }
    {
        self.entries.push(entry)?;
        Ok(())
    }

    /// Marks the entry at a place as reversed.
    pub(crate) fn reverse_entry(&mut self, at: usize)
        requires { at < length self.old.entries }
        ensures { self.new ≡ record self.old { entries = with_mark self.old.entries at true } }
    {
        let entry = &mut self.entries[at];
        entry.reversed = true;
    }

    /// Gives the entries back.
    pub(crate) fn into_entries(self) -> Vec<Entry>
        ensures { result.items ≡ self.entries }
    {
        let DisbursedLoan {
            entries,
            terms: _,
            principal: _,
            periods: _,
            day: _,
        } = self;
        entries
    }
}
