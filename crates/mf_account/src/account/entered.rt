//! One entry more: why it is refused, what it makes of the account, and the amounts of charges.

ghost use Rattle.std.specs.Prelude.{◌≡◌, ◌≢◌, ◌+◌, ◌≤◌, ◌∷◌, [], ◌++◌, IfOk, IfErr, IfSome, OnOk, OnErr, IsOkUnless};
ghost use Rattle.std.specs.Prelude.{None, Some, false, length, take, insert};
ghost use Rattle.mf_base.specs.declared.fault.Fault.{Fault};
ghost use Rattle.mf_catalog.specs.Limits.{IsChargeWithinLimits};
ghost use Rattle.mf_account.specs.Standing.{standing_entries, order_with};
ghost use Rattle.mf_account.specs.Charges.{fee_amount, fee_instalment};
ghost use Rattle.mf_account.specs.Charges.{fee_refused, penalty_amount};
ghost use Rattle.mf_account.specs.Change.{IsChange, IsReplayed};
ghost use Rattle.mf_account.specs.Loan.{IsSoundDisbursed};
ghost use Rattle.mf_account.specs.Rewind.{IsRedone};
ghost use Rattle.mf_account.specs.Safe.{IsSafe};
ghost use Rattle.mf_account.specs.Refusals.{refusal_of, IsOffered, IsEntryAdmitted, IsEntryFault};

use super::LoanAccount;
use crate::charges::{fee, instalment_due, penalty};
use crate::entry::{Entry, Kind};
use crate::lawful::{MOST_ENTRIES, is_charge_within_limits};
use crate::refusal::{admits, is_forbidden, is_out_of_limits, is_out_of_order};
use crate::replay::{apply_with, position};
use crate::settled::{Book, SettledPart, put_behind, put_in};
use mf_base::{Day, Fault};
use mf_catalog::ChargeDef;
use std::alloc::Global;

impl LoanAccount {
    /// Enters one entry more. The refusals are, the first that holds: F11 where a write-off or refund stands; F9 where
    /// the loan is not at status 300, or at 700 for a refund; F10 for a repayment before disbursement or after the
    /// business day; F14 where the instalment does not allow it; F8 for a fee or penalty of 0 or over 10^12 cents; F18
    /// where the loan has 9,999 entries; and F20 when out of memory. A refused entry is given up, and the account is as
    /// before. An account that is a replay's is refused with F20 for want of memory alone: the two other causes, that
    /// more would be taken back than stands and that sums would leave all bounds, never come about (`replayed` of
    /// `rewind_copy` and `is_within_bounds`).
    pub fn enter(&mut self, alloc: Global, entry: Entry, business_day: Day) -> Result<(), Fault>
        requires { IsOffered self.old.loan entry business_day }
        ensures ok { OnOk result (self.new.loan ≡ record self.old.loan {
          entries = self.old.loan.entries ++ entry
              ∷ [];
        }) }
        ensures replayed { IsReplayed self.old → OnOk result (IsReplayed self.new) }
        ensures refused { IsReplayed self.old → (fault : Fault) → refusal_of self.old.loan entry business_day
            ≡ Some fault → result ≡ Err fault }
        ensures accepted { IsReplayed self.old → refusal_of self.old.loan entry business_day ≡ None
            → IsOkUnless result Fault.F20 }
        ensures change { IsReplayed self.old → OnOk result (IsChange self.old.loan self.new.loan self.new.change) }
        ensures faults { IfErr result IsEntryFault }
        ensures err { OnErr result (self.new ≡ self.old) }
    {
        match self.refusal(&entry, business_day) {
            Some(fault) => Err(fault),
            None => self.add(alloc, entry),
        }
    }

    /// Why an entry is refused, if it is. It takes no memory.
    fn refusal(&self, entry: &Entry, business_day: Day) -> Option<Fault>
        ensures value { IsReplayed self.now → result ≡ refusal_of self.now.loan entry.now business_day }
        ensures admitted { result ≡ None → IsEntryAdmitted self.now.loan entry.now business_day }
        ensures faults { IfSome result IsEntryFault }
        ensures sound { IsSoundDisbursed self.now.loan }
    {
        let loan = &self.loan;
        let book = &self.book;
        if self.is_sealed() {
            Some(Fault::F11)
        } else if !admits(entry.kind, self.status()) {
            Some(Fault::F9)
        } else if is_out_of_order(entry, self.day(), business_day) {
            Some(Fault::F10)
        } else if is_forbidden(
            loan.terms.overdue.is_some(),
            &book.rows,
            entry,
            business_day,
        ) {
            Some(Fault::F14)
        } else if is_out_of_limits(entry) {
            Some(Fault::F8)
        } else if MOST_ENTRIES <= self.entries().len() {
            Some(Fault::F18)
        } else {
            None
        }
    }

    /// Adds an entry with which the loan is sound.
    fn add(&mut self, alloc: Global, entry: Entry) -> Result<(), Fault>
        requires sound { IsSoundDisbursed (record self.old.loan { entries = self.old.loan.entries ++ entry ∷ [] }) }
        requires stands { entry.reversed ≡ false }
        ensures ok { OnOk result (self.new.loan ≡ record self.old.loan {
          entries = self.old.loan.entries ++ entry
              ∷ [];
        }) }
        ensures replayed { IsReplayed self.old → OnOk result (IsReplayed self.new) }
        ensures only { IsOkUnless result Fault.F20 }
        ensures change { IsReplayed self.old → OnOk result (IsChange self.old.loan self.new.loan self.new.change) }
        ensures err { OnErr result (self.new ≡ self.old) }
    {
        let place = self.place_of(&entry);
        let (book, kept, parts) = self.redone_with(alloc, &entry, place)?;
        let change = self.change_to(alloc, &book, kept, &parts)?;
        let at = self.loan.entries().len();
        self.settled.reserve(parts.len())?;
        self.order.reserve(1)?;
        self.loan.add_entry(entry)?;
        put_in(&mut self.order, place, at);
        put_behind(&mut self.settled, kept, &parts);
        self.book = book;
        self.change = change;
        Ok(())
    }

    /// Where an entry belongs among the standing ones.
    fn place_of(&self, entry: &Entry) -> usize
        ensures within { result ≤ length (standing_entries self.now.loan.entries) }
        ensures place { order_with entry.now (standing_entries self.now.loan.entries)
            ≡ insert (standing_entries self.now.loan.entries) result entry.now }
    {
        position(self.loan.entries(), &self.order, entry)
    }

    /// What the account comes to with one entry more, at its place among the standing ones: the book, how many of the
    /// parts stay, and those that follow.
    fn redone_with(
        &self,
        alloc: Global,
        entry: &Entry,
        place: usize,
    ) -> Result<(Book, usize, Vec<SettledPart>), Fault>
        requires sound { IsSoundDisbursed (record self.now.loan { entries = self.now.loan.entries ++ entry.now ∷ [] }) }
        requires stands { entry.now.reversed ≡ false }
        requires within { place ≤ length (standing_entries self.now.loan.entries) }
        requires place { order_with entry.now (standing_entries self.now.loan.entries)
            ≡ insert (standing_entries self.now.loan.entries) place entry.now }
        ensures redone { IsReplayed self.now
            → IfOk result (λ r. IsRedone self.now.loan (record self.now.loan {
              entries = self.now.loan.entries
                  ++ entry.now ∷ [];
            }) r.0 r.1 r.2.items) }
        ensures kept { IfOk result (λ r. r.1 ≤ length self.now.settled) }
        ensures safe { IfOk result (λ r. IsSafe self.now.loan.periods (length self.now.loan.entries + 1) r.0
            (take r.1 self.now.settled ++ r.2.items)) }
        ensures only { IsOkUnless result Fault.F20 }
    {
        let (mut book, kept) = self.rewound(alloc, place)?;
        let later = &self.order[place..];
        let strategy = self.loan.strategy();
        let entries = self.loan.entries();
        let parts = apply_with(alloc, &strategy, &mut book, entry, entries, later)?;
        if !self.is_within_bounds(&book, kept, &parts) {
            return Err(Fault::F20);
        }
        Ok((book, kept, parts))
    }

    /// The number of the entry that comes next.
    pub fn next_entry(&self) -> u32
        ensures number { result ≡ length self.now.loan.entries + 1 }
        ensures sound { IsSoundDisbursed self.now.loan }
    {
        self.loan.entries().len() as u32 + 1
    }

    /// Why a fee that is due on a day is refused before it is worked out, if it is: F11 where the loan is sealed, F9
    /// for a status that takes no fee, F10 where the day is before disbursement. It takes no memory.
    pub fn fee_refusal(&self, due: Day) -> Option<Fault>
        ensures value { IsReplayed self.now → result ≡ fee_refused self.now.loan due }
        ensures faults { IfSome result IsEntryFault }
    {
        if self.is_sealed() {
            Some(Fault::F11)
        } else if !admits(Kind::Fee, self.status()) {
            Some(Fault::F9)
        } else if due < self.day() {
            Some(Fault::F10)
        } else {
            None
        }
    }

    /// The number of the instalment that a fee due on a day is laid on: the first that is due then or later, else the
    /// last.
    pub fn fee_instalment(&self, due: Day) -> u32
        ensures { result ≡ fee_instalment self.now.loan due }
    {
        instalment_due(&self.schedule, due)
    }

    /// What a charge comes to as a fee, in cents: on the principal and on the interest of the fresh schedule; 0 where
    /// it is no due-date charge. None where its value is outside the limits of charges, as none is that was entered.
    pub fn fee_amount(&self, charge: &ChargeDef) -> Option<u64>
        ensures value { IfSome result (λ amount. amount ≡ fee_amount self.now.loan charge.now) }
        ensures some { IsChargeWithinLimits charge.now → result ≢ None }
    {
        if !is_charge_within_limits(charge) {
            return None;
        }
        let loan = &self.loan;
        Some(fee(charge, loan.principal, &self.schedule))
    }

    /// What the product's overdue charge comes to on an instalment as it was scheduled, in cents; 0 where there is no
    /// such charge or no such instalment.
    pub fn penalty_amount(&self, instalment: u32) -> u64
        requires { 1 ≤ instalment }
        ensures { result ≡ penalty_amount self.now.loan instalment }
    {
        let loan = &self.loan;
        penalty(&loan.terms.overdue, &self.schedule, instalment)
    }
}
