//! An entry is reversed: the account is then as without it.

ghost use Rattle.std.specs.Prelude.{◌≡◌, ℕ, ◌-◌, ◌<◌, ◌≤◌, ◌++◌, IfOk, OnOk, OnErr, IsOkUnless, None, Some, true};
ghost use Rattle.std.specs.Prelude.{false, length, take};
ghost use Rattle.mf_base.specs.declared.fault.Fault.{Fault};
ghost use Rattle.mf_account.specs.Standing.{entry_at, standing_entries, with_mark};
ghost use Rattle.mf_account.specs.Change.{IsChange, IsReplayed};
ghost use Rattle.mf_account.specs.Rewind.{IsRedone};
ghost use Rattle.mf_account.specs.Safe.{IsSafe};
ghost use Rattle.mf_account.specs.Refusals.{reversal_refused};

use super::LoanAccount;
use crate::refusal::reversal;
use crate::replay::{apply_all, place_in};
use crate::settled::{Book, SettledPart, put_behind};
use mf_base::Fault;
use std::alloc::Global;

impl LoanAccount {
    /// Reverses entry `seq`. The refusals are, the first that holds: F12 where there is no such entry; F13 where it is
    /// reversed; F11 where another entry seals the loan; and F20 when out of memory. The account is then as before. An
    /// account that is a replay's is refused with F20 for want of memory alone, as in `enter`.
    pub fn reverse(&mut self, alloc: Global, seq: u32) -> Result<(), Fault>
        ensures ok { OnOk result (self.new.loan ≡ record self.old.loan {
          entries = with_mark self.old.loan.entries
              (seq - 1) true;
        }) }
        ensures replayed { IsReplayed self.old → OnOk result (IsReplayed self.new) }
        ensures refused { (fault : Fault) → reversal_refused self.old.loan.entries seq ≡ Some fault
            → result ≡ Err fault }
        ensures accepted { reversal_refused self.old.loan.entries seq ≡ None → IsOkUnless result Fault.F20 }
        ensures change { IsReplayed self.old → OnOk result (IsChange self.old.loan self.new.loan self.new.change) }
        ensures err { OnErr result (self.new ≡ self.old) }
    {
        let sealed = self.is_sealed();
        match reversal(self.entries(), sealed, seq) {
            Some(fault) => Err(fault),
            None => self.take_out(alloc, (seq - 1) as usize),
        }
    }

    /// Reverses the entry at a place.
    fn take_out(&mut self, alloc: Global, at: usize) -> Result<(), Fault>
        requires there { at < length self.old.loan.entries }
        requires stands { (entry_at self.old.loan.entries at).reversed ≡ false }
        ensures ok { OnOk result (self.new.loan ≡ record self.old.loan {
          entries = with_mark self.old.loan.entries at
              true;
        }) }
        ensures replayed { IsReplayed self.old → OnOk result (IsReplayed self.new) }
        ensures only { IsOkUnless result Fault.F20 }
        ensures change { IsReplayed self.old → OnOk result (IsChange self.old.loan self.new.loan self.new.change) }
        ensures err { OnErr result (self.new ≡ self.old) }
    {
        let place = self.place_at(at);
        let (book, kept, parts) = self.redone_without(alloc, place)?;
        let change = self.change_to(alloc, &book, kept, &parts)?;
        self.settled.reserve(parts.len())?;
        self.loan.reverse_entry(at);
        self.order.remove(place);
        put_behind(&mut self.settled, kept, &parts);
        self.book = book;
        self.change = change;
        Ok(())
    }

    /// Where the entry at a place stands among the standing ones.
    fn place_at(&self, at: usize) -> usize
        requires there { at < length self.now.loan.entries }
        requires stands { (entry_at self.now.loan.entries at).reversed ≡ false }
        ensures within { result < length (standing_entries self.now.loan.entries) }
        ensures there { entry_at (standing_entries self.now.loan.entries) result ≡ entry_at self.now.loan.entries at }
    {
        place_in(&self.order, at)
    }

    /// What the account comes to where the entry at a place among the standing ones is reversed: as `redone_with`.
    fn redone_without(
        &self,
        alloc: Global,
        place: usize,
    ) -> Result<(Book, usize, Vec<SettledPart>), Fault>
        requires within { place < length (standing_entries self.now.loan.entries) }
        ensures redone { IsReplayed self.now → (at : ℕ) → at < length self.now.loan.entries
            → entry_at (standing_entries self.now.loan.entries) place ≡ entry_at self.now.loan.entries at
            → IfOk result (λ r. IsRedone self.now.loan (record self.now.loan {
              entries = with_mark self.now.loan.entries
                  at true;
            }) r.0 r.1 r.2.items) }
        ensures kept { IfOk result (λ r. r.1 ≤ length self.now.settled) }
        ensures safe { IfOk result (λ r. IsSafe self.now.loan.periods (length self.now.loan.entries) r.0
            (take r.1 self.now.settled ++ r.2.items)) }
        ensures only { IsOkUnless result Fault.F20 }
    {
        let (mut book, kept) = self.rewound(alloc, place)?;
        let later = &self.order[place + 1..];
        let strategy = self.loan.strategy();
        let parts = apply_all(alloc, &strategy, &mut book, self.loan.entries(), later)?;
        if !self.is_within_bounds(&book, kept, &parts) {
            return Err(Fault::F20);
        }
        Ok((book, kept, parts))
    }
}
