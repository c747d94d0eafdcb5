//! An account is made: by a replay of its entries, or resumed from what is kept.

ghost use Rattle.std.specs.Prelude.{◌≡◌, ◌≢◌, IfOk, IfSome, IsOkUnless, None, Some};
ghost use Rattle.mf_alloc.specs.Sums.{AreWhole, AreWithin};
ghost use Rattle.mf_account.specs.Change.{AreKeptOf, account_by_replay};
ghost use Rattle.mf_account.specs.Loan.{IsSoundDisbursed};

use super::LoanAccount;
use crate::change::no_change;
use crate::loan::DisbursedLoan;
use crate::replay::{in_order, replay_entries, standing_order};
use crate::resume::resumed_book;
use crate::settled::SettledPart;
use mf_alloc::Instalment;
use mf_base::Fault;
use std::alloc::Global;

impl LoanAccount {
    /// The account of a loan. The only error is F20, out of memory.
    pub fn replay(alloc: Global, loan: DisbursedLoan) -> Result<LoanAccount, Fault>
        requires { IsSoundDisbursed loan }
        ensures account { IfOk result (λ account. account ≡ account_by_replay loan) }
        ensures only { IsOkUnless result Fault.F20 }
    {
        let (schedule, fee) = loan.schedule_and_fee(alloc)?;
        let order = standing_order(alloc, loan.entries())?;
        let strategy = loan.strategy();
        let (book, settled) = replay_entries(alloc, &strategy, &schedule, loan.entries(), &order)?;
        Ok(LoanAccount {
            loan,
            order,
            schedule,
            disbursement_fee: fee,
            book,
            settled,
            change: no_change(alloc),
        })
    }

    /// The account of what was read of a loan, or None where that can be no loan's: terms or sums outside the limits, a
    /// day that can't be entered, or entries that are not those of one loan. The only error is F20, out of memory.
    pub fn of_entries(alloc: Global, loan: DisbursedLoan) -> Result<Option<LoanAccount>, Fault>
        ensures account { IfOk result (λ found. IfSome found (λ account. account ≡ account_by_replay loan)) }
        ensures none { IfOk result (λ found. IsSoundDisbursed loan → found ≢ None) }
        ensures only { IsOkUnless result Fault.F20 }
    {
        if loan.is_lawful() {
            let account = LoanAccount::replay(alloc, loan)?;
            Ok(Some(account))
        } else {
            Ok(None)
        }
    }

    /// The account of what is kept of a loan: its entries, its instalments and what its entries settled, the parts of
    /// an entry in their order. It is the account of `replay` where the instalments and the parts are what that gives.
    /// None where what is kept can be no loan's: as in `of_entries`; or more or fewer instalments than periods, a part
    /// without an instalment or an entry, or sums far above the limits of loans. The only error is F20, out of memory.
    pub fn resume(
        alloc: Global,
        loan: DisbursedLoan,
        rows: Vec<Instalment>,
        settled: Vec<SettledPart>,
    ) -> Result<Option<LoanAccount>, Fault>
        requires whole { AreWhole rows.items }
        requires apart { AreWithin rows.items }
        ensures account { IsSoundDisbursed loan → AreKeptOf loan rows.items settled.items
            → IfOk result (λ found. found ≡ Some (account_by_replay loan)) }
        ensures only { IsOkUnless result Fault.F20 }
    {
        if loan.is_lawful() {
            LoanAccount::resume_sound(alloc, loan, rows, settled)
        } else {
            Ok(None)
        }
    }

    /// The same for a loan whose terms, day and entries are those of a loan.
    fn resume_sound(
        alloc: Global,
        loan: DisbursedLoan,
        rows: Vec<Instalment>,
        settled: Vec<SettledPart>,
    ) -> Result<Option<LoanAccount>, Fault>
        requires sound { IsSoundDisbursed loan }
        requires whole { AreWhole rows.items }
        requires apart { AreWithin rows.items }
        ensures account { AreKeptOf loan rows.items settled.items
            → IfOk result (λ found. found ≡ Some (account_by_replay loan)) }
        ensures only { IsOkUnless result Fault.F20 }
    {
        if rows.len() != loan.periods as usize {
            return Ok(None);
        }
        let (schedule, fee) = loan.schedule_and_fee(alloc)?;
        let entries = loan.entries();
        let order = standing_order(alloc, entries)?;
        let placed = in_order(alloc, &order, entries.len(), rows.len(), &settled)?;
        let Some(settled) = placed else {
            return Ok(None);
        };
        let Some(book) = resumed_book(entries, &order, rows) else {
            return Ok(None);
        };
        Ok(Some(LoanAccount {
            loan,
            order,
            schedule,
            disbursement_fee: fee,
            book,
            settled,
            change: no_change(alloc),
        }))
    }
}
