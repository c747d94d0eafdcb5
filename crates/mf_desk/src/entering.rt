//! What is entered of one loan.

ghost use Rattle.std.specs.Prelude.{◌≡◌, ◌≢◌, ◌⊎◌, ◌+◌, ◌∷◌, [], ◌++◌, false, length, None, Some, IfOk, IfErr};
ghost use Rattle.mf_base.specs.declared.fault.Fault.TheVariants.{F20};
ghost use Rattle.mf_account.specs.Change.{IsChange, IsReplayed};
ghost use Rattle.mf_account.specs.Refusals.{refusal_of, HasForm};
ghost use Rattle.mf_model.specs.Accounts.{account_in};
ghost use Rattle.mf_model.specs.Loans.{enter};
ghost use Rattle.mf_desk.specs.Answers.{Asks, Decides, account_there, in_ledger};
ghost use Rattle.mf_desk.specs.Entries.{IsAskedInRange, first_of, entry_of};

use crate::decision::Decision;
use crate::entries::{Asked, make_entry};
use mf_account::{Entry, LoanAccount};
use mf_base::{Day, Fault};
use mf_model::{Commit, InstitutionStore, LoanReply, Reply};
use mf_office::{Account, Caller};
use std::alloc::Global;

/// The account of a loan; F4 where the loan isn't there, F9 where it isn't disbursed.
pub fn find_account<S: InstitutionStore>(
    alloc: Global,
    store: &mut S,
    loan: &Account,
) -> Result<LoanAccount, Fault>
    ensures asks { Asks S.InstitutionStore (account_there loan.now) store.old store.new result }
    ensures refusal { IfErr result (λ f. f ≢ Fault.F19) }
{
    let (_, account) = store.ledger(alloc, *loan)?.ok_or(Fault::F4)?;
    account.ok_or(Fault::F9)
}

/// The account with one more entry. The refusals are those of `LoanAccount::enter`; F20 also where the account has a
/// day after the business day, which no correct store returns.
fn with_entry(
    alloc: Global,
    mut account: LoanAccount,
    entry: Entry,
    today: Day,
) -> Result<LoanAccount, Fault>
    requires next { entry.seq ≡ length account.loan.entries + 1 }
    requires stands { entry.reversed ≡ false }
    requires form { HasForm entry.kind today entry }
    ensures accepted { IsReplayed account → IfOk result (λ after. refusal_of account.loan entry today ≡ None) }
    ensures loan { IfOk result (λ after. after.loan ≡ record account.loan {
      entries = account.loan.entries ++ entry
          ∷ [];
    }) }
    ensures kept { IsReplayed account → IfOk result IsReplayed }
    ensures change { IsReplayed account → IfOk result (λ after. IsChange account.loan after.loan after.change) }
    ensures refused { IsReplayed account → IfErr result (λ f. (f ≡ F20)
        ⊎ (refusal_of account.loan entry today ≡ Some f)) }
    ensures refusal { IfErr result (λ f. f ≢ Fault.F19) }
{
    if !account.is_by(today) {
        return Err(Fault::F20);
    }
    account.enter(alloc, entry, today)?;
    Ok(account)
}

/// Enters what is asked as the next entry of a loan's account. F4 where the loan isn't there, F9 where it isn't
/// disbursed.
pub fn enter<S: InstitutionStore>(
    alloc: Global,
    store: &mut S,
    caller: Caller,
    loan: Account,
    asked: Asked,
) -> Result<Decision, Fault>
    requires in_range { IsAskedInRange asked }
    ensures decides { Decides S.InstitutionStore (in_ledger loan (λ k l. enter (first_of asked) (entry_of asked caller)
        k (account_in k l))) store.old store.new result }
    ensures refusal { IfErr result (λ f. f ≢ Fault.F19) }
{
    let account = find_account(alloc, store, &loan)?;
    let today = store.business_day(alloc)?;
    let entry = make_entry(asked, caller, today, &account)?;
    let seq = entry.seq;
    let account = with_entry(alloc, account, entry, today)?;
    let told = LoanReply::Entered(seq);
    Ok(Decision::change(
        Commit::AddEntry { loan, account },
        Reply::Loan { loan, told },
    ))
}
