//! Entries of a loan that count no more.

ghost use Rattle.std.specs.Prelude.{◌≡◌, ◌≢◌, ◌⊎◌, ◌-◌, None, Some, IfOk, IfErr, true};
ghost use Rattle.mf_base.specs.declared.fault.Fault.TheVariants.{F20};
ghost use Rattle.mf_office.specs.declared.caller.Caller.{Caller};
ghost use Rattle.mf_account.specs.Change.{IsChange, IsReplayed};
ghost use Rattle.mf_account.specs.Standing.{with_mark};
ghost use Rattle.mf_account.specs.Refusals.{reversal_refused};
ghost use Rattle.mf_model.specs.declared.request.LoanRequest.TheVariants.{Reverse};
ghost use Rattle.mf_desk.specs.Answers.{Decides, loan_outcome};

use crate::decision::Decision;
use crate::entering::find_account;
use mf_account::LoanAccount;
use mf_base::Fault;
use mf_model::{Commit, InstitutionStore, LoanReply, Reply};
use mf_office::Account;
use std::alloc::Global;

/// The account with an entry reversed. The refusals are those of `LoanAccount::reverse`.
fn with_reversal(alloc: Global, mut account: LoanAccount, seq: u32) -> Result<LoanAccount, Fault>
    ensures accepted { IfOk result (λ after. reversal_refused account.loan.entries seq ≡ None) }
    ensures loan { IfOk result (λ after. after.loan ≡ record account.loan {
      entries = with_mark account.loan.entries
          (seq - 1) true;
    }) }
    ensures kept { IsReplayed account → IfOk result IsReplayed }
    ensures change { IsReplayed account → IfOk result (λ after. IsChange account.loan after.loan after.change) }
    ensures refused { IfErr result (λ f. (f ≡ F20) ⊎ (reversal_refused account.loan.entries seq ≡ Some f)) }
{
    account.reverse(alloc, seq)?;
    Ok(account)
}

/// Reverses an entry of a loan, so that it counts no more.
pub fn reverse<S: InstitutionStore>(
    alloc: Global,
    store: &mut S,
    loan: Account,
    seq: u32,
) -> Result<Decision, Fault>
    ensures decides { (c : Caller) → Decides S.InstitutionStore (loan_outcome loan (Reverse seq) c) store.old
        store.new result }
    ensures refusal { IfErr result (λ f. f ≢ Fault.F19) }
{
    let account = find_account(alloc, store, &loan)?;
    let account = with_reversal(alloc, account, seq)?;
    let told = LoanReply::Reversed(seq);
    Ok(Decision::change(
        Commit::ReverseEntry { loan, seq, account },
        Reply::Loan { loan, told },
    ))
}
