//! What is shown of one loan.

ghost use Rattle.std.specs.Prelude.{◌≡◌, ◌≢◌, option_map, IfOk, IfErr, IsOkUnless};
ghost use Rattle.mf_office.specs.declared.caller.Caller.{Caller};
ghost use Rattle.mf_account.specs.Change.{account_by_replay};
ghost use Rattle.mf_model.specs.Institution.{Catalogue, Ledger};
ghost use Rattle.mf_model.specs.Accounts.{account_in, entries_in};
ghost use Rattle.mf_model.specs.declared.request.LoanRequest.TheVariants.{Show, ShowInstalments, ShowEntries};
ghost use Rattle.mf_desk.specs.Answers.{Decides, loan_outcome};

use crate::decision::Decision;
use mf_account::LoanAccount;
use mf_base::Fault;
use mf_model::{InstitutionStore, LoanReply};
use mf_office::Account;
use mf_statement::{EntryList, entry_lines};
use std::alloc::Global;

/// A loan as it stands, with its sums; F4 where there is no such loan.
pub fn show_sums<S: InstitutionStore>(
    alloc: Global,
    store: &mut S,
    loan: Account,
) -> Result<Decision, Fault>
    ensures decides { (c : Caller) → Decides S.InstitutionStore (loan_outcome loan Show c) store.old store.new result }
    ensures refusal { IfErr result (λ f. f ≢ Fault.F19) }
{
    let shown = store.statement(alloc, loan)?.ok_or(Fault::F4)?;
    Ok(Decision::tell(loan, LoanReply::Shown(shown)))
}

/// The instalments of a loan, none before it is disbursed; F4 where there is no such loan.
pub fn show_instalments<S: InstitutionStore>(
    alloc: Global,
    store: &mut S,
    loan: Account,
) -> Result<Decision, Fault>
    ensures decides { (c : Caller) → Decides S.InstitutionStore (loan_outcome loan ShowInstalments c) store.old
        store.new result }
    ensures refusal { IfErr result (λ f. f ≢ Fault.F19) }
{
    let lines = store.instalments(alloc, loan)?.ok_or(Fault::F4)?;
    Ok(Decision::tell(loan, LoanReply::Instalments(lines)))
}

/// The entries of an account; none where there is no account.
fn entries(alloc: Global, account: Option<LoanAccount>) -> Result<EntryList, Fault>
    ensures lines { (k : Catalogue) (l : Ledger) → account ≡ option_map account_by_replay (account_in k l)
        → IfOk result (λ lines. lines ≡ entries_in k l) }
    ensures only { IsOkUnless result Fault.F20 }
{
    match account {
        None => Ok(EntryList::new(Vec::new(alloc))),
        Some(account) => entry_lines(alloc, account),
    }
}

/// The entries of a loan, none before it is disbursed; F4 where there is no such loan, F20 where it is out of memory.
pub fn show_entries<S: InstitutionStore>(
    alloc: Global,
    store: &mut S,
    loan: Account,
) -> Result<Decision, Fault>
    ensures decides { (c : Caller) → Decides S.InstitutionStore (loan_outcome loan ShowEntries c) store.old store.new
        result }
    ensures refusal { IfErr result (λ f. f ≢ Fault.F19) }
{
    let (_, account) = store.ledger(alloc, loan)?.ok_or(Fault::F4)?;
    let lines = entries(alloc, account)?;
    Ok(Decision::tell(loan, LoanReply::Entries(lines)))
}
