//! What is asked of one loan.

ghost use Rattle.std.specs.Prelude.{◌≡◌, ◌≢◌, IfErr};
ghost use Rattle.mf_office.specs.declared.caller.Caller.{Caller};
ghost use Rattle.mf_model.specs.declared.request.LoanRequest.TheVariants.{Take};
ghost use Rattle.mf_model.specs.Sound.{IsLoanInRange};
ghost use Rattle.mf_desk.specs.Answers.{Asks, Decides, loan_there, loan_outcome};

use crate::decision::Decision;
use crate::entering::enter;
use crate::entries::Asked;
use crate::repaying::repay;
use crate::reversing::reverse;
use crate::stages::next_stage;
use crate::statements::{show_entries, show_instalments, show_sums};
use mf_base::Fault;
use mf_model::{Commit, InstitutionStore, Loan, LoanReply, LoanRequest, LoanStep, Reply};
use mf_office::{Account, Caller};
use std::alloc::Global;

/// A loan as it was submitted, and how far it has come; F4 where there is none.
pub fn find_loan<S: InstitutionStore>(
    alloc: Global,
    store: &mut S,
    loan: &Account,
) -> Result<Loan, Fault>
    ensures asks { Asks S.InstitutionStore (loan_there loan.now) store.old store.new result }
    ensures refusal { IfErr result (λ f. f ≢ Fault.F19) }
{
    store.loan(alloc, *loan)?.ok_or(Fault::F4)
}

/// A step of a loan on the business day.
fn take_step<S: InstitutionStore>(
    alloc: Global,
    store: &mut S,
    loan: Account,
    step: LoanStep,
) -> Result<Decision, Fault>
    ensures decides { (c : Caller) → Decides S.InstitutionStore (loan_outcome loan (Take step) c) store.old store.new
        result }
    ensures refusal { IfErr result (λ f. f ≢ Fault.F19) }
{
    let found = find_loan(alloc, store, &loan)?;
    let today = store.business_day(alloc)?;
    let stage = &next_stage(&step, today, &found.stage)?;
    let told = LoanReply::Status(stage.status());
    let commit = Commit::SetStage {
        loan,
        stage: *stage,
    };
    Ok(Decision::change(commit, Reply::Loan { loan, told }))
}

/// Decides a request on one loan of an office that the caller sees.
pub fn on_loan<S: InstitutionStore>(
    alloc: Global,
    store: &mut S,
    caller: Caller,
    loan: Account,
    asked: LoanRequest,
) -> Result<Decision, Fault>
    requires in_range { IsLoanInRange asked }
    ensures decides { Decides S.InstitutionStore (loan_outcome loan asked caller) store.old store.new result }
    ensures refusal { IfErr result (λ f. f ≢ Fault.F19) }
{
    match asked {
        LoanRequest::Show => show_sums(alloc, store, loan),
        LoanRequest::ShowInstalments => show_instalments(alloc, store, loan),
        LoanRequest::ShowEntries => show_entries(alloc, store, loan),
        LoanRequest::Take(step) => take_step(alloc, store, loan, step),
        LoanRequest::Repay(repayment) => repay(alloc, store, caller, loan, repayment),
        LoanRequest::ChargeFee { charge, due } => {
            let charge = store.charge(alloc, charge)?.ok_or(Fault::F4)?;
            enter(alloc, store, caller, loan, Asked::Fee { charge, due })
        }
        LoanRequest::Post(posting) => enter(alloc, store, caller, loan, Asked::Posting(posting)),
        LoanRequest::Reverse { entry } => reverse(alloc, store, loan, entry),
    }
}
