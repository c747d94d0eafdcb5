//! How a loan comes from one stage to the next, and who may have it take a step.

ghost use Rattle.std.specs.Prelude.{◌≡◌, ◌≢◌, ℕ, IfErr};
ghost use Rattle.mf_model.specs.Desk.{meets};
ghost use Rattle.mf_model.specs.Stages.{stage_of_disbursal, next_stage, step_need};

use crate::roles::{is_manager, is_officer};
use mf_base::{Day, Fault};
use mf_model::{LoanStep, PlainStep, Stage};
use mf_office::Role;

/// The stage of a loan that is disbursed on a day; F10 unless from the day of its approval to the business day.
fn disburse(approved: Day, day: Day, today: Day) -> Result<Stage, Fault>
    ensures value { result ≡ stage_of_disbursal approved day today }
    ensures refusal { IfErr result (λ f. f ≡ Fault.F10) }
{
    if approved <= day && day <= today {
        Ok(Stage::Disbursed { approved, day })
    } else {
        Err(Fault::F10)
    }
}

/// The stage after a step on a business day; F9 where the stage doesn't allow the step.
pub fn next_stage(step: &LoanStep, today: Day, stage: &Stage) -> Result<Stage, Fault>
    ensures value { result ≡ next_stage step.now today stage.now }
    ensures refusal { IfErr result (λ f. f ≢ Fault.F19) }
{
    match (step, stage) {
        (LoanStep::Plain(PlainStep::Approve), Stage::Submitted) => Ok(Stage::Approved(today)),
        (LoanStep::Plain(PlainStep::Reject), Stage::Submitted) => Ok(Stage::Rejected),
        (LoanStep::Plain(PlainStep::Withdraw), Stage::Submitted) => Ok(Stage::Withdrawn),
        (LoanStep::Plain(PlainStep::UndoApproval), Stage::Approved(_)) => Ok(Stage::Submitted),
        (LoanStep::Disburse(day), Stage::Approved(approved)) => disburse(*approved, *day, today),
        _ => Err(Fault::F9),
    }
}

/// Whether a member of staff may have a loan take a step, by role alone.
pub fn may_take(step: &LoanStep, role: Role) -> bool
    ensures { (office : ℕ) → result ≡ meets (step_need step.now) role office }
{
    match step {
        LoanStep::Plain(PlainStep::Withdraw) => is_officer(role),
        LoanStep::Plain(PlainStep::Approve | PlainStep::Reject | PlainStep::UndoApproval)
        | LoanStep::Disburse(_) => is_manager(role),
    }
}
