//! The rows of loans, with their stages.

ghost use Rattle.std.specs.Prelude.{◌≡◌, Option, Some, IfOk, IfErr};
ghost use Rattle.mf_base.specs.declared.fault.Fault.TheVariants.{F20};
ghost use Rattle.mf_base.specs.DayText.{day_text};
ghost use Rattle.mf_store_values.specs.Flat.{loan_in, approval_text, disbursal_text};

use mf_base::{Day, Fault};
use mf_model::{Loan, Stage};
use mf_store_schema::{LoanRow, Text};
use mf_store_values::to_signed;
use std::alloc::Global;

/// The text of a day.
pub(crate) fn text_of_day(alloc: Global, day: Day) -> Result<Text, Fault>
    ensures text { IfOk result (λ text. text ≡ day_text day) }
    ensures gives_up { IfErr result (λ fault. fault ≡ F20) }
{
    Ok(Text::new(day.text(alloc)?))
}

/// The text of the day on which a loan was approved, where it stands approved or is disbursed.
fn approval(alloc: Global, stage: Stage) -> Result<Option<Text>, Fault>
    ensures text { IfOk result (λ text. text ≡ approval_text stage) }
    ensures gives_up { IfErr result (λ fault. fault ≡ F20) }
{
    match stage {
        Stage::Approved(day) => Ok(Some(text_of_day(alloc, day)?)),
        Stage::Disbursed { approved, .. } => Ok(Some(text_of_day(alloc, approved)?)),
        _ => Ok(None),
    }
}

/// The text of the day on which a loan was disbursed.
fn disbursal(alloc: Global, stage: Stage) -> Result<Option<Text>, Fault>
    ensures text { IfOk result (λ text. text ≡ disbursal_text stage) }
    ensures gives_up { IfErr result (λ fault. fault ≡ F20) }
{
    match stage {
        Stage::Disbursed { day, .. } => Ok(Some(text_of_day(alloc, day)?)),
        _ => Ok(None),
    }
}

/// The row of a loan.
pub fn loan_row(alloc: Global, office: u32, number: u32, loan: Loan) -> Result<LoanRow, Fault>
    ensures row { IfOk result (λ row. row ≡ loan_in office number loan) }
    ensures gives_up { IfErr result (λ fault. fault ≡ F20) }
{
    let principal = to_signed(loan.principal)?;
    let approved = approval(alloc, loan.stage)?;
    let disbursed = disbursal(alloc, loan.stage)?;
    Ok(LoanRow {
        office,
        number,
        client: loan.client.get(),
        product: loan.product,
        principal,
        periods: loan.periods,
        stage: loan.stage.status() as u32,
        approved,
        disbursed,
    })
}

/// A loan, brought to a stage.
pub fn with_stage(loan: &Loan, stage: Stage) -> Loan
    ensures { result ≡ record loan.now { stage = stage } }
{
    Loan {
        client: loan.client,
        product: loan.product,
        principal: loan.principal,
        periods: loan.periods,
        stage,
    }
}
