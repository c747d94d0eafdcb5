//! What the rows of loans stand for.

ghost use Rattle.std.specs.Prelude.{◌≡◌, ◌≢◌, ◌≤◌, ℕ, Some, IfSome, IfOk, IfErr};
ghost use Rattle.mf_base.specs.declared.fault.Fault.TheVariants.{F20};
ghost use Rattle.mf_base.specs.DayText.{day_text, last_day, last_entered_day};
ghost use Rattle.mf_office.specs.Numbers.{IsNumberUpTo};
ghost use Rattle.mf_model.specs.Sound.{IsStageBy};
ghost use Rattle.mf_model.specs.Stages.{disbursed_on};
ghost use Rattle.mf_model.specs.declared.loan.Loan.{Loan};
ghost use Rattle.mf_model.specs.declared.loan.Stage.{Stage};
ghost use Rattle.mf_store_schema.specs.Rows.{loan_row};
ghost use Rattle.mf_store_values.specs.Decoded.{IsStageTold, IsNoLoan};
ghost use Rattle.mf_store_values.specs.Flat.{loan_in};

use crate::offices::office_number;
use crate::values::{or_give_up, to_unsigned};
use mf_base::{Day, Fault, laws};
use mf_model::{Loan, Stage};
use mf_office::{Account, AccountNo};
use mf_store_schema::{LoanRow, Text, read_row};
use sqlite::Row;

/// The day of a text; F20 where it is that of none.
pub(crate) fn day_from(text: &Text) -> Result<Day, Fault>
    ensures day { IfOk result (λ day. (n : ℕ) → text.now ≡ day_text n → day ≡ n) }
    ensures none { IfErr result (λ _. (n : ℕ) → n ≤ last_day → text.now ≢ day_text n) }
    ensures gives_up { IfErr result (λ fault. fault ≡ F20) }
{
    laws::texts_of_days();
    match Day::read(text.as_str().as_bytes()) {
        Some(day) => Ok(day),
        None => Err(Fault::F20),
    }
}

/// The day of a text, where it is one that may be entered.
fn entered_day(text: &Text) -> Option<Day>
    ensures some { IfSome result (λ day. (day ≤ last_entered_day) × (day_text day ≡ text.now)) }
    ensures every { (day : ℕ) → day ≤ last_entered_day → day_text day ≡ text.now → result ≡ Some day }
{
    Day::parse(text.as_str().as_bytes())
}

/// The stage that a row's number of a stage and its days of approval and disbursement stand for, or None where they
/// stand for none.
pub fn stage_of(row: &LoanRow) -> Option<Stage>
    ensures some { IfSome result (λ stage. IsStageTold stage row.now) }
    ensures every { (today : ℕ) (stage : Stage) → today ≤ last_entered_day → IsStageBy today stage
        → IsStageTold stage row.now → result ≡ Some stage }
    ensures only { IfSome result (λ stage. (s : Stage) → IsStageTold s row.now → stage ≡ s) }
{
    match (row.stage, &row.approved, &row.disbursed) {
        (100, None, None) => Some(Stage::Submitted),
        (200, Some(approved), None) => Some(Stage::Approved(entered_day(approved)?)),
        (300, Some(approved), Some(disbursed)) => Some(Stage::Disbursed {
            approved: entered_day(approved)?,
            day: entered_day(disbursed)?,
        }),
        (400, None, None) => Some(Stage::Withdrawn),
        (500, None, None) => Some(Stage::Rejected),
        _ => None,
    }
}

/// The day on which the loan of a row was disbursed, if it was.
pub fn disbursal_day(row: &LoanRow) -> Option<Day>
    ensures { (today office number : ℕ) (l : Loan) → today ≤ last_entered_day → IsStageBy today l.stage →
        loan_in office number l ≡ row.now → result ≡ disbursed_on l.stage }
{
    match stage_of(row)? {
        Stage::Disbursed { day, .. } => Some(day),
        _ => None,
    }
}

/// The number of a client or a loan that a row keeps. F20 where it is none, which no number in the tables is.
pub(crate) fn account_number(number: u32) -> Result<AccountNo, Fault>
    ensures number { IfOk result (λ n. n ≡ number) }
    ensures none { IfErr result (λ _. ¬ IsNumberUpTo 999999 number) }
    ensures gives_up { IfErr result (λ fault. fault ≡ F20) }
{
    match AccountNo::new(number) {
        Some(number) => Ok(number),
        None => Err(Fault::F20),
    }
}

/// The loan of a row; F20 where it is that of none.
pub fn loan_from(row: LoanRow) -> Result<Loan, Fault>
    ensures loan { IfOk result (λ loan. (office number : ℕ) (l : Loan) → row ≡ loan_in office number l
        → loan ≡ l) }
    ensures none { IfErr result (λ _. IsNoLoan row) }
    ensures gives_up { IfErr result (λ fault. fault ≡ F20) }
{
    let client = account_number(row.client)?;
    let principal = to_unsigned(row.principal)?;
    let stage = or_give_up(stage_of(&row))?;
    Ok(Loan {
        client,
        product: row.product,
        principal,
        periods: row.periods,
        stage,
    })
}

/// The loan of a row as the tables give it, with its number.
pub fn loan_in_row(row: &Row) -> Result<(Account, Loan), Fault>
    ensures loan { IfOk result (λ found. (office number : ℕ) (l : Loan) → row.now ≡ loan_row
        (loan_in office number l) → (found.0 ≡ record { office = office; number = number }) × (found.1 ≡ l)) }
    ensures gives_up { IfErr result (λ fault. fault ≡ F20) }
{
    let found = read_row::<LoanRow>(row)?;
    let office = office_number(found.office)?;
    let number = account_number(found.number)?;
    let loan = loan_from(found)?;
    Ok((Account { office, number }, loan))
}
