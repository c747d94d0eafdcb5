//! What is asked of loans.

ghost use Rattle.std.specs.Prelude.{◌≡◌, ◌≤◌, codes, option_and_then, true, IfOk, IfErr, IfSome};
ghost use Rattle.serde_json.specs.View.{view};
ghost use Rattle.matchit.specs.Params.{AllText};
ghost use Rattle.mf_model.specs.Sound.{IsInRange, IsLoanInRange};
ghost use Rattle.mf_wire_requests.specs.Bodies.{json_of, has_text, optional_receipt_at, Copies, Gives, Reads};
ghost use Rattle.mf_wire_requests.specs.LoanRequests.{new_loan_request, disbursement_request};
ghost use Rattle.mf_wire_requests.specs.LoanRequests.{repayment_request, fee_request, instalment_at, loan_has_members};
ghost use Rattle.mf_wire_requests.specs.LoanRequests.{penalty_request, waiver_request, loan_request};
ghost use Rattle.mf_wire_requests.specs.LoanRequests.{request_on_loan, loans_request};
ghost use Rattle.mf_wire_requests.specs.PathParts.{parts_of_params};

use crate::body::{GREATEST_NUMBER, account, choice, day, json, long_number, number, receipt};
use crate::paths::{account as account_in_path, number as number_in_path};
use crate::routes::LoanEndpoint;
use matchit::Params;
use mf_base::Fault;
use mf_catalog::{GREATEST_AMOUNT, MOST_PERIODS};
use mf_model::{
    Application, LoanRequest, LoanStep, OfficeRequest, Posting, Repayment, Request, Waivable,
};
use mf_office::AccountNo;
use serde_json::Value;
use std::alloc::Global;

fn new_loan_request(body: &Value) -> Option<Request>
    ensures value { result ≡ new_loan_request (view body.now) }
    ensures in_range { IfSome result IsInRange }
{
    let client = account(body, "client")?;
    let product = number(body, "product", 0, GREATEST_NUMBER)?;
    let principal = long_number(body, "principal", 1, GREATEST_AMOUNT)?;
    let periods = number(body, "periods", 1, MOST_PERIODS)?;
    Some(Request::Office {
        office: client.office.get(),
        asked: OfficeRequest::SubmitLoan(Application {
            client: client.number,
            product,
            principal,
            periods,
        }),
    })
}

pub fn new_loan(alloc: Global, body: &[u8]) -> Result<Request, Fault>
    ensures value { Gives body.now (option_and_then new_loan_request (json_of body.now)) result }
    ensures in_range { IfOk result IsInRange }
{
    let body = json(alloc, body)?;
    new_loan_request(&body).ok_or(Fault::F1)
}

/// The day on which a loan is paid out.
fn disbursement_request(body: &Value) -> Option<LoanRequest>
    ensures value { result ≡ disbursement_request (view body.now) }
    ensures in_range { IfSome result IsLoanInRange }
{
    let paid_out = day(body, "day")?;
    Some(LoanRequest::Take(LoanStep::Disburse(paid_out)))
}

fn disbursement(alloc: Global, body: &[u8]) -> Result<LoanRequest, Fault>
    ensures value { Gives body.now (option_and_then disbursement_request (json_of body.now)) result }
    ensures in_range { IfOk result IsLoanInRange }
{
    let body = json(alloc, body)?;
    disbursement_request(&body).ok_or(Fault::F1)
}

/// A repayment, with its receipt where it has one, whose text alone takes memory.
fn repayment_request(alloc: Global, body: &Value) -> Result<LoanRequest, Fault>
    ensures value { Copies (repayment_request (view body.now)) result }
    ensures memory { IfErr result (λ f. f ≡ Fault.F20 →
        has_text (optional_receipt_at (codes "receipt") (view body.now)) ≡ true) }
    ensures in_range { IfOk result IsLoanInRange }
{
    let amount = long_number(body, "amount", 1, GREATEST_AMOUNT).ok_or(Fault::F1)?;
    let day = day(body, "day").ok_or(Fault::F1)?;
    let receipt = receipt(alloc, body, "receipt")?;
    Ok(LoanRequest::Repay(Repayment {
        amount,
        day,
        receipt,
    }))
}

fn repayment(alloc: Global, body: &[u8]) -> Result<LoanRequest, Fault>
    ensures value { Gives body.now (option_and_then repayment_request (json_of body.now)) result }
    ensures in_range { IfOk result IsLoanInRange }
{
    let body = json(alloc, body)?;
    repayment_request(alloc, &body)
}

/// A fee by a charge, for the instalment of a day.
fn fee_request(body: &Value) -> Option<LoanRequest>
    ensures value { result ≡ fee_request (view body.now) }
    ensures in_range { IfSome result IsLoanInRange }
{
    let charge = number(body, "charge", 0, GREATEST_NUMBER)?;
    let due = day(body, "due")?;
    Some(LoanRequest::ChargeFee { charge, due })
}

fn fee(alloc: Global, body: &[u8]) -> Result<LoanRequest, Fault>
    ensures value { Gives body.now (option_and_then fee_request (json_of body.now)) result }
    ensures in_range { IfOk result IsLoanInRange }
{
    let body = json(alloc, body)?;
    fee_request(&body).ok_or(Fault::F1)
}

/// The instalment that a body names, by its number.
fn instalment(body: &Value) -> Option<u32>
    ensures value { result ≡ instalment_at (view body.now) }
    ensures least { IfSome result (λ n. 1 ≤ n) }
    ensures greatest { IfSome result (λ n. n ≤ 999999999) }
{
    number(body, "instalment", 1, GREATEST_NUMBER)
}

/// The overdue charge on an instalment.
fn penalty_request(body: &Value) -> Option<LoanRequest>
    ensures value { result ≡ penalty_request (view body.now) }
    ensures in_range { IfSome result IsLoanInRange }
{
    let instalment = instalment(body)?;
    Some(LoanRequest::Post(Posting::Penalty { instalment }))
}

fn penalty(alloc: Global, body: &[u8]) -> Result<LoanRequest, Fault>
    ensures value { Gives body.now (option_and_then penalty_request (json_of body.now)) result }
    ensures in_range { IfOk result IsLoanInRange }
{
    let body = json(alloc, body)?;
    penalty_request(&body).ok_or(Fault::F1)
}

/// A portion of an instalment is waived.
fn waiver_request(body: &Value) -> Option<LoanRequest>
    ensures value { result ≡ waiver_request (view body.now) }
    ensures in_range { IfSome result IsLoanInRange }
{
    let instalment = instalment(body)?;
    let portion = choice::<Waivable>(body, "portion")?;
    Some(LoanRequest::Post(Posting::Waiver {
        instalment,
        portion,
    }))
}

fn waiver(alloc: Global, body: &[u8]) -> Result<LoanRequest, Fault>
    ensures value { Gives body.now (option_and_then waiver_request (json_of body.now)) result }
    ensures in_range { IfOk result IsLoanInRange }
{
    let body = json(alloc, body)?;
    waiver_request(&body).ok_or(Fault::F1)
}

/// What is asked of a loan. The body is read only where it has members.
fn loan_request(
    alloc: Global,
    endpoint: LoanEndpoint,
    params: &Params<'_, '_>,
    body: &[u8],
) -> Result<LoanRequest, Fault>
    requires { AllText (parts_of_params params.now) }
    ensures value { Gives body.now (loan_request endpoint (parts_of_params params.now) body.now) result }
    ensures memory { IfErr result (λ f. f ≡ Fault.F20 → loan_has_members endpoint ≡ true) }
    ensures in_range { IfOk result IsLoanInRange }
{
    match endpoint {
        LoanEndpoint::Show => Ok(LoanRequest::Show),
        LoanEndpoint::ShowInstalments => Ok(LoanRequest::ShowInstalments),
        LoanEndpoint::ShowEntries => Ok(LoanRequest::ShowEntries),
        LoanEndpoint::Step(step) => Ok(LoanRequest::Take(LoanStep::Plain(step))),
        LoanEndpoint::Disburse => disbursement(alloc, body),
        LoanEndpoint::Repay => repayment(alloc, body),
        LoanEndpoint::ChargeFee => fee(alloc, body),
        LoanEndpoint::ChargePenalty => penalty(alloc, body),
        LoanEndpoint::Waive => waiver(alloc, body),
        LoanEndpoint::WriteOff => Ok(LoanRequest::Post(Posting::WriteOff)),
        LoanEndpoint::Refund => Ok(LoanRequest::Post(Posting::Refund)),
        LoanEndpoint::Reverse => {
            let entry = number_in_path(params, "entry")?;
            Ok(LoanRequest::Reverse { entry })
        }
    }
}

/// What is asked of the loan that a path names.
pub fn on_loan(
    alloc: Global,
    endpoint: LoanEndpoint,
    params: &Params<'_, '_>,
    body: &[u8],
) -> Result<Request, Fault>
    requires { AllText (parts_of_params params.now) }
    ensures value { Gives body.now (request_on_loan endpoint (parts_of_params params.now) body.now) result }
    ensures memory { IfErr result (λ f. f ≡ Fault.F20 → loan_has_members endpoint ≡ true) }
    ensures in_range { IfOk result IsInRange }
{
    let loan = account_in_path(params, "loan")?;
    let asked = loan_request(alloc, endpoint, params, body)?;
    Ok(Request::Loan { loan, asked })
}

/// The office and the number of a loan, or 0, that a path names.
pub fn list_loans(params: &Params<'_, '_>) -> Result<Request, Fault>
    requires { AllText (parts_of_params params.now) }
    ensures value { Reads (loans_request (parts_of_params params.now)) result }
    ensures in_range { IfOk result IsInRange }
{
    let office = number_in_path(params, "office")?;
    let after = number_in_path(params, "after")?;
    if after > AccountNo::MAX {
        return Err(Fault::F1);
    }
    Ok(Request::Office {
        office,
        asked: OfficeRequest::ListLoans { after },
    })
}
