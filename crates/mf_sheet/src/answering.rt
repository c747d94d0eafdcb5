//! A line of a sheet, answered over a store.

ghost use Rattle.std.specs.Prelude.{◌≡◌, IfOk, IfErr};
ghost use Rattle.mf_model.specs.Sound.{IsInRange};
ghost use Rattle.mf_desk.specs.Runs.{Calls};
ghost use Rattle.mf_sheet_lines.specs.Lines.{IsLineInRange};
ghost use Rattle.mf_model.specs.Notes.{received_now};
ghost use Rattle.mf_sheet.specs.Lines.{request_of_line, received_of_line, result_of_success, call_of_line, result_of};
ghost use Rattle.mf_sheet.specs.Lines.{outcome_of};

use mf_base::Fault;
use mf_desk::answer;
use mf_model::{
    Flaw, InstitutionStore, LoanReply, LoanRequest, ReceivedText, Repayment, RepaymentText, Reply,
    Request, RequestText,
};
use mf_office::Caller;
use mf_sheet_lines::{SheetLine, SheetResult};
use std::alloc::{AllocError, Global};

/// What a line asks of the desk. A bad line reads as no request. It fails only when out of memory.
fn request_of(line: &SheetLine) -> Result<Request, AllocError>
    ensures value { IfOk result (λ request. request ≡ request_of_line line.now) }
    ensures in_range { IsLineInRange line.now → IfOk result IsInRange }
{
    match line {
        SheetLine::Bad => Ok(Request::Unreadable(Flaw::Malformed)),
        SheetLine::Repay(repayment) => Ok(Request::Loan {
            loan: repayment.loan,
            asked: LoanRequest::Repay(Repayment {
                amount: repayment.amount,
                day: repayment.day,
                receipt: Some(repayment.receipt.clone()?),
            }),
        }),
    }
}

/// The text of a line, of which this is told: that of its repayment, sent as a request.
fn text_of<'a>(told: &'a [u8], line: &'a SheetLine) -> RequestText<'a>
    ensures { received_now result ≡ received_of_line told.now line.now }
{
    match line {
        SheetLine::Bad => RequestText::Received(ReceivedText {
            told: [].as_slice(),
            method: [].as_slice(),
            path: [].as_slice(),
            body: [].as_slice(),
        }),
        SheetLine::Repay(repayment) => RequestText::Repayment(RepaymentText {
            told,
            loan: repayment.loan,
            amount: repayment.amount,
            day: repayment.day,
            receipt: &repayment.receipt,
        }),
    }
}

/// The result that a success is reported as.
fn result_of(reply: &Reply) -> SheetResult
    ensures { result ≡ result_of_success reply.now }
{
    match reply {
        Reply::Loan {
            loan: _,
            told: LoanReply::Repeated(_),
        } => SheetResult::Repeated,
        _ => SheetResult::Entered,
    }
}

/// The result of a line, or its refusal.
fn result_of_line<S: InstitutionStore>(
    alloc: Global,
    store: &mut S,
    told: &[u8],
    caller: Caller,
    line: &SheetLine,
) -> Result<SheetResult, Fault>
    requires { IsLineInRange line.now }
    ensures { Calls S.InstitutionStore (λ r. outcome_of result ≡ result_of r)
        (call_of_line told.now caller line.now) store.old
        store.new }
{
    let Ok(request) = request_of(line) else {
        return Err(Fault::F20);
    };
    answer(
        alloc,
        store,
        caller,
        request,
        &text_of(told, line),
        |reply: &Reply| -> Result<SheetResult, Fault>
            ensures ok { IfOk result (λ s. s ≡ result_of_success reply.now) }
            ensures err { IfErr result (λ f. f ≡ Fault.F20) }
        { Ok(result_of(reply)) },
    )
}

fn outcome(answered: Result<SheetResult, Fault>) -> SheetResult
    ensures { result ≡ outcome_of answered }
{
    match answered {
        Ok(told) => told,
        Err(fault) => SheetResult::Refused(fault),
    }
}

/// Answers a line of a sheet, which somebody sends, as a repayment. A bad line is refused as malformed before its
/// sender is looked at. A refusal changes nothing. A journal notes what is told with the repayment.
pub fn answer_line<S: InstitutionStore>(
    alloc: Global,
    store: &mut S,
    told: &[u8],
    caller: Caller,
    line: SheetLine,
) -> SheetResult
    requires { IsLineInRange line }
    ensures { Calls S.InstitutionStore (λ r. result ≡ result_of r)
        (call_of_line told.now caller line) store.old store.new }
{
    outcome(result_of_line(alloc, store, told, caller, &line))
}
