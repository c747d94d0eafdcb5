//! Laws of the results of a sheet's lines. Each function does nothing: its contract is the law.

ghost use Rattle.std.specs.Prelude.{◌≡◌, ℕ, List, None, Ok};
ghost use Rattle.mf_office.specs.declared.caller.Caller.{Caller};
ghost use Rattle.mf_model.specs.Institution.{Institution};
ghost use Rattle.mf_model.specs.Desk.{outcome, reply, staff_at};
ghost use Rattle.mf_model.specs.Run.{Line, last, next};
ghost use Rattle.mf_model.specs.Answering.{line_answered};
ghost use Rattle.mf_model.specs.Sound.{AreInRange, IsInRange, IsSound};
ghost use Rattle.mf_model.specs.declared.reply.LoanReply.TheVariants as loan_reply;
ghost use Rattle.mf_model.specs.declared.reply.Reply.TheVariants as replied;
ghost use Rattle.mf_sheet_lines.specs.declared.line.SheetRepayment.{SheetRepayment};
ghost use Rattle.mf_sheet.specs.Lines.{request_of_line, call_of_line, result_of};
ghost use Rattle.mf_sheet.specs.Runs.{NoResultIsF20, RunsRows};
ghost use Rattle.mf_sheet.specs.Ends.{SheetStreams, EndsWhole};
ghost use Rattle.mf_sheet.specs.Again.{AreToldAgain, IsTaken, after_sheet, results_on};

use mf_base::Fault;
use mf_model::InstitutionStore;
use mf_sheet_lines::{SheetLine, SheetResult};

/// A bad line is F1 whoever sends it; a repayment that nobody known sends is F2.
pub fn refused_by_sender()
    ensures bad { (told : List ℕ) (c : Caller) (i : Institution) →
        result_of (reply (call_of_line told c SheetLine.Bad) i) ≡ SheetResult.Refused Fault.F1 }
    ensures unknown { (told : List ℕ) (c : Caller) (i : Institution) (r : SheetRepayment) → staff_at i c ≡ None →
        result_of (reply (call_of_line told c (SheetLine.Repay r)) i) ≡ SheetResult.Refused Fault.F2 }
{}

/// A repayment with a receipt that was accepted once, as a line of a sheet or as a request, is told the same entry's
/// number as a repeat when the same caller sends it again, and changes nothing, whatever lines lie between and whatever
/// is told of it.
pub fn accepted_once()
    ensures { (told also : List ℕ) (c : Caller) (r : SheetRepayment) (seq : ℕ) (i : Institution) (lines : List Line) →
        IsSound i → IsInRange (request_of_line (SheetLine.Repay r)) → AreInRange lines →
        IsTaken r.loan seq (reply (call_of_line told c (SheetLine.Repay r)) i) →
        outcome (call_of_line also c (SheetLine.Repay r))
        (last lines (next (line_answered (call_of_line told c (SheetLine.Repay r))) i))
        ≡ Ok (replied.Loan r.loan (loan_reply.Repeated seq), None) }
{}

/// A sheet that the same caller sends twice in a row acts once: the second run leaves the institution as the first left
/// it, whatever is told of either. What was entered is repeated then, what was repeated is repeated again, and what was
/// refused is refused.
pub fn twice_acts_once()
    ensures institution { (told also : List ℕ) (c : Caller) (rows : List (List (List ℕ))) (i : Institution) →
        after_sheet also c rows (after_sheet told c rows i) ≡ after_sheet told c rows i }
    ensures results { (told also : List ℕ) (c : Caller) (rows : List (List (List ℕ))) (i : Institution) →
        AreToldAgain (results_on told c rows i) (results_on also c rows (after_sheet told c rows i)) }
{}

/// The same of what `collect` says, over any store: where one sheet was collected twice in a row to its end, and no
/// result is F20, the store stands for the institution that one run leaves.
pub fn collected_twice<S: InstitutionStore>()
    ensures { (told also : List ℕ) (c : Caller) (old mid new : S) (first second : SheetStreams) → second.rows
        ≡ first.rows →
        (one : EndsWhole (RunsRows S.InstitutionStore told c) old mid first) →
        (two : EndsWhole (RunsRows S.InstitutionStore also c) mid new second) →
        NoResultIsF20 one.results → NoResultIsF20 two.results → S.clean new → (i : Institution) → S.stands old i →
        S.stands new (after_sheet told c first.rows i) × AreToldAgain one.results two.results }
{}
