//! Laws of the bytes that runs write. Each function does nothing: its contract is the law.

ghost use Rattle.std.specs.Prelude.{◌≡◌, ℕ, Bool, List, [], ◌∷◌, Option, Some, map, take, slice_get};
ghost use Rattle.mf_base.specs.declared.fault.Fault.{Fault};
ghost use Rattle.mf_office.specs.declared.account.Account.{Account};
ghost use Rattle.mf_model.specs.declared.reply.Reply.{Reply};
ghost use Rattle.mf_model.specs.declared.request.LoanRequest.{LoanRequest};
ghost use Rattle.mf_model.specs.declared.request.Request.TheVariants as request;
ghost use Rattle.mf_model.specs.Institution.{Institution};
ghost use Rattle.mf_wire_messages.specs.Messages.{IsMessage, Message};
ghost use Rattle.mf_wire_replies.specs.Shown.{shown_line};
ghost use Rattle.mf_wire_requests.specs.Requests.{call_in};
ghost use Rattle.mf_wire.specs.Exchanges.{Exchange, ServesOn};
ghost use Rattle.mf_wire.specs.Runs.{RunsOn};
ghost use Rattle.mf_wire.specs.Serving.{call_of_message, shown_response};
ghost use Rattle.mf_headline.specs.Replays.{IsReading, TextOfReplay};

use mf_model::InstitutionStore;

/// What `run` writes for a request that shows a loan, its instalments or its entries is a refusal, or the text of the
/// replay: of the loan's entries before the run, with what the accepted requests of the lines before added and
/// reversed, over its fresh schedule. So every balance that is shown is that replay.
pub fn a_shown_balance_is_the_replay<S: InstitutionStore>()
    ensures { (i : Institution) (told : Bool) (lines texts : List (List ℕ)) (old new : S) →
        (ran : RunsOn S.InstitutionStore told i lines old texts new) →
        (place : ℕ) (line text : List ℕ) (loan : Account) (asked : LoanRequest) →
        slice_get lines place ≡ Some line → slice_get texts place ≡ Some text →
        (call_in told line).request ≡ request.Loan loan asked → IsReading asked →
        TextOfReplay shown_line loan asked (take place ran.run) i text }
{}

/// The same of the responses to messages that are served one after another.
pub fn a_served_balance_is_the_replay<S: InstitutionStore>()
    ensures { (i : Institution) (told : Bool) (exchanges : List Exchange) (old new : S) →
        (served : ServesOn S.InstitutionStore told i exchanges old new) →
        (place : ℕ) (exchange : Exchange) (message : Option Message) (to_head : Bool) (loan : Account)
        (asked : LoanRequest) →
        slice_get exchanges place ≡ Some exchange → IsMessage exchange.bytes message to_head →
        (call_of_message told message).request ≡ request.Loan loan asked → IsReading asked →
        TextOfReplay (shown_response to_head) loan asked (take place served.run) i exchange.text }
{}
