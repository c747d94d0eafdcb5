//! Laws of whole runs and of single messages, in bytes. Each function does nothing: its contract is the law.

ghost use Rattle.std.specs.Prelude.{◌≡◌, ◌≢◌, ℕ, Bool, List, [], Result, Err, Some, true};
ghost use Rattle.std.specs.List.{AllByRecursion, concat};
ghost use Rattle.mf_office.specs.declared.account.Account.{Account};
ghost use Rattle.mf_office.specs.declared.caller.Caller.{Caller};
ghost use Rattle.mf_model.specs.Calls.{Received, Call, bare};
ghost use Rattle.mf_model.specs.declared.request.Flaw.{Flaw};
ghost use Rattle.mf_model.specs.declared.request.Request.TheVariants.{Unreadable};
ghost use Rattle.mf_model.specs.declared.reply.Reply.{Reply};
ghost use Rattle.mf_model.specs.Institution.{Institution};
ghost use Rattle.mf_model.specs.Desk.{reply};
ghost use Rattle.mf_model.specs.Tree.{view};
ghost use Rattle.mf_model.specs.Run.{Line, Alike};
ghost use Rattle.mf_model.specs.Unseen.{Asked, IsUnseen, asked_of, call_from};
ghost use Rattle.mf_wire_messages.specs.Messages.{is_head, Message};
ghost use Rattle.mf_wire_messages.specs.Responses.{refusal};
ghost use Rattle.mf_wire_replies.specs.Shown.{shown_line, IsReplyText};
ghost use Rattle.mf_wire_requests.specs.RequestLine.{Parts, with_told, fit_line, line_of_parts};
ghost use Rattle.mf_wire_requests.specs.Requests.{call_in, call_of, call_of_parts};
ghost use Rattle.mf_wire.specs.Agreeing.{Agree};
ghost use Rattle.mf_wire.specs.Exchanges.{Exchange, AnswersAll, ServesOn};
ghost use Rattle.mf_wire.specs.OneCall.{IsIsolatedCall};
ghost use Rattle.mf_wire.specs.Runs.{RunsOn, Calls, texts_of, lines_in};
ghost use Rattle.mf_wire.specs.Senders.{IsOneLine, HasNoSpace};
ghost use Rattle.mf_wire.specs.Serving.{AnswersMessage, call_of_message, shown_response, text_response};

use mf_base::Fault;
use mf_model::{InstitutionStore, laws};

/// The text of each reply ends with its only line feed. So the bytes that a run writes determine its texts: two lists
/// of such texts that make the same bytes are the same.
pub fn texts_are_lines()
    ensures one_line { (r : Result Reply Fault) → IsOneLine (shown_line r) }
    ensures of_run { (run : List Line) (i : Institution) → AllByRecursion IsOneLine (texts_of run i) }
    ensures determined { (texts others : List (List ℕ)) → AllByRecursion IsOneLine texts
        → AllByRecursion IsOneLine others →
        concat texts ≡ concat others → texts ≡ others }
{}

/// Two institutions agreeing answer alike. Take what `run` says of two streams, over stores of any two types: where
/// the two institutions agree on what all share and on the rows of the offices at or below an office, and where what
/// touches that office is the same in both runs, its callers are told the same bytes, each member of staff for
/// themselves too, and the two agree on those rows afterwards, whatever else they hold and whatever else happens.
pub fn two_runs_agree<S: InstitutionStore, T: InstitutionStore>()
    ensures { (o : ℕ) (i j : Institution) (told also : Bool) (lines texts others replies : List (List ℕ)) (old new : S)
        (before after : T) →
        (run : RunsOn S.InstitutionStore told i lines old texts new)
        (other : RunsOn T.InstitutionStore also j others before replies after) →
        Alike o i j run.run other.run → Agree o
        (record { institution = i; run = run.run; lines = lines_in told lines; texts = texts })
        (record { institution = j; run = other.run; lines = lines_in also others; texts = replies }) }
{}

/// A line that asks for a client or a loan which its sender may not see gets the same text as one that asks for one
/// that isn't there, and a message the same response.
pub fn hidden_and_missing_read_alike()
    ensures lines { (asked : Asked) (a b : Account) (c : Caller) (r s : Received) (i : Institution)
        (told : Bool) (line other : List ℕ) → IsUnseen c asked a i → IsUnseen c asked b i
        → call_in told line ≡ call_from c (asked_of asked a) r → call_in told other ≡ call_from c (asked_of asked b) s →
        shown_line (reply (call_in told line) i) ≡ shown_line (reply (call_in told other) i) }
    ensures messages { (asked : Asked) (a b : Account) (c : Caller) (r s : Received) (i : Institution)
        (told : Bool) (message other : Message) (to_head : Bool) →
        IsUnseen c asked a i → IsUnseen c asked b i
        → call_of_message told (Some message) ≡ call_from c (asked_of asked a) r
        → call_of_message told (Some other) ≡ call_from c (asked_of asked b) s →
        shown_response to_head (reply (call_of_message told (Some message)) i) ≡ shown_response to_head
        (reply (call_of_message told (Some other)) i) }
{
    laws::hidden_is_missing();
}

/// A message is isolated. Take what `serve_one` says of it: its caller is told the reply of what their office sees,
/// whatever else the institution holds, or F20. What an office sees afterwards is what the call, where it touches the
/// office, makes of what it saw.
pub fn one_message_is_isolated<S: InstitutionStore>()
    ensures { (i : Institution) (told : Bool) (bytes text : List ℕ) (old new : S) →
        (served : AnswersMessage S.InstitutionStore told bytes old text new) → S.clean new → S.stands old i →
        IsIsolatedCall S.stands (λ r. text ≡ shown_response served.to_head r) (call_of_message told served.message) i
        new }
{
    laws::isolation();
}

/// The same of what `answer_text` has answered.
pub fn one_text_is_isolated<S: InstitutionStore>(answered: &Result<(u16, String), Fault>)
    ensures { (i : Institution) (call : Call) (old new : S) →
        Calls S.InstitutionStore (IsReplyText answered.now) call old new → S.clean new → S.stands old i →
        IsIsolatedCall S.stands (IsReplyText answered.now) call i new }
{
    laws::isolation();
}

/// Messages that are answered one after another, as a server answers them, are a run: what each office sees in the end
/// is its touching list played on what it saw first, and its callers are told by their responses what that play
/// answers.
pub fn served_messages_are_isolated<S: InstitutionStore>()
    ensures { (i : Institution) (told : Bool) (exchanges : List Exchange) (old new : S) →
        AnswersAll S.InstitutionStore told old exchanges new → S.clean new → S.stands old i
        → ServesOn S.InstitutionStore told i exchanges old new }
{
    laws::isolation();
}

/// Two stores, of any two types, whose institutions the caller's office sees alike answer the same message by the same
/// bytes, whatever else they hold, unless one gives up.
pub fn two_messages_agree<S: InstitutionStore, T: InstitutionStore>()
    ensures { (c : Caller) (i j : Institution) (told : Bool) (bytes text other : List ℕ) (old new : S)
        (before after : T) →
        (one : AnswersMessage S.InstitutionStore told bytes old text new)
        → AnswersMessage T.InstitutionStore told bytes before other after →
        S.clean new → S.stands old i → T.clean after → T.stands before j →
        (call_of_message told one.message).caller ≡ Some c → view c.office i ≡ view c.office j →
        text ≢ refusal Fault.F20 one.to_head → other ≢ refusal Fault.F20 one.to_head → text ≡ other }
{
    laws::isolation();
}

/// So a message is answered by the status and the body that `answer_text` gives to its staff, method, target and body,
/// and whatever was told of either call.
pub fn messages_and_texts_agree<S: InstitutionStore, T: InstitutionStore>(
    answered: &Result<(u16, String), Fault>,
)
    ensures { (c : Caller) (i j : Institution) (told : Bool) (bytes text : List ℕ) (call : Call) (old new : S)
        (before after : T) →
        (one : AnswersMessage S.InstitutionStore told bytes old text new) →
        Calls T.InstitutionStore (IsReplyText answered.now) call before after →
        bare call ≡ bare (call_of_message told one.message) →
        S.clean new → S.stands old i → T.clean after → T.stands before j →
        (call_of_message told one.message).caller ≡ Some c → view c.office i ≡ view c.office j →
        text ≢ refusal Fault.F20 one.to_head → answered.now ≢ Err Fault.F20
        → text ≡ text_response one.to_head answered.now }
{
    laws::isolation();
}

/// A request whose parts make no line that is too long is asked by that line too, if no part but its body has a space.
/// So each message of which something may be told can be sent as a request line, unless its body has a line feed.
pub fn parts_make_their_line()
    ensures { (parts : Parts) → HasNoSpace parts.caller → HasNoSpace parts.method → HasNoSpace parts.path →
        fit_line parts ≡ true → call_of (line_of_parts parts) ≡ call_of_parts (with_told [] parts) }
{}

/// HEAD is a method of no route: a message to it is refused as malformed, for want of a route or for its method.
pub fn head_is_refused()
    ensures { (told : Bool) (message : Message) → is_head message.method ≡ true → (flaw : Flaw)
        × ((call_of_message told (Some message)).request ≡ Unreadable flaw) }
{}
