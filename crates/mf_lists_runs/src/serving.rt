//! HTTP messages over a store, one a stream, where lists may be asked for or may not.

ghost use Rattle.std.specs.Prelude.{◌≡◌, ◌≢◌, ◌⊎◌, Bool, List, ℕ, [], false, true, None, Some, is_some, IfOk, IfErr};
ghost use Rattle.std.specs.Prelude.{IfSome};
ghost use Rattle.mf_base.specs.declared.fault.Cause.TheVariants as cause;
ghost use Rattle.mf_lists_runs.specs.Choice.{asks_list, choice_if, list_response, told_response};
ghost use Rattle.mf_lists_runs.specs.Runs.{CallsWith};
ghost use Rattle.mf_lists_runs.specs.Serving.{ListsAnswerMessage};
ghost use Rattle.mf_office.specs.Texts.{caller_of};
ghost use Rattle.mf_wire_lines.specs.Streams.{stream_of, streams_of};
ghost use Rattle.mf_wire_messages.specs.Arrivals.{TellsArrival};
ghost use Rattle.mf_wire_messages.specs.Messages.{is_head};
ghost use Rattle.mf_wire_messages.specs.Responses.{refusal};
ghost use Rattle.mf_wire_requests.specs.RequestLine.{parts_now};
ghost use Rattle.mf_wire_requests.specs.Requests.{call_of_parts};
ghost use Rattle.mf_wire.specs.Serving.{call_of_message, message_parts, text_response, EndsMessage};

use crate::answering::{ListDesk, answer_list, list_caller};
use mf_base::{Cause, Fault, StreamFault};
use mf_lists::ListAnswer;
use mf_lists_desk::Lists;
use mf_lists_replies::list_text;
use mf_model::InstitutionStore;
use mf_office::Caller;
use mf_wire::{Response, answer_message, message_parts, put_response};
use mf_wire_lines::{Sink, Source, WriteFault};
use mf_wire_messages::{Arrival, Message, read_message, response_room};
use mf_wire_requests::LineParts;
use std::alloc::Global;

/// The HTTP status of a list.
const SHOWN: u16 = 200;

/// The status and the body of what the lists told, or F20 where there is no memory for them.
fn text_of_list(alloc: Global, told: Result<ListAnswer, Fault>) -> Result<(u16, String), Fault>
    ensures text { (to_head : Bool) → (text_response to_head result ≡ list_response to_head told)
        ⊎ (text_response to_head result ≡ refusal Fault.F20 to_head) }
    ensures refusal { IfErr told (λ f. f ≢ Fault.F19) → IfErr result (λ f. f ≢ Fault.F19) }
{
    let answer = told?;
    let body = list_text(alloc, &answer)?;
    Ok((SHOWN, body))
}

/// The status and the body of the list that answers a request in its parts.
fn list_message_text<S: InstitutionStore, L: Lists<S>>(
    alloc: Global,
    lists: &L,
    store: &mut S,
    caller: Caller,
    parts: &LineParts<'_>,
) -> Result<(u16, String), Fault>
    ensures calls { (to_head : Bool) → asks_list (call_of_parts (parts_now parts.now)) ≡ true →
        caller_of parts.now.caller.now ≡ Some caller →
        CallsWith S.InstitutionStore (Some L.folded) (λ t. text_response to_head result ≡ told_response to_head t)
        (call_of_parts (parts_now parts.now)) store.old store.new }
    ensures refusal { IfErr result (λ f. f ≢ Fault.F19) }
{
    let told = answer_list(alloc, lists, store, caller, parts);
    text_of_list(alloc, told)
}

/// What tells the list that a message asks for, who asks, and the message's parts, where it asks for one.
fn asked_list<'m, L>(
    desk: &'m ListDesk<'_, L>,
    message: &'m Message,
) -> Option<(&'m L, Caller, LineParts<'m>)>
    ensures asked { IfSome result (λ a. (is_some desk.now.lists ≡ true)
        × (message_parts desk.now.desk.told message.now ≡ Some (parts_now a.2))
        × (asks_list (call_of_parts (parts_now a.2)) ≡ true) × (caller_of a.2.caller.now ≡ Some a.1)) }
    ensures not_asked { result ≡ None → is_some desk.now.lists ≡ true →
        asks_list (call_of_message desk.now.desk.told (Some message.now)) ≡ false }
{
    let lists = desk.lists?;
    let parts = message_parts(desk.desk.told, message)?;
    let caller = list_caller(&desk.desk.routes, &parts)?;
    Some((lists, caller, parts))
}

/// Answers a request that came in a message.
fn answer_listed_message<S: InstitutionStore, L: Lists<S>>(
    alloc: Global,
    desk: &ListDesk<'_, L>,
    store: &mut S,
    message: &Message,
) -> Response
    ensures calls { CallsWith S.InstitutionStore (choice_if L.folded (is_some desk.now.lists))
        (λ t. text_response result.to_head result.text ≡ told_response result.to_head t)
        (call_of_message desk.now.desk.told (Some message.now)) store.old store.new }
    ensures to_head { result.to_head ≡ is_head message.now.method }
    ensures refusal { IfErr result.text (λ f. f ≢ Fault.F19) }
{
    match asked_list(desk, message) {
        Some((lists, caller, parts)) => Response {
            text: list_message_text(alloc, lists, store, caller, &parts),
            to_head: message.is_head(),
        },
        None => answer_message(alloc, &desk.desk, store, message),
    }
}

/// Answers what has arrived, as `mf_wire` does; a message may be answered by a list.
fn answer_arrival<S: InstitutionStore, L: Lists<S>>(
    alloc: Global,
    desk: &ListDesk<'_, L>,
    store: &mut S,
    arrival: Arrival,
) -> Option<Response>
    ensures silent { result ≡ None → (store.new ≡ store.old)
        × ((bytes : List ℕ) → TellsArrival bytes arrival → bytes ≡ []) }
    ensures answered { IfSome result (λ response. (bytes : List ℕ) → TellsArrival bytes arrival →
        ListsAnswerMessage S.InstitutionStore (choice_if L.folded (is_some desk.now.lists)) desk.now.desk.told bytes
        store.old (text_response response.to_head response.text) store.new) }
    ensures refusal { IfSome result (λ response. IfErr response.text (λ f. f ≢ Fault.F19)) }
{
    match arrival {
        Arrival::Silent => None,
        Arrival::Received(message) => Some(answer_listed_message(alloc, desk, store, &message)),
        Arrival::Malformed { to_head } => Some(Response {
            text: Err(Fault::F1),
            to_head,
        }),
        Arrival::NoRoom { to_head } => Some(Response {
            text: Err(Fault::F20),
            to_head,
        }),
    }
}

/// Answers the one HTTP message of a stream over a store, and writes its response, as `mf_wire::serve_one` does. Where
/// there are lists, a request that has no route there and whose path begins with `/lists/` is answered by a list of
/// what the caller's office sees, and changes nothing.
///
/// Without lists each of these paths has no route. Its errors are those of `mf_wire::serve_one`.
pub fn serve_one<S: InstitutionStore, L: Lists<S>, R: Source, W: Sink>(
    alloc: Global,
    desk: &ListDesk<'_, L>,
    store: &mut S,
    source: &mut R,
    sink: &mut W,
) -> Result<bool, StreamFault>
    ensures ends { EndsMessage (ListsAnswerMessage S.InstitutionStore (choice_if L.folded (is_some desk.now.lists))
        desk.now.desk.told) store.old store.new (streams_of (stream_of R.unread R.faults source.old source.new)
        (stream_of W.written W.faults sink.old sink.new)) result }
    ensures silent { IfOk result (λ served. served ≡ false → sink.new ≡ sink.old) }
    ensures unwritten { IfErr result (λ f. f.cause ≢ cause.Write → sink.new ≡ sink.old) }
    ensures memory { IfErr result (λ f. f.cause ≡ cause.Memory → source.new ≡ source.old) }
{
    let Ok(mut room) = response_room(alloc) else {
        return Err(StreamFault {
            answered: 0,
            cause: Cause::Memory,
        });
    };
    let arrival = read_message(alloc, source)?;
    let Some(response) = answer_arrival(alloc, desk, store, arrival) else {
        return Ok(false);
    };
    match put_response(sink, room.as_mut_slice(), &response) {
        Ok(()) => Ok(true),
        Err(WriteFault) => Err(StreamFault {
            answered: 0,
            cause: Cause::Write,
        }),
    }
}
