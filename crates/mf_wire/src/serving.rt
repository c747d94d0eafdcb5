//! HTTP messages over a store, one a stream.

ghost use Rattle.std.specs.Prelude.{◌≡◌, ◌≢◌, List, ℕ, [], false, None, Some, IfOk, IfErr, IfSome, OnOk, OnErr};
ghost use Rattle.std.specs.Prelude.{option_map};
ghost use Rattle.std.specs.Io.KnownBytes.{Appends};
ghost use Rattle.mf_base.specs.declared.fault.Cause.TheVariants as cause;
ghost use Rattle.mf_wire_messages.specs.Arrivals.{TellsArrival};
ghost use Rattle.mf_wire_messages.specs.Messages.{is_head};
ghost use Rattle.mf_wire_messages.specs.Responses.{IsCut};
ghost use Rattle.mf_wire.specs.Runs.{Calls};
ghost use Rattle.mf_wire.specs.Serving.{call_of_message, shown_response, text_response, AnswersMessage, EndsMessage};
ghost use Rattle.mf_wire.specs.Serving.{parts_of_message, told_parts_of, message_parts};
ghost use Rattle.mf_wire_lines.specs.Streams.{stream_of, streams_of};
ghost use Rattle.mf_wire_replies.specs.Shown.{IsReplyText};
ghost use Rattle.mf_wire_requests.specs.RequestLine.{parts_now};

use crate::answering::{Desk, answer_text_parts};
use mf_base::{Cause, Fault, StreamFault};
use mf_model::InstitutionStore;
use mf_wire_lines::{Sink, Source, WriteFault, may_be_told};
use mf_wire_messages::{Arrival, Message, read_message, response_room, write_refusal, write_reply};
use mf_wire_requests::{LineParts, fit_line};
use std::alloc::Global;

/// A response that is ready to be written: the status and the body of a success, or a refusal.
#[derive(Drop)]
pub struct Response {
    pub text: Result<(u16, String), Fault>,
    /// Whether it answers HEAD: its body is left off then.
    pub to_head: bool,
}

/// The parts of a message, of which this is told.
fn parts_of_message<'m>(told: &'m [u8], message: &'m Message) -> LineParts<'m>
    ensures { parts_now result ≡ parts_of_message told.now message.now }
{
    LineParts {
        told,
        caller: message.staff(),
        method: message.method(),
        path: message.target(),
        body: message.body(),
    }
}

/// The parts of a message whose field X-Told is told of it. None where that stands more than once, or is longer than
/// 100 bytes or not printed ASCII, and where the parts would be too long for a request line.
fn told_parts_of(message: &Message) -> Option<LineParts<'_>>
    ensures { option_map parts_now result ≡ told_parts_of message.now }
{
    let told = message.told()?;
    let parts = parts_of_message(told, message);
    if may_be_told(told) && fit_line(&parts) {
        Some(parts)
    } else {
        None
    }
}

/// The parts of a message, of which something may be told or nothing is.
pub fn message_parts(told: bool, message: &Message) -> Option<LineParts<'_>>
    ensures { option_map parts_now result ≡ message_parts told message.now }
{
    if told {
        told_parts_of(message)
    } else {
        Some(parts_of_message([].as_slice(), message))
    }
}

/// The status and the body of the reply to a request that came in a message.
fn answer_message_text<S: InstitutionStore>(
    alloc: Global,
    desk: &Desk,
    store: &mut S,
    message: &Message,
) -> Result<(u16, String), Fault>
    ensures calls { Calls S.InstitutionStore (IsReplyText result) (call_of_message desk.now.told (Some message.now))
        store.old store.new }
    ensures refusal { IfErr result (λ f. f ≢ Fault.F19) }
{
    match message_parts(desk.told, message) {
        Some(parts) => answer_text_parts(alloc, &desk.routes, store, parts),
        None => Err(Fault::F1),
    }
}

/// Answers a request that came in a message.
pub fn answer_message<S: InstitutionStore>(
    alloc: Global,
    desk: &Desk,
    store: &mut S,
    message: &Message,
) -> Response
    ensures calls { Calls S.InstitutionStore (λ r. text_response result.to_head result.text
        ≡ shown_response result.to_head r) (call_of_message desk.now.told (Some message.now)) store.old store.new }
    ensures to_head { result.to_head ≡ is_head message.now.method }
    ensures refusal { IfErr result.text (λ f. f ≢ Fault.F19) }
{
    Response {
        text: answer_message_text(alloc, desk, store, message),
        to_head: message.is_head(),
    }
}

/// Answers what has arrived. What is malformed is refused, and so is a request for whose body there was no room, and
/// neither is looked up. To a stream that ended before any byte there is no response.
fn answer_arrival<S: InstitutionStore>(
    alloc: Global,
    desk: &Desk,
    store: &mut S,
    arrival: Arrival,
) -> Option<Response>
    ensures silent { result ≡ None → (store.new ≡ store.old)
        × ((bytes : List ℕ) → TellsArrival bytes arrival → bytes ≡ []) }
    ensures answered { IfSome result (λ response. (bytes : List ℕ) → TellsArrival bytes arrival →
        AnswersMessage S.InstitutionStore desk.now.told bytes store.old
        (text_response response.to_head response.text) store.new) }
    ensures refusal { IfSome result (λ response. IfErr response.text (λ f. f ≢ Fault.F19)) }
{
    match arrival {
        Arrival::Silent => None,
        Arrival::Received(message) => Some(answer_message(alloc, desk, store, &message)),
        Arrival::Malformed { to_head } => Some(Response {
            text: Err(Fault::F1),
            to_head,
        }),
        Arrival::NoRoom { to_head } => Some(Response {
            text: Err(Fault::F20),
            to_head,
        }),
    }
}

/// Writes a response, or a beginning of it. It takes no memory: the response is gathered in the room that is there.
pub fn put_response<W: Sink>(
    sink: &mut W,
    room: &mut [u8],
    response: &Response,
) -> Result<(), WriteFault>
    requires { IfErr response.now.text (λ f. f ≢ Fault.F19) }
    ensures ok { OnOk result (Appends (W.written sink.old) (W.written sink.new)
        (text_response response.now.to_head response.now.text)) }
    ensures err { OnErr result (IsCut (W.written sink.old) (W.written sink.new)
        (text_response response.now.to_head response.now.text)) }
    ensures sound { OnOk result (W.faults sink.new ≡ W.faults sink.old) }
    ensures fault { OnErr result (W.faults sink.new ≢ W.faults sink.old) }
{
    match &response.text {
        Ok((status, body)) => {
            write_reply(sink, room, *status, body.as_bytes(), response.to_head)
        }
        Err(fault) => write_refusal(sink, room, *fault, response.to_head),
    }
}

/// Answers the one HTTP message of a stream over a store, and writes its response. It gives whether there was one: a
/// stream that ends before any byte gets no response. Bytes past the message are not looked at.
///
/// A message is its head, which is what `httparse` reads in at most 16,384 bytes and 64 fields, and its body. The head
/// names the staff who ask once, in `X-Staff`, at most once the length of the body, which is at most 1,048,576 bytes,
/// and no transfer coding. The reply is that of `answer_text` on the staff, the method, the target and the body. A
/// message that is anything else, or is cut, is refused as malformed, and one for whose body there is no room is F20.
/// To HEAD the body of the reply is left off, where the head was read.
///
/// Where something is told to the desk, the field `X-Told` tells of the message what a journal notes with it: at most
/// 100 bytes, each a space or another printed character of ASCII, or nothing. With two such fields, with another value,
/// and where the message would be too long for a request line, it is refused as malformed.
///
/// The rooms for the head and for the response are made first: where one can't be, `Memory` is reported, and nothing is
/// read, answered or written. After `Read` nothing was answered or written. After `Write` the message was answered, and
/// a beginning of its response was written. `Read` and `Write` are reported only where the reader or the writer failed
/// in this call.
pub fn serve_one<S: InstitutionStore, R: Source, W: Sink>(
    alloc: Global,
    desk: &Desk,
    store: &mut S,
    source: &mut R,
    sink: &mut W,
) -> Result<bool, StreamFault>
    ensures ends { EndsMessage (AnswersMessage S.InstitutionStore desk.now.told) store.old store.new
        (streams_of (stream_of R.unread R.faults source.old source.new)
        (stream_of W.written W.faults sink.old sink.new)) result }
    ensures silent { IfOk result (λ served. served ≡ false → sink.new ≡ sink.old) }
    ensures unwritten { IfErr result (λ f. f.cause ≢ cause.Write → sink.new ≡ sink.old) }
    ensures memory { IfErr result (λ f. f.cause ≡ cause.Memory → source.new ≡ source.old) }
{
    let Ok(mut room) = response_room(alloc) else {
        return Err(StreamFault {
            answered: 0,
            cause: Cause::Memory,
        });
    };
    let arrival = read_message(alloc, source)?;
    let Some(response) = answer_arrival(alloc, desk, store, arrival) else {
        return Ok(false);
    };
    match put_response(sink, room.as_mut_slice(), &response) {
        Ok(()) => Ok(true),
        Err(WriteFault) => Err(StreamFault {
            answered: 0,
            cause: Cause::Write,
        }),
    }
}
