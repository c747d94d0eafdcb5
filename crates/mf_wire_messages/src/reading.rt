//! A message read from a stream.

ghost use Rattle.std.specs.Prelude.{◌≡◌, ◌≢◌, ◌≤◌, ◌++◌, List, ℕ, length, IfOk, IfErr, OnOk, OnErr};
ghost use Rattle.std.specs.Io.KnownBytes.{Consumes};
ghost use Rattle.httparse.specs.Spans.{IsRequestWithin, IsRequestOf};
ghost use Rattle.mf_base.specs.declared.fault.Cause.TheVariants as cause;
ghost use Rattle.mf_wire_messages.specs.Arrivals.{Arrives, TellsArrival, bytes_left};

use crate::bodies::read_body;
use crate::fields::{find_frame, find_told};
use crate::head::{HeadRead, LONGEST_HEAD, MOST_FIELDS, read_head};
use crate::messages::{Message, is_head};
use httparse::spans::{EMPTY_HEADER_SPAN, HeaderSpan, RequestSpans};
use mf_base::{Cause, StreamFault};
use mf_wire_lines::{ReadFault, Source};
use std::alloc::{AllocError, Global};

/// What a stream has for a message.
#[derive(Drop)]
pub enum Arrival {
    /// The stream ended before any byte.
    Silent,
    /// A request.
    Received(Message),
    /// No request: a head that is refused or cut, or a body that is cut. To HEAD where the head was read and says so.
    Malformed { to_head: bool },
    /// The body's room was refused.
    NoRoom { to_head: bool },
}

fn room(alloc: Global, size: usize) -> Result<Vec<u8>, AllocError>
    ensures { IfOk result (λ v. length v.items ≡ size) }
{
    vec![in alloc; 0; size]
}

/// Reads the body of the message whose head was read, with some bytes after it.
fn read_request<R: Source>(
    alloc: Global,
    source: &mut R,
    head: Vec<u8>,
    fields: &[HeaderSpan],
    spans: RequestSpans,
) -> Result<Arrival, ReadFault>
    requires short { length head.items ≤ 16384 }
    requires few { length fields.now ≤ 64 }
    requires within { IsRequestWithin head.items fields.now spans }
    requires complete { IsRequestOf head.items fields.now spans }
    ensures ok { IfOk result (λ arrival. (more : List ℕ) × Consumes (R.unread source.old) (R.unread source.new) more
        × TellsArrival (head.items ++ (more ++ bytes_left (R.unread source.new))) arrival) }
    ensures sound { OnOk result (R.faults source.new ≡ R.faults source.old) }
    ensures fault { OnErr result (R.faults source.new ≢ R.faults source.old) }
{
    let to_head = is_head(spans.method.of(&head));
    let Some(frame) = find_frame(&head, &fields[..spans.headers]) else {
        return Ok(Arrival::Malformed { to_head });
    };
    let Ok(mut body) = room(alloc, frame.length) else {
        return Ok(Arrival::NoRoom { to_head });
    };
    let Ok(whole) = read_body(source, &head[spans.len..], body.as_mut_slice()) else {
        return Err(ReadFault);
    };
    if !whole {
        return Ok(Arrival::Malformed { to_head });
    }
    let told = find_told(&head, &fields[..spans.headers]);
    let message = Message::new(head, told, frame.staff, spans.method, spans.path, body);
    Ok(Arrival::Received(message))
}

/// Reads one message. The room for its head is made first: where it can't be, nothing is read.
pub fn read_message<R: Source>(alloc: Global, source: &mut R) -> Result<Arrival, StreamFault>
    ensures ok { IfOk result (Arrives (R.unread source.old) (R.unread source.new)) }
    ensures sound { OnOk result (R.faults source.new ≡ R.faults source.old) }
    ensures answered { IfErr result (λ f. f.answered ≡ 0) }
    ensures read { IfErr result (λ f. f.cause ≡ cause.Read → R.faults source.new ≢ R.faults source.old) }
    ensures memory { IfErr result (λ f. f.cause ≡ cause.Memory → source.new ≡ source.old) }
    ensures causes { IfErr result (λ f. f.cause ≢ cause.Write) }
{
    let answered = 0;
    let Ok(mut head) = room(alloc, LONGEST_HEAD) else {
        let cause = Cause::Memory;
        return Err(StreamFault { answered, cause });
    };
    let mut fields = [EMPTY_HEADER_SPAN; MOST_FIELDS];
    let cause = Cause::Read;
    let Ok(found) = read_head(source, head.as_mut_slice(), fields.as_mut_slice()) else {
        return Err(StreamFault { answered, cause });
    };
    let (spans, size) = match found {
        HeadRead::Nothing => return Ok(Arrival::Silent),
        HeadRead::Refused => return Ok(Arrival::Malformed { to_head: false }),
        HeadRead::Complete(spans, size) => (spans, size),
    };
    head.truncate(size);
    match read_request(alloc, source, head, fields.as_slice(), spans) {
        Ok(arrival) => Ok(arrival),
        Err(ReadFault) => Err(StreamFault { answered, cause }),
    }
}
