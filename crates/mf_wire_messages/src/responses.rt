//! Responses, written without taking memory.

ghost use Rattle.std.specs.Prelude.{◌≡◌, ◌≢◌, ◌+◌, ◌≤◌, ◌++◌, [], length, take, unwrap_or, IfOk, OnOk, OnErr};
ghost use Rattle.http.specs.StatusCode.{reason_phrase};
ghost use Rattle.std.specs.Io.KnownBytes.{Appends};
ghost use Rattle.mf_wire_messages.specs.Responses.{phrase_of, status_line, sent_body, fields_and_body, response};
ghost use Rattle.mf_wire_messages.specs.Responses.{refusal, Gathers, IsCut};

use http::StatusCode;
use itoa::Buffer;
use mf_base::Fault;
use mf_wire_lines::{Sink, WriteFault, fault_text, put};
use std::alloc::{AllocError, Global};

/// How many bytes of a response are gathered before it is written.
const RESPONSE_ROOM: usize = 65536;

/// The room in which a response is gathered, so that it is written at once: a longer one is written in parts.
pub fn response_room(alloc: Global) -> Result<Vec<u8>, AllocError> {
    vec![in alloc; 0; RESPONSE_ROOM]
}

/// Copies a text behind what is held in the room, and gives how many bytes are held then.
fn hold(room: &mut [u8], held: usize, text: &[u8]) -> usize
    requires { held + length text.now ≤ length room.old }
    ensures within { result ≤ length room.new }
    ensures held { take result room.new ≡ take held room.old ++ text.now }
{
    let end = held + text.len();
    room[held..end].copy_from_slice(text);
    end
}

/// Gathers a text behind what is held in the room. Where the room is too small for it, what is held is written, and
/// then the text. It gives how many bytes are held in the room afterwards.
fn gather<W: Sink>(
    sink: &mut W,
    room: &mut [u8],
    held: usize,
    text: &[u8],
) -> Result<usize, WriteFault>
    requires { held ≤ length room.old }
    ensures within { IfOk result (λ n. n ≤ length room.new) }
    ensures ok { IfOk result (λ n. Gathers (W.written sink.old) (W.written sink.new) (take held room.old) text.now
        (take n room.new)) }
    ensures err { OnErr result (IsCut (W.written sink.old) (W.written sink.new) (take held room.old ++ text.now)) }
    ensures sound { OnOk result (W.faults sink.new ≡ W.faults sink.old) }
    ensures fault { OnErr result (W.faults sink.new ≢ W.faults sink.old) }
{
    if text.len() <= room.len() - held {
        return Ok(hold(room, held, text));
    }
    let Ok(()) = put(sink, &room[..held]) else {
        return Err(WriteFault);
    };
    let Ok(()) = put(sink, text) else {
        return Err(WriteFault);
    };
    Ok(0)
}

/// Gathers four texts one after another.
fn gather_four<W: Sink>(
    sink: &mut W,
    room: &mut [u8],
    held: usize,
    first: &[u8],
    second: &[u8],
    third: &[u8],
    fourth: &[u8],
) -> Result<usize, WriteFault>
    requires { held ≤ length room.old }
    ensures within { IfOk result (λ n. n ≤ length room.new) }
    ensures ok { IfOk result (λ n. Gathers (W.written sink.old) (W.written sink.new) (take held room.old)
        (first.now ++ (second.now ++ (third.now ++ fourth.now))) (take n room.new)) }
    ensures err { OnErr result (IsCut (W.written sink.old) (W.written sink.new) (take held room.old
        ++ (first.now ++ (second.now ++ (third.now ++ fourth.now))))) }
    ensures sound { OnOk result (W.faults sink.new ≡ W.faults sink.old) }
    ensures fault { OnErr result (W.faults sink.new ≢ W.faults sink.old) }
{
    let Ok(one) = gather(sink, room, held, first) else {
        return Err(WriteFault);
    };
    let Ok(two) = gather(sink, room, one, second) else {
        return Err(WriteFault);
    };
    let Ok(three) = gather(sink, room, two, third) else {
        return Err(WriteFault);
    };
    gather(sink, room, three, fourth)
}

fn phrase_of_code(code: StatusCode) -> &'static str
    ensures { result.now ≡ unwrap_or (reason_phrase code) [] }
{
    code.canonical_reason().unwrap_or("")
}

fn phrase(status: u16) -> &'static str
    ensures { result.now ≡ phrase_of status }
{
    match StatusCode::from_u16(status) {
        Ok(code) => phrase_of_code(code),
        Err(_) => "",
    }
}

fn gather_status_line<W: Sink>(
    sink: &mut W,
    room: &mut [u8],
    status: u16,
) -> Result<usize, WriteFault>
    ensures within { IfOk result (λ n. n ≤ length room.new) }
    ensures ok { IfOk result (λ n. Gathers (W.written sink.old) (W.written sink.new) [] (status_line status)
        (take n room.new)) }
    ensures err { OnErr result (IsCut (W.written sink.old) (W.written sink.new) (status_line status)) }
    ensures sound { OnOk result (W.faults sink.new ≡ W.faults sink.old) }
    ensures fault { OnErr result (W.faults sink.new ≢ W.faults sink.old) }
{
    let mut digits = Buffer::new();
    gather_four(
        sink,
        room,
        0,
        b"HTTP/1.1 ",
        digits.format(status).as_bytes(),
        b" ",
        phrase(status).as_bytes(),
    )
}

fn body_sent(body: &[u8], to_head: bool) -> &[u8]
    ensures { result.now ≡ sent_body to_head body.now }
{
    if to_head { &[] } else { body }
}

fn gather_fields_and_body<W: Sink>(
    sink: &mut W,
    room: &mut [u8],
    held: usize,
    body: &[u8],
    to_head: bool,
) -> Result<usize, WriteFault>
    requires { held ≤ length room.old }
    ensures within { IfOk result (λ n. n ≤ length room.new) }
    ensures ok { IfOk result (λ n. Gathers (W.written sink.old) (W.written sink.new) (take held room.old)
        (fields_and_body body.now to_head) (take n room.new)) }
    ensures err { OnErr result (IsCut (W.written sink.old) (W.written sink.new) (take held room.old
        ++ fields_and_body body.now to_head)) }
    ensures sound { OnOk result (W.faults sink.new ≡ W.faults sink.old) }
    ensures fault { OnErr result (W.faults sink.new ≢ W.faults sink.old) }
{
    let mut digits = Buffer::new();
    gather_four(
        sink,
        room,
        held,
        b"\r\nContent-Type: application/json\r\nContent-Length: ",
        digits.format(body.len()).as_bytes(),
        b"\r\nConnection: close\r\n\r\n",
        body_sent(body, to_head),
    )
}

/// Writes the response of that status and body, or a beginning of it. To HEAD its body is left off. What the room holds
/// is written at once.
pub fn write_reply<W: Sink>(
    sink: &mut W,
    room: &mut [u8],
    status: u16,
    body: &[u8],
    to_head: bool,
) -> Result<(), WriteFault>
    ensures ok { OnOk result (Appends (W.written sink.old) (W.written sink.new) (response status body.now to_head)) }
    ensures err { OnErr result (IsCut (W.written sink.old) (W.written sink.new) (response status body.now to_head)) }
    ensures sound { OnOk result (W.faults sink.new ≡ W.faults sink.old) }
    ensures fault { OnErr result (W.faults sink.new ≢ W.faults sink.old) }
{
    let Ok(begun) = gather_status_line(sink, room, status) else {
        return Err(WriteFault);
    };
    let Ok(held) = gather_fields_and_body(sink, room, begun, body, to_head) else {
        return Err(WriteFault);
    };
    put(sink, &room[..held])
}

/// Writes the response of a refusal, or a beginning of it.
pub fn write_refusal<W: Sink>(
    sink: &mut W,
    room: &mut [u8],
    fault: Fault,
    to_head: bool,
) -> Result<(), WriteFault>
    requires { fault ≢ Fault.F19 }
    ensures ok { OnOk result (Appends (W.written sink.old) (W.written sink.new) (refusal fault to_head)) }
    ensures err { OnErr result (IsCut (W.written sink.old) (W.written sink.new) (refusal fault to_head)) }
    ensures sound { OnOk result (W.faults sink.new ≡ W.faults sink.old) }
    ensures fault { OnErr result (W.faults sink.new ≢ W.faults sink.old) }
{
    let (status, body) = fault_text(fault);
    write_reply(sink, room, status, body.as_bytes(), to_head)
}
