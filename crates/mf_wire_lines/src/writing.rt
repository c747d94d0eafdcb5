//! Replies written by a loop over the sink's writes.

ghost use Rattle.std.specs.Prelude.{◌≡◌, ◌≢◌, ◌<◌, ◌≤◌, ◌++◌, ◌∷◌, [], ℕ, OnOk, OnErr, IfErr, decimal, length, take};
ghost use Rattle.std.specs.Io.KnownBytes.{Appends};
ghost use Rattle.mf_wire_lines.specs.Replies.{reply_line_of, fault_line, fault_status};

use crate::refusals::fault_text;
use crate::sinks::{Sink, WriteFault};
use mf_base::Fault;

/// Writes all the bytes, or a beginning of them.
pub fn put<W: Sink>(sink: &mut W, bytes: &[u8]) -> Result<(), WriteFault>
    ensures ok { OnOk result (Appends (W.written sink.old) (W.written sink.new) bytes.now) }
    ensures err { OnErr result ((n : ℕ) × (n < length bytes.now) × Appends (W.written sink.old) (W.written sink.new)
        (take n bytes.now)) }
    ensures sound { OnOk result (W.faults sink.new ≡ W.faults sink.old) }
    ensures fault { OnErr result (W.faults sink.new ≢ W.faults sink.old) }
{
    let mut done = 0;
    while done < bytes.len() {
        done += sink.write_some(&bytes[done..])?;
    }
    Ok(())
}

/// The digits of a status, and a space.
fn status_text(status: u16) -> [u8; 4]
    requires least { 100 ≤ status }
    requires greatest { status < 1000 }
    ensures { result ≡ decimal status ++ 32 ∷ [] }
{
    [
        b'0' + (status / 100) as u8,
        b'0' + (status / 10 % 10) as u8,
        b'0' + (status % 10) as u8,
        b' ',
    ]
}

/// Writes the line of a refusal, or a beginning of it.
fn put_refusal<W: Sink>(sink: &mut W, fault: Fault) -> Result<(), WriteFault>
    requires { fault ≢ Fault.F19 }
    ensures ok { OnOk result (Appends (W.written sink.old) (W.written sink.new) (fault_line fault)) }
    ensures err { OnErr result ((n : ℕ) × (n < length (fault_line fault)) × Appends (W.written sink.old)
        (W.written sink.new) (take n (fault_line fault))) }
    ensures sound { OnOk result (W.faults sink.new ≡ W.faults sink.old) }
    ensures fault { OnErr result (W.faults sink.new ≢ W.faults sink.old) }
{
    let (status, body) = fault_text(fault);
    let Ok(()) = put(sink, status_text(status).as_slice()) else {
        return Err(WriteFault);
    };
    let Ok(()) = put(sink, body.as_bytes()) else {
        return Err(WriteFault);
    };
    put(sink, b"\n")
}

/// Writes the line of a reply, or a beginning of it.
pub fn put_reply<W: Sink>(sink: &mut W, reply: &Result<String, Fault>) -> Result<(), WriteFault>
    requires { IfErr reply.now (λ f. f ≢ Fault.F19) }
    ensures ok { OnOk result (Appends (W.written sink.old) (W.written sink.new) (reply_line_of reply.now)) }
    ensures err { OnErr result ((n : ℕ) × (n < length (reply_line_of reply.now)) × Appends (W.written sink.old)
        (W.written sink.new) (take n (reply_line_of reply.now))) }
    ensures sound { OnOk result (W.faults sink.new ≡ W.faults sink.old) }
    ensures fault { OnErr result (W.faults sink.new ≢ W.faults sink.old) }
{
    match reply {
        Ok(text) => put(sink, text.as_bytes()),
        Err(fault) => put_refusal(sink, *fault),
    }
}
