//! A run over a stream of request lines.

ghost use Rattle.std.specs.Prelude.{◌≡◌, ◌≢◌, ℕ, ◌+◌, ◌-◌, ◌<◌, ◌≤◌, ◌^◌, List, [], length, take, IfOk, IfErr, OnOk};
ghost use Rattle.mf_base.specs.declared.fault.Cause.TheVariants as cause;
ghost use Rattle.mf_wire_lines.specs.Cut.{longest_line, without_return, request};
ghost use Rattle.mf_wire_lines.specs.Reading.{ended_from, begun_from};
ghost use Rattle.mf_wire_lines.specs.Replies.{reply_line_of};
ghost use Rattle.mf_wire_lines.specs.Run.{LineStep, Run, Answered, Half, Broken};
ghost use Rattle.mf_wire_lines.specs.Streams.{stream_of, streams_of};
ghost use Rattle.mf_wire_lines.specs.Ends.{Ends};

use crate::line_buffer::LineBuffer;
use crate::sinks::{Sink, WriteFault};
use crate::sources::Source;
use crate::writing::put_reply;
use mf_base::{Cause, Fault, StreamFault};
use std::alloc::{AllocError, Global};

/// The longest line that a desk hears, in bytes, without its ending.
pub const LONGEST_LINE: usize = 65536;

/// How many bytes are read at once.
const READ_AT_ONCE: usize = 65536;

/// As many bytes are read at most: a stream of more has no end.
pub const MOST: u64 = 1 << 60;

/// What answers a line from a state, and brings the state on.
pub trait LineDesk<S> {
    /// From one state, a line may be answered by the text, and the next state follow.
    ghost may_answer: { Self → S → List ℕ → List ℕ → S → Type 0 };

    /// The text of a line's success, which was made before the state was changed, or its refusal.
    fn answer(&self, alloc: Global, state: &mut S, line: &[u8]) -> Result<String, Fault>
        requires { length line.now ≤ longest_line }
        ensures step { may_answer self.now state.old line.now (reply_line_of result) state.new }
        ensures refusal { IfErr result (λ f. f ≢ Fault.F19) };
}

fn reply_to<S, D: LineDesk<S>>(
    alloc: Global,
    desk: &D,
    state: &mut S,
    line: &[u8],
) -> Result<String, Fault>
    ensures step { LineStep (D.may_answer desk.now) state.old line.now (reply_line_of result) state.new }
    ensures refusal { IfErr result (λ f. f ≢ Fault.F19) }
{
    if line.len() <= LONGEST_LINE {
        desk.answer(alloc, state, line)
    } else {
        Err(Fault::F1)
    }
}

/// Answers a line that has ended, if it is a request.
fn answer_line<S, D: LineDesk<S>, W: Sink>(
    alloc: Global,
    desk: &D,
    state: &mut S,
    sink: &mut W,
    line: &[u8],
) -> Result<u64, WriteFault>
    ensures ok { IfOk result (λ n. (n ≤ 1) × Answered (Run (D.may_answer desk.now)) state.old state.new
        (request line.now)
        (W.written sink.old) (W.written sink.new) n) }
    ensures err { IfErr result (λ _. Half (D.may_answer desk.now) state.old state.new line.now
        (W.written sink.old) (W.written sink.new)) }
    ensures sound { OnOk result (W.faults sink.new ≡ W.faults sink.old) }
    ensures fault { IfErr result (λ _. W.faults sink.new ≢ W.faults sink.old) }
{
    if line.is_empty() {
        return Ok(0);
    }
    let reply = reply_to(alloc, desk, state, line);
    match put_reply(sink, &reply) {
        Ok(()) => Ok(1),
        Err(e) => Err(e),
    }
}

/// The line without a carriage return at its end.
fn without_return(line: &[u8]) -> &[u8]
    ensures { result.now ≡ without_return line.now }
{
    match line {
        [front @ .., b'\r'] => front,
        _ => line,
    }
}

/// Answers each line that ends in the piece. `Err` has how many replies were written whole.
fn feed<S, D: LineDesk<S>, W: Sink>(
    alloc: Global,
    desk: &D,
    state: &mut S,
    sink: &mut W,
    held: &mut LineBuffer,
    piece: &[u8],
) -> Result<u64, u64>
    requires { length piece.now < 2 ^ 60 }
    ensures ok { IfOk result (λ n. (begun : List ℕ) → held.old ≡ take 65538 begun
        → (n ≤ length piece.now) × (held.new ≡ take 65538 (begun_from begun piece.now))
        × Answered (Run (D.may_answer desk.now)) state.old state.new (ended_from begun piece.now) (W.written sink.old)
        (W.written sink.new) n) }
    ensures err { IfErr result (λ n. (begun : List ℕ) → held.old ≡ take 65538 begun
        → (n ≤ length piece.now)
        × Broken (Run (D.may_answer desk.now)) state.old state.new (ended_from begun piece.now) (W.written sink.old)
        (W.written sink.new) n) }
    ensures sound { OnOk result (W.faults sink.new ≡ W.faults sink.old) }
    ensures fault { IfErr result (λ _. W.faults sink.new ≢ W.faults sink.old) }
{
    let mut answered = 0;
    for byte in piece {
        if *byte == b'\n' {
            match answer_line(alloc, desk, state, sink, without_return(held.as_slice())) {
                Ok(n) => answered += n,
                Err(WriteFault) => return Err(answered),
            }
            held.clear();
        } else {
            held.push(*byte);
        }
    }
    Ok(answered)
}

fn room(alloc: Global) -> Result<Vec<u8>, AllocError>
    ensures { IfOk result (λ v. length v.items ≡ 65536) }
{
    vec![in alloc; 0; READ_AT_ONCE]
}

/// Answers each request line of a stream: the reply of each is written before the next is answered. It gives how
/// many replies were written.
///
/// The buffers for a line and for reading are made first: where they can't be, nothing is read, answered or
/// written. After a read fault the unfinished line is not run. After a write fault the line whose reply was being
/// written is the last that was run.
pub fn run_lines<S, D: LineDesk<S>, R: Source, W: Sink>(
    alloc: Global,
    desk: &D,
    state: &mut S,
    source: &mut R,
    sink: &mut W,
) -> Result<u64, StreamFault>
    ensures ends { Ends (Run (D.may_answer desk.now)) state.old state.new
        (streams_of (stream_of R.unread R.faults source.old source.new)
        (stream_of W.written W.faults sink.old sink.new)) result }
    ensures memory { IfErr result (λ f. f.cause ≡ cause.Memory → (source.new ≡ source.old) × (sink.new ≡ sink.old)) }
{
    let memory = StreamFault {
        answered: 0,
        cause: Cause::Memory,
    };
    let Ok(mut held) = LineBuffer::new(alloc) else {
        return Err(memory);
    };
    let Ok(mut room) = room(alloc) else {
        return Err(memory);
    };
    serve_lines(
        alloc,
        desk,
        state,
        source,
        sink,
        &mut held,
        room.as_mut_slice(),
    )
}

/// The same, with an empty line buffer and a room to read into.
fn serve_lines<S, D: LineDesk<S>, R: Source, W: Sink>(
    alloc: Global,
    desk: &D,
    state: &mut S,
    source: &mut R,
    sink: &mut W,
    held: &mut LineBuffer,
    room: &mut [u8],
) -> Result<u64, StreamFault>
    requires empty { held.old ≡ [] }
    requires room { length room.old ≡ 65536 }
    ensures ends { Ends (Run (D.may_answer desk.now)) state.old state.new
        (streams_of (stream_of R.unread R.faults source.old source.new)
        (stream_of W.written W.faults sink.old sink.new)) result }
    ensures memory { IfErr result (λ f. f.cause ≢ cause.Memory) }
{
    let mut answered = 0u64;
    let mut taken = 0u64;
    while taken < MOST {
        let Ok(n) = source.read_some(room) else {
            let cause = Cause::Read;
            return Err(StreamFault { answered, cause });
        };
        if n == 0 {
            let Ok(last) = answer_line(alloc, desk, state, sink, held.as_slice()) else {
                let cause = Cause::Write;
                return Err(StreamFault { answered, cause });
            };
            return Ok(answered + last);
        }
        match feed(alloc, desk, state, sink, held, &room[..n]) {
            Ok(more) => answered += more,
            Err(more) => {
                return Err(StreamFault {
                    answered: answered + more,
                    cause: Cause::Write,
                });
            }
        }
        taken += n as u64;
    }
    Err(StreamFault {
        answered,
        cause: Cause::Read,
    })
}
