//! A run of request lines over a store.

ghost use Rattle.std.specs.Prelude.{◌≡◌, IfErr};
ghost use Rattle.mf_base.specs.declared.fault.Cause.TheVariants as cause;
ghost use Rattle.mf_wire.specs.Runs.{RunsLines};
ghost use Rattle.mf_wire_lines.specs.Ends.{Ends};
ghost use Rattle.mf_wire_lines.specs.Streams.{stream_of, streams_of};

use crate::answering::Desk;
use mf_base::{Cause, StreamFault};
use mf_model::{InstitutionStore, laws};
use mf_wire_lines::{Sink, Source, run_lines};
use std::alloc::Global;

/// Answers each request line of a stream over a store, and writes the reply of each before the next is answered. It
/// gives how many replies were written. Where `told` says so, the first word of each line is told of it.
///
/// A line is `caller method path`, with one space between them, then nothing or a space and a JSON body; it ends at a
/// line feed, with or without a carriage return before it, or at the end of the stream. Empty lines are passed over,
/// and one of over 65,536 bytes is refused as malformed. Each other line gets exactly one reply: a status, a space, a
/// body and a line feed.
///
/// A word that is told is 1 to 100 printed characters of ASCII before the first space, and the line stands behind that:
/// with another first word it is refused as malformed. A journal notes the word with the request.
///
/// What is read of a line is kept in a buffer that is made first: where it can't be, `Memory` is reported, and nothing
/// is read, answered or written. After `Read` the unfinished line is not run. After `Write` the line whose reply was
/// being written is the last that was run. `Read` and `Write` are reported only where the reader or the writer failed
/// in this call, whatever it had done before, and `Read` also where 2^60 bytes came without an end.
pub fn run<S: InstitutionStore, R: Source, W: Sink>(
    alloc: Global,
    told: bool,
    store: &mut S,
    source: &mut R,
    sink: &mut W,
) -> Result<u64, StreamFault>
    ensures ends { Ends (RunsLines S.InstitutionStore told) store.old store.new
        (streams_of (stream_of R.unread R.faults source.old source.new)
        (stream_of W.written W.faults sink.old sink.new)) result }
    ensures memory { IfErr result (λ f. f.cause ≡ cause.Memory → (source.new ≡ source.old) × (sink.new ≡ sink.old)) }
{
    laws::isolation();
    let Ok(desk) = Desk::new(alloc, told) else {
        return Err(StreamFault {
            answered: 0,
            cause: Cause::Memory,
        });
    };
    run_lines(alloc, &desk, store, source, sink)
}
