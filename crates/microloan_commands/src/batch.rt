//! Request lines answered over a new institution in memory.

ghost use Rattle.std.specs.Prelude.{◌≡◌, ◌≤◌, IfErr};
ghost use Rattle.mf_base.specs.DayText.{last_entered_day};
ghost use Rattle.mf_base.specs.declared.fault.Cause.TheVariants as cause;
ghost use Rattle.mf_wire_lines.specs.Streams.{stream_of, streams_of};
ghost use Rattle.microloan_commands.specs.Batch.{AnswersFromNew};

use crate::first::in_memory;
use mf_base::{Cause, Day, StreamFault};
use mf_store_sql::pages::PageStore;
use mf_wire::{Sink, Source, run};
use sqlite_trees::store::Store as TreeStore;
use std::alloc::Global;

/// Answers the request lines of a source over a new institution in memory, which begins on a day, and gives how many
/// replies were written. It keeps no journal, and nothing is told of the lines.
///
/// Its errors are those of `mf_wire::run`. Memory is also reported where there is none for the institution; with
/// Memory nothing was read, answered or written.
pub fn answer_lines<R: Source, W: Sink>(
    alloc: Global,
    day: Day,
    source: &mut R,
    sink: &mut W,
) -> Result<u64, StreamFault>
    requires { day ≤ last_entered_day }
    ensures ends { AnswersFromNew ⟦<PageStore as TreeStore>⟧ day
        (streams_of (stream_of R.unread R.faults source.old source.new)
        (stream_of W.written W.faults sink.old sink.new)) result }
    ensures memory { IfErr result (λ f. f.cause ≡ cause.Memory → (source.new ≡ source.old) × (sink.new ≡ sink.old)) }
{
    let Ok(mut store) = in_memory(alloc, day) else {
        return Err(StreamFault {
            answered: 0,
            cause: Cause::Memory,
        });
    };
    run(alloc, false, &mut store, source, sink)
}
