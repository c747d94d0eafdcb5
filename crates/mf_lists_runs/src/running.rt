//! A run of request lines over a store, where lists may be asked for or may not.

ghost use Rattle.std.specs.Prelude.{◌≡◌, is_some, IfErr};
ghost use Rattle.mf_base.specs.declared.fault.Cause.TheVariants as cause;
ghost use Rattle.mf_lists_runs.specs.Choice.{choice_if};
ghost use Rattle.mf_lists_runs.specs.Runs.{ListsRuns};
ghost use Rattle.mf_wire_lines.specs.Ends.{Ends};
ghost use Rattle.mf_wire_lines.specs.Streams.{stream_of, streams_of};

use crate::answering::ListDesk;
use mf_base::{Cause, StreamFault};
use mf_lists_desk::Lists;
use mf_model::{InstitutionStore, laws};
use mf_wire_lines::{Sink, Source, run_lines};
use std::alloc::Global;

/// Answers each request line of a stream over a store, as `mf_wire::run` does. Where there are lists, a request that
/// has no route there and whose path begins with `/lists/` is answered by a list of what the caller's office sees, and
/// changes nothing.
///
/// Without lists each of these paths has no route. Its errors are those of `mf_wire::run`.
pub fn run<S: InstitutionStore, L: Lists<S>, R: Source, W: Sink>(
    alloc: Global,
    lists: Option<&L>,
    told: bool,
    store: &mut S,
    source: &mut R,
    sink: &mut W,
) -> Result<u64, StreamFault>
    ensures ends { Ends (ListsRuns S.InstitutionStore (choice_if L.folded (is_some lists.entry)) told) store.old
        store.new (streams_of (stream_of R.unread R.faults source.old source.new)
        (stream_of W.written W.faults sink.old sink.new)) result }
    ensures memory { IfErr result (λ f. f.cause ≡ cause.Memory → (source.new ≡ source.old) × (sink.new ≡ sink.old)) }
{
    laws::isolation();
    let Ok(desk) = ListDesk::new(alloc, lists, told) else {
        return Err(StreamFault {
            answered: 0,
            cause: Cause::Memory,
        });
    };
    run_lines(alloc, &desk, store, source, sink)
}
