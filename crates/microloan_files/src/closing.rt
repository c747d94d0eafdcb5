//! Work over a store of files that is closed after it, as the program does it.

ghost use Rattle.std.specs.Prelude.{◌≡◌, [], ◌∷◌, false, is_some};
ghost use Rattle.mf_folding.specs.Folding.{folded};
ghost use Rattle.mf_lists_runs.specs.Choice.{choice_if};
ghost use Rattle.mf_model.specs.Institution.{Institution};
ghost use Rattle.mf_store.specs.Stands.{StandsFor, Leaves};
ghost use Rattle.mf_store_noted.specs.Tabled.{HasGoodDisk};
ghost use Rattle.mf_store_files.specs.Closed.{CloseWell};
ghost use Rattle.mf_wire_lines.specs.Streams.{stream_of, streams_of};
ghost use Rattle.sqlite.specs.Files.{over_files};
ghost use Rattle.microloan_files.specs.Closing.{CloseAfter, RunsAndCloses, CollectsAndCloses};
ghost use Rattle.microloan_files.specs.Serving.{ServesSo};

use mf_base::{Fault, StreamFault};
use mf_lists_runs::{laws, run};
use mf_office::Caller;
use mf_store::Store;
use mf_store_files::close;
use mf_store_lists::StoreLists;
use mf_wire_lines::{Sink, Source};
use microloan_commands::{Listener, SheetFault, collect_sheet, serve_connections};
use sqlite::{FileStore, Files};
use sqlite_disk::Disk;
use std::alloc::Global;

/// Answers request lines over a store of files, with its lists or without, as `mf_lists_runs::run` does, and closes it
/// (`mf_store_files::close`). Whatever a stop
/// then leaves of the files holds the institution after all lines that were answered, with the log and without it. F20
/// tells that they could not be closed: a stop leaves what it could before, the tables after a beginning of the lines
/// that holds every line that was answered.
pub fn run_and_close<D: Disk + Drop, R: Source, W: Sink>(
    alloc: Global,
    lists: Option<&StoreLists>,
    told: bool,
    mut store: Store<FileStore<D>>,
    source: &mut R,
    sink: &mut W,
) -> (
    Result<u64, StreamFault>,
    Result<Files<D>, (Fault, FileStore<D>)>,
)
    ensures premise { CloseWell result.1 → HasGoodDisk over_files store.connection }
    ensures ends { CloseWell result.1 → (i : Institution) → StandsFor over_files store i →
        Leaves over_files store (i ∷ []) → RunsAndCloses (choice_if folded (is_some lists.entry)) told i result.1
        (streams_of (stream_of R.unread R.faults source.old source.new)
        (stream_of W.written W.faults sink.old sink.new)) result.0 }
{
    let ended = run(alloc, lists, told, &mut store, source, sink);
    (ended, close(store))
}

/// Reads a source to its end, collects it as a sheet over a store of files, as `collect_sheet` does, and closes the
/// store; a stop then leaves what `run_and_close` says.
pub fn collect_and_close<D: Disk + Drop, R: Source, W: Sink>(
    alloc: Global,
    mut store: Store<FileStore<D>>,
    told: &[u8],
    caller: Caller,
    source: &mut R,
    sink: &mut W,
) -> (
    Result<(), SheetFault>,
    Result<Files<D>, (Fault, FileStore<D>)>,
)
    ensures premise { CloseWell result.1 → HasGoodDisk over_files store.connection }
    ensures ends { CloseWell result.1 → (i : Institution) → StandsFor over_files store i →
        Leaves over_files store (i ∷ []) → CollectsAndCloses told.now caller i result.1 (streams_of
        (stream_of R.unread R.faults source.old source.new)
        (stream_of W.written W.faults sink.old sink.new)) result.0 }
{
    let ended = collect_sheet(alloc, &mut store, told, caller, source, sink);
    (ended, close(store))
}

/// Serves so many connections over a store of files, as `serve_connections` does, and closes the store; a stop then
/// leaves what `run_and_close` says, of messages.
pub fn serve_and_close<D: Disk + Drop, N: Listener>(
    alloc: Global,
    lists: Option<&StoreLists>,
    told: bool,
    mut store: Store<FileStore<D>>,
    listener: &mut N,
    connections: u64,
) -> (
    Result<u64, StreamFault>,
    Result<Files<D>, (Fault, FileStore<D>)>,
)
    requires { N.is_open listener.old ≡ false }
    ensures premise { CloseWell result.1 → HasGoodDisk over_files store.connection }
    ensures ends { CloseWell result.1 → (i : Institution) → StandsFor over_files store i →
        Leaves over_files store (i ∷ []) → ServesSo (choice_if folded (is_some lists.entry)) told i connections
        (N.ended listener.old) (N.ended listener.new) (CloseAfter i result.1) result.0 }
{
    laws::served_messages_are_isolated::<Store<FileStore<D>>>();
    let ended = serve_connections(alloc, lists, told, &mut store, listener, connections);
    (ended, close(store))
}
