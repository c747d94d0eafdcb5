//! Request lines answered over a file, from its opening to what a stop leaves of it.

ghost use Rattle.std.specs.Prelude.{◌≡◌, ◌≤◌, ◌⊎◌, [], ◌∷◌, IfOk, IfErr, IfSome, IsSome, OnErr};
ghost use Rattle.mf_base.specs.DayText.{last_entered_day};
ghost use Rattle.mf_base.specs.declared.fault.Fault.TheVariants.{F19, F20};
ghost use Rattle.mf_model.specs.Institution.{Institution};
ghost use Rattle.mf_store.specs.Stands.{StandsFor, Leaves};
ghost use Rattle.mf_store_noted.specs.Tabled.{HasGoodDisk};
ghost use Rattle.mf_wire_lines.specs.Streams.{stream_of, streams_of};
ghost use Rattle.sqlite.specs.Files.{over_files};
ghost use Rattle.sqlite_store.specs.FileStore.{view};
ghost use Rattle.sqlite_trees.specs.View.{IsClean};
ghost use Rattle.sqlite_wal.specs.Files.{image_at};
ghost use Rattle.microloan_files.specs.Opening.{HoldsInSchema, OpensAs};
ghost use Rattle.microloan_files.specs.Beginnings.{EndsAsBeginning, StillHolds};

use crate::handing::{give_up, hand_back};
use mf_base::{Day, Fault, StreamFault};
use mf_store::Store;
use mf_store_files::open_with;
use mf_store_schema::Unfollowed;
use mf_wire::{Sink, Source, run};
use sqlite::{FileFrom, FileStore, Start};
use sqlite_disk::Disk;
use std::alloc::Global;
use std::rt::HostRuntime;

/// Answers request lines over a store of files, and gives these back with what the run told. Whatever a stop leaves of
/// the files then opens as the institution after a beginning of the lines that holds every line that was answered.
pub fn run_over<D: Disk + Drop, R: Source, W: Sink>(
    alloc: Global,
    told: bool,
    mut store: Store<FileStore<D>>,
    source: &mut R,
    sink: &mut W,
) -> (Result<u64, StreamFault>, FileStore<D>)
    ensures premise { IsClean (view result.1) → HasGoodDisk over_files store.connection }
    ensures ends { IsClean (view result.1) → (i : Institution) → StandsFor over_files store i →
        Leaves over_files store (i ∷ []) → EndsAsBeginning told i result.1 (streams_of
        (stream_of R.unread R.faults source.old source.new)
        (stream_of W.written W.faults sink.old sink.new)) result.0 }
{
    let ended = run(alloc, told, &mut store, source, sink);
    (ended, hand_back(store))
}

/// Answers request lines over the file at a path, where `start` stands for what the file held: it is opened, the lines
/// are run, and what the run told comes back with the files. A file without tables becomes a new institution on this
/// day.
///
/// Whatever a stop leaves of the files, at the end of the lines and at each fault, opens as the institution after a
/// beginning of the lines that holds every line that was answered. F19 and F20 are those of opening the file, of which
/// nothing was run: the files come back where they could be opened at all, and whatever a stop leaves of them holds the
/// institution that they held.
pub fn batch_over<S: Start, R: Source, W: Sink>(
    rt: &HostRuntime,
    path: &str,
    start: S,
    day: Day,
    told: bool,
    source: &mut R,
    sink: &mut W,
) -> Result<
    (Result<u64, StreamFault>, FileStore<FileFrom<S>>),
    (Fault, Option<FileStore<FileFrom<S>>>),
>
    requires { day ≤ last_entered_day }
    ensures ends { IfOk result (λ r. IsClean (view r.1) → (i : Institution) → OpensAs day (image_at S.Start) i →
        EndsAsBeginning told i r.1 (streams_of
        (stream_of R.unread R.faults source.old source.new)
        (stream_of W.written W.faults sink.old sink.new)) r.0) }
    ensures errors { IfErr result (λ e. (e.0 ≡ F19) ⊎ (e.0 ≡ F20)) }
    ensures refused { IfErr result (λ e. e.0 ≡ F19 → IsSome e.1) }
    ensures unread { OnErr result ((source.new ≡ source.old) × (sink.new ≡ sink.old)) }
    ensures unopened { IfErr result (λ e. IfSome e.1 (λ files. IsClean (view files) → (i : Institution) →
        HoldsInSchema (image_at S.Start) i → StillHolds i files)) }
{
    match open_with(rt, path, start, day, &mut Unfollowed) {
        Ok(store) => Ok(run_over(rt.alloc(), told, store, source, sink)),
        Err((fault, Some(connection))) => Err((fault, Some(give_up(connection)))),
        Err((fault, None)) => Err((fault, None)),
    }
}
