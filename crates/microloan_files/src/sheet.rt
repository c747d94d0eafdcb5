//! A collection sheet answered over a file, up to what a stop leaves of it.

ghost use Rattle.std.specs.Prelude.{◌≤◌, [], ◌∷◌, length};
ghost use Rattle.mf_model.specs.Institution.{Institution};
ghost use Rattle.mf_sheet_lines.specs.Sheets.{longest, sheet_rows_of};
ghost use Rattle.mf_store.specs.Stands.{StandsFor, Leaves};
ghost use Rattle.mf_store_noted.specs.Tabled.{HasGoodDisk};
ghost use Rattle.mf_wire_lines.specs.Streams.{stream_of};
ghost use Rattle.sqlite.specs.Files.{over_files};
ghost use Rattle.sqlite_store.specs.FileStore.{view};
ghost use Rattle.sqlite_trees.specs.View.{IsClean};
ghost use Rattle.microloan_files.specs.Sheets.{CollectsAsBeginning};

use crate::handing::hand_back;
use mf_base::StreamFault;
use mf_office::Caller;
use mf_sheet::collect;
use mf_store::Store;
use mf_wire_lines::Sink;
use sqlite::FileStore;
use sqlite_disk::Disk;
use std::alloc::Global;

/// Collects a sheet over a store of files, and gives these back with what `collect` told. Whatever a stop leaves of the
/// files then opens as the institution after a beginning of the sheet's lines that holds every line that was answered.
pub fn collect_over<D: Disk + Drop, W: Sink>(
    alloc: Global,
    mut store: Store<FileStore<D>>,
    told: &[u8],
    caller: Caller,
    bytes: &[u8],
    sink: &mut W,
) -> (Result<(), StreamFault>, FileStore<D>)
    requires { length bytes.now ≤ longest }
    ensures premise { IsClean (view result.1) → HasGoodDisk over_files store.connection }
    ensures ends { IsClean (view result.1) → (i : Institution) → StandsFor over_files store i →
        Leaves over_files store (i ∷ []) → CollectsAsBeginning told.now caller i result.1 (record {
          rows = sheet_rows_of bytes.now;
          sink = stream_of W.written W.faults sink.old sink.new;
        }) result.0 }
{
    let ended = collect(alloc, &mut store, told, caller, bytes, sink);
    (ended, hand_back(store))
}
