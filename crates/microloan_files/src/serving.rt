//! HTTP messages answered over a file, up to what a stop leaves of it.

ghost use Rattle.std.specs.Prelude.{◌≡◌, [], ◌∷◌, false, is_some};
ghost use Rattle.mf_folding.specs.Folding.{folded};
ghost use Rattle.mf_lists_runs.specs.Choice.{choice_if};
ghost use Rattle.mf_model.specs.Institution.{Institution};
ghost use Rattle.mf_store.specs.Stands.{StandsFor, Leaves};
ghost use Rattle.mf_store_noted.specs.Tabled.{HasGoodDisk};
ghost use Rattle.sqlite.specs.Files.{over_files};
ghost use Rattle.sqlite_store.specs.FileStore.{view};
ghost use Rattle.sqlite_trees.specs.View.{IsClean};
ghost use Rattle.microloan_files.specs.Beginnings.{LeaveBeginning};
ghost use Rattle.microloan_files.specs.Serving.{ServesSo};

use crate::handing::hand_back;
use mf_base::StreamFault;
use mf_lists_runs::laws;
use mf_store::Store;
use mf_store_lists::StoreLists;
use microloan_commands::{Listener, serve_connections};
use sqlite::FileStore;
use sqlite_disk::Disk;
use std::alloc::Global;

/// Serves so many connections over a store of files, as `serve_connections` does, and gives these back with what it
/// told. Whatever a stop then leaves of the files opens as the institution after a beginning of the messages that holds
/// every message that was answered.
pub fn serve_over<D: Disk + Drop, N: Listener>(
    alloc: Global,
    lists: Option<&StoreLists>,
    told: bool,
    mut store: Store<FileStore<D>>,
    listener: &mut N,
    connections: u64,
) -> (Result<u64, StreamFault>, FileStore<D>)
    requires { N.is_open listener.old ≡ false }
    ensures premise { IsClean (view result.1) → HasGoodDisk over_files store.connection }
    ensures ends { IsClean (view result.1) → (i : Institution) → StandsFor over_files store i →
        Leaves over_files store (i ∷ []) → ServesSo (choice_if folded (is_some lists.entry)) told i connections
        (N.ended listener.old) (N.ended listener.new) (λ run. LeaveBeginning i run result.1) result.0 }
{
    laws::served_messages_are_isolated::<Store<FileStore<D>>>();
    let ended = serve_connections(alloc, lists, told, &mut store, listener, connections);
    (ended, hand_back(store))
}
