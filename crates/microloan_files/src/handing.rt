//! Files that a store is done with, handed back.

ghost use Rattle.std.specs.Prelude.{List, [], ◌∷◌};
ghost use Rattle.mf_model.specs.Institution.{Institution};
ghost use Rattle.mf_model.specs.Run.{Line};
ghost use Rattle.mf_model.specs.Sound.{AreInRange, IsSound};
ghost use Rattle.mf_model.specs.Store.{left_after};
ghost use Rattle.mf_store.specs.Stands.{Leaves};
ghost use Rattle.mf_store_noted.specs.Tabled.{HasGoodDisk};
ghost use Rattle.sqlite.specs.Files.{file_state, over_files, HoldsDatabase};
ghost use Rattle.sqlite.specs.State.{HasCleanDisk};
ghost use Rattle.sqlite.specs.Tree.{Trees};
ghost use Rattle.sqlite_store.specs.FileStore as files;
ghost use Rattle.sqlite_store.specs.FileStore.{view};
ghost use Rattle.sqlite_trees.specs.View.{IsClean};
ghost use Rattle.sqlite_wal.specs.Recovery.{Image};
ghost use Rattle.microloan_files.specs.Beginnings.{LeaveBeginning};

use mf_model::laws;
use mf_store::Store;
use sqlite::{Connection, FileStore};
use sqlite_disk::Disk;

/// Gives back the files of a connection, whose open changes are rolled back: whatever a stop leaves of them is a
/// database with tables that a stop would have left before.
pub fn give_up<D: Disk + Drop>(connection: Connection<FileStore<D>>) -> FileStore<D>
    ensures premise { IsClean (view result) → HasCleanDisk (file_state connection) }
    ensures left { IsClean (view result) → (left : Image) → (files.state result).may_leave left →
        ∥ ((trees : Trees) × (file_state connection).may_leave trees × HoldsDatabase left trees) ∥₁ }
{
    connection.into_store()
}

/// Gives back the files of a store, whose open changes are rolled back. Where a stop would have left what some run
/// leaves of an institution, whatever a stop leaves of the files holds the institution after a beginning of that run
/// which has every line that was answered.
pub fn hand_back<D: Disk + Drop>(store: Store<FileStore<D>>) -> FileStore<D>
    ensures premise { IsClean (view result) → HasGoodDisk over_files store.connection }
    ensures beginning { IsClean (view result) → (i : Institution) (run : List Line) → IsSound i → AreInRange run →
        Leaves over_files store (left_after run i (i ∷ [])) → LeaveBeginning i run result }
{
    laws::soundness();
    store.release().into_store()
}
