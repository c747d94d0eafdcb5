//! Stores over files, closed so that the database file is whole without its log.

ghost use Rattle.std.specs.Prelude.{◌≡◌, List, IfOk, IfErr};
ghost use Rattle.mf_base.specs.declared.fault.Fault.TheVariants.{F20};
ghost use Rattle.sqlite.specs.Files.{over_files, image_of};
ghost use Rattle.sqlite.specs.Tree.{Trees};
ghost use Rattle.sqlite_store.specs.FileStore as files;
ghost use Rattle.sqlite_trees.specs.View.{IsClean};
ghost use Rattle.sqlite_wal.specs.Files.{outcomes};
ghost use Rattle.sqlite_wal.specs.Reads.{AreClean};
ghost use Rattle.sqlite_wal.specs.Recovery.{Image};
ghost use Rattle.mf_model.specs.Institution.{Institution};
ghost use Rattle.mf_store_noted.specs.Tabled.{HasGoodDisk, HoldsOneOf};
ghost use Rattle.mf_store.specs.Stands.{StandsFor, Leaves};
ghost use Rattle.mf_store_files.specs.Closed.{CloseWell, HoldsByItself};

use mf_base::Fault;
use mf_store::Store;
use sqlite::{FileStore, Files};
use sqlite_disk::Disk;

/// Closes a store: its log is copied into the database file, which then holds the institution with the log and without
/// it, and so does whatever a stop leaves of the two. The files come back.
///
/// F20 tells that the disk failed or that there was no memory: the log stays, a stop leaves of the two what it could
/// before, and what is left of the store comes back.
pub fn close<D: Disk + Drop>(store: Store<FileStore<D>>) -> Result<Files<D>, (Fault, FileStore<D>)>
    ensures premise { CloseWell result → HasGoodDisk over_files store.connection }
    ensures whole { IfOk result (λ files. AreClean D.Disk files.log files.db → (i : Institution)
        → StandsFor over_files store i → HoldsByItself (image_of D.Disk files) i) }
    ensures left_whole { IfOk result (λ files. AreClean D.Disk files.log files.db → (i : Institution)
        → StandsFor over_files store i
        → (left : Image) → outcomes D.Disk files.log files.db left → HoldsByItself left i) }
    ensures gives_up { IfErr result (λ e. e.0 ≡ F20) }
    ensures kept { IfErr result (λ e. IsClean (files.view e.1) → (is : List Institution)
        → Leaves over_files store is
        → (trees : Trees) → files.recovers e.1 trees → HoldsOneOf is trees) }
{
    let connection = store.release();
    // With nothing to commit the last commit is what the tables show; the call brings that into the proof.
    let _settled = connection.is_autocommit();
    match connection.close_files() {
        Ok(files) => Ok(files),
        Err((_, rest)) => Err((Fault::F20, rest)),
    }
}
