//! Connections that were just opened: whatever stands in the tables, their rowids are in order.

ghost use Rattle.std.specs.Prelude.{◌≡◌, IfOk, true};
ghost use Rattle.sqlite.specs.Files.{file_state, IsOpened, IsBlankAs};
ghost use Rattle.sqlite.specs.Held.{IsNew};
ghost use Rattle.sqlite.specs.Start.{FindsIn};
ghost use Rattle.sqlite.specs.State.{HasCleanDisk};
ghost use Rattle.sqlite_store.specs.FileStore.{view};
ghost use Rattle.sqlite_wal.specs.Files.{image_at};
ghost use Rattle.mf_store_schema.specs.Versions.{IsOfVersion};
ghost use Rattle.mf_store_schema.specs.Whole.{HaveRowids};
ghost use Rattle.mf_store_schema.specs.declared.versions.Version.{Version};

use crate::logs::remove_bare_log;
use sqlite::{Connection, Error, FileFrom, FileStore, Start};
use std::rt::HostRuntime;

/// Opens a file, or makes it. A new file ends each page in a sum, which is checked as the page is read; one without
/// sums is opened as well. The errors are those of SQLite; a file that is refused gets no log beside it.
pub fn open_file<S: Start>(
    rt: &HostRuntime,
    path: &str,
    start: S,
) -> Result<Connection<FileStore<FileFrom<S>>>, Error>
    ensures rowids { IfOk result (λ c. HasCleanDisk (file_state c) → (v : Version)
        → IsOfVersion v (file_state c).now.schema → HaveRowids v (file_state c).now.trees) }
    ensures opened { IfOk result (λ c. HasCleanDisk (file_state c) → IsOpened c) }
    ensures found { IfOk result (λ c. HasCleanDisk (file_state c) → FindsIn (image_at S.Start) (file_state c)) }
    ensures sums { IfOk result (λ c. HasCleanDisk (file_state c) → IsBlankAs true (image_at S.Start)
        → (view c.store).has_sums ≡ true) }
    ensures fresh { IfOk result IsNew }
    ensures guarded { IfOk result (λ c. HasCleanDisk (file_state c) → (file_state c).IsShielded) }
{
    match Connection::open_from(rt, path, true, start) {
        Ok(connection) => Ok(connection),
        Err((error, None)) => Err(error),
        Err((error, Some(held))) => {
            remove_bare_log(rt, path);
            drop(held);
            Err(error)
        }
    }
}
