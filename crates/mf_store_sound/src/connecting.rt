//! Connections to files, by what these held as they were opened.

ghost use Rattle.std.specs.Prelude.{◌≡◌, false, IsTrue, IfOk};
ghost use Rattle.sqlite.specs.Files.{file_state};
ghost use Rattle.sqlite.specs.Held.{state};
ghost use Rattle.sqlite.specs.State.{HasCleanDisk};
ghost use Rattle.sqlite.specs.Tree.{Trees};
ghost use Rattle.sqlite_wal.specs.Files.{image_at};
ghost use Rattle.mf_store_sound.specs.Files.{ShowsFile};

use mf_store_schema::open_file;
use sqlite::{Alter, Connection, Error, FileFrom, FileStore, Start};
use std::rt::HostRuntime;

/// A stop leaves the tables of a connection that has nothing to commit.
fn nothing_waits<S: Alter>(connection: &Connection<S>)
    requires alone { connection.now.in_transaction ≡ false }
    ensures { IsTrue (state S.Store connection.now).is_open → (left : Trees) → (state S.Store connection.now).may_leave
        left → left ≡ (state S.Store connection.now).now.trees }
{
    let _settled = connection.is_autocommit();
}

/// A connection to a file, which is made where it is missing. The error is SQLite's.
pub fn connect<S: Start>(
    rt: &HostRuntime,
    path: &str,
    start: S,
) -> Result<Connection<FileStore<FileFrom<S>>>, Error>
    ensures shows { IfOk result (λ c. HasCleanDisk (file_state c) → ShowsFile (image_at S.Start) (file_state c)) }
    ensures alone { IfOk result (λ c. c.in_transaction ≡ false) }
{
    match open_file(rt, path, start) {
        Ok(connection) => {
            nothing_waits(&connection);
            Ok(connection)
        }
        Err(error) => Err(error),
    }
}
