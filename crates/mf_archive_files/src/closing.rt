//! A connection's files, closed so that the database file is whole without its log.

ghost use Rattle.std.specs.Prelude.{◌≡◌, false};
ghost use Rattle.mf_archive_files.specs.Closing.{Closes};

use mf_base::Fault;
use sqlite::{Connection, FileStore, Files};
use sqlite_disk::Disk;

/// The files of a connection that was closed; or F20, and what is left of the connection: the log stays.
pub type Closed<D> = Result<Files<D>, (Fault, FileStore<D>)>;

/// Closes the files of a connection: its log is copied into the database file, which then holds the tables with the log
/// and without it, and so does whatever a stop leaves of the two. F20 tells that the disk failed or that there was no
/// memory: a stop leaves of the two what it could before.
pub fn close_file<D: Disk + Drop>(connection: Connection<FileStore<D>>) -> Closed<D>
    requires alone { connection.in_transaction ≡ false }
    ensures { Closes connection result }
{
    // With nothing to commit the last commit is what the tables show; the call brings that into the proof.
    let _settled = connection.is_autocommit();
    match connection.close_files() {
        Ok(files) => Ok(files),
        Err((_, rest)) => Err((Fault::F20, rest)),
    }
}
