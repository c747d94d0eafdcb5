//! What a file holds, told without changing what it holds.

ghost use Rattle.std.specs.Prelude.{◌≡◌, IfOk, false};
ghost use Rattle.sqlite.specs.Files.{file_state, HoldsDatabase};
ghost use Rattle.sqlite.specs.State.{HasCleanDisk};
ghost use Rattle.sqlite.specs.Tree.{Trees};
ghost use Rattle.sqlite_wal.specs.Files.{image_at};
ghost use Rattle.mf_store_sound.specs.Files.{ShowsFile};
ghost use Rattle.mf_store_sound.specs.Told.{IsToldOfFile, finding_of};

use crate::connecting::connect;
use crate::judging::{Contents, judge};
use mf_store_schema::{Version, remove_bare_log};
use sqlite::{Connection, Error, ErrorCode, FileFrom, FileStore, Start, Unknown};
use std::rt::HostRuntime;

/// What was found at a path where there is a file that isn't empty.
#[derive(Clone, Copy, Debug, PartialEq, Eq)]
pub enum Finding {
    /// There was not the memory to open it.
    NoMemory,
    /// Another process has it open.
    Locked,
    /// The system doesn't open it or its log, or SQLite left a rollback journal beside it.
    Unopened,
    /// It is no database, or one whose pages, schema and rows don't fit together.
    NoDatabase,
    /// A page doesn't read as it was written: its sum doesn't fit, or it is none of SQLite's.
    Damaged,
    /// The disk failed, or was full, while it was opened.
    DiskFailed,
    /// It was opened and not read to its end: there was not the memory for its rows, or the disk failed.
    Unread,
    /// A database without tables.
    NoTables,
    /// A database of something else: it has other tables than this program makes.
    OtherTables,
    /// Tables of a version, with the rows of a sound institution or not.
    KnownTables { version: Version, sound: bool },
}

/// Why a file was not opened, by SQLite's error.
fn why_unopened(error: Error) -> Finding {
    match error {
        Error::SqliteFailure(ErrorCode::OutOfMemory) => Finding::NoMemory,
        Error::SqliteFailure(ErrorCode::DatabaseBusy) => Finding::Locked,
        Error::SqliteFailure(ErrorCode::CannotOpen) => Finding::Unopened,
        Error::SqliteFailure(ErrorCode::DatabaseCorrupt) => Finding::Damaged,
        Error::SqliteFailure(
            ErrorCode::SystemIoFailure | ErrorCode::DiskFull | ErrorCode::Closed,
        ) => { Finding::DiskFailed }
        _ => Finding::NoDatabase,
    }
}

/// The finding of what the tables hold.
fn finding_of(contents: Contents) -> Finding
    ensures { result ≡ finding_of contents }
{
    match contents {
        Contents::Nothing => Finding::NoTables,
        Contents::Known { version, sound } => Finding::KnownTables { version, sound },
        Contents::Others => Finding::OtherTables,
    }
}

/// A connection to the file at a path, where `start` stands for what the file held. A file that is missing is made, and
/// an empty one made a database without tables, so the caller sees first that there is one.
pub fn reach<S: Start>(
    rt: &HostRuntime,
    path: &str,
    start: S,
) -> Result<Connection<FileStore<FileFrom<S>>>, Finding>
    ensures shows { IfOk result (λ c. HasCleanDisk (file_state c) → ShowsFile (image_at S.Start) (file_state c)) }
    ensures alone { IfOk result (λ c. c.in_transaction ≡ false) }
{
    match connect(rt, path, start) {
        Ok(connection) => Ok(connection),
        Err(error) => Err(why_unopened(error)),
    }
}

/// What the file at a path holds, with the connection that was asked, where `start` stands for what the file held. What
/// it holds isn't changed; a file that is missing is made, and an empty one made a database without tables, so the
/// caller sees first that there is one.
pub fn look_with<S: Start>(
    rt: &HostRuntime,
    path: &str,
    start: S,
) -> Result<(Contents, Connection<FileStore<FileFrom<S>>>), Finding>
    ensures exact { IfOk result (λ seen. HasCleanDisk (file_state seen.1) → IsToldOfFile (image_at S.Start) seen.0) }
    ensures leaves { IfOk result (λ seen. HasCleanDisk (file_state seen.1) → (trees : Trees)
        → HoldsDatabase (image_at S.Start) trees
        → (left : Trees) → (file_state seen.1).may_leave left → left ≡ trees) }
{
    let mut connection = match reach(rt, path, start) {
        Ok(connection) => connection,
        Err(finding) => return Err(finding),
    };
    match judge(rt.alloc(), &mut connection) {
        Ok(contents) => Ok((contents, connection)),
        Err(_) => Err(Finding::Unread),
    }
}

/// What the file at a path holds, in `main` and where nothing is said of what it held. What it holds isn't changed; but
/// a file that is missing is made, and an empty one made a database without tables, so the caller sees first that there
/// is one.
pub fn look(rt: &HostRuntime, path: &str) -> Finding {
    match look_with(rt, path, Unknown) {
        Ok((contents, held)) => {
            remove_bare_log(rt, path);
            drop(held);
            finding_of(contents)
        }
        Err(finding) => finding,
    }
}
