//! Tables that are adopted again, and files that are opened again after a stop.

mod adopted;
mod first_schema;
mod journaled;
mod opened;
mod stops;

ghost use Rattle.std.specs.Prelude.{◌≡◌, false};

use mf_base::{Day, Fault};
use mf_store_files::adopt;
use mf_store_schema::Unfollowed;
use mf_wire::run;
use mf_wire_lines::{WatchedReader, WatchedWriter};
use sqlite::{Alter, Connection, Files, Options};
use sqlite_disk::{Crash, Disk, Fuse, Memory};
use std::alloc::Global;
use std::test::Fail;

/// A file that fails after so many calls.
trait Failing: Crash + Drop {
    fn failing_after(alloc: Global, calls: u64) -> Self;
}

impl Failing for Fuse<Memory> {
    fn failing_after(alloc: Global, calls: u64) -> Fuse<Memory> {
        Fuse::new(Memory::new(alloc), calls)
    }
}

/// Empty files that fail after so many calls each.
fn fuse<D: Failing>(alloc: Global, log: u64, db: u64) -> Files<D> {
    Files {
        log: D::failing_after(alloc, log),
        db: D::failing_after(alloc, db),
    }
}

/// What is tried over a connection, of any store: a function that holds tables of a type that is known costs five times
/// as much to prove.
trait Trial {
    fn holds<S: Alter + Drop>(&self, alloc: Global, connection: Connection<S>) -> Result<bool, Fail>
        requires { connection.in_transaction ≡ false };
}

/// Whether a trial holds over files that don't fail, without a table.
fn holds<T: Trial>(alloc: Global, trial: &T) -> Result<bool, Fail> {
    let files = fuse::<Fuse<Memory>>(alloc, u64::MAX, u64::MAX);
    if !files.log.may_be_used() || !files.db.may_be_used() {
        return Err(Fail::new("a file that can be used"));
    }
    match Connection::open_files(alloc, files, Options::new(1)) {
        Ok(connection) => trial.holds(alloc, connection),
        Err(_) => Err(Fail::new("a connection")),
    }
}

/// The replies to lines over the tables of a connection, which are adopted on 2024-01-31, and the connection after;
/// none where they are refused.
fn answered_over<S: Alter>(
    alloc: Global,
    connection: Connection<S>,
    lines: &[u8],
) -> (Vec<u8>, Connection<S>)
    requires { connection.in_transaction ≡ false }
    ensures { result.1.in_transaction ≡ false }
{
    let Some(day) = Day::parse(b"2024-01-31") else {
        return (Vec::new(alloc), connection);
    };
    match adopt(alloc, connection, day, &mut Unfollowed) {
        Ok(mut store) => {
            let mut source = WatchedReader::new(lines);
            let mut sink = WatchedWriter::new(Vec::new(alloc));
            let _ended = run(alloc, false, &mut store, &mut source, &mut sink);
            (sink.into_inner(), store.release())
        }
        Err((_, connection)) => (Vec::new(alloc), connection),
    }
}

/// Whether the tables of a connection are refused as those of no institution, and the connection after.
fn refused_over<S: Alter>(alloc: Global, connection: Connection<S>) -> (bool, Connection<S>)
    requires { connection.in_transaction ≡ false }
    ensures { result.1.in_transaction ≡ false }
{
    let Some(day) = Day::parse(b"2024-01-31") else {
        return (false, connection);
    };
    match adopt(alloc, connection, day, &mut Unfollowed) {
        Ok(store) => (false, store.release()),
        Err((fault, connection)) => (fault == Fault::F19, connection),
    }
}
