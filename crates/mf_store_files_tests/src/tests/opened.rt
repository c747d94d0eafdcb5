//! A file that is opened twice.

use mf_base::Day;
use mf_store::Store;
use mf_store_files::open;
use mf_store_schema::Unfollowed;
use mf_wire::run;
use mf_wire_lines::{WatchedReader, WatchedWriter};
use sqlite::Alter;
use std::alloc::Global;
use std::fs;
use std::rt::HostRuntime;
use std::test::Fail;

/// A file of the folder in which the tests are run.
const FILE: &str = "a_file_is_opened_twice.db";

/// The log that SQLite keeps beside it.
const LOG: &str = "a_file_is_opened_twice.db-wal";

const SHOW_DAY: &[u8] = b"1/1 GET /business-day\n";

const FIRST_DAY: &str = "200 {\"day\":\"2024-01-31\"}\n";

/// The replies of a store to lines.
fn told_by<S: Alter>(alloc: Global, store: &mut Store<S>, lines: &[u8]) -> Vec<u8> {
    let mut source = WatchedReader::new(lines);
    let mut sink = WatchedWriter::new(Vec::new(alloc));
    let _ended = run(alloc, false, store, &mut source, &mut sink);
    sink.into_inner()
}

/// What is told of the business day over the file, which is opened on this day.
fn opened_on(rt: &HostRuntime, day: &str) -> Result<Vec<u8>, Fail> {
    let Some(day) = Day::parse(day.as_bytes()) else {
        return Err(Fail::new("a day"));
    };
    match open(rt, FILE, day, &mut Unfollowed) {
        Ok(mut store) => Ok(told_by(rt.alloc(), &mut store, SHOW_DAY)),
        Err(_) => Err(Fail::new("a store over the file")),
    }
}

/// The day of the first opening stands. The file may be missing, or be left by a run of this test that was cut off.
#[test]
fn a_file_is_opened_twice(rt: HostRuntime) -> Result<(), Fail> {
    let first = opened_on(&rt, "2024-01-31")?;
    assert!(rt; first.as_slice() == FIRST_DAY.as_bytes());
    let second = opened_on(&rt, "2024-02-29")?;
    assert!(rt; second.as_slice() == FIRST_DAY.as_bytes());
    fs::remove_file(&rt, LOG)?;
    fs::remove_file(&rt, FILE)?;
    Ok(())
}
