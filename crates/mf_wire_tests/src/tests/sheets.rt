//! Sheets that are collected over an institution in vectors. Of that store nothing is proved but that it is safe.

mod faults;
mod forms;
mod memory;
mod noted;
mod repeats;

use mf_base::Day;
use mf_desk_books::Books;
use mf_desk_books::streams::{ENTERED, LENT};
use mf_office::Caller;
use mf_sheet::{LONGEST, collect};
use mf_wire::run;
use mf_wire_lines::{WatchedReader, WatchedWriter};
use std::alloc::Global;
use std::process::Abort;
use std::test::Fail;

const LENT_REPLIES: &str = "201 {\"product\":1}\n\
201 {\"client\":\"0001-000001\"}\n\
201 {\"loan\":\"0001-000001\"}\n\
200 {\"loan\":\"0001-000001\",\"status\":200}\n\
200 {\"loan\":\"0001-000001\",\"status\":300}\n\
200 {\"day\":\"2024-03-31\"}\n";

/// The results of the sheet where its first line had been entered.
const FIRST_REPEATED: &str = "receipt,loan,date,amount,result\n\
R-1,0001-000001,2024-02-29,200,repeated\n\
R-2,0001-000001,2024-03-31,500.00,entered\n\
R-3,0001-000009,2024-03-31,1.5,F4\n";

/// Its results where it is sent again.
const REPEATED: &str = "receipt,loan,date,amount,result\n\
R-1,0001-000001,2024-02-29,200,repeated\n\
R-2,0001-000001,2024-03-31,500.00,repeated\n\
R-3,0001-000009,2024-03-31,1.5,F4\n";

/// The results of that sheet where so many of its lines were run before.
fn results_after(lines: usize) -> &'static str {
    match lines {
        0 => ENTERED,
        1 => FIRST_REPEATED,
        _ => REPEATED,
    }
}

/// The replies to lines, where each was answered.
fn tell(alloc: Global, books: &mut Books, lines: &str) -> Option<Vec<u8>> {
    let mut source = WatchedReader::new(lines.as_bytes());
    let mut sink = WatchedWriter::new(Vec::new(alloc));
    match run(alloc, false, books, &mut source, &mut sink) {
        Ok(_) => Some(sink.into_inner()),
        Err(_) => None,
    }
}

fn replies(alloc: Global, books: &mut Books, lines: &str) -> Result<Vec<u8>, Fail> {
    Ok(tell(alloc, books, lines).ok_or("every line answered")?)
}

/// The institution gives these replies to lines.
fn assert_replies(
    rt: &impl Abort,
    alloc: Global,
    books: &mut Books,
    lines: &str,
    expected: &str,
) -> Result<(), Fail> {
    let written = replies(alloc, books, lines)?;
    assert_eq!(rt; written.as_slice(), expected.as_bytes());
    Ok(())
}

/// The institution with that loan, where it could be made.
fn make_books(alloc: Global) -> Option<Books> {
    let day = Day::parse(b"2024-01-31")?;
    let mut books = Books::new(alloc, day).ok()?;
    let written = tell(alloc, &mut books, LENT)?;
    if written.as_slice() == LENT_REPLIES.as_bytes() {
        Some(books)
    } else {
        None
    }
}

fn lent(alloc: Global) -> Result<Books, Fail> {
    Ok(make_books(alloc).ok_or("a loan that was paid out")?)
}

/// The results of a sheet, where it was collected to its end.
fn collect_sheet(alloc: Global, books: &mut Books, staff: &str, sheet: &[u8]) -> Option<Vec<u8>> {
    let caller = Caller::parse(staff.as_bytes())?;
    if sheet.len() > LONGEST {
        return None;
    }
    let mut sink = WatchedWriter::new(Vec::new(alloc));
    match collect(alloc, books, b"".as_slice(), caller, sheet, &mut sink) {
        Ok(()) => Some(sink.into_inner()),
        Err(_) => None,
    }
}

fn results(alloc: Global, books: &mut Books, staff: &str, sheet: &[u8]) -> Result<Vec<u8>, Fail> {
    Ok(collect_sheet(alloc, books, staff, sheet).ok_or("a sheet that was collected")?)
}

/// The sheet has these results where that member of staff sends it.
fn assert_results(
    rt: &impl Abort,
    alloc: Global,
    books: &mut Books,
    staff: &str,
    sheet: &[u8],
    expected: &[u8],
) -> Result<(), Fail> {
    let written = results(alloc, books, staff, sheet)?;
    assert_eq!(rt; written.as_slice(), expected);
    Ok(())
}
