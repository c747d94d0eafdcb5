//! A writer that fails, and a store that gives up.

use super::{lent, results, results_after};
use mf_base::{Cause, StreamFault};
use mf_desk_books::streams::{ENTERED, SHEET};
use mf_desk_books::{Books, Narrow};
use mf_office::Caller;
use mf_sheet::collect;
use mf_wire_lines::WatchedWriter;
use std::alloc::Global;
use std::process::Abort;
use std::test::Fail;

/// How the sheet ends where the writer takes so many bytes and then fails, and the bytes that it took.
fn collected_into(
    alloc: Global,
    books: &mut Books,
    caller: Caller,
    room: usize,
) -> (Result<(), StreamFault>, Vec<u8>) {
    let mut sink = WatchedWriter::new(Narrow::new(alloc, 7, room));
    let told = collect(
        alloc,
        books,
        b"".as_slice(),
        caller,
        SHEET.as_bytes(),
        &mut sink,
    );
    (told, sink.into_inner().taken)
}

/// How many records of a text are whole.
pub fn whole_records(text: &[u8]) -> usize {
    text.iter().filter(|byte| **byte == b'\n').count()
}

/// How a sheet ends whose writer fails when so many records are whole, the heading among them.
fn fault_after(records: usize) -> StreamFault {
    StreamFault {
        answered: records.saturating_sub(1) as u64,
        cause: Cause::Write,
    }
}

/// The writer takes so many bytes, at most as many as there are results, and then fails. They are a beginning of the
/// results. The lines whose result is whole and the one being written were run, and the others not, as the sheet tells
/// that is sent again.
fn assert_cut(rt: &impl Abort, alloc: Global, room: usize) -> Result<(), Fail> {
    let caller = Caller::parse(b"1/1").ok_or("a caller")?;
    let mut books = lent(alloc)?;
    let (told, taken) = collected_into(alloc, &mut books, caller, room);
    let records = whole_records(taken.as_slice());
    let fault = if room < ENTERED.len() {
        Some(fault_after(records))
    } else {
        None
    };
    assert_eq!(rt; told.err(), fault);
    assert_eq!(rt; taken.len(), room);
    assert!(rt; ENTERED.as_bytes().starts_with(taken.as_slice()));
    let again = results(alloc, &mut books, "1/1", SHEET.as_bytes())?;
    assert_eq!(rt; again.as_slice(), results_after(records).as_bytes());
    Ok(())
}

#[test]
fn a_writer_that_fails_at_each_place(rt: HostRuntime) -> Result<(), Fail> {
    for room in 0..ENTERED.len() + 1 {
        assert_cut(&rt, rt.alloc(), room)?;
    }
    Ok(())
}

/// The results where the line of this place is F20 and ends the sheet; those of all lines where there is no such line.
pub fn given_up_at(place: usize) -> &'static str {
    match place {
        0 => "receipt,loan,date,amount,result\n\
R-1,0001-000001,2024-02-29,200,F20\n",
        1 => "receipt,loan,date,amount,result\n\
R-1,0001-000001,2024-02-29,200,entered\n\
R-2,0001-000001,2024-03-31,500.00,F20\n",
        2 => "receipt,loan,date,amount,result\n\
R-1,0001-000001,2024-02-29,200,entered\n\
R-2,0001-000001,2024-03-31,500.00,entered\n\
R-3,0001-000009,2024-03-31,1.5,F20\n",
        _ => ENTERED,
    }
}

/// The sheet's results are those where the line of this place is given up, and it was not run.
fn is_given_up_at(rt: &impl Abort, alloc: Global, calls: u32, place: usize) -> Result<bool, Fail> {
    let mut books = lent(alloc)?;
    books.refuse_after(calls);
    let told = results(alloc, &mut books, "1/1", SHEET.as_bytes())?;
    if told.as_slice() != given_up_at(place).as_bytes() {
        return Ok(false);
    }
    books.refuse_after(1000);
    let again = results(alloc, &mut books, "1/1", SHEET.as_bytes())?;
    assert_eq!(rt; again.as_slice(), results_after(place).as_bytes());
    Ok(true)
}

/// The place of the line that is given up where the store gives up after so many calls; 3 where none is.
fn place_given_up(rt: &impl Abort, alloc: Global, calls: u32) -> Result<usize, Fail> {
    for place in 0..4 {
        if is_given_up_at(rt, alloc, calls, place)? {
            return Ok(place);
        }
    }
    Err(Fail::from("the results are not as they should be"))
}

/// Each call of the store gives up in turn: its line is F20 and was not run, and no line after it is answered.
#[test]
fn a_line_refused_by_the_store_ends_the_sheet(rt: HostRuntime) -> Result<(), Fail> {
    let mut last = 0;
    for calls in 0..1000 {
        let place = place_given_up(&rt, rt.alloc(), calls)?;
        assert!(rt; last <= place);
        if place == 3 {
            assert!(rt; calls > 10);
            return Ok(());
        }
        last = place;
    }
    Err(Fail::from("every sheet was refused"))
}
