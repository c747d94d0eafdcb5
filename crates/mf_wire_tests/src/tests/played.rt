//! Lines of a journal, played over an institution in vectors.

use mf_base::{Day, Fault};
use mf_desk_books::Books;
use mf_journal::JournalRow;
use mf_play::{Stop, play_line, play_lines};
use mf_wire::answer_text;
use mf_wire_requests::Routes;
use std::alloc::Global;
use std::process::Abort;
use std::test::Fail;

/// The number of 31 January 2024, as Python's datetime counts from 1 January 2000.
const FIRST_DAY: u64 = 8_796;

const AMINA: &[u8] = b"{\"office\":1,\"name\":\"Amina\"}";

const CARLA: &[u8] = b"{\"office\":1,\"name\":\"Carla\"}";

/// The line by which the manager of the head office enters a client of it.
fn client_row(body: &'static [u8]) -> JournalRow<'static> {
    JournalRow {
        day: FIRST_DAY,
        office: 1,
        staff: 1,
        told: b"09:12 10.0.0.7".as_slice(),
        method: b"POST".as_slice(),
        path: b"/clients".as_slice(),
        body,
        named_office: 1,
        named_loan: 0,
    }
}

/// A new institution on that day, and the desk's routes.
fn opened(alloc: Global) -> Result<(Routes, Books), Fault> {
    let day = Day::parse(b"2024-01-31").ok_or(Fault::F1)?;
    let Ok(routes) = Routes::new(alloc) else {
        return Err(Fault::F20);
    };
    Ok((routes, Books::new(alloc, day)?))
}

/// The institution has so many clients that the second is this one.
fn assert_second_client(
    rt: &impl Abort,
    alloc: Global,
    books: &mut Books,
    told: &str,
) -> Result<(), Fail> {
    let path = b"/clients/0001-000002";
    let (status, text) = answer_text(alloc, books, b"1/1", b"GET", path, b"")?;
    assert_eq!(rt; status, 200);
    assert_eq!(rt; text.as_str(), told);
    Ok(())
}

#[test]
fn a_morning_plays(rt: HostRuntime) -> Result<(), Fail> {
    let alloc = rt.alloc();
    let (routes, mut books) = opened(alloc)?;
    let rows = [client_row(AMINA), client_row(CARLA)];
    let played = play_lines(alloc, &routes, &mut books, rows.as_slice())?;
    assert_eq!(rt; played, Ok(()));
    assert_second_client(
        &rt,
        alloc,
        &mut books,
        "{\"client\":\"0001-000002\",\"name\":\"Carla\"}",
    )
}

/// Lines that each stop after Amina is a client, and why, of one that would play.
fn stopping_lines(line: JournalRow<'static>) -> [(JournalRow<'static>, Stop); 8] {
    let path = b"/clients/0001-000001".as_slice();
    [
        (
            JournalRow {
                path: b"/client".as_slice(),
                ..line
            },
            Stop::NoRequest,
        ),
        (
            JournalRow {
                body: b"{}".as_slice(),
                ..line
            },
            Stop::NoRequest,
        ),
        (
            JournalRow {
                office: 10_000,
                ..line
            },
            Stop::NoRequest,
        ),
        (JournalRow { staff: 0, ..line }, Stop::NoRequest),
        (
            JournalRow {
                day: FIRST_DAY + 1,
                ..line
            },
            Stop::OtherDay,
        ),
        (JournalRow { staff: 7, ..line }, Stop::Refused),
        (
            JournalRow {
                method: b"GET".as_slice(),
                path,
                ..line
            },
            Stop::ChangesNothing,
        ),
        (
            JournalRow {
                named_loan: 1,
                ..line
            },
            Stop::NamesOther,
        ),
    ]
}

/// Each line stops at its place, and nothing is changed: the client who is entered then is the second.
#[test]
fn lines_stop(rt: HostRuntime) -> Result<(), Fail> {
    let alloc = rt.alloc();
    let line = client_row(CARLA);
    let stopping = stopping_lines(line);
    let (routes, mut books) = opened(alloc)?;
    assert_eq!(rt;
        play_line(alloc, &routes, &mut books, client_row(AMINA))?,
        Ok(())
    );
    for (row, why) in &stopping {
        assert_eq!(rt; play_line(alloc, &routes, &mut books, *row)?, Err(*why));
    }
    let rows = [line, stopping[5].0, line];
    let played = play_lines(alloc, &routes, &mut books, rows.as_slice())?;
    assert_eq!(rt; played, Err((1, Stop::Refused)));
    assert_second_client(
        &rt,
        alloc,
        &mut books,
        "{\"client\":\"0001-000002\",\"name\":\"Carla\"}",
    )
}

/// A store that gives up at each call in turn: the line doesn't play, and plays then.
#[test]
fn a_line_plays_after_the_store_gave_up(rt: HostRuntime) -> Result<(), Fail> {
    let alloc = rt.alloc();
    for calls in 0..1000 {
        let (routes, mut books) = opened(alloc)?;
        books.refuse_after(calls);
        match play_line(alloc, &routes, &mut books, client_row(AMINA)) {
            Ok(played) => {
                assert_eq!(rt; played, Ok(()));
                assert!(rt; calls > 3);
                return Ok(());
            }
            Err(fault) => assert_eq!(rt; fault, Fault::F20),
        }
        assert_eq!(rt;
            play_line(alloc, &routes, &mut books, client_row(AMINA))?,
            Ok(())
        );
    }
    Err(Fail::from("every line was refused"))
}
