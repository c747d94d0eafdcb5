//! Streams of request lines, run over an institution in vectors. Of that store nothing is proved but that it is safe.

mod messages;
mod refused;

use mf_base::{Cause, Day, Fault, StreamFault};
use mf_desk_books::streams::{FIRST, FIRST_REPLIES};
use mf_desk_books::{Books, Narrow, Torn};
use mf_wire::{answer_text, run};
use mf_wire_lines::{WatchedReader, WatchedWriter, fault_text};
use std::alloc::Global;
use std::process::Abort;
use std::test::Fail;

const LONGEST_REPLIES: &str =
    "200 {\"offices\":[{\"name\":\"Head Office\",\"number\":1,\"parent\":null}]}\n\
400 {\"fault\":\"F1\"}\n\
400 {\"fault\":\"F1\"}\n\
404 {\"fault\":\"F4\"}\n";

fn new_books(alloc: Global) -> Result<Books, Fault> {
    let day = Day::parse(b"2024-01-31").ok_or(Fault::F1)?;
    Books::new(alloc, day)
}

/// What a run over the whole stream writes.
fn replies(alloc: Global, books: &mut Books, stream: &[u8]) -> Result<(u64, Vec<u8>), Fail> {
    let mut source = WatchedReader::new(stream);
    let mut sink = WatchedWriter::new(Vec::new(alloc));
    match run(alloc, false, books, &mut source, &mut sink) {
        Ok(count) => Ok((count, sink.into_inner())),
        Err(fault) => Err(Fail::from(fault)),
    }
}

/// A new institution gives these replies to a stream, and answers so many of its lines.
fn assert_replies(
    rt: &impl Abort,
    alloc: Global,
    stream: &[u8],
    answered: u64,
    expected: &str,
) -> Result<(), Fail> {
    let mut books = new_books(alloc)?;
    let (count, written) = replies(alloc, &mut books, stream)?;
    assert_eq!(rt; count, answered);
    assert_eq!(rt; written.as_slice(), expected.as_bytes());
    Ok(())
}

/// Lines whose first words are told of them, and their replies.
const TOLD: &str =
    "09:12,10.0.0.7 1/1 GET /offices\n 1/1 GET /offices\nalone\n09:12\t 1/1 GET /offices\n";

const TOLD_REPLIES: &str =
    "200 {\"offices\":[{\"name\":\"Head Office\",\"number\":1,\"parent\":null}]}\n\
400 {\"fault\":\"F1\"}\n\
400 {\"fault\":\"F1\"}\n\
400 {\"fault\":\"F1\"}\n";

#[test]
fn first_words_that_are_told(rt: HostRuntime) -> Result<(), Fail> {
    let alloc = rt.alloc();
    let mut books = new_books(alloc)?;
    let mut source = WatchedReader::new(TOLD.as_bytes());
    let mut sink = WatchedWriter::new(Vec::new(alloc));
    let answered = run(alloc, true, &mut books, &mut source, &mut sink);
    assert_eq!(rt; answered.ok(), Some(4));
    assert_eq!(rt; sink.into_inner().as_slice(), TOLD_REPLIES.as_bytes());
    Ok(())
}

/// A line of 65,536 bytes is answered, and one of a byte more is not; the line after it is.
#[test]
fn the_longest_line(rt: HostRuntime) -> Result<(), Fail> {
    let alloc = rt.alloc();
    let begin = b"1/1 GET /offices ";
    let mut stream = Vec::new(alloc);
    for length in [65536usize, 65537, 70000] {
        stream.extend_from_slice(begin)?;
        for _ in begin.len()..length {
            stream.push(b' ')?;
        }
        stream.extend_from_slice(b"\r\n")?;
    }
    stream.extend_from_slice(b"1/1 GET /clients/0001-000001")?;
    assert_replies(&rt, alloc, stream.as_slice(), 4, LONGEST_REPLIES)
}

/// The reader fails within the third line: two are answered, and the third is not run.
#[test]
fn a_reader_that_fails(rt: HostRuntime) -> Result<(), Fail> {
    let alloc = rt.alloc();
    let mut books = new_books(alloc)?;
    let torn = b"1/1 POST /clients {\"office\":1,\"name\":\"A\"}\n1/1 GET /nowhere\n\
         1/1 POST /clients {\"office\":1,\"name\":\"B\"}";
    let mut source = WatchedReader::new(Torn {
        bytes: torn.as_slice(),
    });
    let mut sink = WatchedWriter::new(Vec::new(alloc));
    let told = run(alloc, false, &mut books, &mut source, &mut sink);
    let fault = StreamFault {
        answered: 2,
        cause: Cause::Read,
    };
    assert_eq!(rt; told.err(), Some(fault));
    assert_eq!(rt;
        sink.into_inner().as_slice(),
        b"201 {\"client\":\"0001-000001\"}\n404 {\"fault\":\"F5\"}\n".as_slice()
    );
    let client = b"/clients/0001-000002";
    let third = answer_text(alloc, &mut books, b"1/1", b"GET", client, b"");
    assert_eq!(rt; third.err(), Some(Fault::F4));
    Ok(())
}

/// What a run over the first stream ends with, and the bytes that the writer has taken.
fn run_into(
    alloc: Global,
    books: &mut Books,
    writer: Narrow,
) -> (Result<u64, StreamFault>, Vec<u8>) {
    let mut source = WatchedReader::new(FIRST.as_bytes());
    let mut sink = WatchedWriter::new(writer);
    let told = run(alloc, false, books, &mut source, &mut sink);
    (told, sink.into_inner().taken)
}

/// The writer takes ten bytes and then fails: the client stands.
#[test]
fn a_writer_that_fails(rt: HostRuntime) -> Result<(), Fail> {
    let alloc = rt.alloc();
    let mut books = new_books(alloc)?;
    let (told, taken) = run_into(alloc, &mut books, Narrow::new(alloc, 100, 10));
    let fault = StreamFault {
        answered: 0,
        cause: Cause::Write,
    };
    assert_eq!(rt; told.err(), Some(fault));
    assert_eq!(rt; taken.as_slice(), b"201 {\"clie".as_slice());
    let client = b"/clients/0001-000001";
    let (status, body) = answer_text(alloc, &mut books, b"1/1", b"GET", client, b"")?;
    assert_eq!(rt; status, 200);
    assert_eq!(rt;
        body.as_str(),
        "{\"client\":\"0001-000001\",\"name\":\"Amina\"}"
    );
    Ok(())
}

#[test]
fn a_writer_of_one_byte_a_call(rt: HostRuntime) -> Result<(), Fail> {
    let mut books = new_books(rt.alloc())?;
    let (told, taken) = run_into(rt.alloc(), &mut books, Narrow::new(rt.alloc(), 1, 1000000));
    assert_eq!(rt; told.ok(), Some(8));
    assert_eq!(rt; taken.as_slice(), FIRST_REPLIES.as_bytes());
    Ok(())
}

#[test]
fn texts_of_refusals(rt: HostRuntime) -> Result<(), Fail> {
    assert_eq!(rt; fault_text(Fault::F4).0, 404);
    assert_eq!(rt; fault_text(Fault::F4).1, "{\"fault\":\"F4\"}");
    assert_eq!(rt; fault_text(Fault::F18).0, 409);
    assert_eq!(rt; fault_text(Fault::F18).1, "{\"fault\":\"F18\"}");
    assert_eq!(rt; fault_text(Fault::F20).0, 503);
    Ok(())
}
