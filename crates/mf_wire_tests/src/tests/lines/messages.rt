//! HTTP messages, each answered over an institution in vectors.

use super::{assert_replies, new_books};
use mf_base::{Cause, Fault, StreamFault};
use mf_desk_books::streams::{CLIENT, CREATED};
use mf_desk_books::{Books, Narrow, Torn};
use mf_wire::{Desk, answer_text, serve_one};
use mf_wire_lines::{WatchedReader, WatchedWriter};
use std::alloc::Global;
use std::process::Abort;
use std::test::Fail;

/// Whether the stream was answered, and what was written.
fn serve(
    alloc: Global,
    desk: &Desk,
    books: &mut Books,
    stream: &[u8],
) -> Result<(bool, Vec<u8>), Fail> {
    let mut source = WatchedReader::new(stream);
    let mut sink = WatchedWriter::new(Vec::new(alloc));
    match serve_one(alloc, desk, books, &mut source, &mut sink) {
        Ok(answered) => Ok((answered, sink.into_inner())),
        Err(fault) => Err(Fail::from(fault)),
    }
}

/// The institution has no client.
fn assert_no_client(rt: &impl Abort, alloc: Global, books: &mut Books) {
    let first = answer_text(alloc, books, b"1/1", b"GET", b"/clients/0001-000001", b"");
    assert_eq!(rt; first.err(), Some(Fault::F4));
}

/// A line and a message, answered byte for byte: a body that gives up before it reads answers neither.
#[test]
fn gives_up_before_reading(rt: HostRuntime) -> Result<(), Fail> {
    let alloc = rt.alloc();
    let desk = Desk::new(alloc, false)?;
    let mut books = new_books(alloc)?;
    let (answered, written) = serve(alloc, &desk, &mut books, CLIENT.as_bytes())?;
    assert!(rt; answered);
    assert_eq!(rt; written.as_slice(), CREATED.as_bytes());
    let line = b"1/1 POST /clients {\"office\":1,\"name\":\"Amina\"}\n";
    assert_replies(&rt, alloc, line, 1, "201 {\"client\":\"0001-000001\"}\n")
}

/// A response with that status line, and that body, which is sent unless the request was HEAD.
fn assert_response(
    rt: &impl Abort,
    alloc: Global,
    stream: &[u8],
    status_line: &str,
    body: &str,
    is_sent: bool,
) -> Result<(), Fail> {
    let desk = Desk::new(alloc, false)?;
    let mut books = new_books(alloc)?;
    let (answered, written) = serve(alloc, &desk, &mut books, stream)?;
    assert!(rt; answered);
    let length = body.len();
    let sent = if is_sent { body } else { "" };
    let expected = format!(in alloc;
        "HTTP/1.1 {status_line}\r\nContent-Type: application/json\r\nContent-Length: {length}\r\n\
         Connection: close\r\n\r\n{sent}"
    )?;
    assert_eq!(rt; written.as_slice(), expected.as_bytes());
    assert_no_client(rt, alloc, &mut books);
    Ok(())
}

const OFFICES: &str = "{\"offices\":[{\"name\":\"Head Office\",\"number\":1,\"parent\":null}]}";

/// A message that changes nothing, the status that answers it with its phrase, and the body.
const ANSWERED: [(&str, &str, &str); 16] = [
    (
        "GET /offices HTTP/1.0\r\nX-Staff: 1/1\r\n\r\n",
        "200 OK",
        OFFICES,
    ),
    (
        "GET /offices HTTP/1.1\r\nX-Staff: 9/9\r\n\r\n",
        "401 Unauthorized",
        "{\"fault\":\"F2\"}",
    ),
    (
        "GET /offices HTTP/1.1\r\nX-Staff: head\r\n\r\n",
        "400 Bad Request",
        "{\"fault\":\"F1\"}",
    ),
    (
        "GET /clients/0001-000009 HTTP/1.1\r\nX-Staff: 1/1\r\n\r\n",
        "404 Not Found",
        "{\"fault\":\"F4\"}",
    ),
    (
        "GET http://h/offices HTTP/1.1\r\nX-Staff: 1/1\r\n\r\n",
        "404 Not Found",
        "{\"fault\":\"F5\"}",
    ),
    (
        "PUT /clients HTTP/1.1\r\nX-Staff: 1/1\r\n\r\n",
        "405 Method Not Allowed",
        "{\"fault\":\"F6\"}",
    ),
    (
        "PUT /business-day HTTP/1.1\r\nX-Staff: 1/1\r\nContent-Length: 20\r\n\r\n{\"day\":\"2024-01-31\"}",
        "409 Conflict",
        "{\"fault\":\"F17\"}",
    ),
    (
        "POST /clients HTTP/1.1\r\n\r\n",
        "400 Bad Request",
        "{\"fault\":\"F1\"}",
    ),
    (
        "GET /offices HTTP/1.1\r\nX-Staff: 1/1\r\nX-Staff: 1/1\r\n\r\n",
        "400 Bad Request",
        "{\"fault\":\"F1\"}",
    ),
    (
        "POST /clients HTTP/1.1\r\nX-Staff: 1/1\r\nContent-Length: 27, 27\r\n\r\n{\"office\":1,\"name\":\"Amina\"}",
        "400 Bad Request",
        "{\"fault\":\"F1\"}",
    ),
    (
        "GET /offices HTTP/1.1\r\nX-Staff: 1/1\r\nContent-Length: +5\r\n\r\nabcde",
        "400 Bad Request",
        "{\"fault\":\"F1\"}",
    ),
    (
        "GET /offices HTTP/1.1\r\nX-Staff: 1/1\r\nContent-Length: 1048577\r\n\r\n",
        "400 Bad Request",
        "{\"fault\":\"F1\"}",
    ),
    (
        "GET /offices HTTP/1.1\r\nX-Staff: 1/1\r\nTransfer-Encoding: identity\r\n\r\n",
        "400 Bad Request",
        "{\"fault\":\"F1\"}",
    ),
    (
        "POST /clients HTTP/1.1\r\nX-Sta",
        "400 Bad Request",
        "{\"fault\":\"F1\"}",
    ),
    (
        "POST /clients HTTP/1.1\r\nX-Staff: 1/1\r\nContent-Length: 27\r\n\r\n{\"off",
        "400 Bad Request",
        "{\"fault\":\"F1\"}",
    ),
    (
        "POST /clients HTTP/1.1\r\nX-Staff: 1/1\r\nContent-Length: 26\r\n\r\n{\"office\":1,\"name\":\"Amina\"}",
        "400 Bad Request",
        "{\"fault\":\"F1\"}",
    ),
];

#[test]
fn messages_without_a_change(rt: HostRuntime) -> Result<(), Fail> {
    for (stream, status_line, body) in ANSWERED {
        assert_response(&rt, rt.alloc(), stream.as_bytes(), status_line, body, true)?;
    }
    Ok(())
}

/// A body of 1,048,576 bytes arrives, and of one of a byte more the head is refused.
#[test]
fn the_longest_body(rt: HostRuntime) -> Result<(), Fail> {
    let alloc = rt.alloc();
    for (length, status_line, body) in [
        (1048576usize, "200 OK", OFFICES),
        (1048577, "400 Bad Request", "{\"fault\":\"F1\"}"),
    ] {
        let head = format!(in alloc;
            "GET /offices HTTP/1.1\r\nX-Staff: 1/1\r\nContent-Length: {length}\r\n\r\n"
        )?;
        let mut stream = Vec::from_slice(alloc, head.as_bytes())?;
        for _ in 0..length {
            stream.push(b' ')?;
        }
        assert_response(&rt, alloc, stream.as_slice(), status_line, body, true)?;
    }
    Ok(())
}

/// A message to HEAD, its status, and the body that it has, though none is sent.
const ANSWERED_TO_HEAD: [(&str, &str, &str); 4] = [
    (
        "HEAD /offices HTTP/1.1\r\nX-Staff: 1/1\r\n\r\n",
        "405 Method Not Allowed",
        "{\"fault\":\"F6\"}",
    ),
    (
        "HEAD /nowhere HTTP/1.1\r\nX-Staff: 1/1\r\n\r\n",
        "404 Not Found",
        "{\"fault\":\"F5\"}",
    ),
    (
        "HEAD /offices HTTP/1.1\r\nX-Staff: nobody\r\n\r\n",
        "400 Bad Request",
        "{\"fault\":\"F1\"}",
    ),
    (
        "HEAD /offices HTTP/1.1\r\n\r\n",
        "400 Bad Request",
        "{\"fault\":\"F1\"}",
    ),
];

/// Where the head is cut its method counts for nothing, and the body is sent.
#[test]
fn responses_to_head(rt: HostRuntime) -> Result<(), Fail> {
    for (stream, status_line, body) in ANSWERED_TO_HEAD {
        assert_response(&rt, rt.alloc(), stream.as_bytes(), status_line, body, false)?;
    }
    let cut = "HEAD /offices HTTP/1.1\r\nX-Sta";
    assert_response(
        &rt,
        rt.alloc(),
        cut.as_bytes(),
        "400 Bad Request",
        "{\"fault\":\"F1\"}",
        true,
    )
}

#[test]
fn a_stream_without_a_byte(rt: HostRuntime) -> Result<(), Fail> {
    let alloc = rt.alloc();
    let desk = Desk::new(alloc, false)?;
    let mut books = new_books(alloc)?;
    let (answered, written) = serve(alloc, &desk, &mut books, b"")?;
    assert!(rt; !answered);
    assert!(rt; written.is_empty());
    assert_no_client(&rt, alloc, &mut books);
    Ok(())
}

/// Fields X-Told of a message that makes a client, and whether it is refused where something may be told.
const TOLD: [(&str, bool); 5] = [
    ("", false),
    ("X-Told:\r\n", false),
    ("x-TOLD: 09:12 10.0.0.7\r\n", false),
    ("X-Told: 09:12\r\nX-Told: 09:12\r\n", true),
    ("X-Told: 09:12\t10.0.0.7\r\n", true),
];

/// Where something may be told, a field that tells nothing that may be is refused; else it is not looked at.
#[test]
fn what_messages_tell(rt: HostRuntime) -> Result<(), Fail> {
    let alloc = rt.alloc();
    let (hears, deaf) = (Desk::new(alloc, true)?, Desk::new(alloc, false)?);
    let refused =
        "HTTP/1.1 400 Bad Request\r\nContent-Type: application/json\r\nContent-Length: 14\r\n\
         Connection: close\r\n\r\n{\"fault\":\"F1\"}";
    for (field, is_refused) in TOLD {
        let message = format!(in alloc;
            "POST /clients HTTP/1.1\r\nX-Staff: 1/1\r\n{field}Content-Length: 27\r\n\r\n\
             {{\"office\":1,\"name\":\"Amina\"}}"
        )?;
        let mut books = new_books(alloc)?;
        let (_, written) = serve(alloc, &hears, &mut books, message.as_bytes())?;
        let expected = if is_refused { refused } else { CREATED };
        assert_eq!(rt; written.as_slice(), expected.as_bytes());
        let mut books = new_books(alloc)?;
        let (_, written) = serve(alloc, &deaf, &mut books, message.as_bytes())?;
        assert_eq!(rt; written.as_slice(), CREATED.as_bytes());
    }
    Ok(())
}

/// Of two messages on one connection the first is answered, and the second is not run.
#[test]
fn one_message_a_connection(rt: HostRuntime) -> Result<(), Fail> {
    let alloc = rt.alloc();
    let desk = Desk::new(alloc, false)?;
    let mut books = new_books(alloc)?;
    let both = format!(in alloc; "{CLIENT}{CLIENT}")?;
    let (answered, written) = serve(alloc, &desk, &mut books, both.as_bytes())?;
    assert!(rt; answered);
    assert_eq!(rt; written.as_slice(), CREATED.as_bytes());
    let second = answer_text(
        alloc,
        &mut books,
        b"1/1",
        b"GET",
        b"/clients/0001-000002",
        b"",
    );
    assert_eq!(rt; second.err(), Some(Fault::F4));
    Ok(())
}

/// The reader fails at each place of the message: nothing is answered or written.
#[test]
fn readers_that_fail(rt: HostRuntime) -> Result<(), Fail> {
    let alloc = rt.alloc();
    let desk = Desk::new(alloc, false)?;
    let mut books = new_books(alloc)?;
    let fault = StreamFault {
        answered: 0,
        cause: Cause::Read,
    };
    for place in 0..CLIENT.len() {
        let mut source = WatchedReader::new(Torn {
            bytes: &CLIENT.as_bytes()[..place],
        });
        let mut sink = WatchedWriter::new(Vec::new(alloc));
        let told = serve_one(alloc, &desk, &mut books, &mut source, &mut sink);
        assert_eq!(rt; told.err(), Some(fault));
        assert!(rt; sink.into_inner().is_empty());
    }
    assert_no_client(&rt, alloc, &mut books);
    Ok(())
}

/// The writer fails at each place of the response: a beginning of it was written, and the client stands.
#[test]
fn writers_that_fail(rt: HostRuntime) -> Result<(), Fail> {
    let alloc = rt.alloc();
    let desk = Desk::new(alloc, false)?;
    let fault = StreamFault {
        answered: 0,
        cause: Cause::Write,
    };
    for room in 0..CREATED.len() {
        let mut books = new_books(alloc)?;
        let mut source = WatchedReader::new(CLIENT.as_bytes());
        let mut sink = WatchedWriter::new(Narrow::new(alloc, 7, room));
        let told = serve_one(alloc, &desk, &mut books, &mut source, &mut sink);
        assert_eq!(rt; told.err(), Some(fault));
        assert_eq!(rt;
            sink.into_inner().taken.as_slice(),
            &CREATED.as_bytes()[..room]
        );
        let client = b"/clients/0001-000001";
        let (status, _) = answer_text(alloc, &mut books, b"1/1", b"GET", client, b"")?;
        assert_eq!(rt; status, 200);
    }
    Ok(())
}

/// Streams of one byte a call give the same response, which ends with the last byte that the writer takes.
#[test]
fn one_byte_a_call(rt: HostRuntime) -> Result<(), Fail> {
    let alloc = rt.alloc();
    let desk = Desk::new(alloc, false)?;
    let mut books = new_books(alloc)?;
    let mut source = WatchedReader::new(Torn {
        bytes: CLIENT.as_bytes(),
    });
    let mut sink = WatchedWriter::new(Narrow::new(alloc, 1, CREATED.len()));
    let told = serve_one(alloc, &desk, &mut books, &mut source, &mut sink);
    assert_eq!(rt; told.ok(), Some(true));
    assert_eq!(rt; sink.into_inner().taken.as_slice(), CREATED.as_bytes());
    Ok(())
}

const GIVEN_UP: &str =
    "HTTP/1.1 503 Service Unavailable\r\nContent-Type: application/json\r\nContent-Length: 15\r\n\
     Connection: close\r\n\r\n{\"fault\":\"F20\"}";

/// Whether a message is answered by F20 where the store gives up after so many calls. If so there is no client, and the
/// same message is served afterwards.
fn is_given_up(rt: &impl Abort, alloc: Global, calls: u32) -> Result<bool, Fail> {
    let desk = Desk::new(alloc, false)?;
    let mut books = new_books(alloc)?;
    books.refuse_after(calls);
    let (answered, written) = serve(alloc, &desk, &mut books, CLIENT.as_bytes())?;
    assert!(rt; answered);
    if written.as_slice() == CREATED.as_bytes() {
        return Ok(false);
    }
    assert_eq!(rt; written.as_slice(), GIVEN_UP.as_bytes());
    assert_no_client(rt, alloc, &mut books);
    let (_, written) = serve(alloc, &desk, &mut books, CLIENT.as_bytes())?;
    assert_eq!(rt; written.as_slice(), CREATED.as_bytes());
    Ok(true)
}

/// Each call of the store gives up in turn: at least the one that finds the caller, and the one that adds the client.
#[test]
fn a_store_that_gives_up(rt: HostRuntime) -> Result<(), Fail> {
    for calls in 0..1000 {
        if !is_given_up(&rt, rt.alloc(), calls)? {
            assert!(rt; calls > 1);
            return Ok(());
        }
    }
    Err(Fail::from("every message was refused"))
}
