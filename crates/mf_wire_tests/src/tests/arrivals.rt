//! Messages over streams in memory, whole, in single bytes, and cut.

use mf_base::{Cause, Fault, StreamFault};
use mf_desk_books::streams::{CLIENT, CREATED};
use mf_desk_books::{Narrow, Torn};
use mf_wire_lines::{WatchedReader, WatchedWriter};
use mf_wire_messages::{Arrival, read_message, response_room, write_refusal, write_reply};
use std::alloc::Global;
use std::io;
use std::io::{Read, Write};
use std::process::Abort;
use std::test::Fail;

const CLIENT_TOLD: &str = "1/1 POST /clients {\"office\":1,\"name\":\"Amina\"}";

const REFUSED: &str =
    "HTTP/1.1 400 Bad Request\r\nContent-Type: application/json\r\nContent-Length: 14\r\nConnection: close\r\n\r\n\
     {\"fault\":\"F1\"}";

/// Gives its bytes one by one, and then ends.
#[derive(Drop)]
struct Drops<'a> {
    bytes: &'a [u8],
}

impl Read for Drops<'_> {
    fn read(&mut self, buf: &mut [u8]) -> io::Result<usize> {
        let room = buf.len().min(1);
        self.bytes.read(&mut buf[..room])
    }
}

/// What has arrived, as a text.
fn show(alloc: Global, arrival: &Arrival) -> Result<Vec<u8>, Fail> {
    let mut text = Vec::new(alloc);
    match arrival {
        Arrival::Silent => text.extend_from_slice(b"nothing")?,
        Arrival::Malformed { to_head: true } => text.extend_from_slice(b"F1 to HEAD")?,
        Arrival::Malformed { to_head: false } => text.extend_from_slice(b"F1")?,
        Arrival::NoRoom { to_head: _ } => text.extend_from_slice(b"F20")?,
        Arrival::Received(message) => {
            for part in [message.staff(), message.method(), message.target()] {
                text.extend_from_slice(part)?;
                text.push(b' ')?;
            }
            text.extend_from_slice(message.body())?;
        }
    }
    Ok(text)
}

/// The stream is reported as that, whether it comes at once or byte by byte.
fn assert_told(rt: &impl Abort, alloc: Global, stream: &[u8], expected: &str) -> Result<(), Fail> {
    let mut whole = WatchedReader::new(stream);
    let arrival = read_message(alloc, &mut whole)?;
    assert_eq!(rt; show(alloc, &arrival)?.as_slice(), expected.as_bytes());
    let mut drops = WatchedReader::new(Drops { bytes: stream });
    let arrival = read_message(alloc, &mut drops)?;
    assert_eq!(rt; show(alloc, &arrival)?.as_slice(), expected.as_bytes());
    Ok(())
}

/// A stream, and what has arrived by it.
const STREAMS: [(&str, &str); 15] = [
    (CLIENT, CLIENT_TOLD),
    ("", "nothing"),
    (
        "GET /offices HTTP/1.0\r\nx-sTAFF:  1/1 \r\n\r\n",
        "1/1 GET /offices ",
    ),
    (
        "\r\n\nGET /offices HTTP/1.1\nX-Staff: 1/1\n\nmore that is not read",
        "1/1 GET /offices ",
    ),
    (
        "HEAD /offices HTTP/1.1\r\nX-Staff: 1/1\r\n\r\n",
        "1/1 HEAD /offices ",
    ),
    (
        "GET http://localhost/offices HTTP/1.1\r\nX-Staff: 1/1\r\n\r\n",
        "1/1 GET http://localhost/offices ",
    ),
    (
        "PUT /a HTTP/1.1\r\nX-Staff: 1/1\r\nContent-Length: 0000000002\r\n\r\nabc",
        "1/1 PUT /a ab",
    ),
    ("HEAD /offices HTTP/1.1\r\n\r\n", "F1 to HEAD"),
    ("GET /a HTTP/1.2\r\nX-Staff: 1/1\r\n\r\n", "F1"),
    ("GET /a HTTP/2.0\r\nX-Staff: 1/1\r\n\r\n", "F1"),
    ("POST /clients HTTP/1.1\r\nX-Sta", "F1"),
    ("HEAD /clients HTTP/1.1\r\nX-Sta", "F1"),
    ("\r\n", "F1"),
    (
        "POST /clients HTTP/1.1\r\nX-Staff: 1/1\r\nContent-Length: 27\r\n\r\n{\"off",
        "F1",
    ),
    (
        "HEAD /clients HTTP/1.1\r\nX-Staff: 1/1\r\nContent-Length: 27\r\n\r\n{\"off",
        "F1 to HEAD",
    ),
];

#[test]
fn messages_that_are_read_or_refused(rt: HostRuntime) -> Result<(), Fail> {
    for (stream, expected) in STREAMS {
        assert_told(&rt, rt.alloc(), stream.as_bytes(), expected)?;
    }
    Ok(())
}

#[test]
fn fields_that_are_refused(rt: HostRuntime) -> Result<(), Fail> {
    for (fields, body) in [
        ("", ""),
        ("X-Staff: 1/1\r\nx-staff: 1/1\r\n", ""),
        ("X-Staff: 1/1\r\nContent-Length: 27, 27\r\n", ""),
        (
            "X-Staff: 1/1\r\nContent-Length: 1\r\nContent-Length: 1\r\n",
            "a",
        ),
        ("X-Staff: 1/1\r\nContent-Length: +5\r\n", "abcde"),
        ("X-Staff: 1/1\r\nContent-Length:\r\n", ""),
        ("X-Staff: 1/1\r\nContent-Length: 00000000001\r\n", "a"),
        ("X-Staff: 1/1\r\nContent-Length: 1048577\r\n", ""),
        ("X-Staff: 1/1\r\nTransfer-Encoding: identity\r\n", ""),
    ] {
        let stream = format!(in rt.alloc(); "GET /a HTTP/1.1\r\n{fields}\r\n{body}")?;
        assert_told(&rt, rt.alloc(), stream.as_bytes(), "F1")?;
    }
    Ok(())
}

#[test]
fn the_longest_head(rt: HostRuntime) -> Result<(), Fail> {
    let alloc = rt.alloc();
    for (length, expected) in [(16384usize, "1/1 HEAD /a "), (16385, "F1")] {
        let mut head = Vec::from_slice(alloc, b"HEAD /a HTTP/1.1\r\nX-Staff: 1/1\r\nPad: ")?;
        for _ in head.len() + 4..length {
            head.push(b'a')?;
        }
        head.extend_from_slice(b"\r\n\r\n")?;
        assert_eq!(rt; head.len(), length);
        let mut source = WatchedReader::new(head.as_slice());
        let arrival = read_message(alloc, &mut source)?;
        assert_eq!(rt; show(alloc, &arrival)?.as_slice(), expected.as_bytes());
    }
    Ok(())
}

#[test]
fn the_most_fields(rt: HostRuntime) -> Result<(), Fail> {
    let alloc = rt.alloc();
    for (count, expected) in [(64usize, "1/1 HEAD /a "), (65, "F1")] {
        let mut head = Vec::from_slice(alloc, b"HEAD /a HTTP/1.1\r\nX-Staff: 1/1\r\n")?;
        for _ in 1..count {
            head.extend_from_slice(b"A: b\r\n")?;
        }
        head.extend_from_slice(b"\r\n")?;
        assert_told(&rt, alloc, head.as_slice(), expected)?;
    }
    Ok(())
}

/// The reader fails before any byte, inside the head, and inside the body.
#[test]
fn a_reader_that_fails(rt: HostRuntime) -> Result<(), Fail> {
    let alloc = rt.alloc();
    for length in [0usize, 30, CLIENT.len() - 1] {
        let mut source = WatchedReader::new(Torn {
            bytes: &CLIENT.as_bytes()[..length],
        });
        let fault = StreamFault {
            answered: 0,
            cause: Cause::Read,
        };
        assert_eq!(rt; read_message(alloc, &mut source).err(), Some(fault));
    }
    Ok(())
}

/// Takes all that is written, and counts the writes.
#[derive(Drop)]
struct Counting {
    taken: Vec<u8>,
    writes: u32,
}

impl Write for Counting {
    fn write(&mut self, buf: &[u8]) -> io::Result<usize> {
        self.writes = self.writes.saturating_add(1);
        self.taken.write(buf)
    }

    fn flush(&mut self) -> io::Result<()> {
        Ok(())
    }
}

/// The response of a success and two refusals, the second to HEAD. Where the room takes a response it is written at
/// once, and where it takes the head alone, the body is written after it. Without a room each piece is written.
#[test]
fn responses_as_bytes(rt: HostRuntime) -> Result<(), Fail> {
    let alloc = rt.alloc();
    let body = b"{\"client\":\"0001-000001\"}";
    let head = CREATED.len() - body.len();
    for (size, writes) in [
        (CREATED.len(), 1),
        (CREATED.len() - 1, 2),
        (head, 2),
        (0, 8),
    ] {
        let mut room = vec![in alloc; 0; size]?;
        let mut sink = WatchedWriter::new(Counting {
            taken: Vec::new(alloc),
            writes: 0,
        });
        assert!(rt; write_reply(&mut sink, room.as_mut_slice(), 201, body, false).is_ok());
        let written = sink.into_inner();
        assert_eq!(rt; written.taken.as_slice(), CREATED.as_bytes());
        assert_eq!(rt; written.writes, writes, "{size}");
    }
    let mut room = response_room(alloc)?;
    let mut sink = WatchedWriter::new(Vec::new(alloc));
    assert!(rt; write_refusal(&mut sink, room.as_mut_slice(), Fault::F1, false).is_ok());
    assert_eq!(rt; sink.into_inner().as_slice(), REFUSED.as_bytes());
    let mut sink = WatchedWriter::new(Vec::new(alloc));
    assert!(rt; write_refusal(&mut sink, room.as_mut_slice(), Fault::F1, true).is_ok());
    assert_eq!(rt;
        sink.into_inner().as_slice(),
        &REFUSED.as_bytes()[..REFUSED.len() - 14]
    );
    Ok(())
}

/// The writer takes so many bytes and then fails: they are a beginning of the response, whether it is gathered or not.
#[test]
fn a_writer_that_fails(rt: HostRuntime) -> Result<(), Fail> {
    let alloc = rt.alloc();
    for size in [0usize, 100, 200] {
        let mut room = vec![in alloc; 0; size]?;
        for most in [0usize, 9, 40, CREATED.len() - 1, CREATED.len()] {
            let mut sink = WatchedWriter::new(Narrow::new(alloc, 7, most));
            let body = b"{\"client\":\"0001-000001\"}";
            let told = write_reply(&mut sink, room.as_mut_slice(), 201, body, false);
            assert_eq!(rt; told.is_ok(), most == CREATED.len());
            assert_eq!(rt;
                sink.into_inner().taken.as_slice(),
                &CREATED.as_bytes()[..most]
            );
        }
    }
    Ok(())
}
