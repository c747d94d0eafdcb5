//! The commands over an institution in vectors: a sheet from a source, the report's text, connections to a port.

use super::no_lists::WITHOUT;
use mf_base::{Cause, Day, Fault, StreamFault};
use mf_desk_books::streams::{CLIENT, CREATED, ENTERED, LENT, SHEET};
use mf_desk_books::{Books, Torn};
use mf_office::Caller;
use mf_wire::run;
use mf_wire_lines::{WatchedReader, WatchedWriter};
use microloan_commands::{SheetFault, SocketListener, collect_sheet, report, serve_connections};
use std::alloc::Global;
use std::cell::Cell;
use std::io;
use std::io::{Read, Write};
use std::net::{Ipv4Addr, Net, OpenListener, Shutdown, SocketAddr, TcpListener, TcpStream};
use std::process::Abort;
use std::rt::Clock;
use std::test::Fail;
use std::time::Duration;

/// The first instalment is paid; the second is 30 days overdue.
const AGED: &str =
    "1/1 POST /loans/0001-000001/repayments {\"amount\":34333,\"day\":\"2024-02-29\"}\n\
1/1 PUT /business-day {\"day\":\"2024-04-30\"}\n";

/// A day later.
const NEXT_DAY: &str = "1/1 PUT /business-day {\"day\":\"2024-05-01\"}\n";

const THIRTY_DAYS: &str =
    "   1           1                  666.67                  666.67                    \
0.00                    0.00                    0.00    0.00
 all           1                  666.67                  666.67                    0.00                    \
0.00                    0.00    0.00\n";

const THIRTY_ONE_DAYS: &str =
    "   1           1                  666.67                    0.00                  \
666.67                    0.00                    0.00  100.00
 all           1                  666.67                    0.00                  666.67                    \
0.00                    0.00  100.00\n";

/// How many seconds a silent client is waited for.
const PATIENCE: u32 = 1;

/// The response to a head that is cut.
const CUT: &str = "HTTP/1.1 400 Bad Request\r\n\
Content-Type: application/json\r\n\
Content-Length: 14\r\n\
Connection: close\r\n\
\r\n\
{\"fault\":\"F1\"}";

/// An institution that begins on 2024-01-31, after these request lines.
fn books_after(alloc: Global, lines: &str) -> Result<Books, Fail> {
    let day = Day::parse(b"2024-01-31").ok_or("a day")?;
    let mut books = Books::new(alloc, day)?;
    send(alloc, &mut books, lines)?;
    Ok(books)
}

/// The replies to request lines.
fn replies(alloc: Global, books: &mut Books, lines: &str) -> Result<Vec<u8>, Fail> {
    let mut source = WatchedReader::new(lines.as_bytes());
    let mut sink = WatchedWriter::new(Vec::new(alloc));
    run(alloc, false, books, &mut source, &mut sink)?;
    Ok(sink.into_inner())
}

/// Sends request lines.
fn send(alloc: Global, books: &mut Books, lines: &str) -> Result<(), Fail> {
    replies(alloc, books, lines)?;
    Ok(())
}

fn caller(staff: &str) -> Result<Caller, Fail> {
    Ok(Caller::parse(staff.as_bytes()).ok_or("a caller")?)
}

#[test]
fn the_report_has_fixed_columns(rt: HostRuntime) -> Result<(), Fail> {
    let alloc = rt.alloc();
    let mut books = books_after(alloc, LENT)?;
    send(alloc, &mut books, AGED)?;
    let text = report(alloc, &mut books, caller("1/1")?)?;
    assert_eq!(rt; text.as_str(), THIRTY_DAYS);
    send(alloc, &mut books, NEXT_DAY)?;
    let text = report(alloc, &mut books, caller("1/1")?)?;
    assert_eq!(rt; text.as_str(), THIRTY_ONE_DAYS);
    let refused = report(alloc, &mut books, caller("9/9")?);
    assert_eq!(rt; refused.err(), Some(Fault::F2));
    Ok(())
}

/// How a sheet of these bytes ends where a member of staff sends it, and what is written.
fn collect_from<R: Read + Drop>(
    alloc: Global,
    books: &mut Books,
    staff: Caller,
    sheet: R,
) -> (Result<(), SheetFault>, Vec<u8>) {
    let mut source = WatchedReader::new(sheet);
    let mut sink = WatchedWriter::new(Vec::new(alloc));
    let ended = collect_sheet(alloc, books, b"".as_slice(), staff, &mut source, &mut sink);
    (ended, sink.into_inner())
}

#[test]
fn a_sheet_is_read_to_its_end(rt: HostRuntime) -> Result<(), Fail> {
    let alloc = rt.alloc();
    let mut books = books_after(alloc, LENT)?;
    let (ended, written) = collect_from(alloc, &mut books, caller("1/1")?, SHEET.as_bytes());
    assert!(rt; ended.is_ok());
    assert_eq!(rt; written.as_slice(), ENTERED.as_bytes());
    let (ended, written) = collect_from(
        alloc,
        &mut books,
        caller("9/9")?,
        "R-1,0001-000001,2024-02-29,200".as_bytes(),
    );
    assert!(rt; ended.is_ok());
    assert_eq!(rt;
        written.as_slice(),
        b"receipt,loan,date,amount,result\nR-1,0001-000001,2024-02-29,200,F2\n".as_slice()
    );
    Ok(())
}

/// A sheet of 1,048,576 bytes is collected, and one of a byte more is refused whole.
#[test]
fn the_longest_sheet(rt: HostRuntime) -> Result<(), Fail> {
    let alloc = rt.alloc();
    let mut books = books_after(alloc, LENT)?;
    let mut sheet = vec![in alloc; b'\n'; 1048576]?;
    let (ended, written) = collect_from(alloc, &mut books, caller("1/1")?, sheet.as_slice());
    assert!(rt; ended.is_ok());
    assert_eq!(rt;
        written.as_slice(),
        b"receipt,loan,date,amount,result\n".as_slice()
    );
    sheet.push(b'\n')?;
    let (ended, written) = collect_from(alloc, &mut books, caller("1/1")?, sheet.as_slice());
    assert_eq!(rt; ended.err(), Some(SheetFault::TooLong));
    assert!(rt; written.is_empty());
    Ok(())
}

/// Nothing is answered of a sheet that can't be read to its end.
#[test]
fn a_sheet_that_is_torn(rt: HostRuntime) -> Result<(), Fail> {
    let alloc = rt.alloc();
    let mut books = books_after(alloc, LENT)?;
    let torn = Torn {
        bytes: SHEET.as_bytes(),
    };
    let (ended, written) = collect_from(alloc, &mut books, caller("1/1")?, torn);
    let fault = StreamFault {
        answered: 0,
        cause: Cause::Read,
    };
    assert_eq!(rt; ended.err(), Some(SheetFault::Stream(fault)));
    assert!(rt; written.is_empty());
    let (ended, written) = collect_from(alloc, &mut books, caller("1/1")?, SHEET.as_bytes());
    assert!(rt; ended.is_ok());
    assert_eq!(rt; written.as_slice(), ENTERED.as_bytes());
    Ok(())
}

/// A client that sends these bytes, and no more.
fn send_message<R: Net<Stream = TcpStream>>(
    rt: &R,
    port: u16,
    bytes: &str,
) -> io::Result<TcpStream> {
    let stream = TcpStream::connect(rt, (Ipv4Addr::LOCALHOST, port))?;
    (&stream).write_all(bytes.as_bytes())?;
    stream.shutdown(Shutdown::Write)?;
    Ok(stream)
}

/// What a client is sent.
fn answer(alloc: Global, stream: &TcpStream) -> io::Result<String> {
    io::read_to_string(alloc, stream)
}

/// Of four clients one sends nothing, one half a head, one a message and one comes too late: as many are served as are
/// asked for, each answered for itself.
#[test]
fn connections_are_served_in_turn(rt: HostRuntime) -> Result<(), Fail> {
    let alloc = rt.alloc();
    let mut books = books_after(alloc, "")?;
    let listener = TcpListener::bind(&rt, (Ipv4Addr::LOCALHOST, 0))?;
    let port = listener.local_addr()?.port();
    let silent = send_message(&rt, port, "")?;
    let cut = send_message(&rt, port, "POST /clients HTTP/1.1\r\nX-Sta")?;
    let whole = send_message(&rt, port, CLIENT)?;
    let _late = send_message(&rt, port, CLIENT)?;
    let served = serve_connections(
        alloc,
        WITHOUT,
        false,
        &mut books,
        &mut SocketListener::new(&listener, &rt, PATIENCE),
        3,
    )?;
    assert_eq!(rt; served, 2);
    assert_eq!(rt; answer(alloc, &silent)?.as_str(), "");
    assert_eq!(rt; answer(alloc, &cut)?.as_str(), CUT);
    assert_eq!(rt; answer(alloc, &whole)?.as_str(), CREATED);
    let served = serve_connections(
        alloc,
        WITHOUT,
        false,
        &mut books,
        &mut SocketListener::new(&listener, &rt, PATIENCE),
        0,
    )?;
    assert_eq!(rt; served, 0);
    Ok(())
}

/// Accepts the connections of a listener, but for two: the first isn't accepted, and the next fails where it would wait
/// for more than was sent.
#[derive(Drop)]
struct Unsteady<'a> {
    listener: &'a TcpListener,
    calls: &'a Cell<u8>,
}

impl OpenListener for Unsteady<'_> {
    type Stream = TcpStream;

    fn accept(&self) -> io::Result<(TcpStream, SocketAddr)> {
        let call = self.calls.get();
        self.calls.set(call.saturating_add(1));
        if call == 0 {
            return Err(io::Error::from(io::ErrorKind::ConnectionAborted));
        }
        let (stream, address) = self.listener.accept()?;
        stream.set_nonblocking(call == 1)?;
        Ok((stream, address))
    }
}

/// Of three connections one isn't accepted, one fails within its head, and one is answered. Each counts, so that the
/// client that comes after them is not served.
#[test]
fn connections_that_fail_count(rt: HostRuntime) -> Result<(), Fail> {
    let alloc = rt.alloc();
    let mut books = books_after(alloc, "")?;
    let listener = TcpListener::bind(&rt, (Ipv4Addr::LOCALHOST, 0))?;
    let port = listener.local_addr()?.port();
    let torn = TcpStream::connect(&rt, (Ipv4Addr::LOCALHOST, port))?;
    (&torn).write_all(b"POST /clients HTTP/1.1\r\nX-Sta")?;
    let whole = send_message(&rt, port, CLIENT)?;
    let _late = send_message(&rt, port, CLIENT)?;
    let calls = Cell::new(0);
    let unsteady = Unsteady {
        listener: &listener,
        calls: &calls,
    };
    let served = serve_connections(
        alloc,
        WITHOUT,
        false,
        &mut books,
        &mut SocketListener::new(&unsteady, &rt, PATIENCE),
        3,
    )?;
    assert_eq!(rt; served, 1);
    assert_eq!(rt; answer(alloc, &whole)?.as_str(), CREATED);
    Ok(())
}

/// A client sends a message with 60,000 bytes behind it. They are thrown away, and the response comes whole: where they
/// were left unread, the connection would be reset.
#[test]
fn what_follows_a_message_is_thrown_away(rt: HostRuntime) -> Result<(), Fail> {
    let alloc = rt.alloc();
    let mut books = books_after(alloc, "")?;
    let listener = TcpListener::bind(&rt, (Ipv4Addr::LOCALHOST, 0))?;
    let port = listener.local_addr()?.port();
    let client = TcpStream::connect(&rt, (Ipv4Addr::LOCALHOST, port))?;
    (&client).write_all(CLIENT.as_bytes())?;
    let rest = vec![in alloc; b'x'; 60000]?;
    (&client).write_all(rest.as_slice())?;
    client.shutdown(Shutdown::Write)?;
    let served = serve_connections(
        alloc,
        WITHOUT,
        false,
        &mut books,
        &mut SocketListener::new(&listener, &rt, PATIENCE),
        1,
    )?;
    assert_eq!(rt; served, 1);
    assert_eq!(rt; answer(alloc, &client)?.as_str(), CREATED);
    Ok(())
}

/// A client sends a message and doesn't end its sending. The connection is ended for it, and so it reads its whole
/// response.
#[test]
fn a_connection_is_ended(rt: HostRuntime) -> Result<(), Fail> {
    let alloc = rt.alloc();
    let mut books = books_after(alloc, "")?;
    let listener = TcpListener::bind(&rt, (Ipv4Addr::LOCALHOST, 0))?;
    let port = listener.local_addr()?.port();
    let client = TcpStream::connect(&rt, (Ipv4Addr::LOCALHOST, port))?;
    (&client).write_all(CLIENT.as_bytes())?;
    let served = serve_connections(
        alloc,
        WITHOUT,
        false,
        &mut books,
        &mut SocketListener::new(&listener, &rt, PATIENCE),
        1,
    )?;
    assert_eq!(rt; served, 1);
    assert_eq!(rt; answer(alloc, &client)?.as_str(), CREATED);
    Ok(())
}

/// A client connects and sends nothing. It is left when the patience ends, and the next is served.
#[test]
fn a_silent_client_is_left(rt: HostRuntime) -> Result<(), Fail> {
    let alloc = rt.alloc();
    let mut books = books_after(alloc, "")?;
    let listener = TcpListener::bind(&rt, (Ipv4Addr::LOCALHOST, 0))?;
    let port = listener.local_addr()?.port();
    let silent = TcpStream::connect(&rt, (Ipv4Addr::LOCALHOST, port))?;
    let whole = send_message(&rt, port, CLIENT)?;
    let served = serve_connections(
        alloc,
        WITHOUT,
        false,
        &mut books,
        &mut SocketListener::new(&listener, &rt, PATIENCE),
        2,
    )?;
    assert_eq!(rt; served, 1);
    assert_eq!(rt; answer(alloc, &silent)?.as_str(), "");
    assert_eq!(rt; answer(alloc, &whole)?.as_str(), CREATED);
    Ok(())
}

/// A clock that is read so many times, and says these seconds one after another.
#[derive(Drop)]
struct Readings<'a> {
    seconds: &'a [u64],
    read: &'a Cell<usize>,
}

impl Clock for Readings<'_> {
    fn monotonic(&self) -> io::Result<Duration> {
        let read = self.read.get();
        self.read.set(read.saturating_add(1));
        let seconds = self.seconds.get(read).copied().unwrap_or(1000);
        Ok(Duration::from_secs(seconds))
    }

    fn since_1970(&self) -> io::Result<Duration> {
        self.monotonic()
    }
}

/// With a patience of a second a message may take less than six, and so may its response. The first client's time is up
/// before anything is read of it, and its message is not answered; the second's is up before its response is written,
/// and its message was answered; the third takes five seconds for each, and the answer between them takes a hundred.
#[test]
fn a_client_that_takes_too_long_is_left(rt: HostRuntime) -> Result<(), Fail> {
    let alloc = rt.alloc();
    let mut books = books_after(alloc, "")?;
    let listener = TcpListener::bind(&rt, (Ipv4Addr::LOCALHOST, 0))?;
    let port = listener.local_addr()?.port();
    for (seconds, answered, clients) in [
        ([0, 6, 6, 6], 0, 0),
        ([0, 5, 5, 11], 0, 1),
        ([0, 5, 105, 110], 1, 2),
    ] {
        let read = Cell::new(0);
        let clock = Readings {
            seconds: seconds.as_slice(),
            read: &read,
        };
        let client = send_message(&rt, port, CLIENT)?;
        let served = serve_connections(
            alloc,
            WITHOUT,
            false,
            &mut books,
            &mut SocketListener::new(&listener, &clock, PATIENCE),
            1,
        )?;
        assert_eq!(rt; served, answered);
        let came = answer(alloc, &client).unwrap_or(String::new(alloc));
        assert_eq!(rt; came.len() > 0, answered > 0);
        let number = format!(in alloc; "0001-{clients:06}")?;
        let asked = format!(in alloc; "1/1 GET /clients/{number}\n")?;
        let shown = replies(alloc, &mut books, asked.as_str())?;
        assert_eq!(rt; shown.as_slice().starts_with(b"200 "), clients > 0);
    }
    Ok(())
}
