//! A connection to a client, with the time that it is given.

ghost use Rattle.std.specs.Prelude.{◌≡◌, ◌-◌, ◌*◌, ◌≤◌, min};
ghost use Rattle.std.specs.Duration.{as_nanos};

use std::io;
use std::io::{Read, Write};
use std::net::{Shutdown, TcpStream};
use std::rt::Clock;
use std::time::{Duration, Instant};

/// How many bytes are thrown away of what a client sends behind its message.
const MOST_DISCARDED: u64 = 65536;

/// How many times as long as one read a whole message may take, and as one write a whole response.
const WAITS_IN_ALL: u64 = 6;

/// The time that a client is given.
#[derive(Clone, Copy)]
pub(crate) struct Times {
    /// The longest that one read or write waits.
    pub each: Duration,
    /// The longest that all of them take.
    pub all: Duration,
}

impl Times {
    /// The time of a message or of a response, where a read or a write waits for so many seconds.
    pub fn of_client(patience: u32) -> Times
        ensures each { as_nanos result.each ≡ patience * 1000000000 }
        ensures all { as_nanos result.all ≡ 6 * (patience * 1000000000) }
    {
        Times {
            each: Duration::from_secs(u64::from(patience)),
            all: Duration::from_secs(u64::from(patience) * WAITS_IN_ALL),
        }
    }

    /// How long the next read or write may wait, where so much time has passed.
    fn time_left(self, passed: Duration) -> Duration
        ensures { as_nanos result ≡ min (as_nanos self.all - as_nanos passed) (as_nanos self.each) }
    {
        let left = self.all.saturating_sub(passed);
        if left < self.each { left } else { self.each }
    }
}

/// A connection whose reads or writes fail once their time is up, which begins with the first of them. One that a
/// signal interrupts is made again.
#[derive(Drop)]
pub struct Timed<'a, C: Clock> {
    stream: TcpStream,
    clock: &'a C,
    begun: Option<Instant>,
    times: Times,
}

impl<'a, C: Clock> Timed<'a, C> {
    /// The connection, whose time has not begun.
    pub(crate) fn new(stream: TcpStream, clock: &'a C, times: Times) -> Timed<'a, C> {
        Timed {
            stream,
            clock,
            begun: None,
            times,
        }
    }

    /// The connection itself.
    pub(crate) fn into_stream(self) -> TcpStream {
        let Timed {
            stream,
            clock: _,
            begun: _,
            times: _,
        } = self;
        stream
    }

    /// How long the next read or write may wait: not at all once the time is up.
    fn time_left(&mut self) -> io::Result<Duration> {
        let begun = match self.begun {
            Some(begun) => begun,
            None => Instant::now(self.clock)?,
        };
        self.begun = Some(begun);
        Ok(self.times.time_left(begun.elapsed(self.clock)?))
    }
}

impl<C: Clock> Read for Timed<'_, C> {
    fn read(&mut self, buf: &mut [u8]) -> io::Result<usize> {
        for _ in 0..u64::MAX {
            let left = self.time_left()?;
            self.stream.set_read_timeout(Some(left))?;
            let mut stream = &self.stream;
            match stream.read(buf) {
                Err(error) if error.kind() == io::ErrorKind::Interrupted => {}
                done => return done,
            }
        }
        Err(io::Error::from(io::ErrorKind::TimedOut))
    }
}

impl<C: Clock> Write for Timed<'_, C> {
    fn write(&mut self, buf: &[u8]) -> io::Result<usize> {
        for _ in 0..u64::MAX {
            let left = self.time_left()?;
            self.stream.set_write_timeout(Some(left))?;
            let mut stream = &self.stream;
            match stream.write(buf) {
                Err(error) if error.kind() == io::ErrorKind::Interrupted => {}
                done => return done,
            }
        }
        Err(io::Error::from(io::ErrorKind::TimedOut))
    }

    fn flush(&mut self) -> io::Result<()> {
        Ok(())
    }
}

/// Ends a connection whose response was written. The client is told that nothing more comes, and what it still sends is
/// read and thrown away until it ends too, for a second at most and 65,536 bytes at most: where bytes are left unread,
/// the system may drop the response.
pub(crate) fn end_connection<C: Clock>(clock: &C, stream: TcpStream) -> io::Result<()> {
    stream.shutdown(Shutdown::Write)?;
    let second = Duration::from_secs(1);
    let times = Times {
        each: second,
        all: second,
    };
    let rest = Timed::new(stream, clock, times);
    io::copy(&mut rest.take(MOST_DISCARDED), &mut io::sink())?;
    Ok(())
}
