//! Where connections come from, and what passes over them.

ghost use Rattle.std.specs.Prelude.{◌≡◌, ℕ, Bool, true, false, List, Option, None, IfOk, OnOk, OnErr};
ghost use Rattle.microloan_commands.specs.Traffic.{Traffic, Begins, Adds};

use crate::connections::{Timed, Times, end_connection};
use std::io;
use std::io::{Read, Write};
use std::net::{OpenListener, TcpStream};
use std::rt::Clock;

/// Connections that clients begin, of which one is open at a time.
pub trait Listener {
    /// What is read of a connection.
    type Reader: Read + Drop;

    /// What is written to a connection.
    type Writer: Write + Drop;

    /// The connections that were ended, where it is known what passed over them.
    ghost ended: { Self → Option (List Traffic) };

    /// What the client of the connection that is open sends, where it is known.
    ghost heard: { Self → Option (List ℕ) };

    /// Whether a connection is open.
    ghost is_open: { Self → Bool };

    /// Accepts the next connection.
    fn accept(&mut self) -> io::Result<(Self::Reader, Self::Writer)>
        requires { is_open self.old ≡ false }
        ensures kept { ended self.new ≡ ended self.old }
        ensures begins { IfOk result (λ c. Begins (ended self.new) (heard self.new) (Self.Reader.remaining c.0)
            (Self.Writer.contents c.1)) }
        ensures open { OnOk result (is_open self.new ≡ true) }
        ensures closed { OnErr result (is_open self.new ≡ false) };

    /// Ends the connection that is open, whose response was written whole or was not.
    fn end(&mut self, reader: Self::Reader, writer: Self::Writer, answered: bool)
        requires { is_open self.old ≡ true }
        ensures adds { Adds (ended self.old) (heard self.old) (Self.Writer.contents writer) (ended self.new) }
        ensures closed { is_open self.new ≡ false };
}

/// The connections of a socket that listens, with the time that a client is given: no contract says what passes over
/// them, and so nothing is known of it here. A connection has two handles, one to be read and one to be written.
///
/// A client that neither sends nor takes a byte for so many seconds as the patience says, or that takes six times as
/// long for its message, or for its response, is left: that is a fault of its streams. After a whole response the
/// connection is ended by `end_connection`.
#[derive(Drop)]
pub struct SocketListener<'a, P: OpenListener<Stream = TcpStream>, C: Clock> {
    listener: &'a P,
    clock: &'a C,
    patience: u32,
    open: bool,
}

impl<'a, P: OpenListener<Stream = TcpStream>, C: Clock> SocketListener<'a, P, C> {
    ghost use Rattle.std.specs.Prelude.{◌≡◌, false};
    ghost use Rattle.microloan_commands.specs.Sockets.{has_open};

    /// The connections of a socket, where a read or a write waits for so many seconds. None is open.
    pub fn new(listener: &'a P, clock: &'a C, patience: u32) -> SocketListener<'a, P, C>
        ensures { has_open result ≡ false }
    {
        SocketListener {
            listener,
            clock,
            patience,
            open: false,
        }
    }
}

impl<'a, P: OpenListener<Stream = TcpStream>, C: Clock> Listener for SocketListener<'a, P, C> {
    ghost use Rattle.microloan_commands.specs.Sockets.{has_open};

    type Reader = Timed<'a, C>;

    type Writer = Timed<'a, C>;

    ghost ended = { λ _. None };

    ghost heard = { λ _. None };

    ghost is_open = { has_open };

    fn accept(&mut self) -> io::Result<(Timed<'a, C>, Timed<'a, C>)> {
        let (stream, _) = self.listener.accept()?;
        let other = stream.try_clone()?;
        let times = Times::of_client(self.patience);
        self.open = true;
        Ok((
            Timed::new(stream, self.clock, times),
            Timed::new(other, self.clock, times),
        ))
    }

    fn end(&mut self, reader: Timed<'a, C>, _writer: Timed<'a, C>, answered: bool) {
        self.open = false;
        if answered {
            let _ended = end_connection(self.clock, reader.into_stream());
        }
    }
}
