//! Clients in memory in place of those of a port. All that passes over their connections is known.

ghost use Rattle.std.specs.Prelude.{◌≡◌, [], false, Some};
ghost use Rattle.microloan_command_tests.specs.Clients.{clients_of, ended_of, has_open};

use microloan_commands::Listener;
use std::alloc::Global;
use std::io;

/// A client: what it sends, and what was written to it.
#[derive(Drop)]
pub struct Client<'a> {
    /// What it sends.
    pub sent: &'a [u8],
    /// What was written to it.
    pub written: Vec<u8>,
}

/// Clients that connect one after another.
#[derive(Drop)]
pub struct Clients<'a> {
    alloc: Global,
    clients: Vec<Client<'a>>,
    next: usize,
    is_open: bool,
}

impl<'a> Clients<'a> {
    /// Clients of which none has connected yet.
    pub fn new(alloc: Global, clients: Vec<Client<'a>>) -> Clients<'a>
        ensures ended { ended_of result ≡ Some [] }
        ensures closed { has_open result ≡ false }
    {
        Clients {
            alloc,
            clients,
            next: 0,
            is_open: false,
        }
    }

    /// The clients, in their order.
    pub fn as_slice(&self) -> &[Client<'a>]
        ensures { result.now ≡ clients_of self.now }
    {
        self.clients.as_slice()
    }
}

impl<'a> Listener for Clients<'a> {
    ghost use Rattle.microloan_command_tests.specs.Clients.{ended_of, heard_of, has_open};

    type Reader = &'a [u8];

    type Writer = Vec<u8>;

    ghost ended = { ended_of };

    ghost heard = { heard_of };

    ghost is_open = { has_open };

    fn accept(&mut self) -> io::Result<(&'a [u8], Vec<u8>)> {
        self.is_open = false;
        let Some(client) = self.clients.get(self.next) else {
            return Err(io::Error::from(io::ErrorKind::WouldBlock));
        };
        let sent = client.sent;
        self.is_open = true;
        Ok((sent, Vec::new(self.alloc)))
    }

    fn end(&mut self, _reader: &'a [u8], writer: Vec<u8>, _answered: bool) {
        self.is_open = false;
        if let Some(client) = self.clients.get_mut(self.next) {
            client.written = writer;
            self.next += 1;
        }
    }
}
