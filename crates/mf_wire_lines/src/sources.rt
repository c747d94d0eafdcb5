//! Readers that count their faults, so that a contract can say whose fault it was, and in which call.

ghost use Rattle.std.specs.Prelude.{◌≡◌, ◌≢◌, ℕ, List, Option, OnOk, OnErr};
ghost use Rattle.std.specs.Io.{ReadsAtMost};
ghost use Rattle.std.specs.Io.KnownBytes.{ReadConsumes};

use std::io::Read;

/// That the reader failed.
#[derive(Clone, Copy, PartialEq, Eq)]
pub struct ReadFault;

/// What request lines are read from.
pub trait Source {
    /// The bytes that reads give from here on, where they are known.
    ghost unread: { Self → Option (List ℕ) };

    /// A count that each failed read changes, and nothing else.
    ghost faults: { Self → ℕ };

    /// Reads some bytes into the room, and none only at the end.
    fn read_some(&mut self, room: &mut [u8]) -> Result<usize, ReadFault>
        ensures bound { ReadsAtMost result room.new }
        ensures bytes { ReadConsumes (unread self.old) (unread self.new) result room.new }
        ensures sound { OnOk result (faults self.new ≡ faults self.old) }
        ensures fault { OnErr result (faults self.new ≢ faults self.old) };
}

/// A reader of std that counts its faults. After the largest number the count begins anew.
#[derive(Drop)]
pub struct WatchedReader<R: Read + Drop> {
    reader: R,
    faults: u64,
}

impl<R: Read + Drop> WatchedReader<R> {
    ghost use Rattle.mf_wire_lines.specs.Watched.{reads_from, read_faults};

    /// A reader of which no fault is counted yet.
    pub fn new(reader: R) -> WatchedReader<R>
        ensures reader { reads_from result ≡ reader }
        ensures sound { read_faults result ≡ 0 }
    {
        WatchedReader { reader, faults: 0 }
    }

    /// The reader, after its use.
    pub fn into_inner(self) -> R
        ensures { result ≡ reads_from self }
    {
        let WatchedReader { reader, faults: _ } = self;
        reader
    }
}

impl<R: Read + Drop> Source for WatchedReader<R> {
    ghost use Rattle.mf_wire_lines.specs.Watched.{reads_from, read_faults};

    ghost unread = { λ source. R.remaining (reads_from source) };

    ghost faults = { read_faults };

    fn read_some(&mut self, room: &mut [u8]) -> Result<usize, ReadFault> {
        match self.reader.read(room) {
            Ok(n) => Ok(n),
            Err(_) => {
                self.faults = self.faults.wrapping_add(1);
                Err(ReadFault)
            }
        }
    }
}
