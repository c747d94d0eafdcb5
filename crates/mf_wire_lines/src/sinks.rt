//! Writers that count their faults, so that a contract can say whose fault it was, and in which call.

ghost use Rattle.std.specs.Prelude.{◌≡◌, ◌≢◌, ◌<◌, ◌≤◌, ℕ, List, Option, length, IfOk, OnOk, OnErr};
ghost use Rattle.std.specs.Io.KnownBytes.{WriteAppends};

use std::io::Write;

/// That the writer failed, or took no byte.
#[derive(Clone, Copy, PartialEq, Eq)]
pub struct WriteFault;

/// What replies are written to.
pub trait Sink {
    /// The bytes that were written, where they are known.
    ghost written: { Self → Option (List ℕ) };

    /// A count that each write that fails, or takes no byte, changes, and nothing else.
    ghost faults: { Self → ℕ };

    /// Writes some of the bytes, and at least one.
    fn write_some(&mut self, bytes: &[u8]) -> Result<usize, WriteFault>
        requires { 0 < length bytes.now }
        ensures some { IfOk result (λ n. 0 < n) }
        ensures bound { IfOk result (λ n. n ≤ length bytes.now) }
        ensures bytes { WriteAppends (written self.old) (written self.new) result bytes.now }
        ensures sound { OnOk result (faults self.new ≡ faults self.old) }
        ensures fault { OnErr result (faults self.new ≢ faults self.old) };
}

/// A writer of std that counts its faults. After the largest number the count begins anew.
#[derive(Drop)]
pub struct WatchedWriter<W: Write + Drop> {
    writer: W,
    faults: u64,
}

impl<W: Write + Drop> WatchedWriter<W> {
    ghost use Rattle.mf_wire_lines.specs.Watched.{writes_to, write_faults};

    /// A writer of which no fault is counted yet.
    pub fn new(writer: W) -> WatchedWriter<W>
        ensures writer { writes_to result ≡ writer }
        ensures sound { write_faults result ≡ 0 }
    {
        WatchedWriter { writer, faults: 0 }
    }

    /// The writer, after its use.
    pub fn into_inner(self) -> W
        ensures { result ≡ writes_to self }
    {
        let WatchedWriter { writer, faults: _ } = self;
        writer
    }
}

impl<W: Write + Drop> Sink for WatchedWriter<W> {
    ghost use Rattle.mf_wire_lines.specs.Watched.{writes_to, write_faults};

    ghost written = { λ sink. W.contents (writes_to sink) };

    ghost faults = { write_faults };

    fn write_some(&mut self, bytes: &[u8]) -> Result<usize, WriteFault> {
        match self.writer.write(bytes) {
            Ok(n) if n > 0 => Ok(n),
            _ => {
                self.faults = self.faults.wrapping_add(1);
                Err(WriteFault)
            }
        }
    }
}
