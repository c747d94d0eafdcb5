//! A reader that fails in mid-stream, and a writer that takes few bytes.

use std::alloc::Global;
use std::io;
use std::io::{Read, Write};

/// Gives its bytes one by one, and then an error.
#[derive(Drop)]
pub struct Torn<'a> {
    pub bytes: &'a [u8],
}

impl Read for Torn<'_> {
    fn read(&mut self, buf: &mut [u8]) -> io::Result<usize> {
        let Some(byte) = self.bytes.first() else {
            return Err(io::Error::from(io::ErrorKind::BrokenPipe));
        };
        let Some(place) = buf.first_mut() else {
            return Ok(0);
        };
        *place = *byte;
        self.bytes = &self.bytes[1..];
        Ok(1)
    }
}

/// Takes at most so many bytes a call and so many in all, and then fails.
#[derive(Drop)]
pub struct Narrow {
    pub taken: Vec<u8>,
    pub step: usize,
    pub room: usize,
}

impl Narrow {
    /// A writer that has taken nothing.
    pub fn new(alloc: Global, step: usize, room: usize) -> Narrow {
        Narrow {
            taken: Vec::new(alloc),
            step,
            room,
        }
    }
}

impl Write for Narrow {
    fn write(&mut self, buf: &[u8]) -> io::Result<usize> {
        if self.room == 0 {
            return Err(io::Error::from(io::ErrorKind::BrokenPipe));
        }
        let count = buf.len().min(self.step).min(self.room);
        self.taken.extend_from_slice(&buf[..count])?;
        self.room -= count;
        Ok(count)
    }

    fn flush(&mut self) -> io::Result<()> {
        Ok(())
    }
}
