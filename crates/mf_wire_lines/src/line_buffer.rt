//! The line that has begun, as far as it can matter: one byte past the longest line and its return.

ghost use Rattle.std.specs.Prelude.{◌≡◌, ◌+◌, ◌≤◌, ℕ, List, [], ◌∷◌, ◌++◌, length, take, vec_len, IfOk};

use std::alloc::{AllocError, Global};
use std::marker::Model;

/// The bytes that are kept of a line. A line that fills them is too long, with a return at its end or without.
pub const ROOM: usize = 65538;

#[derive(Drop)]
pub struct LineBuffer {
    bytes: Vec<u8>,
    len: usize,
}

impl Model for LineBuffer {
    ghost Value = { List ℕ };

    ghost view = { λ line. take line.len line.bytes.items };

    ghost invariant = { λ line. (length line.bytes.items ≡ 65538) × (line.len ≤ 65538) };
}

impl LineBuffer {
    pub fn new(alloc: Global) -> Result<LineBuffer, AllocError>
        ensures { IfOk result (λ line. line ≡ []) }
    {
        let bytes = vec![in alloc; 0; ROOM]?;
        Ok(LineBuffer { bytes, len: 0 })
    }

    /// Takes one more byte, while there is room.
    pub fn push(&mut self, byte: u8)
        ensures { self.new ≡ take 65538 (self.old ++ byte ∷ []) }
    {
        if self.len < ROOM {
            self.bytes[self.len] = byte;
            self.len += 1;
        }
    }

    pub fn clear(&mut self)
        ensures { self.new ≡ [] }
    {
        self.len = 0;
    }

    pub fn as_slice(&self) -> &[u8]
        ensures value { result.now ≡ self.now }
        ensures len { length result.now ≤ 65538 }
    {
        &self.bytes[..self.len]
    }
}
