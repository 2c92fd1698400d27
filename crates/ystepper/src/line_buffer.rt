//! The line that is being read, in a fixed array.

ghost use Rattle.std.specs.Prelude.{◌≡◌, ◌≤◌, ◌++◌, ◌∷◌, [], ℕ, List, take};
ghost use Rattle.ystepper.specs.Line.{line_room};

use crate::command::LONGEST_LINE;
use std::marker::Model;

/// Room for the longest command line and one byte more, which shows that a line is longer.
const ROOM: usize = LONGEST_LINE + 1;

/// The first 4,097 bytes of a line; further bytes are dropped.
#[derive(Drop)]
pub(crate) struct LineBuffer {
    bytes: [u8; ROOM],
    len: usize,
}

impl Model for LineBuffer {
    ghost Value = { List ℕ };

    ghost view = { λ h. take h.len h.bytes };

    ghost invariant = { λ h. h.len ≤ line_room };
}

impl LineBuffer {
    /// No bytes.
    pub(crate) fn new() -> Self
        ensures { result ≡ [] }
    {
        LineBuffer {
            bytes: [0; ROOM],
            len: 0,
        }
    }

    /// The bytes.
    pub(crate) fn as_slice(&self) -> &[u8]
        ensures { result.now ≡ self.now }
    {
        &self.bytes[..self.len]
    }

    /// One byte more, where there is room.
    pub(crate) fn push(&mut self, byte: u8)
        ensures { self.new ≡ take line_room (self.old ++ byte ∷ []) }
    {
        if self.len < ROOM {
            self.bytes[self.len] = byte;
            self.len += 1;
        }
    }

    /// Takes all bytes out.
    pub(crate) fn clear(&mut self)
        ensures { self.new ≡ [] }
    {
        self.len = 0;
    }
}
