//! A text in memory, on its way to a file or a device.

use crate::place::newlines;
use std::alloc::{AllocError, Global};
use std::fmt::Display;
use std::io::{self, ErrorKind, Write};

/// How many bytes are handed on at once.
const AT_ONCE: usize = 65_536;

/// As many spaces as are written at once.
const SPACES: &str =
    "                                                                                ";

/// A text in memory, on its way to a file or a device.
///
/// It remembers its first fault: memory that was refused, or a failure of its device. What is
/// written after it goes nowhere, so writers need not ask; the owner does at the end, by
/// `into_bytes` or `finish`.
pub struct Output {
    bytes: Vec<u8>,
    /// How many bytes stand in the last line; a newline counts where it ends a piece.
    column: usize,
    /// Up to here newlines are counted.
    counted: usize,
    /// How many there are up to there.
    lines: usize,
    fault: Option<ErrorKind>,
}

impl Drop for Output {
    // A call in each owner, which keeps their proofs short.
    fn drop(self) {
        let Output {
            bytes: _,
            column: _,
            counted: _,
            lines: _,
            fault: _,
        } = self;
    }
}

impl Output {
    /// An empty text.
    pub fn new(alloc: Global) -> Output {
        Output {
            bytes: Vec::new(alloc),
            column: 0,
            counted: 0,
            lines: 0,
            fault: None,
        }
    }

    /// Writes bytes, unless there was a fault.
    pub fn put_bytes(&mut self, bytes: &[u8]) {
        if self.fault.is_some() {
            return;
        }
        if self.bytes.extend_from_slice(bytes).is_err() {
            self.fault = Some(ErrorKind::OutOfMemory);
        }
        self.column = if bytes.ends_with(b"\n") {
            0
        } else {
            self.column.saturating_add(bytes.len())
        };
    }

    /// Writes a text.
    pub fn put(&mut self, text: &str) {
        self.put_bytes(text.as_bytes());
    }

    /// Writes pieces, one after another.
    pub fn put_pieces(&mut self, pieces: &[&[u8]]) {
        for piece in pieces {
            self.put_bytes(piece);
        }
    }

    /// Writes a text and ends the line.
    pub fn line(&mut self, text: &str) {
        self.put_bytes(text.as_bytes());
        self.put_bytes(b"\n");
    }

    /// Writes bytes, each as the character of its value.
    pub fn put_characters(&mut self, bytes: &[u8]) {
        for byte in bytes {
            if *byte < 128 {
                self.put_bytes(&[*byte]);
            } else {
                self.put_bytes(&[0xc0 | (*byte >> 6), 0x80 | (*byte & 0x3f)]);
            }
        }
    }

    /// Writes a number.
    pub fn number(&mut self, number: usize) {
        let mut digits = itoa::Buffer::new();
        self.put(digits.format(number));
    }

    /// Writes a number that may be below 0.
    pub fn signed(&mut self, number: i64) {
        let mut digits = itoa::Buffer::new();
        self.put(digits.format(number));
    }

    /// Writes a number that ends at a column.
    pub fn number_to(&mut self, column: usize, number: usize) {
        let mut digits = itoa::Buffer::new();
        let text = digits.format(number);
        let taken = self.column.saturating_add(text.len());
        self.spaces(column.saturating_sub(taken));
        self.put(text);
    }

    /// Writes a number as eight hexadecimal digits.
    pub fn hex(&mut self, number: u32) {
        let _ = write!(self, "{number:08x}");
    }

    /// Writes what shows itself as text.
    pub fn show<D: Display + Drop>(&mut self, shown: D) {
        let _ = write!(self, "{shown}");
    }

    /// Writes at most 80 spaces.
    pub fn spaces(&mut self, count: usize) {
        let spaces = SPACES.as_bytes();
        self.put_bytes(spaces.get(..count).unwrap_or(spaces));
    }

    /// Goes on to a column at most 80 further, but leaves two spaces at least.
    pub fn tab(&mut self, column: usize) {
        self.spaces(column.saturating_sub(self.column).max(2));
    }

    /// Writes what another text has. A fault of that one is one of this.
    pub fn put_output(&mut self, other: &Output) {
        self.put_bytes(&other.bytes);
        self.fault = self.fault.or(other.fault);
    }

    /// Ends the last line, where it hasn't ended.
    pub fn end_line(&mut self) {
        if self.column > 0 {
            self.put_bytes(b"\n");
        }
    }

    /// The line that comes next, counted from 1.
    pub fn next_line(&mut self) -> usize {
        let more = newlines(self.bytes.get(self.counted..).unwrap_or(&[]));
        self.lines = self.lines.saturating_add(more);
        self.counted = self.bytes.len();
        self.lines.saturating_add(1)
    }

    /// The whole text, where memory sufficed for it.
    pub fn into_bytes(self) -> Result<Vec<u8>, AllocError> {
        if self.fault.is_some() {
            return Err(AllocError);
        }
        let Output {
            bytes,
            column: _,
            counted: _,
            lines: _,
            fault: _,
        } = self;
        Ok(bytes)
    }

    /// Hands on to a device what is there, where that is much.
    pub fn hand_on<W: Write>(&mut self, device: &mut W) {
        if self.bytes.len() >= AT_ONCE {
            self.hand_all(device);
        }
    }

    /// Hands on all that is there, unless there was a fault.
    fn hand_all<W: Write>(&mut self, device: &mut W) {
        self.next_line();
        if self.fault.is_none() {
            if let Err(error) = device.write_all(&self.bytes) {
                self.fault = Some(error.kind());
            }
        }
        self.bytes.clear();
        self.counted = 0;
    }

    /// Hands on to a device what is left, and tells the first fault, where there was one.
    pub fn finish<W: Write>(&mut self, device: &mut W) -> io::Result<()> {
        self.hand_all(device);
        match self.fault {
            Some(kind) => Err(io::Error::from(kind)),
            None => Ok(()),
        }
    }
}

/// The answers may be left aside, since the text remembers a fault.
impl Write for Output {
    fn write(&mut self, bytes: &[u8]) -> io::Result<usize> {
        self.put_bytes(bytes);
        match self.fault {
            Some(kind) => Err(io::Error::from(kind)),
            None => Ok(bytes.len()),
        }
    }

    fn flush(&mut self) -> io::Result<()> {
        Ok(())
    }
}
