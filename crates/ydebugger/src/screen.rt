//! What is written in a session stops at the end of a screen, and goes on at an empty line.

use std::alloc::Global;
use std::io::{self, ErrorKind, Write};

/// The most bytes that wait for a further screen; of more all is written at once.
const MOST_KEPT: usize = 16_000_000;

/// How large a screen is.
#[derive(Clone, Copy, Drop)]
pub struct Size {
    /// How many lines it has.
    pub lines: usize,
    /// How many columns they have.
    pub columns: usize,
}

/// What writes no more than a screen at a time.
#[derive(Drop)]
pub struct Screen<W> {
    out: W,
    /// How large it is; without a size all is written.
    size: Option<Size>,
    /// How many lines it has room for.
    room: usize,
    /// How many bytes the line has so far.
    column: usize,
    /// Whether all is written, until a screen begins.
    passes: bool,
    /// What waits for further screens.
    kept: Vec<u8>,
}

impl<W: Write> Screen<W> {
    /// What writes all, until a screen begins.
    pub fn new(alloc: Global, out: W, size: Option<Size>) -> Screen<W> {
        Screen {
            out,
            size,
            room: 0,
            column: 0,
            passes: true,
            kept: Vec::new(alloc),
        }
    }

    /// Begins an empty screen: what waited is gone.
    pub fn begin(&mut self) {
        self.kept.clear();
        self.column = 0;
        self.passes = self.size.is_none();
        if let Some(size) = self.size {
            // a line says how many wait, and one is for the prompt
            self.room = size.lines.saturating_sub(2).max(1);
        }
    }

    /// Ends the screen: what comes now is written after it.
    pub fn end(&mut self) {
        self.passes = true;
    }

    /// How many lines wait.
    pub fn waiting(&self) -> usize {
        let mut lines = 0_usize;
        for b in &self.kept {
            lines = lines.saturating_add(usize::from(*b == b'\n'));
        }
        lines
    }

    /// How many of these bytes there is room for. Longer lines take several rows.
    fn fits(&mut self, bytes: &[u8]) -> usize {
        let Some(size) = self.size else {
            return bytes.len();
        };
        if !self.kept.is_empty() {
            return 0;
        }
        for (index, b) in bytes.iter().enumerate() {
            if self.room == 0 {
                return index;
            }
            self.column = self.column.saturating_add(1);
            if *b == b'\n' || self.column > size.columns {
                self.room = self.room.saturating_sub(1);
                self.column = 0;
            }
        }
        bytes.len()
    }

    /// Writes what waits, as much as a screen has room for.
    pub fn go_on(&mut self, alloc: Global) -> io::Result<()> {
        let waited = Vec::from_slice(alloc, &self.kept)?;
        self.begin();
        self.write_all(&waited)
    }
}

impl<W: Write> Write for Screen<W> {
    fn write(&mut self, bytes: &[u8]) -> io::Result<usize> {
        if self.passes {
            return self.out.write(bytes);
        }
        let fits = self.fits(bytes);
        self.out.write_all(bytes.get(..fits).unwrap_or(bytes))?;
        let rest = bytes.get(fits..).unwrap_or(&[]);
        if self.kept.extend_from_slice(rest).is_err() {
            return Err(io::Error::from(ErrorKind::OutOfMemory));
        }
        if self.kept.len() > MOST_KEPT {
            self.out.write_all(&self.kept)?;
            self.kept.clear();
            self.passes = true;
        }
        Ok(bytes.len())
    }

    fn flush(&mut self) -> io::Result<()> {
        self.out.flush()
    }
}
