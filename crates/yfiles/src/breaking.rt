//! A writer that breaks lines at words, for people whose terminal is narrow.

use std::alloc::{AllocError, Global};
use std::io::{self, Write};
use unicode_width::UnicodeWidthChar;

/// How far the text of an excerpt is indented.
const EXCERPT: usize = 4;

/// How much further the rest of a line that is broken is indented.
const REST: usize = 4;

/// A writer that breaks each line that has more columns than wanted, where that is wanted.
#[derive(Drop)]
pub struct Breaking<W> {
    out: W,
    columns: Option<usize>,
    /// What was written of a line.
    line: Vec<u8>,
    /// A line before that one which is too long, until it shows whether a caret follows.
    long: Vec<u8>,
}

/// How many columns a text takes, but for words of the terminal's for colours; a control character
/// takes none.
fn columns_of(text: &[u8]) -> usize {
    let Ok(text) = str::from_utf8(text) else {
        return text.len();
    };
    let (mut columns, mut is_colour) = (0_usize, false);
    for c in text.chars() {
        if is_colour {
            is_colour = c != 'm';
        } else if c == '\x1b' {
            is_colour = true;
        } else {
            columns = columns.saturating_add(c.width().unwrap_or(0));
        }
    }
    columns
}

/// How many spaces a text begins with.
fn spaces_of(text: &[u8]) -> usize {
    text.iter().position(|b| *b != b' ').unwrap_or(text.len())
}

/// Writes so many spaces.
fn put_spaces<W: Write>(out: &mut W, count: usize) -> io::Result<()> {
    for _ in 0..count {
        out.write_all(b" ")?;
    }
    Ok(())
}

/// Writes a line whose words go to further lines where it has no room for them.
fn put_words<W: Write>(out: &mut W, line: &str, columns: usize) -> io::Result<()> {
    let indent = spaces_of(line.as_bytes());
    let next = indent.saturating_add(REST).min(columns / 2);
    let (mut spaces, mut column) = (0_usize, 0_usize);
    for (place, word) in line.split(' ').enumerate() {
        spaces = spaces.saturating_add(place.min(1));
        if !word.is_empty() {
            let width = columns_of(word.as_bytes());
            let end = column.saturating_add(spaces).saturating_add(width);
            if column > indent && end > columns {
                out.write_all(b"\n")?;
                put_spaces(out, next)?;
                column = next.saturating_add(width);
            } else {
                put_spaces(out, spaces)?;
                column = end;
            }
            out.write_all(word.as_bytes())?;
            spaces = 0;
        }
    }
    out.write_all(b"\n")
}

/// Writes the text of a line of a file in pieces, and the caret below the piece that has its place,
/// after so many columns.
fn put_excerpt<W: Write>(out: &mut W, text: &str, place: usize, columns: usize) -> io::Result<()> {
    let room = columns.saturating_sub(EXCERPT).max(1);
    let (mut first, mut column) = (0_usize, 0_usize);
    put_spaces(out, EXCERPT)?;
    for c in text.chars() {
        let end = column.saturating_add(c.width().unwrap_or(0));
        if end.saturating_sub(first) > room {
            out.write_all(b"\n")?;
            if place < column && place >= first {
                put_spaces(out, EXCERPT.saturating_add(place.saturating_sub(first)))?;
                out.write_all(b"^\n")?;
            }
            put_spaces(out, EXCERPT)?;
            first = column;
        }
        write!(out, "{c}")?;
        column = end;
    }
    out.write_all(b"\n")?;
    if place >= first {
        put_spaces(out, EXCERPT.saturating_add(place.saturating_sub(first)))?;
        out.write_all(b"^\n")?;
    }
    Ok(())
}

impl<W: Write> Breaking<W> {
    /// A writer that breaks lines of more than so many columns, or none.
    pub fn new(alloc: Global, out: W, columns: Option<usize>) -> Breaking<W> {
        Breaking {
            out,
            columns,
            line: Vec::new(alloc),
            long: Vec::new(alloc),
        }
    }

    /// Writes the long line, where there is one, with the caret after so many columns of its text.
    fn put_long(&mut self, caret: Option<usize>) -> io::Result<()> {
        let columns = self.columns.unwrap_or(usize::MAX);
        if !self.long.is_empty() {
            match (str::from_utf8(&self.long), caret) {
                (Ok(text), Some(place)) => {
                    let text = text.strip_prefix("    ").unwrap_or(text);
                    put_excerpt(&mut self.out, text, place, columns)?;
                }
                (Ok(text), None) => put_words(&mut self.out, text, columns)?,
                (Err(_), _) => {
                    self.out.write_all(&self.long)?;
                    self.out.write_all(b"\n")?;
                }
            }
        }
        self.long.clear();
        Ok(())
    }

    /// Writes the line that has ended, unless it is too long and a caret may follow.
    fn end_line(&mut self) -> io::Result<()> {
        let spaces = spaces_of(&self.line);
        let is_caret = spaces >= EXCERPT && self.line.get(spaces..) == Some(b"^");
        if is_caret && !self.long.is_empty() {
            self.put_long(Some(spaces.saturating_sub(EXCERPT)))?;
        } else {
            self.put_long(None)?;
            if columns_of(&self.line) > self.columns.unwrap_or(usize::MAX) {
                let copied = self.long.extend_from_slice(&self.line);
                copied.map_err(AllocError::from)?;
            } else {
                self.out.write_all(&self.line)?;
                self.out.write_all(b"\n")?;
            }
        }
        self.line.clear();
        Ok(())
    }
}

impl<W: Write> Write for Breaking<W> {
    fn write(&mut self, buf: &[u8]) -> io::Result<usize> {
        if self.columns.is_none() {
            return self.out.write(buf);
        }
        for byte in buf {
            if *byte == b'\n' {
                self.end_line()?;
            } else {
                self.line.push(*byte).map_err(AllocError::from)?;
            }
        }
        Ok(buf.len())
    }

    fn flush(&mut self) -> io::Result<()> {
        self.put_long(None)?;
        self.out.write_all(&self.line)?;
        self.line.clear();
        self.out.flush()
    }
}
