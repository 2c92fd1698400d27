//! Places of files: their lines and columns, and a place as it is shown, with the text of its line.

use std::io::{self, Write};
use std::{fmt, str};
use unicode_width::UnicodeWidthChar;

/// The most bytes of a line that are shown before a place, and after it.
const MOST_SHOWN: usize = 100;

/// A place of a file: its line, and its column where that is known or wanted, both counted from 1.
/// Columns are bytes.
#[derive(Clone, Copy, Drop, PartialEq, Eq)]
pub struct Spot {
    /// The line.
    pub line: usize,
    /// The column.
    pub column: Option<usize>,
}

impl fmt::Display for Spot {
    fn fmt<W: fmt::Write>(&self, f: &mut fmt::Formatter<W>) -> fmt::Result {
        let line = self.line;
        match self.column {
            Some(column) => write!(f, "{line}:{column}"),
            None => write!(f, "{line}"),
        }
    }
}

/// How many newlines there are.
pub fn newlines(bytes: &[u8]) -> usize {
    let mut count = 0_usize;
    for byte in bytes {
        if *byte == b'\n' {
            count = count.saturating_add(1);
        }
    }
    count
}

/// What counts lines and columns, for one place of a text after the other.
#[derive(Clone, Copy)]
pub struct Spots<'a> {
    bytes: &'a [u8],
    at: usize,
    line: usize,
    start: usize,
}

impl<'a> Spots<'a> {
    /// The start of these bytes.
    pub fn new(bytes: &'a [u8]) -> Spots<'a> {
        Spots {
            bytes,
            at: 0,
            line: 1,
            start: 0,
        }
    }

    /// The line and the column of a place, both counted from 1. It stands after the place that was
    /// asked for before.
    pub fn reach(&mut self, at: usize) -> (usize, usize) {
        let passed = self.bytes.get(self.at..at).unwrap_or(&[]);
        self.line = self.line.saturating_add(newlines(passed));
        if let Some(last) = passed.iter().rposition(|b| *b == b'\n') {
            self.start = self.at.saturating_add(last).saturating_add(1);
        }
        self.at = at;
        (self.line, at.saturating_sub(self.start).saturating_add(1))
    }
}

/// A place of a file: the file's path, its bytes, and how many of them stand before the place.
#[derive(Clone, Copy)]
pub struct Place<'a> {
    /// The path of the file, as it is written.
    pub path: &'a str,
    /// The bytes of the file.
    pub source: &'a [u8],
    /// How many bytes stand before the place.
    pub at: usize,
}

/// A part of a line as it is shown, and whether it is blank: then its columns alone are.
#[derive(Clone, Copy)]
struct Text<'a>(&'a [u8], bool);

impl Text<'_> {
    /// Writes a character, or as many blanks as it takes columns; a control character but the tab
    /// is a space.
    fn put<W: fmt::Write>(&self, f: &mut fmt::Formatter<W>, c: char) -> fmt::Result {
        let shown = if c == '\t' || !c.is_control() { c } else { ' ' };
        if !self.1 || c == '\t' {
            return f.write_char(shown);
        }
        for _ in 0..shown.width().unwrap_or(1) {
            f.write_char(' ')?;
        }
        Ok(())
    }
}

impl fmt::Display for Text<'_> {
    fn fmt<W: fmt::Write>(&self, f: &mut fmt::Formatter<W>) -> fmt::Result {
        let Ok(text) = str::from_utf8(self.0) else {
            for byte in self.0 {
                let c = if *byte < 128 { char::from(*byte) } else { '?' };
                self.put(f, c)?;
            }
            return Ok(());
        };
        for c in text.chars() {
            self.put(f, c)?;
        }
        Ok(())
    }
}

impl Place<'_> {
    /// The line and the column of the place, both counted from 1; columns are bytes.
    pub fn spot(self) -> Spot {
        let (line, column) = Spots::new(self.source).reach(self.at.min(self.source.len()));
        let column = Some(column);
        Spot { line, column }
    }

    /// Writes the text of the line, and a caret under the place.
    pub fn put_text<W: Write>(self, out: &mut W, caret: bool) -> io::Result<()> {
        let before = self.source.get(..self.at).unwrap_or(self.source);
        let after = self.source.get(self.at..).unwrap_or(&[]);
        let start = match before.iter().rposition(|b| *b == b'\n') {
            Some(newline) => newline.saturating_add(1),
            None => 0,
        };
        let before = before.get(start..).unwrap_or(&[]);
        let end = after.iter().position(|b| *b == b'\n');
        let after = after.get(..end.unwrap_or(after.len())).unwrap_or(after);
        if before.is_empty() && after.is_empty() {
            return Ok(());
        }
        let start = before.len().saturating_sub(MOST_SHOWN);
        let before = before.get(start..).unwrap_or(before);
        let rest = Text(after.get(..MOST_SHOWN).unwrap_or(after), false);
        let (text, blank) = (Text(before, false), Text(before, true));
        let dots = if start > 0 { ".. " } else { "" };
        let more = if after.len() > MOST_SHOWN { " .." } else { "" };
        writeln!(out, "    {dots}{text}{rest}{more}")?;
        if caret {
            let dots = if start > 0 { "   " } else { "" };
            writeln!(out, "    {dots}{blank}^")?;
        }
        Ok(())
    }
}
