//! A page: text on its way to a writer, with the column that it has come to.

use std::fmt::Display;
use std::io::{self, ErrorKind, Write};

/// As many spaces as are written at once.
const SPACES: &[u8; 80] =
    b"                                                                                ";

/// How long a line of words is.
const WIDTH: usize = 78;

/// How a piece of text looks where there is colour.
#[derive(Clone, Copy)]
pub enum Paint {
    /// As any text.
    Plain,
    /// What a reader looks for first.
    Strong,
    /// What stands beside.
    Faint,
    /// What went well.
    Good,
    /// What went wrong.
    Bad,
}

/// Text on its way to a writer.
///
/// The page remembers the first fault of its writer, and text after it goes nowhere. `checked`
/// and `flush` answer that fault, so it need not be asked for after each piece.
#[derive(Drop)]
pub struct Page<W> {
    out: W,
    /// How many bytes stand in the line.
    pub column: usize,
    colour: bool,
    fault: Option<ErrorKind>,
}

impl<W: Write> Page<W> {
    /// An empty page. Without `colour` no paint is written.
    pub fn new(out: W, colour: bool) -> Page<W> {
        Page {
            out,
            column: 0,
            colour,
            fault: None,
        }
    }

    /// The writer, at the end of a page.
    pub fn into_out(self) -> W {
        let Page { out, .. } = self;
        out
    }

    /// The writer, while the page is written.
    pub fn writer(&mut self) -> &mut W {
        &mut self.out
    }

    /// The first fault of the writer, where there was one.
    pub fn checked(&self) -> io::Result<()> {
        match self.fault {
            Some(kind) => Err(io::Error::from(kind)),
            None => Ok(()),
        }
    }

    /// Hands bytes to the writer, unless it has failed.
    fn send(&mut self, bytes: &[u8]) {
        if self.fault.is_none() {
            if let Err(error) = self.out.write_all(bytes) {
                self.fault = Some(error.kind());
            }
        }
    }

    /// Writes a text without a newline.
    pub fn put(&mut self, text: &str) {
        self.send(text.as_bytes());
        self.column = self.column.saturating_add(text.len());
    }

    /// Writes what shows itself as text.
    pub fn show<D: Display + Drop>(&mut self, shown: D) {
        let _ = write!(self, "{shown}");
    }

    /// Writes a number.
    pub fn number(&mut self, number: usize) {
        let mut digits = itoa::Buffer::new();
        self.put(digits.format(number));
    }

    /// Writes at most 80 spaces.
    pub fn spaces(&mut self, count: usize) {
        let spaces = SPACES.get(..count).unwrap_or(SPACES);
        self.send(spaces);
        self.column = self.column.saturating_add(spaces.len());
    }

    /// Goes on to a column at most 80 further, but leaves two spaces at least.
    pub fn tab(&mut self, column: usize) {
        self.spaces(column.saturating_sub(self.column).max(2));
    }

    /// Writes a number that ends at a column.
    pub fn number_to(&mut self, column: usize, number: usize) {
        let mut digits = itoa::Buffer::new();
        let text = digits.format(number);
        self.spaces(
            column
                .saturating_sub(self.column)
                .saturating_sub(text.len()),
        );
        self.put(text);
    }

    /// Ends the line.
    pub fn end(&mut self) {
        self.column = 0;
        self.send(b"\n");
    }

    /// Writes a whole line.
    pub fn line(&mut self, text: &str) {
        self.put(text);
        self.end();
    }

    /// Writes a word of a list after a space. Where the line is full, the word begins another
    /// one, after so many spaces.
    pub fn word(&mut self, indent: usize, word: &str) {
        if self.column > indent && self.column.saturating_add(word.len()) >= WIDTH {
            self.end();
            self.spaces(indent);
        } else if self.column > 0 {
            self.put(" ");
        }
        self.put(word);
    }

    /// Writes a number and what is counted, in the plural where it isn't 1.
    pub fn count(&mut self, number: usize, one: &str, many: &str) {
        self.number(number);
        self.put(" ");
        self.put(if number == 1 { one } else { many });
    }

    /// Sets how what follows looks.
    pub fn paint(&mut self, paint: Paint) {
        if self.colour {
            let escape: &'static [u8] = match paint {
                Paint::Plain => b"\x1b[0m",
                Paint::Strong => b"\x1b[1m",
                Paint::Faint => b"\x1b[2m",
                Paint::Good => b"\x1b[32m",
                Paint::Bad => b"\x1b[31m",
            };
            self.send(escape);
        }
    }

    /// Writes a text that looks so, and goes back to plain text.
    pub fn painted(&mut self, paint: Paint, text: &str) {
        self.paint(paint);
        self.put(text);
        self.paint(Paint::Plain);
    }

    /// Text that is replaced by what is written next: the line isn't ended.
    pub fn passing(&mut self, text: &str) {
        self.send(b"\r");
        self.column = 0;
        self.put(text);
        let _ = self.flush();
    }
}

/// The answers may be left aside, since the page remembers a fault.
impl<W: Write> Write for Page<W> {
    fn write(&mut self, buf: &[u8]) -> io::Result<usize> {
        self.send(buf);
        self.column = if buf.ends_with(b"\n") {
            0
        } else {
            self.column.saturating_add(buf.len())
        };
        self.checked()?;
        Ok(buf.len())
    }

    fn flush(&mut self) -> io::Result<()> {
        self.checked()?;
        let ended = self.out.flush();
        if let Err(error) = &ended {
            self.fault = Some(error.kind());
        }
        ended
    }
}
