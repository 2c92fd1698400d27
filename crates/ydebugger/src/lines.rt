//! Command lines from a reader.

use std::io::{self, BufRead, BufReader, Read};

/// The longest line, with its newline.
pub const LONGEST: usize = 4_096;

/// What reading a line came to.
#[derive(Clone, Copy, PartialEq, Eq)]
pub enum Came {
    /// A line.
    Line,
    /// A line that is too long; it was skipped.
    Long,
    /// The end.
    End,
}

/// Reads the next line without its newline.
pub fn next_line<R: Read>(reader: &mut BufReader<R>, line: &mut Vec<u8>) -> io::Result<Came> {
    line.clear();
    let read = {
        let mut first = reader.by_ref().take(LONGEST as u64);
        first.read_until(b'\n', line)?
    };
    if line.last() == Some(&b'\n') {
        let _ = line.pop();
        return Ok(Came::Line);
    }
    match read {
        0 => Ok(Came::End),
        1..LONGEST => Ok(Came::Line),
        _ => {
            reader.skip_until(b'\n')?;
            Ok(Came::Long)
        }
    }
}
