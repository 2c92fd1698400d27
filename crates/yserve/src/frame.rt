//! Messages in their frames: lines with the length, an empty line, the message.

use serde_json::Value;
use std::alloc::Global;
use std::io::{self, BufRead, BufReader, Read, Write};
use std::str;

/// The longest line before a message, with its newline, and the most of them.
const LONGEST_LINE: u64 = 4_096;

const MOST_LINES: usize = 64;

/// The longest message, in bytes.
const LONGEST: u64 = 67_108_864;

/// What came.
#[derive(Drop)]
pub enum Came {
    /// A message.
    Message(Vec<u8>),
    /// Lines without a length that is taken, or a message that is cut off.
    Broken,
    /// The end of the input.
    End,
}

/// The length that a line gives, where it gives one.
fn length_in(line: &[u8]) -> Option<u64> {
    let colon = line.iter().position(|byte| *byte == b':')?;
    let (name, rest) = (line.get(..colon)?, line.get(colon..)?.get(1..)?);
    if !name.trim_ascii().eq_ignore_ascii_case(b"content-length") {
        return None;
    }
    let digits = str::from_utf8(rest.trim_ascii()).ok()?;
    digits.parse::<u64>().ok()
}

/// Reads the next message.
pub fn next_message<R: Read>(alloc: Global, reader: &mut BufReader<R>) -> io::Result<Came> {
    let (mut length, mut line) = (None, Vec::new(alloc));
    for number in 0..MOST_LINES {
        line.clear();
        {
            let mut first = reader.by_ref().take(LONGEST_LINE);
            first.read_until(b'\n', &mut line)?;
        }
        if line.is_empty() {
            return Ok(if number == 0 { Came::End } else { Came::Broken });
        }
        if line.trim_ascii().is_empty() {
            break;
        }
        if let Some(found) = length_in(&line) {
            length = Some(found);
        }
    }
    let length = match length {
        Some(length) if length <= LONGEST => length,
        _ => return Ok(Came::Broken),
    };
    let mut message = Vec::new(alloc);
    reader.by_ref().take(length).read_to_end(&mut message)?;
    Ok(if message.len() as u64 == length {
        Came::Message(message)
    } else {
        Came::Broken
    })
}

/// Writes a message.
pub fn send<W: Write>(alloc: Global, out: &mut W, message: &Value) -> io::Result<()> {
    let text = message.to_vec(alloc)?;
    let length = text.len();
    write!(out, "Content-Length: {length}\r\n\r\n")?;
    out.write_all(&text)?;
    out.flush()
}
