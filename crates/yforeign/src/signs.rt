//! What stands at the front of some bytes of a file: its kind, and how many bytes it has.

use crate::lexeme::{Flaw, Kind};
use crate::quoted::{arguments_at, quote_at, reference_at, tag_at, text_at, translated_at};
use crate::runs::{line_length, percent_length, word_length};
use ylexemes::bytes::{is_blank, is_digit, is_name_start};
use ylexemes::front::part_at;
use ylexemes::part::LexicalFault;

/// What stands at a place.
#[derive(Clone, Copy)]
pub enum Piece {
    /// A blank.
    Blank,
    /// A comment from `/*` to `*/`.
    Comment,
    /// A comment from two slashes to the end of its line.
    Remark,
    /// A lexeme of this kind.
    Lexeme(Kind),
}

/// What a comment, a kept text or a code block that `yacc` reads too is here, and its length.
fn shared_at(bytes: &[u8], piece: Piece) -> Result<(Piece, usize), Flaw> {
    if bytes.is_empty() {
        return Err(Flaw::Unfinished);
    }
    match part_at(bytes) {
        Ok((_, rest)) => Ok((piece, bytes.len().saturating_sub(rest.len()))),
        Err(LexicalFault::Unfinished) => Err(Flaw::Unfinished),
        Err(_) => Err(Flaw::Foreign),
    }
}

/// The number that a digit begins.
fn number_at(bytes: &[u8]) -> Result<(Piece, usize), Flaw> {
    let length = word_length(bytes);
    let is_number = match bytes.get(..length).unwrap_or(bytes) {
        [b'0', b'x' | b'X', hexadecimal @ ..] => {
            !hexadecimal.is_empty() && hexadecimal.iter().all(|b| b.is_ascii_hexdigit())
        }
        digits => digits.iter().all(|b| is_digit(*b)),
    };
    if is_number {
        Ok((Piece::Lexeme(Kind::Number), length))
    } else {
        Err(Flaw::BadNumber)
    }
}

/// What a percent sign begins.
fn percent_at(bytes: &[u8]) -> Result<(Piece, usize), Flaw> {
    match bytes.get(1) {
        Some(b'%') => Ok((Piece::Lexeme(Kind::Mark), 2)),
        Some(b'{') => shared_at(bytes, Piece::Lexeme(Kind::Code)),
        Some(b'?') => Ok((Piece::Lexeme(Kind::Predicate), 2)),
        Some(b) if is_name_start(*b) || matches!(*b, b'<' | b'>' | b'0' | b'2') => {
            Ok((Piece::Lexeme(Kind::Word), percent_length(bytes)))
        }
        _ => Err(Flaw::Foreign),
    }
}

/// A lexeme as a piece.
fn lexeme(found: Result<(Kind, usize), Flaw>) -> Result<(Piece, usize), Flaw> {
    let (kind, length) = found?;
    Ok((Piece::Lexeme(kind), length))
}

/// The lexeme that one byte is by itself.
fn sign(b: u8) -> Option<Kind> {
    match b {
        b':' => Some(Kind::Colon),
        b'|' => Some(Kind::Bar),
        b';' => Some(Kind::Semicolon),
        b',' => Some(Kind::Comma),
        b'=' => Some(Kind::Equals),
        _ => None,
    }
}

/// What begins by a sign that has something after it.
fn opened_at(bytes: &[u8], first: u8) -> Result<(Piece, usize), Flaw> {
    match first {
        b'%' => percent_at(bytes),
        b'{' => shared_at(bytes, Piece::Lexeme(Kind::Braced)),
        b'\'' => lexeme(quote_at(bytes)),
        b'"' => lexeme(text_at(bytes)),
        b'<' => lexeme(tag_at(bytes)),
        b'[' => lexeme(reference_at(bytes)),
        b'(' => lexeme(arguments_at(bytes)),
        b'/' if bytes.starts_with(b"//") => Ok((Piece::Remark, line_length(bytes))),
        b'/' => shared_at(bytes, Piece::Comment),
        b'#' if bytes.starts_with(b"#line ") => {
            Ok((Piece::Lexeme(Kind::LineMark), line_length(bytes)))
        }
        _ => Err(Flaw::Foreign),
    }
}

/// What stands at the front of bytes, the first of which is given, and how many bytes it has.
pub fn piece_at(bytes: &[u8], first: u8) -> Result<(Piece, usize), Flaw> {
    if is_blank(first) {
        Ok((Piece::Blank, 1))
    } else if is_digit(first) {
        number_at(bytes)
    } else if bytes.starts_with(b"_(\"") {
        lexeme(translated_at(bytes))
    } else if is_name_start(first) {
        Ok((Piece::Lexeme(Kind::Name), word_length(bytes)))
    } else if let Some(kind) = sign(first) {
        Ok((Piece::Lexeme(kind), 1))
    } else {
        opened_at(bytes, first)
    }
}
