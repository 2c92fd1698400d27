//! Literals: one character between quotes, plain or escaped.

ghost use Rattle.std.specs.Prelude.{◌≡◌, ◌≤◌, true};
ghost use Rattle.ylexemes.specs.Lexemes.{FindsLiteral, escape_value};
ghost use Rattle.ylexemes.specs.Stages.{is_plain, digit_in, after_quote, after_backslash};
ghost use Rattle.ylexemes.specs.Stages.{more_octals};
ghost use Rattle.ylexemes.specs.Stages.{more_hex, next_stage, closed_stage, shut_scan, scan};
ghost use Rattle.ylexemes.specs.Stages.{scan_view};
ghost use Rattle.ylexemes.specs.Views.{Reads, begins_quote};

use crate::part::{Lexeme, LexicalFault, Part};

/// How far a literal has been read, after its first quote.
#[derive(Clone, Copy)]
pub enum Stage {
    /// Nothing but the first quote.
    Opened,
    /// After a backslash.
    Backslash,
    /// Only the last quote is missing.
    Shut(u8),
    /// So many octal digits, and their value.
    Octals(u8, u8),
    /// After `\x`.
    HexMark,
    /// After `\x` and hexadecimal digits of this value.
    Hexed(u8),
}

/// What reading a literal comes to.
#[derive(Clone, Copy)]
pub enum Scan<'a> {
    /// Its value, and what follows it.
    Found(u8, &'a [u8]),
    /// No literal begins with these bytes.
    Stuck,
    /// The bytes end within the literal.
    Short,
}

/// A byte of a literal that stands for itself.
fn is_plain(b: u8) -> bool
    ensures { result ≡ is_plain b }
{
    (32..=126).contains(&b) && b != b'\'' && b != b'\\'
}

/// The value of a digit, where it is one.
fn digit(b: u8, radix: u32) -> Option<u32>
    requires low { 2 ≤ radix }
    requires high { radix ≤ 16 }
    ensures { result ≡ digit_in radix b }
{
    char::from(b).to_digit(radix)
}

/// The value of an escape of one byte after the backslash.
fn escape(b: u8) -> Option<u8>
    ensures { result ≡ escape_value b }
{
    match b {
        b'\'' | b'"' | b'?' | b'\\' => Some(b),
        b'a' => Some(7),
        b'b' => Some(8),
        b'f' => Some(12),
        b'n' => Some(10),
        b'r' => Some(13),
        b't' => Some(9),
        b'v' => Some(11),
        _ => None,
    }
}

fn after_quote(b: u8) -> Option<Stage>
    ensures { result ≡ after_quote b }
{
    if is_plain(b) {
        Some(Stage::Shut(b))
    } else if b == b'\\' {
        Some(Stage::Backslash)
    } else {
        None
    }
}

fn after_backslash(b: u8) -> Option<Stage>
    ensures { result ≡ after_backslash b }
{
    match escape(b) {
        Some(value) => Some(Stage::Shut(value)),
        None => {
            if b == b'x' {
                Some(Stage::HexMark)
            } else {
                more_octals(0, 0, b)
            }
        }
    }
}

/// A further octal digit, unless no literal could come of it.
fn more_octals(digits: u8, value: u8, b: u8) -> Option<Stage>
    ensures { result ≡ more_octals digits value b }
{
    match digit(b, 8) {
        Some(d) => {
            let more = u32::from(value) * 8 + d;
            if digits < 3 && more <= 255 && (digits < 2 || more >= 1) {
                Some(Stage::Octals(digits + 1, more as u8))
            } else {
                None
            }
        }
        None => None,
    }
}

/// A further hexadecimal digit, unless the value grows too large.
fn more_hex(value: u8, b: u8) -> Option<Stage>
    ensures { result ≡ more_hex value b }
{
    match digit(b, 16) {
        Some(d) => {
            let more = u32::from(value) * 16 + d;
            if more <= 255 {
                Some(Stage::Hexed(more as u8))
            } else {
                None
            }
        }
        None => None,
    }
}

impl Stage {
    /// The stage after a byte of the character.
    fn next(self, b: u8) -> Option<Stage>
        ensures { result ≡ next_stage self b }
    {
        match self {
            Stage::Opened => after_quote(b),
            Stage::Backslash => after_backslash(b),
            Stage::Shut(_) => None,
            Stage::Octals(digits, value) => more_octals(digits, value, b),
            Stage::HexMark => more_hex(0, b),
            Stage::Hexed(value) => more_hex(value, b),
        }
    }

    /// The literal's value, where its last quote may stand here.
    fn closed(self) -> Option<u8>
        ensures { result ≡ closed_stage self }
    {
        match self {
            Stage::Shut(value) => Some(value),
            Stage::Octals(_, value) | Stage::Hexed(value) => {
                if value >= 1 { Some(value) } else { None }
            }
            _ => None,
        }
    }
}

/// Reads a literal after its first quote.
fn scan_literal<'a>(bytes: &'a [u8]) -> Scan<'a>
    ensures { scan_view result ≡ scan Stage.Opened bytes.now }
{
    let mut stage = Stage::Opened;
    let mut rest = bytes;
    while !rest.is_empty() {
        let b = rest[0];
        rest = rest.split_at(1).1;
        match stage.next(b) {
            Some(next) => stage = next,
            None => return shut(stage, b, rest),
        }
    }
    Scan::Short
}

/// What a byte that can't belong to the character makes of a literal.
fn shut<'a>(stage: Stage, b: u8, rest: &'a [u8]) -> Scan<'a>
    ensures { scan_view result ≡ shut_scan stage b rest.now }
{
    match stage.closed() {
        Some(value) => {
            if b == b'\'' {
                Scan::Found(value, rest)
            } else {
                Scan::Stuck
            }
        }
        None => Scan::Stuck,
    }
}

/// The literal at the front, as a part.
pub(crate) fn read_literal<'a>(bytes: &'a [u8]) -> Result<(Part<'a>, &'a [u8]), LexicalFault>
    requires { begins_quote bytes.now ≡ true }
    ensures { Reads bytes.now result }
{
    match scan_literal(bytes.split_at(1).1) {
        Scan::Found(value, rest) => Ok((Part::Lexeme(Lexeme::Literal(value)), rest)),
        Scan::Stuck => Err(LexicalFault::BadLiteral),
        Scan::Short => Err(LexicalFault::Unfinished),
    }
}

/// The value of the literal at the front, 1 to 255, and what follows it (POSIX yacc, "Lexical
/// Structure of the Grammar"): one character between quotes, plain, `\n` and the like, up to three
/// octal digits, or hexadecimal ones after `\x`.
///
/// `None` where no literal stands at the front, also where the bytes end within one.
pub fn literal_at(bytes: &[u8]) -> Option<(u8, &[u8])>
    ensures { FindsLiteral bytes.now result }
{
    if bytes.is_empty() || bytes[0] != b'\'' {
        return None;
    }
    match scan_literal(bytes.split_at(1).1) {
        Scan::Found(value, rest) => Some((value, rest)),
        Scan::Stuck => None,
        Scan::Short => None,
    }
}
