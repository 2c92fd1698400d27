//! Kept texts: braces that nest, over strings, character constants and comments.

ghost use Rattle.std.specs.Prelude.{◌≡◌, ◌==◌, true, List};
ghost use Rattle.ylexemes.specs.Bytes.{begins};
ghost use Rattle.ylexemes.specs.Kept.{outside_mode, next_mode, is_outside, closes};
ghost use Rattle.ylexemes.specs.Views.{Reads, begins_brace, slice_of};

use crate::part::{Lexeme, LexicalFault, Part};

/// What the next byte of a kept text is part of.
#[derive(Clone, Copy)]
pub enum Mode {
    /// No string, character constant or comment.
    Outside,
    /// A string or a character constant, by its quote.
    Quoted(u8),
    /// After a backslash in one.
    Escaped(u8),
    /// The star of `/*`.
    Opening,
    /// A comment between `/*` and `*/`.
    Commented,
    /// The slash of `*/`.
    Closing,
    /// A comment to the end of its line.
    Lined,
}

fn begins_with(bytes: &[u8], b: u8) -> bool
    ensures { result ≡ begins (λ y. y == b) bytes.now }
{
    !bytes.is_empty() && bytes[0] == b
}

fn outside_mode(b: u8, rest: &[u8]) -> Mode
    ensures { result ≡ outside_mode b rest.now }
{
    if b == b'"' || b == b'\'' {
        Mode::Quoted(b)
    } else if b == b'/' && begins_with(rest, b'*') {
        Mode::Opening
    } else if b == b'/' && begins_with(rest, b'/') {
        Mode::Lined
    } else {
        Mode::Outside
    }
}

impl Mode {
    /// The mode after a byte that opens or closes no brace, with what follows it.
    fn next(self, b: u8, rest: &[u8]) -> Mode
        ensures { result ≡ next_mode self b rest.now }
    {
        match self {
            Mode::Outside => outside_mode(b, rest),
            Mode::Quoted(quote) => {
                if b == quote {
                    Mode::Outside
                } else if b == b'\\' {
                    Mode::Escaped(quote)
                } else {
                    Mode::Quoted(quote)
                }
            }
            Mode::Escaped(quote) => Mode::Quoted(quote),
            Mode::Opening => Mode::Commented,
            Mode::Commented => {
                if b == b'*' && begins_with(rest, b'/') {
                    Mode::Closing
                } else {
                    Mode::Commented
                }
            }
            Mode::Closing => Mode::Outside,
            Mode::Lined => {
                if b == b'\n' {
                    Mode::Outside
                } else {
                    Mode::Lined
                }
            }
        }
    }

    fn is_outside(self) -> bool
        ensures { result ≡ is_outside self }
    {
        matches!(self, Mode::Outside)
    }
}

/// What follows a kept text, after its first brace.
fn after_kept<'a>(bytes: &'a [u8]) -> Option<&'a [u8]>
    ensures { slice_of result ≡ closes Mode.Outside 0 bytes.now }
{
    let mut mode = Mode::Outside;
    let mut depth: usize = 0;
    let mut rest = bytes;
    while !rest.is_empty() {
        let b = rest[0];
        rest = rest.split_at(1).1;
        if mode.is_outside() && b == b'}' {
            if depth == 0 {
                return Some(rest);
            }
            depth -= 1;
        } else if mode.is_outside() && b == b'{' {
            depth += 1;
        } else {
            mode = mode.next(b, rest);
        }
    }
    None
}

/// The kept text at the front, which begins with a brace, and what follows it. It is `Unfinished`
/// where its last brace is missing.
pub fn braced_at<'a>(bytes: &'a [u8]) -> Result<(Part<'a>, &'a [u8]), LexicalFault>
    requires { begins_brace bytes.now ≡ true }
    ensures { Reads bytes.now result }
{
    match after_kept(bytes.split_at(1).1) {
        None => Err(LexicalFault::Unfinished),
        Some(rest) => {
            let text = bytes.split_at(bytes.len() - rest.len()).0;
            Ok((Part::Lexeme(Lexeme::Braced(text)), rest))
        }
    }
}
