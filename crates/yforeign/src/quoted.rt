//! Quotes, tags and brackets at the front of bytes: what they are, and how many bytes they have.

use crate::lexeme::{Flaw, Kind};
use ylexemes::bytes::{is_blank, is_name_byte, is_name_start};
use ylexemes::literal::literal_at;

/// How many bytes stand up to the closing quote, with both quotes. A backslash and the byte after
/// it belong together; so byacc reads on after a newline with a backslash before it, and any other
/// newline ends the search.
fn quoted_length(bytes: &[u8], quote: u8) -> Result<usize, Flaw> {
    let mut escaped = false;
    for (at, b) in bytes.iter().enumerate().skip(1) {
        if *b == b'\n' && !escaped {
            break;
        }
        if !escaped && *b == quote {
            return Ok(at.saturating_add(1));
        }
        escaped = !escaped && *b == b'\\';
    }
    Err(Flaw::Unfinished)
}

/// What a single quote begins: a literal of `yacc`, or one byte, or several characters without an
/// escape.
pub fn quote_at(bytes: &[u8]) -> Result<(Kind, usize), Flaw> {
    if let Some((_, rest)) = literal_at(bytes) {
        return Ok((Kind::Literal, bytes.len().saturating_sub(rest.len())));
    }
    let length = quoted_length(bytes, b'\'')?;
    match bytes.get(1..length.saturating_sub(1)).unwrap_or(&[]) {
        [_] => Ok((Kind::ByteLiteral, length)),
        [] | [b'\\', ..] => Err(Flaw::BadLiteral),
        _ => Ok((Kind::Text, length)),
    }
}

/// The string that a double quote begins.
pub fn text_at(bytes: &[u8]) -> Result<(Kind, usize), Flaw> {
    let length = quoted_length(bytes, b'"')?;
    if length <= 2 {
        return Err(Flaw::BadLiteral);
    }
    Ok((Kind::Text, length))
}

/// The string between `_(` and `)`.
pub fn translated_at(bytes: &[u8]) -> Result<(Kind, usize), Flaw> {
    let text = bytes.get(2..).unwrap_or(&[]);
    let (_, length) = text_at(text)?;
    match text.get(length) {
        Some(b')') => Ok((Kind::Translated, length.saturating_add(3))),
        _ => Err(Flaw::Unfinished),
    }
}

/// The tag that a `<` begins: brackets nest, and the `>` of an arrow isn't one.
pub fn tag_at(bytes: &[u8]) -> Result<(Kind, usize), Flaw> {
    let mut depth: usize = 0;
    let mut before = 0u8;
    for (at, b) in bytes.iter().enumerate() {
        if *b == b'<' {
            depth = depth.saturating_add(1);
        } else if *b == b'>' && before != b'-' {
            depth = depth.saturating_sub(1);
            if depth == 0 {
                return Ok((Kind::Tag, at.saturating_add(1)));
            }
        }
        before = *b;
    }
    Err(Flaw::Unfinished)
}

/// The name in square brackets.
pub fn reference_at(bytes: &[u8]) -> Result<(Kind, usize), Flaw> {
    let Some(end) = bytes.iter().position(|b| *b == b']') else {
        return Err(Flaw::Unfinished);
    };
    let inner = bytes.get(1..end).unwrap_or(&[]);
    let has_name = inner.iter().any(|b| is_name_start(*b));
    if has_name
        && inner
            .iter()
            .all(|b| is_name_byte(*b) || *b == b'-' || is_blank(*b))
    {
        Ok((Kind::Reference, end.saturating_add(1)))
    } else {
        Err(Flaw::BadReference)
    }
}

/// What stands between parentheses, which don't nest.
pub fn arguments_at(bytes: &[u8]) -> Result<(Kind, usize), Flaw> {
    match bytes.iter().position(|b| *b == b')') {
        Some(end) => Ok((Kind::Arguments, end.saturating_add(1))),
        None => Err(Flaw::Unfinished),
    }
}
