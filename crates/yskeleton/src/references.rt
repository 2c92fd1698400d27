//! What an action says of values and places: `$$`, `$1`, `$<tag>1`, `$name`, `@1`, and what is no
//! such thing.

use yforeign::quoted;
use yforeign::runs::line_length;
use ylexemes::bytes::{after_comment, digit_run, is_name_byte, is_name_start};

/// Whose value or place is meant.
#[derive(Clone, Copy, PartialEq, Eq)]
pub enum Whose<'a> {
    /// The left side's, `$$`.
    Left,
    /// That of a symbol of the body, counted from 1; 0 and less are below the body on the stack.
    Symbol(i64),
    /// That of a name.
    Named(&'a [u8]),
}

/// A value that an action names, and the tag that it gives itself.
#[derive(Clone, Copy)]
pub struct Reference<'a> {
    /// Whose it is.
    pub whose: Whose<'a>,
    /// The tag between `<` and `>`.
    pub tag: Option<&'a [u8]>,
}

/// What stands at the front of a part of an action.
#[derive(Clone, Copy)]
pub enum Piece<'a> {
    /// Text of C that stays.
    Text,
    /// A value.
    Value(Reference<'a>),
    /// A place.
    Place(Whose<'a>),
}

/// What an action may name.
#[derive(Clone, Copy)]
pub struct Dialect {
    /// Names of symbols.
    pub names: bool,
    /// Places.
    pub places: bool,
}

/// How many bytes a string or a character constant has that begins with a quote. As in C it ends
/// with its line at the latest, so that an apostrophe in a text that is left out hides nothing of
/// the next line.
fn quoted_len(bytes: &[u8], quote: u8) -> usize {
    let mut escaped = true;
    for (index, byte) in bytes.iter().enumerate() {
        if escaped {
            escaped = false;
        } else if *byte == b'\\' {
            escaped = true;
        } else if *byte == quote || *byte == b'\n' {
            return index.saturating_add(1);
        }
    }
    bytes.len()
}

/// How many bytes the string, the character constant, the comment or the byte at the front has.
fn text_len(bytes: &[u8]) -> usize {
    match bytes {
        [quote, ..] if *quote == b'"' || *quote == b'\'' => quoted_len(bytes, *quote),
        [b'/', b'*', ..] => {
            let after = after_comment(bytes).unwrap_or(&[]);
            bytes.len().saturating_sub(after.len())
        }
        [b'/', b'/', ..] => line_length(bytes),
        _ => 1,
    }
}

/// The tag at the front, `<tag>`, and what follows it. Brackets nest, and the `>` of an arrow isn't
/// one.
fn tag_at(bytes: &[u8]) -> (Option<&[u8]>, &[u8]) {
    if bytes.first() != Some(&b'<') {
        return (None, bytes);
    }
    let Ok((_, length)) = quoted::tag_at(bytes) else {
        return (None, bytes);
    };
    let tag = bytes.get(1..length.saturating_sub(1)).unwrap_or(&[]);
    (Some(tag.trim_ascii()), bytes.get(length..).unwrap_or(&[]))
}

/// So many digits are more than any body has symbols.
const MOST_DIGITS: usize = 9;

/// The number at the front, with a minus or without, and what follows it. Of many digits the first
/// ones count.
fn number_at(bytes: &[u8]) -> Option<(i64, &[u8])> {
    let rest = bytes.strip_prefix(b"-").unwrap_or(bytes);
    let (digits, after) = digit_run(rest);
    if digits.is_empty() {
        return None;
    }
    let mut value: i64 = 0;
    for digit in digits.get(..MOST_DIGITS).unwrap_or(digits) {
        let digit = i64::from(digit.wrapping_sub(b'0'));
        value = value.saturating_mul(10).saturating_add(digit);
    }
    if rest.len() < bytes.len() {
        value = value.saturating_neg();
    }
    Some((value, after))
}

/// The name at the front, in square brackets or as far as it is one of C, and what follows it.
fn name_at(bytes: &[u8]) -> Option<(&[u8], &[u8])> {
    let first = *bytes.first()?;
    if first == b'[' {
        let end = bytes.iter().position(|b| *b == b']')?;
        let name = bytes.get(1..end)?.trim_ascii();
        if !is_name_start(*name.first()?) {
            return None;
        }
        return Some((name, bytes.get(end.saturating_add(1)..)?));
    }
    if !is_name_start(first) || first == b'.' {
        return None;
    }
    let end = bytes.iter().position(|b| !is_name_byte(*b) || *b == b'.');
    Some(bytes.split_at(end.unwrap_or(bytes.len())))
}

/// Who is meant at the front, and what follows that; `sign` stands for the left side.
fn whose_at(bytes: &[u8], names: bool) -> Option<(Whose<'_>, &[u8])> {
    if let Some((b'$', after)) = bytes.split_first() {
        return Some((Whose::Left, after));
    }
    if let Some((number, after)) = number_at(bytes) {
        return Some((Whose::Symbol(number), after));
    }
    if !names {
        return None;
    }
    let (name, after) = name_at(bytes)?;
    Some((Whose::Named(name), after))
}

/// The value or place at the front, and what follows it.
fn named_at(bytes: &[u8], dialect: Dialect) -> Option<(Piece<'_>, &[u8])> {
    match bytes.split_first()? {
        (b'$', rest) => {
            let (tag, rest) = tag_at(rest);
            let (whose, after) = whose_at(rest, dialect.names)?;
            Some((Piece::Value(Reference { whose, tag }), after))
        }
        (b'@', rest) if dialect.places => {
            let (whose, after) = whose_at(rest, dialect.names)?;
            Some((Piece::Place(whose), after))
        }
        _ => None,
    }
}

/// What stands at the front of a part of an action, its bytes and those after it; `None` where
/// nothing does. It has a byte at least.
pub fn piece_at(bytes: &[u8], dialect: Dialect) -> Option<(Piece<'_>, &[u8], &[u8])> {
    if bytes.is_empty() {
        return None;
    }
    let (piece, length) = match named_at(bytes, dialect) {
        Some((piece, after)) => (piece, bytes.len().saturating_sub(after.len())),
        None => (Piece::Text, text_len(bytes)),
    };
    let (front, after) = bytes.split_at(length.min(bytes.len()));
    Some((piece, front, after))
}

/// Whether code names a value or a place by this name.
pub fn names_one(code: &[u8], name: &[u8]) -> bool {
    let all = Dialect {
        names: true,
        places: true,
    };
    let mut rest = code;
    // each piece has a byte at least
    for _ in code {
        let Some((piece, _, after)) = piece_at(rest, all) else {
            break;
        };
        rest = after;
        let whose = match piece {
            Piece::Value(value) => value.whose,
            Piece::Place(whose) => whose,
            Piece::Text => continue,
        };
        if whose == Whose::Named(name) {
            return true;
        }
    }
    false
}
