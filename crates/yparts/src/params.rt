//! Lists of parameters, between braces and with commas between them.

use crate::parts::{Param, Taker};
use yforeign::runs::line_length;
use ylexemes::bytes::{after_comment, is_blank};

/// Whether a byte can stand in a name of C.
fn is_in_name(b: u8) -> bool {
    b.is_ascii_alphanumeric() || b == b'_'
}

/// Whether a piece of a declaration is a comment.
pub fn is_comment(piece: &[u8]) -> bool {
    matches!(piece, [b'/', b'/' | b'*', ..])
}

/// How many bytes the comment, the name or number, or the byte at the front has.
pub fn piece_length(text: &[u8]) -> usize {
    match text {
        [b'/', b'*', ..] => {
            let after = after_comment(text).unwrap_or(&[]);
            text.len().saturating_sub(after.len())
        }
        [b'/', b'/', ..] => line_length(text),
        [first, ..] if is_in_name(*first) => {
            let end = text.iter().position(|b| !is_in_name(*b));
            end.unwrap_or(text.len())
        }
        _ => 1,
    }
}

/// The name that is declared, where there is one: the last one as bison has it, outside of square
/// brackets and of comments, but that of a pointer to a function, before its parenthesis.
fn name_of(declaration: &[u8]) -> Option<&[u8]> {
    let mut name: Option<&[u8]> = None;
    // how many square brackets are open
    let mut brackets: usize = 0;
    // whether a parenthesis was opened and nothing came after it, or the star of such a pointer
    let (mut opened, mut pointer) = (false, false);
    let mut rest = declaration;
    // each piece has a byte at least
    for _ in declaration {
        let Some(first) = rest.first().copied() else {
            break;
        };
        let (piece, after) = rest.split_at(piece_length(rest).min(rest.len()));
        rest = after;
        if is_comment(piece) || is_blank(first) {
            continue;
        }
        match first {
            b'[' => brackets = brackets.saturating_add(1),
            b']' => brackets = brackets.saturating_sub(1),
            b'*' if opened => {
                pointer = true;
                name = None;
            }
            b')' if pointer && name.is_some() => return name,
            _ if is_in_name(first) && !first.is_ascii_digit() && brackets == 0 => {
                name = Some(piece);
            }
            _ => {}
        }
        opened = first == b'(';
    }
    name
}

/// How many bytes the first declaration of a list has.
fn first_length(text: &[u8]) -> usize {
    let mut depth: usize = 0;
    let mut at: usize = 0;
    for _ in text {
        let rest = text.get(at..).unwrap_or(&[]);
        match rest.first() {
            None => break,
            Some(b',') if depth == 0 => break,
            Some(b'(' | b'[' | b'<' | b'{') => depth = depth.saturating_add(1),
            Some(b')' | b']' | b'>' | b'}') => depth = depth.saturating_sub(1),
            Some(_) => {}
        }
        at = at.saturating_add(piece_length(rest));
    }
    at
}

/// The first parameter of a list that isn't blank, and what comes after it; `None` where it has no
/// name.
pub fn param_at(taker: Taker, text: &[u8]) -> Option<(Param<'_>, &[u8])> {
    let length = first_length(text);
    let declaration = text.get(..length).unwrap_or(text).trim_ascii();
    let rest = text.get(length.saturating_add(1)..).unwrap_or(&[]);
    let name = name_of(declaration)?;
    let param = Param {
        taker,
        declaration,
        name,
    };
    Some((param, rest))
}
