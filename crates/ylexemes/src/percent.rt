//! What a percent sign begins: a mark, a code block, or a word.

ghost use Rattle.std.specs.Prelude.{◌≡◌, ◌++◌, true, codes, List, ℕ};
ghost use Rattle.ylexemes.specs.Views.{Reads, begins_percent, word_of};

use crate::bytes::{after_pair, after_text, name_run};
use crate::kind::Sign;
use crate::part::{Lexeme, LexicalFault, Part};

/// The lexeme that a word after a percent sign is.
fn keyword(word: &[u8]) -> Option<Sign>
    ensures { result ≡ word_of word.now }
{
    if word == b"token".as_slice() {
        Some(Sign::Token)
    } else if word == b"left".as_slice() {
        Some(Sign::Left)
    } else if word == b"right".as_slice() {
        Some(Sign::Right)
    } else if word == b"nonassoc".as_slice() {
        Some(Sign::Nonassoc)
    } else if word == b"type".as_slice() {
        Some(Sign::Types)
    } else if word == b"start".as_slice() {
        Some(Sign::Start)
    } else if word == b"union".as_slice() {
        Some(Sign::Union)
    } else if word == b"prec".as_slice() {
        Some(Sign::Prec)
    } else {
        None
    }
}

/// The lexeme at the front, which begins with a percent sign, and what follows it; or why there is
/// none.
pub fn percent_at<'a>(bytes: &'a [u8]) -> Result<(Part<'a>, &'a [u8]), LexicalFault>
    requires { begins_percent bytes.now ≡ true }
    ensures { Reads bytes.now result }
{
    if let Some(rest) = after_text(bytes, b"%%") {
        return Ok((Part::Lexeme(Lexeme::Fixed(Sign::Mark)), rest));
    }
    match after_text(bytes, b"%{") {
        Some(more) => code_end(bytes, more),
        None => word_at(bytes),
    }
}

fn code_end<'a>(bytes: &'a [u8], more: &'a [u8]) -> Result<(Part<'a>, &'a [u8]), LexicalFault>
    requires { bytes.now ≡ codes "%{" ++ more.now }
    ensures { Reads bytes.now result }
{
    let _ = bytes;
    match after_pair(more, b'%', b'}') {
        None => Err(LexicalFault::Unfinished),
        Some(rest) => Ok((Part::Lexeme(Lexeme::Code), rest)),
    }
}

fn word_at<'a>(bytes: &'a [u8]) -> Result<(Part<'a>, &'a [u8]), LexicalFault>
    requires first { begins_percent bytes.now ≡ true }
    requires no_mark { (after : List ℕ) → bytes.now ≡ codes "%%" ++ after → ⊥ }
    requires no_code { (after : List ℕ) → bytes.now ≡ codes "%{" ++ after → ⊥ }
    ensures { Reads bytes.now result }
{
    let (word, rest) = name_run(bytes.split_at(1).1);
    match keyword(word) {
        Some(sign) => Ok((Part::Lexeme(Lexeme::Fixed(sign)), rest)),
        None => Err(LexicalFault::Foreign),
    }
}
