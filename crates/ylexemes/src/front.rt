//! The part of a grammar file that stands at a place.

ghost use Rattle.std.specs.Prelude.{◌≡◌, ◌∷◌, ◌++◌, ◌<◌, List, true, length, MatchResult};
ghost use Rattle.ylexemes.specs.Front.{PartAt, FaultAt};
ghost use Rattle.ylexemes.specs.Bytes.{begins};
ghost use Rattle.ylexemes.specs.Views.{Reads, begins_digit, begins_slash, begins_name, is_other};
ghost use Rattle.ylexemes.specs.Views.{is_lone, sign_of};

use crate::bytes::{
    after_gap, after_pair, after_text, digit_run, is_blank, is_digit, is_name_start, name_run,
};
use crate::kept::braced_at;
use crate::kind::Sign;
use crate::literal::read_literal;
use crate::part::{Lexeme, LexicalFault, Part};
use crate::percent::percent_at;

fn number_at<'a>(bytes: &'a [u8]) -> Result<(Part<'a>, &'a [u8]), LexicalFault>
    requires { begins_digit bytes.now ≡ true }
    ensures { Reads bytes.now result }
{
    let (digits, rest) = digit_run(bytes);
    Ok((Part::Lexeme(Lexeme::Number(digits)), rest))
}

fn comment_at<'a>(bytes: &'a [u8]) -> Result<(Part<'a>, &'a [u8]), LexicalFault>
    requires { begins_slash bytes.now ≡ true }
    ensures { Reads bytes.now result }
{
    match after_text(bytes, b"/*") {
        None => Err(LexicalFault::Foreign),
        Some(more) => match after_pair(more, b'*', b'/') {
            None => Err(LexicalFault::Unfinished),
            Some(rest) => Ok((Part::Comment, rest)),
        },
    }
}

fn name_at<'a>(bytes: &'a [u8]) -> Result<(Part<'a>, &'a [u8]), LexicalFault>
    requires { begins_name bytes.now ≡ true }
    ensures { Reads bytes.now result }
{
    let (name, rest) = name_run(bytes);
    let end = after_gap(rest);
    match after_text(end, b":") {
        None => Ok((Part::Lexeme(Lexeme::Name(name)), rest)),
        Some(tail) => Ok((Part::Lexeme(Lexeme::CIdentifier(name)), tail)),
    }
}

/// The part at the front of bytes that are not empty, as long as it can be, and what follows it;
/// or why no part begins there.
pub fn part_at<'a>(bytes: &'a [u8]) -> Result<(Part<'a>, &'a [u8]), LexicalFault>
    requires { 0 < length bytes.now }
    ensures { Reads bytes.now result }
{
    let first = bytes[0];
    if is_blank(first) {
        Ok((Part::Blank, bytes.split_at(1).1))
    } else if is_digit(first) {
        number_at(bytes)
    } else if first == b'/' {
        comment_at(bytes)
    } else if is_name_start(first) {
        name_at(bytes)
    } else {
        other_at(bytes)
    }
}

/// The part at the front, where no blank, digit, slash or name byte begins it.
fn other_at<'a>(bytes: &'a [u8]) -> Result<(Part<'a>, &'a [u8]), LexicalFault>
    requires some { 0 < length bytes.now }
    requires other { begins is_other bytes.now ≡ true }
    ensures { Reads bytes.now result }
{
    let first = bytes[0];
    if first == b'\'' {
        read_literal(bytes)
    } else if first == b'%' {
        percent_at(bytes)
    } else if first == b'{' {
        braced_at(bytes)
    } else {
        sign_at(bytes)
    }
}

/// The lexeme of one byte at the front, where nothing longer can begin.
fn sign_at<'a>(bytes: &'a [u8]) -> Result<(Part<'a>, &'a [u8]), LexicalFault>
    requires some { 0 < length bytes.now }
    requires lone { begins is_lone bytes.now ≡ true }
    ensures { Reads bytes.now result }
{
    match sign(bytes[0]) {
        Some(sign) => Ok((Part::Lexeme(Lexeme::Fixed(sign)), bytes.split_at(1).1)),
        None => Err(LexicalFault::Foreign),
    }
}

/// The lexeme that one byte is by itself.
fn sign(b: u8) -> Option<Sign>
    ensures { result ≡ sign_of b }
{
    match b {
        b'<' => Some(Sign::Less),
        b'>' => Some(Sign::Greater),
        b'|' => Some(Sign::Bar),
        b';' => Some(Sign::Semicolon),
        _ => None,
    }
}
