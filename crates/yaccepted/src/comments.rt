//! The numbers of conflicts that the comments of a grammar file expect: `/* %expect 1 */`.

use std::str;
use yfiles::place::Place;
use yforeign::lexeme::Span;
use yimport::symbols::Expected;
use ylexemes::front::part_at;
use ylexemes::kind::Kind;
use ylexemes::part::{Lexeme, Part};

/// What a comment is wrong about.
#[derive(Clone, Copy, Drop)]
pub enum Why {
    /// No number stands there, or more than that.
    NoNumber,
    /// Such a comment stands on this line already.
    Second(usize),
}

/// A comment that is refused.
#[derive(Clone, Copy, Drop)]
pub struct Wrong {
    /// How many bytes of the file stand before it.
    pub at: usize,
    /// What is wrong with it.
    pub why: Why,
}

/// The numbers that comments expect, each with its line.
#[derive(Clone, Copy, Default, Drop)]
pub struct Numbers {
    /// Of shift/reduce conflicts.
    pub shift_reduce: Option<Expected>,
    /// Of reduce/reduce conflicts.
    pub reduce_reduce: Option<Expected>,
}

/// What a comment expects.
#[derive(Clone, Copy, Drop)]
struct Told {
    /// Whether it is a number of reduce/reduce conflicts.
    reduce: bool,
    /// The number, where there is one and nothing else.
    number: Option<usize>,
}

/// What stands at a place of a file.
#[derive(Clone, Copy)]
enum Found<'a> {
    /// Nothing more.
    End,
    /// `%%`.
    Mark,
    /// A comment.
    Comment(&'a [u8]),
    /// Anything else.
    Other,
}

/// What follows a word at the front of a text, where that is the whole word.
fn after_word<'a>(text: &'a [u8], word: &[u8]) -> Option<&'a [u8]> {
    let rest = text.strip_prefix(word)?;
    match rest.first() {
        Some(byte) if !byte.is_ascii_whitespace() => None,
        _ => Some(rest.trim_ascii()),
    }
}

/// The number that digits are, where it isn't too large.
fn number_of(digits: &[u8]) -> Option<usize> {
    if !digits.iter().all(|byte| byte.is_ascii_digit()) {
        return None;
    }
    str::from_utf8(digits).ok()?.parse::<usize>().ok()
}

/// What a comment expects, where it says that.
fn told_in(text: &[u8]) -> Option<Told> {
    let text = text.strip_prefix(b"/*")?.strip_suffix(b"*/")?.trim_ascii();
    match after_word(text, b"%expect") {
        Some(rest) => Some(Told {
            reduce: false,
            number: number_of(rest),
        }),
        None => Some(Told {
            reduce: true,
            number: number_of(after_word(text, b"%expect-rr")?),
        }),
    }
}

/// What stands at a place, and where the next part begins.
fn found_at(source: &[u8], at: usize) -> (Found<'_>, usize) {
    let bytes = source.get(at..).unwrap_or(&[]);
    if bytes.is_empty() {
        return (Found::End, at);
    }
    let Ok((part, rest)) = part_at(bytes) else {
        return (Found::Other, at.saturating_add(1));
    };
    let length = bytes.len().saturating_sub(rest.len());
    let next = at.saturating_add(length);
    match part {
        Part::Comment => (Found::Comment(bytes.get(..length).unwrap_or(&[])), next),
        // comments may stand before its colon
        Part::Lexeme(Lexeme::CIdentifier(name)) => (Found::Other, at.saturating_add(name.len())),
        Part::Lexeme(lexeme) if lexeme.kind() == Kind::Mark => (Found::Mark, next),
        _ => (Found::Other, next),
    }
}

impl Numbers {
    /// Takes what a comment expects, which stands here.
    fn take(&mut self, told: Told, span: Span) -> Result<(), Why> {
        let Some(number) = told.number else {
            return Err(Why::NoNumber);
        };
        let before = if told.reduce {
            self.reduce_reduce
        } else {
            self.shift_reduce
        };
        if let Some(before) = before {
            return Err(Why::Second(before.span.line));
        }
        let expected = Some(Expected { span, number });
        if told.reduce {
            self.reduce_reduce = expected;
        } else {
            self.shift_reduce = expected;
        }
        Ok(())
    }

    /// Takes a comment of a file, which stands at a place.
    fn take_comment(&mut self, source: &[u8], at: usize, text: &[u8]) -> Result<(), Wrong> {
        let Some(told) = told_in(text) else {
            return Ok(());
        };
        let place = Place {
            path: "",
            source,
            at,
        };
        let span = Span {
            line: place.spot().line,
            from: at,
            to: at.saturating_add(text.len()),
        };
        match self.take(told, span) {
            Ok(()) => Ok(()),
            Err(why) => Err(Wrong { at, why }),
        }
    }

    /// The numbers that the comments of a file expect, up to its second mark; or the first comment
    /// that is refused. Comments in code and in actions are those of another language.
    pub fn of(source: &[u8]) -> Result<Numbers, Wrong> {
        let mut numbers = Numbers::default();
        let mut at: usize = 0;
        let mut marks: usize = 0;
        for _ in 0..source.len() {
            let (found, next) = found_at(source, at);
            match found {
                Found::Comment(text) => numbers.take_comment(source, at, text)?,
                Found::Mark if marks == 0 => marks = 1,
                Found::Mark | Found::End => break,
                Found::Other => {}
            }
            at = next;
        }
        Ok(numbers)
    }
}
