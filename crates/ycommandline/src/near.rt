//! What is said of arguments that are refused, and what could be meant by them.

use crate::forms::{Form, OTHERS, arguments_of};
use crate::ways::{Argument, Way};
use std::fs;
use std::io::{self, Write};
use std::rt::Files;
use yfaults::nearest::Search;

/// Asks whether a command was meant by the first argument of a session, where that is no file, and
/// no path either.
pub fn put_near_form<F: Files + AllocGlobal, W: Write>(
    rt: &F,
    out: &mut W,
    word: &str,
) -> io::Result<()> {
    let mut search = Search::new(word.as_bytes());
    for form in &OTHERS {
        search.offer(rt.alloc(), form.word().as_bytes())?;
    }
    match search.text() {
        Some(near) if !word.contains('/') && fs::metadata(rt, word).is_err() => {
            writeln!(
                out,
                "ydebug: there is no command {word}; did you mean {near}?"
            )
        }
        _ => Ok(()),
    }
}

/// Writes an argument as it is given.
fn put_argument<W: Write>(out: &mut W, (name, way, _): Argument) -> io::Result<()> {
    match way {
        Way::File(shown) => write!(out, " {shown}"),
        Way::Files => write!(out, " {name}.."),
        Way::Flag | Way::Flagged(_) => write!(out, " [--{name}]"),
        Way::Value(shown) | Way::Renamed(shown, _) => write!(out, " [--{name} {shown}]"),
        Way::Wanted(shown) => write!(out, " --{name} {shown}"),
        Way::Letter(letter, shown) => write!(out, " [-{letter} {shown}]"),
        Way::LetterFlag(letter) => write!(out, " [-{letter}]"),
        Way::Letters(letter, shown) => write!(out, " [-{letter}{shown}]"),
        Way::Optional(shown) => write!(out, " [--{name}[={shown}]]"),
        Way::Old => Ok(()),
    }
}

/// Writes what is wrong with arguments, as clap says it, and what the form takes.
pub fn put_refused<W: Write>(out: &mut W, form: Form, text: &str) -> io::Result<()> {
    let said = text
        .split_once("\n\nUsage: ")
        .map_or(text, |(said, _)| said);
    let said = said
        .split_once("\n\nFor more ")
        .map_or(said, |(said, _)| said);
    write!(out, "ydebug: {said}\n\nusage: {}", form.name())?;
    for wanted in arguments_of(form) {
        put_argument(out, *wanted)?;
    }
    writeln!(out)
}
