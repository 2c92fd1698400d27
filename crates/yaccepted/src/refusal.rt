//! What is wrong with a list of accepted conflicts, or with a comment that expects a number.

use crate::comments::{self, Wrong};
use crate::list::Why;
use std::alloc::Global;
use std::io::{self, Write};
use yfiles::diagnostic::Diagnostic;
use yfiles::place::Place;
use yfrontend::notes::Source;

impl Why {
    /// Says what is wrong.
    fn say(self, one: &mut Diagnostic) -> io::Result<()> {
        let words = match self {
            Why::NoFirst => "a list of accepted conflicts begins with conflicts 1",
            Why::Unknown => "this is no line of a list of accepted conflicts",
            Why::Loose => "no conflict begins before this item",
            Why::NoItem => "this is no item",
            Why::Short => "this conflict has fewer than two items",
            Why::Twice(line) => {
                return write!(
                    one.message,
                    "this conflict is accepted by line {line} already"
                );
            }
        };
        Ok(one.say(words)?)
    }

    /// How to mend it.
    fn mend(self) -> &'static str {
        match self {
            Why::NoFirst => "--accept FILE --update makes a list.",
            Why::Unknown => {
                "A conflict begins with conflict on and its token; its items stand below, after \
                 two spaces."
            }
            Why::Loose => "Write conflict on and its token above, without an empty line between.",
            Why::NoItem =>
                "Write a rule with a period where its dot is, as in stmt: IF expr stmt .",
            Why::Short => "Write the item that is taken below it, and then the rule that isn't.",
            Why::Twice(_) => "Take one of them out.",
        }
    }
}

/// What is wrong with a line of a list of these bytes.
pub fn wrong_line(
    alloc: Global,
    (path, source): (&str, &[u8]),
    number: usize,
    why: Why,
) -> io::Result<Diagnostic> {
    let (mut at, mut lines) = (0usize, 1usize);
    for (place, byte) in source.iter().enumerate() {
        if *byte == b'\n' && lines < number {
            lines = lines.saturating_add(1);
            at = place.saturating_add(1);
        }
    }
    let mut one = Diagnostic::at(alloc, Place { path, source, at }, false)?;
    why.say(&mut one)?;
    one.note(alloc, why.mend())?;
    Ok(one)
}

/// What is wrong with a comment of a grammar file.
pub fn wrong_comment(alloc: Global, file: Source<'_>, wrong: Wrong) -> io::Result<Diagnostic> {
    let (path, source, at) = (file.path, file.bytes, wrong.at);
    let place = Place { path, source, at };
    let mut one = Diagnostic::at(alloc, place, true)?;
    match wrong.why {
        comments::Why::NoNumber => one.say("this comment expects no number of conflicts")?,
        comments::Why::Second(before) => write!(
            one.message,
            "a comment on line {before} expects a number already"
        )?,
    }
    one.note(
        alloc,
        "Write /* %expect N */ or /* %expect-rr N */, each once and with nothing else in it.",
    )?;
    Ok(one)
}
