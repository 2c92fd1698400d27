//! Verdicts as they are written: for people, and as plain lines.

use crate::expected::Wanted;
use crate::language::Input;
use crate::spelled::Spoken;
use crate::verdict::{Rejection, Verdict};
use std::alloc::Global;
use std::io::{self, Write};
use yexplain::text::Name;
use yfiles::diagnostic::Diagnostic;
use ysymbols::{Grammar, Sym};
use ytables::Tables;

/// The most tokens that are named of those before an error, and of those that were expected.
const MOST_NAMED: usize = 20;

/// What is said where no verdict came within the steps that are made.
pub const UNDECIDED: &str = "undecided after 1,000,000 steps";

impl Verdict {
    /// What is wrong with an input, where it isn't accepted. Of a rejection it says this message,
    /// where there is one, and else which token can't come and which can.
    pub fn diagnostic(
        &self,
        alloc: Global,
        spoken: Spoken<'_>,
        path: &str,
        input: &Input,
        message: Option<&[u8]>,
    ) -> io::Result<Option<Diagnostic>> {
        match self {
            Verdict::Accepted(_) => Ok(None),
            Verdict::Rejected(rejection) => rejection
                .diagnostic(alloc, spoken, path, input, message)
                .map(Some),
            Verdict::Undecided => {
                let mut one = Diagnostic::new(alloc, Some(path), None)?;
                one.say(UNDECIDED)?;
                Ok(Some(one))
            }
        }
    }

    /// Writes it for people, and gives the exit status, with the message of a rejection, where
    /// there is one.
    pub fn put<W: Write>(
        &self,
        alloc: Global,
        out: &mut W,
        spoken: Spoken<'_>,
        (path, input): (&str, &Input),
        message: Option<&[u8]>,
    ) -> io::Result<u8> {
        match self.diagnostic(alloc, spoken, path, input, message)? {
            Some(one) => {
                one.put(out, "ydebug")?;
                Ok(self.status())
            }
            None => {
                write!(out, "{path}: ")?;
                self.put_words(out, spoken.grammar)?;
                Ok(0)
            }
        }
    }

    /// Writes it in one line for people, without a path, and tokens by their names.
    pub fn put_words<W: Write>(&self, out: &mut W, grammar: &Grammar) -> io::Result<()> {
        match self {
            Verdict::Accepted(steps) => writeln!(out, "accepted after {steps} steps"),
            Verdict::Rejected(rejection) => {
                let spelled = None;
                rejection.put_words(out, Spoken { grammar, spelled }, None)?;
                writeln!(out)
            }
            Verdict::Undecided => writeln!(out, "{UNDECIDED}"),
        }
    }

    /// Writes it as a plain line, and gives the exit status.
    pub fn put_plain<W: Write>(&self, out: &mut W, path: &str) -> io::Result<u8> {
        let written = match self {
            Verdict::Accepted(steps) => writeln!(out, "{path}: accepted at {steps}"),
            Verdict::Rejected(rejection) => {
                let number = rejection.number;
                writeln!(out, "{path}: rejected at token {number}")
            }
            Verdict::Undecided => writeln!(out, "{path}: limit"),
        };
        written?;
        Ok(self.status())
    }
}

/// Writes the first of some tokens as a list, with `or` before the last one, or dots where there
/// are more.
pub fn put_list<W: Write>(out: &mut W, spoken: Spoken<'_>, tokens: &[Sym]) -> io::Result<()> {
    for (index, token) in tokens.iter().take(MOST_NAMED).enumerate() {
        let is_last = index.saturating_add(1) == tokens.len();
        let front = match index {
            0 => " ",
            _ if tokens.len() <= MOST_NAMED && is_last => " or ",
            _ => ", ",
        };
        write!(out, "{front}")?;
        spoken.put(out, *token)?;
    }
    if tokens.len() > MOST_NAMED {
        write!(out, ", ..")?;
    }
    Ok(())
}

/// Adds which tokens stand before an error, by their names, as tokens files have them: the last
/// ones, after dots where there are more.
fn note_before(
    alloc: Global,
    one: &mut Diagnostic,
    grammar: &Grammar,
    before: &[Sym],
) -> io::Result<()> {
    if before.is_empty() {
        return Ok(one.note(alloc, "at the start")?);
    }
    let start = before.len().saturating_sub(MOST_NAMED);
    let dots = if start > 0 { " .." } else { "" };
    let mut note = Vec::new(alloc);
    write!(note, "after{dots}")?;
    for token in before.get(start..).unwrap_or(before) {
        let name = Name(grammar, *token);
        write!(note, " {name}")?;
    }
    Ok(one.help(note)?)
}

impl Rejection {
    /// Writes a message, where there is one, or that the token, which is this word of a text, can't
    /// come, and which can. Where that is, the caller says.
    pub fn put_token<W: Write>(
        &self,
        out: &mut W,
        spoken: Spoken<'_>,
        word: &[u8],
        message: Option<&[u8]>,
    ) -> io::Result<()> {
        if let Some(message) = message {
            return out.write_all(message);
        }
        write!(out, "unexpected ")?;
        spoken.put_met(out, self.token, word)?;
        let Wanted { can, unknown } = &self.wanted;
        if can.is_empty() && unknown.is_empty() {
            write!(out, "; no token can come")?;
        }
        if !can.is_empty() {
            write!(out, ", expected")?;
            put_list(out, spoken, can)?;
        }
        if !unknown.is_empty() {
            write!(out, "; can't tell of")?;
            put_list(out, spoken, unknown)?;
        }
        Ok(())
    }

    /// Writes so with the number of the token.
    fn put_words<W: Write>(
        &self,
        out: &mut W,
        spoken: Spoken<'_>,
        message: Option<&[u8]>,
    ) -> io::Result<()> {
        let number = self.number;
        write!(out, "rejected at token {number}: ")?;
        self.put_token(out, spoken, &[], message)
    }

    /// What is said of it: at its place in a text, with the line there, or of a tokens file with
    /// the tokens before it.
    pub fn diagnostic(
        &self,
        alloc: Global,
        spoken: Spoken<'_>,
        path: &str,
        input: &Input,
        message: Option<&[u8]>,
    ) -> io::Result<Diagnostic> {
        if let Some(text) = &input.text {
            let place = text.place(self.number);
            let mut one = Diagnostic::at(alloc, place, true)?;
            let word = text.word(self.number);
            self.put_token(&mut one.message, spoken, word, message)?;
            return Ok(one);
        }
        let mut one = Diagnostic::new(alloc, Some(path), None)?;
        self.put_words(&mut one.message, spoken, message)?;
        let tokens = &input.tokens.symbols;
        let before = tokens.get(..self.before()).unwrap_or(tokens);
        note_before(alloc, &mut one, spoken.grammar, before)?;
        Ok(one)
    }
}

/// Writes whether the cells of a grammar file's tables have choices, for people.
pub fn put_choice<W: Write>(out: &mut W, path: &str, tables: &Tables) -> io::Result<()> {
    let words = if tables.choice_free() {
        "no state has a choice of actions, so the answers are those of the grammar's language"
    } else {
        "some states have a choice of actions, so a list that is rejected here may be in the grammar's language"
    };
    writeln!(out, "{path}: {words}")
}

/// Writes so as a plain line.
pub fn put_plain_choice<W: Write>(out: &mut W, path: &str, tables: &Tables) -> io::Result<()> {
    let no = if tables.choice_free() { "no " } else { "" };
    writeln!(out, "{path}: {no}choices")
}
