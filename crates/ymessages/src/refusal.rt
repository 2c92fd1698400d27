//! What is wrong with a file of messages.

use crate::claims::{Came, Claim, Claims, Unread};
use crate::file::Span;
use crate::inputs::Wrong;
use std::alloc::Global;
use std::io::{self, Write};
use yexplain::text::Name;
use yfaults::opening::part_fault;
use yfiles::diagnostic::{Diagnostic, Diagnostics};
use yfiles::place::Place;
use yinput::fault::{TOO_MANY, UNMATCHED, fault_at};
use ysymbols::Grammar;

/// A file of messages: its path and its bytes.
#[derive(Clone, Copy)]
pub struct Source<'a> {
    /// The path.
    pub path: &'a str,
    /// The bytes.
    pub bytes: &'a [u8],
}

/// What a parse over an input comes to, where its last token is no error.
pub fn put_came<W: Write>(out: &mut W, grammar: &Grammar, claim: &Claim) -> io::Result<()> {
    match claim.came {
        Came::Claims(state) => write!(out, "state {state} detects its last token"),
        Came::Accepted => write!(out, "it is accepted"),
        Came::Undecided => write!(out, "its parse takes more than 1,000,000 steps"),
        Came::AtEnd => write!(
            out,
            "its last token can come; with $end after it, the end is the error"
        ),
        Came::Early(number) => {
            let place = number.saturating_sub(1);
            let token = claim.input.tokens.symbols.get(place).copied().unwrap_or(0);
            let name = Name(grammar, token);
            write!(out, "token {number}, {name}, is an error already")
        }
    }
}

impl Source<'_> {
    /// The place in a line after so many of its bytes.
    fn place(&self, line: Span, before: usize) -> Place<'_> {
        Place {
            path: self.path,
            source: self.bytes,
            at: line.start.saturating_add(before),
        }
    }

    /// What is said of a line, with its text.
    fn at_line(&self, alloc: Global, line: Span) -> io::Result<Diagnostic> {
        Diagnostic::at(alloc, self.place(line, 0), false)
    }

    /// That inputs have no message, the last of them on this line.
    pub fn no_message(&self, alloc: Global, line: Span) -> io::Result<Diagnostic> {
        let mut one = self.at_line(alloc, line)?;
        one.say("no message follows this input")?;
        one.note(
            alloc,
            "Write an empty line after it, and then the message; it can't begin with #.",
        )?;
        Ok(one)
    }

    /// Why an input isn't read.
    pub fn unread(
        &self,
        alloc: Global,
        grammar: &Grammar,
        unread: Unread,
    ) -> io::Result<Diagnostic> {
        let Unread { line, wrong } = unread;
        match wrong {
            Wrong::Tokens(fault) => {
                let tokens = (self.place(line, 0), line.of(self.bytes));
                part_fault(alloc, grammar, tokens, fault)
            }
            Wrong::Unmatched(before) => fault_at(alloc, self.place(line, before), UNMATCHED),
            Wrong::TooMany(before) => fault_at(alloc, self.place(line, before), TOO_MANY),
        }
    }

    /// What is wrong with an input, where something is: its last token is no error, or it has the
    /// state of one with another message.
    fn of_claim(
        &self,
        alloc: Global,
        grammar: &Grammar,
        claims: &Claims,
        claim: &Claim,
    ) -> io::Result<Option<Diagnostic>> {
        let mut one = self.at_line(alloc, claim.line)?;
        match (claim.came, claims.rival(claim)) {
            (Came::Claims(_), None) => return Ok(None),
            (Came::Claims(_), Some(rival)) => {
                let line = self.place(rival.line, 0).spot().line;
                write!(
                    one.message,
                    "its error is detected in the same state as that of line {line}, which has \
                     another message"
                )?;
            }
            _ => {
                one.say("this input isn't an error at its last token: ")?;
                put_came(&mut one.message, grammar, claim)?;
            }
        }
        Ok(Some(one))
    }

    /// Tells what is wrong with each input, and says how many are wrong.
    pub fn add_claims(
        &self,
        alloc: Global,
        told: &mut Diagnostics,
        grammar: &Grammar,
        claims: &Claims,
    ) -> io::Result<usize> {
        let mut count: usize = 0;
        for claim in &claims.all {
            if let Some(one) = self.of_claim(alloc, grammar, claims, claim)? {
                told.add(one)?;
                count = count.saturating_add(1);
            }
        }
        Ok(count)
    }
}
