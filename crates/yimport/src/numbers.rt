//! Numbers of tokens that `yacc` can't have. There the tokens get others, and a parser keeps those
//! of the file.

use crate::note::Reason;
use crate::refusal::{Refusal, Trouble};
use crate::symbols::{Numbered, Work};
use yforeign::lexeme::{Kind, Lexeme};
use yforeign::numbers::{ERROR, GREATEST, MOST};
use ysymbols::names::{intern, is_among};

impl Work<'_> {
    /// Why a token of `yacc` can't have a number, where it can't.
    pub fn reason_against_number(&self, token: &Lexeme, number: usize) -> Option<Reason> {
        let is_error = matches!(token.text(self.source), b"error" | b"YYerror");
        if number > MOST {
            Some(Reason::LargeNumber)
        } else if number == ERROR && !is_error {
            Some(Reason::ErrorNumber)
        } else {
            None
        }
    }

    /// Why a file can't give a token a number, where it can't: as one that `yacc` doesn't see, or
    /// as one that it does.
    fn refusal_of(&self, given: Numbered, is_seen: bool) -> Option<Refusal> {
        if given.number > GREATEST {
            return Some(Refusal::NumberTooLarge);
        }
        let name = given.token.text(self.source);
        let is_literal = matches!(given.token.kind, Kind::Literal | Kind::ByteLiteral);
        let mut clashes = !is_seen && (is_literal || is_among(&self.numbered, name));
        for before in &self.numbers {
            let is_same = before.token.text(self.source) == name;
            clashes = clashes || is_same != (before.number == given.number);
        }
        clashes.then_some(Refusal::NumberTaken)
    }

    /// Notes the number of a token.
    pub fn note_number(&mut self, given: Numbered, lexeme: &Lexeme, is_seen: bool) {
        if let Some(refusal) = self.refusal_of(given, is_seen) {
            return self.edits.refuse(refusal, lexeme);
        }
        self.greatest = self.greatest.max(given.number);
        if !is_seen || given.number == ERROR {
            self.edits.trouble.push(&mut self.numbers, given);
        } else if intern(
            self.alloc,
            &mut self.numbered,
            given.token.text(self.source),
        )
        .is_err()
        {
            self.edits.trouble.is_out = true;
        }
    }
}
