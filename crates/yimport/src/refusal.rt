//! Why a file isn't imported.

use std::alloc::{AllocError, AllocFailed};
use yforeign::lexeme::{Flaw, Span};

/// What a file has that can't be imported: what each says are its `words`.
#[derive(Clone, Copy, Drop)]
pub enum Refusal {
    Flaw(Flaw),
    UnknownWord,
    Glr,
    NoDefault,
    SeveralStarts,
    Misplaced,
    NothingListed,
    CodeBetween,
    EndElsewhere,
    EndAndStart,
    EndAfterAction,
    SecondPrec,
    NotEmpty,
    NameTaken,
    TokenNonterminal,
    NumberTooLarge,
    NumberTaken,
    /// The start symbol derives no sentence.
    NoSentence,
}

/// What is refused, and where it stands: a part without bytes, where it is no lexeme.
#[derive(Clone, Copy, Drop)]
pub struct Refused {
    /// What is refused.
    pub refusal: Refusal,
    /// Where it stands.
    pub span: Span,
}

/// Why there is no import.
#[derive(Drop)]
pub enum Trouble {
    /// The file is refused for all of these, in its order.
    Refused(Vec<Refused>),
    /// Memory ran out.
    Memory,
}

impl Refusal {
    /// What is said of it: what comes before the lexeme, and what after; the last is empty where
    /// the lexeme isn't said.
    pub fn words(self) -> (&'static str, &'static str) {
        let before = match self {
            Refusal::UnknownWord => return ("invalid directive: '", "'"),
            Refusal::NumberTooLarge => return ("integer out of range: '", "'"),
            Refusal::NoSentence => return ("start symbol ", " does not derive any sentence"),
            Refusal::Flaw(Flaw::Unfinished) => "what begins here has no end",
            Refusal::Flaw(Flaw::BadLiteral) => {
                "no literal of one character from 1 to 255, and no string, begins here"
            }
            Refusal::Flaw(Flaw::BadNumber) => "no number begins here",
            Refusal::Flaw(Flaw::BadReference) => "no name stands in these brackets",
            Refusal::Flaw(Flaw::Foreign) => "neither bison nor byacc has a lexeme that begins here",
            Refusal::Glr => "it asks for a GLR parser, and parsers are LALR(1) here",
            Refusal::NoDefault => "rules of yacc have a precedence without %prec",
            Refusal::SeveralStarts => "yacc has one start symbol",
            Refusal::Misplaced => "it can't stand here",
            Refusal::NothingListed => "it lists nothing",
            Refusal::CodeBetween => "yacc has no code between rules",
            Refusal::EndElsewhere => {
                "its number is 0, so it is the end, which can stand only at the end of a body of \
                 the start symbol: leave it out, or give it another number that yylex returns"
            }
            Refusal::EndAndStart => {
                "it is the end, and the start symbol stands in a body too: let another start \
                 symbol have a body of this one and the end"
            }
            Refusal::EndAfterAction => {
                "it is the end, and without it the action before it would be the rule's last: \
                 write the action after it"
            }
            Refusal::SecondPrec => "a rule has one %prec",
            Refusal::NotEmpty => "this body isn't empty",
            Refusal::NumberTaken => "this token has another number, or another token has this one",
            Refusal::TokenNonterminal => "it is listed as a token too",
            Refusal::NameTaken => "yacc's names have no dashes, and the name without them is taken",
        };
        (before, "")
    }
}

impl From<AllocError> for Trouble {
    fn from(_refused: AllocError) -> Trouble {
        Trouble::Memory
    }
}

impl<T: Drop> From<AllocFailed<T>> for Trouble {
    fn from(_refused: AllocFailed<T>) -> Trouble {
        Trouble::Memory
    }
}
