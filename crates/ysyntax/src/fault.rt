//! Why a grammar file is refused: the codes of docs/FORMATS.md.

ghost use Rattle.std.specs.Prelude.{◌≡◌};
ghost use Rattle.ysyntax.specs.declared.fault.GrammarFault.TheVariants.{Memory};
ghost use Rattle.ysyntax.specs.Placing.{no_memory};

use crate::recogniser::State;
use std::alloc::{AllocError, AllocFailed};
use thiserror::Error;

/// The fault of a grammar file, and its line: one more than the newlines before the place at
/// fault.
#[derive(Clone, Copy, Debug, PartialEq, Eq, Drop, Error)]
pub enum GrammarFault {
    /// G1: the file has more than 1,048,576 bytes.
    #[error("G1")]
    TooLong,
    /// G2: a comment, literal, code block or kept text has no end.
    #[error("G2 at line {line}")]
    Unfinished { line: usize },
    /// G3: no literal begins at a quote, and none would with further bytes.
    #[error("G3 at line {line}")]
    BadLiteral { line: usize },
    /// G4: a byte or percent word that can't begin a lexeme.
    #[error("G4 at line {line}")]
    Foreign { line: usize },
    /// G5: the lexemes up to here begin no grammar file, or the file ends too early.
    #[error("G5 at line {line}")]
    Syntax { line: usize },
    /// G6: a token is a left side, or is named by `%type`.
    #[error("G6 at line {line}")]
    TokenLeft { line: usize },
    /// G7: a name in a body, a `%prec` or a `%type` is neither token nor nonterminal.
    #[error("G7 at line {line}")]
    Undefined { line: usize },
    /// G8: a token is given a precedence twice.
    #[error("G8 at line {line}")]
    TwicePrecedence { line: usize },
    /// G9: a number given is not in 1 to 32,767, a token is given two, or two tokens have the
    /// same.
    #[error("G9 at line {line}")]
    BadNumber { line: usize },
    /// G10: `%start` names no nonterminal, or stands twice.
    #[error("G10 at line {line}")]
    BadStart { line: usize },
    /// G11: a nonterminal derives no list of tokens.
    #[error("G11 at line {line}")]
    Unproductive { line: usize },
    /// G12: `%prec` names a nonterminal.
    #[error("G12 at line {line}")]
    BadPrec { line: usize },
    /// G13: more than 4,096 symbols, 8,192 rules, or 255 symbols in a body; on line 1.
    #[error("G13 at line {line}")]
    Limit { line: usize },
    /// G14: memory ran out.
    #[error("no memory")]
    Memory,
}

/// The fault of a grammar file, and its place.
#[derive(Clone, Copy, Debug, PartialEq, Eq, Drop)]
pub struct PlacedFault {
    /// The fault.
    pub fault: GrammarFault,
    /// How many bytes of the file stand before the place at fault; 0 where the fault has no line.
    pub at: usize,
    /// Where the file has no syntax: how far its syntax was read before that place.
    pub state: Option<State>,
}

impl<T: Drop> From<AllocFailed<T>> for GrammarFault {
    ghost from_gives = { λ _ e. e ≡ Memory };

    fn from(_refused: AllocFailed<T>) -> GrammarFault {
        GrammarFault::Memory
    }
}

impl From<AllocError> for GrammarFault {
    ghost from_gives = { λ _ e. e ≡ Memory };

    fn from(_refused: AllocError) -> GrammarFault {
        GrammarFault::Memory
    }
}

impl<T: Drop> From<AllocFailed<T>> for PlacedFault {
    ghost from_gives = { λ _ e. e ≡ no_memory };

    fn from(_refused: AllocFailed<T>) -> PlacedFault {
        PlacedFault {
            fault: GrammarFault::Memory,
            at: 0,
            state: None,
        }
    }
}

impl From<AllocError> for PlacedFault {
    ghost from_gives = { λ _ e. e ≡ no_memory };

    fn from(_refused: AllocError) -> PlacedFault {
        PlacedFault {
            fault: GrammarFault::Memory,
            at: 0,
            state: None,
        }
    }
}

impl From<PlacedFault> for GrammarFault {
    ghost from_gives = { λ p e. e ≡ p.fault };

    fn from(placed: PlacedFault) -> GrammarFault {
        placed.fault
    }
}
