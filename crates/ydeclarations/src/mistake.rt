//! What can be wrong with a file whose syntax is right.

ghost use Rattle.std.specs.Prelude.{◌≡◌};
ghost use Rattle.ydeclarations.specs.declared.mistake.Refused.TheVariants.{Memory};

use std::alloc::{AllocError, AllocFailed};

/// A mistake in what a file means. Of those that a file has, the first in this order is answered.
#[derive(Clone, Copy, Drop)]
pub enum Mistake {
    /// A token is a left side, or is named by `%type`.
    TokenLeft,
    /// A name in a body, a `%prec` or a `%type` is neither token nor nonterminal.
    Undefined,
    /// A token is given a precedence twice.
    TwicePrecedence,
    /// A number is out of range, a token is given two, or two tokens have the same.
    BadNumber,
    /// `%start` names no nonterminal, or stands twice.
    BadStart,
    /// A nonterminal derives no list of tokens.
    Unproductive,
    /// `%prec` names a nonterminal.
    BadPrec,
    /// More symbols, rules or symbols in a body than the limits.
    Limit,
}

/// Why a syntax tree means no grammar.
#[derive(Clone, Copy, Drop)]
pub enum Refused {
    /// A mistake, and how many bytes stand before the place at fault.
    Mistake { what: Mistake, at: usize },
    /// Memory ran out.
    Memory,
}

impl<T: Drop> From<AllocFailed<T>> for Refused {
    ghost from_gives = { λ _ e. e ≡ Memory };

    fn from(_refused: AllocFailed<T>) -> Refused {
        Refused::Memory
    }
}

impl From<AllocError> for Refused {
    ghost from_gives = { λ _ e. e ≡ Memory };

    fn from(_refused: AllocError) -> Refused {
        Refused::Memory
    }
}
