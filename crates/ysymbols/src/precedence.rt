//! Precedences of tokens and rules (POSIX yacc, "Declarations Section").

/// What follows where two levels are equal: the reduction, the shift, or an error.
#[derive(Clone, Copy, Debug, Drop, PartialEq, Eq)]
pub enum Associativity {
    /// `%left`: the reduction.
    Left,
    /// `%right`: the shift.
    Right,
    /// `%nonassoc`: an error.
    Nonassoc,
}

/// A precedence of a token or a rule.
#[derive(Clone, Copy, Debug, Drop, PartialEq, Eq)]
pub struct Precedence {
    /// Which line of precedences gave it, counted from 1: a later line binds tighter.
    pub level: usize,
    /// What is done where this level meets an equal one.
    pub kind: Associativity,
}
