//! How a rule stands to a token, and what follows for its shift (POSIX yacc, "Conflicts").

ghost use Rattle.std.specs.Prelude.{◌≡◌};
ghost use Rattle.ytables.specs.Cell.{class_of, class_of_kind};
ghost use Rattle.ytables.specs.Standing.{standing_by, standing_of, class_by};

use ysymbols::{Associativity, Precedence};

/// How a rule stands against the shift of a token.
#[derive(Clone, Copy, Debug, Drop, PartialEq, Eq)]
pub enum Class {
    /// The reduction is done.
    Beat,
    /// The shift is done.
    Lose,
    /// Neither is done: an error.
    Ban,
    /// A precedence is missing: the shift is done, and a conflict is counted.
    Rest,
}

/// How the precedence of a rule stands to that of a token.
#[derive(Clone, Copy, Debug, Drop, PartialEq, Eq)]
pub enum Standing {
    /// The rule binds tighter.
    Higher,
    /// The token binds tighter.
    Lower,
    /// They have one level, of this kind.
    Level(Associativity),
    /// The rule has a precedence, the token has none.
    NoToken,
    /// The token has a precedence, the rule has none.
    NoRule,
    /// Neither has a precedence.
    Neither,
}

/// Which of two equal levels wins.
fn class_of_kind(kind: Associativity) -> Class
    ensures { result ≡ class_of_kind kind }
{
    match kind {
        Associativity::Left => Class::Beat,
        Associativity::Right => Class::Lose,
        Associativity::Nonassoc => Class::Ban,
    }
}

impl Standing {
    /// What follows for the rule, where the token can be shifted.
    pub fn class(self) -> Class
        ensures { result ≡ class_by self }
    {
        match self {
            Standing::Higher => Class::Beat,
            Standing::Lower => Class::Lose,
            Standing::Level(kind) => class_of_kind(kind),
            Standing::NoToken | Standing::NoRule | Standing::Neither => Class::Rest,
        }
    }
}

/// How a rule stands to a token, where both have a precedence.
fn standing_by(token: Precedence, rule: Precedence) -> Standing
    ensures { result ≡ standing_by token rule }
{
    if token.level < rule.level {
        Standing::Higher
    } else if rule.level < token.level {
        Standing::Lower
    } else {
        Standing::Level(token.kind)
    }
}

/// How a rule stands to a token, by the precedences of both. Its class is the one by which cells
/// are settled.
pub fn standing_between(token: Option<Precedence>, rule: Option<Precedence>) -> Standing
    ensures value { result ≡ standing_of token rule }
    ensures class { class_by result ≡ class_of token rule }
{
    match (token, rule) {
        (None, None) => Standing::Neither,
        (None, Some(_)) => Standing::NoToken,
        (Some(_), None) => Standing::NoRule,
        (Some(token), Some(rule)) => standing_by(token, rule),
    }
}

/// The class of a rule, by the precedences of the token and of the rule.
pub fn class_between(token: Option<Precedence>, rule: Option<Precedence>) -> Class
    ensures { result ≡ class_of token rule }
{
    standing_between(token, rule).class()
}
