//! Rules, and the numbers of symbols.

ghost use Rattle.std.specs.Prelude.{◌≡◌};

use crate::precedence::Precedence;
use std::marker::Model;

/// The number of a symbol, below `Grammar::symbols`. The tokens come first: 0 is `$end`, 1 is
/// `error`.
///
/// Each has a name of its own, and each token a number of its own (POSIX yacc, "Declarations
/// Section").
pub type Sym = usize;

/// A rule: its left side, its body and its precedence (POSIX yacc, "Grammar Rules in yacc").
#[derive(Drop)]
pub struct Rule {
    left: Sym,
    body: Vec<Sym>,
    precedence: Option<Precedence>,
}

impl Model for Rule {
    ghost use Rattle.ysymbols.specs.Grammar.{RuleValue};

    ghost Value = { RuleValue };

    ghost view = { λ r. record {
      production = record { left = r.left; body = r.body.items };
      precedence = r.precedence;
    } };
}

impl Rule {
    /// The rule of these parts.
    pub fn of(left: Sym, body: Vec<Sym>, precedence: Option<Precedence>) -> Rule
        ensures { result
            ≡ record {
              production = record { left = left; body = body.items };
              precedence = precedence;
            } }
    {
        Rule {
            left,
            body,
            precedence,
        }
    }

    /// The nonterminal that the rule replaces: a symbol of its grammar that is not a token.
    pub fn left(&self) -> Sym
        ensures { result ≡ self.now.production.left }
    {
        self.left
    }

    /// What the nonterminal is replaced by: at most 255 symbols, none for an empty rule.
    /// An action that isn't the final one stands as a nonterminal `$$k` with one empty rule.
    pub fn body(&self) -> &[Sym]
        ensures { result.now ≡ self.now.production.body }
    {
        self.body.as_slice()
    }

    /// The precedence of the rule, where it has one: that of the token after its `%prec`, or else
    /// of the last token of its body.
    pub fn precedence(&self) -> Option<Precedence>
        ensures { result ≡ self.now.precedence }
    {
        self.precedence
    }
}
