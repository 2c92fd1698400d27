//! What a reduction needs of its rule.

ghost use Rattle.std.specs.Prelude.{ℕ, ◌≡◌, ◌<◌, ◌+◌, length, IfOk, slice_index};
ghost use Rattle.ysymbols.specs.Grammar.{left_of, body_of};

use crate::numbers::Numbers;
use std::alloc::{AllocError, Global};
use ysymbols::Grammar;

/// How many symbols the body of each rule has.
pub fn lengths_of(alloc: Global, grammar: &Grammar) -> Result<Numbers, AllocError>
    ensures len { IfOk result (λ v. length v ≡ length grammar.now.bare.rules) }
    ensures lengths { IfOk result (λ v. (r : ℕ) → r < length grammar.now.bare.rules
        → slice_index v r ≡ length (body_of grammar.now.bare r)) }
{
    let mut lengths = Vec::with_capacity(alloc, grammar.rules())?;
    for r in 0..grammar.rules() {
        lengths.push(grammar.rule(r).body().len())?;
    }
    Ok(Numbers::of(lengths))
}

/// The left side of each rule; the first nonterminal has the number 0.
pub fn lefts_of(alloc: Global, grammar: &Grammar, tokens: usize) -> Result<Numbers, AllocError>
    requires { tokens ≡ grammar.now.bare.tokens }
    ensures len { IfOk result (λ v. length v ≡ length grammar.now.bare.rules) }
    ensures lefts { IfOk result (λ v. (r : ℕ) → r < length grammar.now.bare.rules
        → tokens + slice_index v r ≡ left_of grammar.now.bare r) }
{
    let _well_formed = grammar.symbols();
    let mut lefts = Vec::with_capacity(alloc, grammar.rules())?;
    for r in 0..grammar.rules() {
        lefts.push(grammar.rule(r).left() - tokens)?;
    }
    Ok(Numbers::of(lefts))
}
