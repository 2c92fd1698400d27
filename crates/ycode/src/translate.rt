//! Which token a number of the lexer is.

ghost use Rattle.std.specs.Prelude.{ℕ, ◌≡◌, ◌<◌, ◌≤◌, ◌+◌, ◌^◌, Some, length, IfOk, slice_get};
ghost use Rattle.ycode.specs.Combs.{AreAtMost};
ghost use Rattle.ycode.specs.Translation.{TranslatesTo, bound_for, tokens_for};

use crate::numbers::Numbers;
use std::alloc::{AllocError, Global};
use ysymbols::Grammar;

/// One more than the greatest number of a token.
fn bound_of(grammar: &Grammar, tokens: usize) -> usize
    requires { tokens ≡ grammar.now.bare.tokens }
    ensures above { (s n : ℕ) → s < tokens → slice_get grammar.now.numbers s ≡ Some n → n < result }
    ensures few { result ≤ 2 ^ 32 }
    ensures is { result ≡ bound_for grammar.now.numbers }
{
    let _well_formed = grammar.symbols();
    let mut bound = 0;
    for s in 0..tokens {
        if let Some(n) = grammar.number(s) {
            bound = bound.max(n as usize + 1);
        }
    }
    bound
}

/// For each number up to the greatest of a token, the token that has it, or the number of tokens
/// where none has. It fails only when memory runs out.
pub fn translation(alloc: Global, grammar: &Grammar, tokens: usize) -> Result<Numbers, AllocError>
    requires { tokens ≡ grammar.now.bare.tokens }
    ensures translates { IfOk result (TranslatesTo tokens grammar.now.numbers tokens) }
    ensures most { IfOk result (λ v. AreAtMost tokens v) }
    ensures few { IfOk result (λ v. length v ≤ 2 ^ 32) }
    ensures list { IfOk result (λ v. v ≡ tokens_for grammar.now.numbers) }
{
    let _well_formed = grammar.symbols();
    let mut symbols = vec![in alloc; tokens; bound_of(grammar, tokens)]?;
    for s in 0..tokens {
        if let Some(n) = grammar.number(s) {
            symbols[n as usize] = s;
        }
    }
    Ok(Numbers::of(symbols))
}
