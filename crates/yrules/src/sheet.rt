//! What is written of a grammar: its rules and tokens by their names, and the digest of its table.

use crate::names::Names;
use std::alloc::Global;
use yexplain::lines::Lines;
use yexplain::reads::Made;
use ylalr::token_count;
use yskeleton::{CToken, in_c};
use ysymbols::Grammar;

/// The rules of a grammar and their names, its tokens that have names in C, and the digest of its
/// table.
#[derive(Clone, Copy)]
pub struct Sheet<'a> {
    /// The grammar.
    pub grammar: &'a Grammar,
    /// Where its rules stand in its file.
    pub lines: &'a Lines,
    /// What they are called.
    pub names: &'a Names,
    /// The tokens.
    pub tokens: &'a [CToken<'a>],
    /// The digest.
    pub digest: u32,
}

/// The tokens of a grammar that an input can have and that have a name in C.
pub fn tokens_of(alloc: Global, grammar: &Grammar) -> Made<Vec<CToken<'_>>> {
    let mut tokens = Vec::new(alloc);
    for token in 2..token_count(grammar) {
        if let Some(named) = in_c(grammar, token) {
            tokens.push(named)?;
        }
    }
    Ok(tokens)
}
