//! The arrays of a C parser.

ghost use Rattle.std.specs.Prelude.{◌≡◌, IfOk};
ghost use Rattle.ycode.specs.Reads.{IsCode};
ghost use Rattle.ycode.specs.Whole.{code_for};

use crate::cells::all_cells;
use crate::comb::{Comb, comb_of};
use crate::numbers::Numbers;
use crate::policy::Policy;
use crate::rules::{lefts_of, lengths_of};
use crate::sizes::sizes_of;
use crate::symbols::symbols_of;
use crate::targets::all_targets;
use crate::translate::translation;
use std::alloc::{AllocError, Global};
use ysymbols::let_go;
use ytables::Tables;

/// The arrays of a C parser, and the numbers by which they are read.
pub struct Code {
    /// How many states there are. In a cell of an action the numbers below are shifts to these
    /// states, this number is the acceptance.
    pub states: usize,
    /// How many rules there are. In a cell `states + r` is the reduction by rule `r`, and
    /// `states + rules` an error that comes of `%nonassoc`.
    pub rules: usize,
    /// How many tokens there are: also the number of what is no token.
    pub tokens: usize,
    /// The cells of actions, at the columns of tokens, and of one more for what is no token.
    pub actions: Comb,
    /// The rule of each state's usual reduction, which is made where a cell has no number and the
    /// token is in a set.
    pub usual: Numbers,
    /// The number of this set for each state. Set 0 has all tokens: the state reduces by this rule
    /// at each, and so before a token is read.
    pub sets: Numbers,
    /// How many bytes a set has.
    pub span: usize,
    /// The sets: bit `t % 8` of byte `set * span + t / 8` says whether the token `t` is in a set.
    pub bits: Numbers,
    /// The gotos over nonterminals, in their order, at the columns of states.
    pub gotos: Comb,
    /// The goto over each nonterminal where it has none at the column of a state.
    pub targets: Numbers,
    /// The symbol over which all gotos and shifts to a state lead.
    pub symbols: Numbers,
    /// How many symbols the body of each rule has.
    pub lengths: Numbers,
    /// The left side of each rule; the first nonterminal has the number 0.
    pub lefts: Numbers,
    /// The token of each number that the lexer may return, up to the greatest.
    pub numbers: Numbers,
}

impl Drop for Code {
    // A call in each owner, which keeps their proofs short.
    fn drop(self) {
        let_go!(self: Code {
            states, rules, tokens, actions, usual, sets, span, bits, gotos, targets, symbols,
            lengths, lefts, numbers
        });
    }
}

/// The arrays of the parser by these tables under a policy of default reductions: the numbers in
/// them say what the tables say, each index that is formed lies in its array, and each number is
/// small. Equal tables have equal arrays. It fails only when memory runs out.
pub fn code_of(alloc: Global, tables: &Tables, policy: Policy) -> Result<Code, AllocError>
    ensures says { IfOk result (IsCode policy tables.now) }
    ensures value { IfOk result (λ c. c ≡ code_for policy tables.now) }
{
    let sizes = sizes_of(tables);
    let automaton = tables.automaton();
    let _guide = automaton.states();
    let grammar = automaton.grammar();
    let _well_formed = grammar.symbols();
    let cells = all_cells(alloc, tables, &sizes, policy)?;
    let targets = all_targets(alloc, tables, &sizes)?;
    Ok(Code {
        states: sizes.states,
        rules: sizes.rules,
        tokens: sizes.tokens,
        actions: comb_of(alloc, &cells.rows, sizes.tokens + 1)?,
        usual: Numbers::of(cells.usual),
        sets: Numbers::of(cells.sets),
        span: cells.known.span(),
        bits: Numbers::of(cells.known.into_bytes()),
        gotos: comb_of(alloc, &targets.rows, sizes.states)?,
        targets: Numbers::of(targets.usual),
        symbols: symbols_of(alloc, tables, &sizes)?,
        lengths: lengths_of(alloc, grammar)?,
        lefts: lefts_of(alloc, grammar, sizes.tokens)?,
        numbers: translation(alloc, grammar, sizes.tokens)?,
    })
}
