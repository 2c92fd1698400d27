//! The symbol over which gotos lead to each state.

ghost use Rattle.std.specs.Prelude.{ℕ, ◌≡◌, ◌<◌, length, map, IfOk, slice_index};
ghost use Rattle.std.specs.List.{range_with_len};
ghost use Rattle.ylalr.specs.Collection.{state_of};
ghost use Rattle.ylalr.specs.Sets.{InRange};
ghost use Rattle.ycode.specs.Cells.{AreSizes, states_of};
ghost use Rattle.ycode.specs.Symbols.{StandsBefore, symbol_for};

use crate::numbers::Numbers;
use crate::sizes::Sizes;
use std::alloc::{AllocError, Global};
use ylalr::Item;
use ysymbols::{Grammar, Sym};
use ytables::Tables;

/// The symbol before the dot of one of these items, or 0 where each dot is at the front.
fn symbol_before(grammar: &Grammar, items: &[Item]) -> Sym
    requires { InRange grammar.now.bare items.now }
    ensures before { StandsBefore grammar.now.bare items.now result }
    ensures is { result ≡ symbol_for grammar.now.bare items.now }
{
    for item in items {
        if item.dot != 0 {
            return grammar.rule(item.rule).body()[item.dot - 1];
        }
    }
    0
}

/// For each state a symbol that stands before a dot in it, or 0 where there is none.
pub fn symbols_of(alloc: Global, tables: &Tables, sizes: &Sizes) -> Result<Numbers, AllocError>
    requires { AreSizes tables.now sizes.now }
    ensures len { IfOk result (λ v. length v ≡ states_of tables.now) }
    ensures symbols { IfOk result (λ v. (q : ℕ) → q < states_of tables.now
        → StandsBefore tables.now.built.grammar.bare (state_of tables.now.built q)
        (slice_index v q)) }
    ensures list { IfOk result (λ v. v ≡ map (λ q. symbol_for tables.now.built.grammar.bare
        (state_of tables.now.built q)) (range_with_len 0 (states_of tables.now))) }
{
    let automaton = tables.automaton();
    let _guide = automaton.states();
    let grammar = automaton.grammar();
    let mut symbols = Vec::with_capacity(alloc, sizes.states)?;
    for q in 0..sizes.states {
        symbols.push(symbol_before(grammar, automaton.items(q)))?;
    }
    Ok(Numbers::of(symbols))
}
