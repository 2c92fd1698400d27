//! The gotos of all states over nonterminals, packed.

ghost use Rattle.std.specs.Prelude.{ℕ, ◌≡◌, ◌<◌, ◌+◌, length, slice_index_or, None, IfOk};
ghost use Rattle.ylalr.specs.Collection.{goto_in};
ghost use Rattle.ytables.specs.Tables.{AreGotos};

use crate::dots::next_symbol;
use std::alloc::{AllocError, Global};
use ybitsets::packed::Packed;
use ylalr::{Automaton, token_count};

/// The gotos of a state over nonterminals; the first nonterminal has the first column. A symbol
/// has no goto where no item has the dot before it.
fn gotos_of(
    alloc: Global,
    automaton: &Automaton,
    q: usize,
    tokens: usize,
) -> Result<Vec<Option<usize>>, AllocError>
    requires state { q < length automaton.now.states }
    requires tokens { tokens ≡ automaton.now.grammar.bare.tokens }
    ensures len { IfOk result (λ v.
        length v.items + tokens ≡ automaton.now.grammar.bare.symbols) }
    ensures gotos { IfOk result (λ v. (x : ℕ) → x < length v.items
        → slice_index_or v.items x None ≡ goto_in automaton.now q (tokens + x)) }
{
    let _guide = automaton.states();
    let grammar = automaton.grammar();
    let items = automaton.items(q);
    let mut row = vec![in alloc; None; grammar.symbols() - tokens]?;
    for item in items {
        if let Some(x) = next_symbol(grammar, *item) {
            if tokens <= x {
                row[x - tokens] = automaton.goto(q, x);
            }
        }
    }
    Ok(row)
}

/// The gotos of all states over nonterminals. It fails only when memory runs out.
pub fn all_gotos(alloc: Global, automaton: &Automaton) -> Result<Packed<usize>, AllocError>
    ensures { IfOk result (AreGotos automaton.now) }
{
    let grammar = automaton.grammar();
    let symbols = grammar.symbols();
    let tokens = token_count(grammar);
    let mut gotos = Packed::new(alloc, symbols - tokens);
    for q in 0..automaton.states() {
        let row = gotos_of(alloc, automaton, q, tokens)?;
        gotos.push(alloc, &row)?;
    }
    Ok(gotos)
}
