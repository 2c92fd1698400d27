//! The shift that is a candidate in a cell.

ghost use Rattle.std.specs.Prelude.{◌≡◌, ◌<◌, length};
ghost use Rattle.ytables.specs.Rows.{InGrammar};
ghost use Rattle.ytables.specs.Tables.{has_before};
ghost use Rattle.yprovenance.specs.Candidates.{shift_in};

use ylalr::{END, Item};
use ysymbols::{Grammar, Sym};
use ytables::{Action, Tables, next_symbol};

/// Whether an item of the list has its dot before the symbol.
fn is_before(grammar: &Grammar, items: &[Item], s: Sym) -> bool
    requires { InGrammar grammar.now.bare items.now }
    ensures { result ≡ has_before grammar.now.bare items.now s }
{
    for item in items {
        if next_symbol(grammar, *item) == Some(s) {
            return true;
        }
    }
    false
}

/// The shift that is a candidate in the cell of state `q` and the token `t`, whether or not it is
/// what is done there: the shift to the state that the goto leads to, the acceptance at the end,
/// or `None` where no item of the state has its dot before the token. `q` is below the number of
/// states, and `t` is a token.
pub fn shift_at(tables: &Tables, q: usize, t: Sym) -> Option<Action>
    requires state { q < length tables.now.built.states }
    requires token { t < tables.now.built.grammar.bare.tokens }
    ensures { result ≡ shift_in tables.now.built q t }
{
    let automaton = tables.automaton();
    let _guide = automaton.states();
    let grammar = automaton.grammar();
    let _well_formed = grammar.symbols();
    if t != END {
        return match automaton.goto(q, t) {
            Some(n) => Some(Action::Shift(n)),
            None => None,
        };
    }
    if is_before(grammar, automaton.items(q), t) {
        Some(Action::Accept)
    } else {
        None
    }
}
