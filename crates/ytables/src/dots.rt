//! What stands after the dot of an item.

ghost use Rattle.std.specs.Prelude.{◌≡◌, ◌<◌, ◌+◌, [], ◌∷◌, length, drop, MatchOption};
ghost use Rattle.ysymbols.specs.Grammar.{body_of};
ghost use Rattle.ytables.specs.Tables.{after_dot, is_ready};

use ylalr::Item;
use ysymbols::{Grammar, Sym};

/// The symbol after the dot, or `None` where the dot is at the end.
pub fn next_symbol(grammar: &Grammar, item: Item) -> Option<Sym>
    requires { item.rule < length grammar.now.bare.rules }
    ensures { MatchOption result (after_dot grammar.now.bare item ≡ [])
        (λ s. after_dot grammar.now.bare item ≡ s ∷ drop (item.dot + 1)
        (body_of grammar.now.bare item.rule)) }
{
    let body = grammar.rule(item.rule).body();
    if item.dot < body.len() {
        Some(body[item.dot])
    } else {
        None
    }
}

/// Whether the item is complete, and of another rule than rule 0.
pub fn is_ready(grammar: &Grammar, item: Item) -> bool
    requires { item.rule < length grammar.now.bare.rules }
    ensures { result ≡ is_ready grammar.now.bare item }
{
    item.rule != 0 && next_symbol(grammar, item).is_none()
}
