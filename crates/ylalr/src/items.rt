//! Items, and the symbols after their dots.

ghost use Rattle.std.specs.Prelude.{ℕ, ◌≡◌, ◌<◌, ◌≤◌, suc, drop, length};
ghost use Rattle.std.specs.Prelude.{MatchOption, All};
ghost use Rattle.ysymbols.specs.Grammar.{body_of};
ghost use Rattle.std.specs.List.{Contains};
ghost use Rattle.ylalr.specs.Sets.{Moves, IsAscending, IsNext, IsMove, IsAt};

use crate::tokens::END;
use ysymbols::{Grammar, Sym};

/// An item: a rule with a dot in its body (Aho, Sethi, Ullman, section 4.7).
#[derive(Clone, Copy, Debug, Default, Drop, PartialEq, Eq, Hash)]
pub struct Item {
    /// The number of the rule.
    pub rule: usize,
    /// How many symbols of its body stand before the dot.
    pub dot: usize,
}

/// The symbol after the dot, or `None` where the dot is at the end.
pub fn symbol_after(grammar: &Grammar, item: Item) -> Option<Sym>
    requires { item.rule < length grammar.now.bare.rules }
    ensures { MatchOption result (length (body_of grammar.now.bare item.rule) ≤ item.dot)
        (λ s. IsNext grammar.now.bare item s) }
{
    let _well_formed = grammar.symbols();
    let body = grammar.rule(item.rule).body();
    if item.dot < body.len() {
        Some(body[item.dot])
    } else {
        None
    }
}

/// What stands after the symbol after the dot.
pub fn form_after(grammar: &Grammar, item: Item) -> &[Sym]
    requires rule { item.rule < length grammar.now.bare.rules }
    requires dot { item.dot < length (body_of grammar.now.bare item.rule) }
    ensures value { result.now ≡ drop (suc item.dot) (body_of grammar.now.bare item.rule) }
    ensures symbols { All (λ s. s < grammar.now.bare.symbols) result.now }
{
    let _well_formed = grammar.symbols();
    let body = grammar.rule(item.rule).body();
    &body[item.dot + 1..]
}

/// The symbol over which the dot can move: the one after it, or `None` at the end and before
/// `$end`.
pub fn moves_over(grammar: &Grammar, item: Item) -> Option<Sym>
    requires { item.rule < length grammar.now.bare.rules }
    ensures { MatchOption result ((z : ℕ) → Moves grammar.now.bare item z → ⊥)
        (λ x. IsMove grammar.now.bare item x) }
{
    let _well_formed = grammar.symbols();
    let next = symbol_after(grammar, item)?;
    if next == END { None } else { Some(next) }
}

/// Where the item stands in a list of items by rule and dot, counted from 0, or `None`.
pub fn find(items: &[Item], item: Item) -> Option<usize>
    requires { IsAscending items.now }
    ensures { MatchOption result (Contains items.now item → ⊥) (λ k. IsAt items.now item k) }
{
    items
        .binary_search_by_key(&(item.rule, item.dot), |i| (i.rule, i.dot))
        .ok()
}
