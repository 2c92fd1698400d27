//! Which items of a state lead to a symbol by the closure.

ghost use Rattle.std.specs.Prelude.{ℕ, ◌≡◌, ◌<◌, ◌⊎◌, ◌↔◌, ◌∷◌, [], List, length, drop};
ghost use Rattle.std.specs.Prelude.{IsTrue, MatchOption, IfOk, OnOk};
ghost use Rattle.std.specs.List.{Contains};
ghost use Rattle.ysymbols.specs.Grammar.{body_of};
ghost use Rattle.ybitsets.specs.Rows.{IsSized};
ghost use Rattle.ybitsets.specs.Links.{AreLinks, Link, MoreLinks};
ghost use Rattle.ylalr.specs.Collection.{bare_of, state_of};
ghost use Rattle.ylalr.specs.Sets.{IsAscending};
ghost use Rattle.yprovenance.specs.Leads.{AreOpenings, IsAmong, IsOpening, Leads};

use std::alloc::{AllocError, Global};
use ybitsets::links::Links;
use ybitsets::rows::Rows;
use ybitsets::spread::spread;
use ylalr::{Automaton, Item};
use ysymbols::Sym;

/// The symbol after the dot of an item, where one is.
fn next(automaton: &Automaton, item: Item) -> Option<Sym>
    requires { item.rule < length (bare_of automaton.now).rules }
    ensures within { MatchOption result (Unit {0}) (λ x. x < (bare_of automaton.now).symbols) }
    ensures exact { MatchOption result (drop item.dot (body_of (bare_of automaton.now) item.rule)
        ≡ []) (λ x. (y : List ℕ)
        × (drop item.dot (body_of (bare_of automaton.now) item.rule) ≡ x ∷ y)) }
{
    let grammar = automaton.grammar();
    let _well_formed = grammar.symbols();
    let body = grammar.rule(item.rule).body();
    if item.dot < body.len() {
        Some(body[item.dot])
    } else {
        None
    }
}

/// Adds the link of an item that has its dot at the beginning of a body.
fn link_item(automaton: &Automaton, item: Item, links: &mut Links) -> Result<(), AllocError>
    requires item { item.rule < length (bare_of automaton.now).rules }
    requires links { AreLinks (bare_of automaton.now).symbols links.old }
    ensures links { OnOk result (AreLinks (bare_of automaton.now).symbols links.new) }
    ensures kept { OnOk result (MoreLinks links.old links.new) }
    ensures every { OnOk result ((p t : ℕ) → IsOpening automaton.now item p t
        → Link links.new p t) }
    ensures only { OnOk result ((p t : ℕ) → Link links.new p t
        → Link links.old p t ⊎ IsOpening automaton.now item p t) }
{
    if item.dot > 0 {
        return Ok(());
    }
    let grammar = automaton.grammar();
    let _well_formed = grammar.symbols();
    if let Some(symbol) = next(automaton, item) {
        links.push(symbol, grammar.rule(item.rule).left())?;
    }
    Ok(())
}

/// For each symbol, the left sides of the items of a state that begin with it.
fn openings(alloc: Global, automaton: &Automaton, q: usize) -> Result<Links, AllocError>
    requires { q < length automaton.now.states }
    ensures { IfOk result (λ l. AreOpenings automaton.now q l) }
{
    let _states = automaton.states();
    let mut links = Links::new(alloc, automaton.grammar().symbols())?;
    for item in automaton.items(q) {
        link_item(automaton, *item, &mut links)?;
    }
    Ok(links)
}

/// Whether the symbol after the dot of an item is among those of the rows.
fn is_among(automaton: &Automaton, item: Item, symbols: &Rows) -> bool
    requires item { item.rule < length (bare_of automaton.now).rules }
    requires sized { IsSized (bare_of automaton.now).symbols 1 symbols.now }
    ensures { IsTrue result ↔ IsAmong automaton.now symbols.now item }
{
    match next(automaton, item) {
        Some(symbol) => symbols.has(symbol, 0),
        None => false,
    }
}

/// The items of a state whose next symbol is among those of the rows.
fn items_among(
    alloc: Global,
    automaton: &Automaton,
    q: usize,
    symbols: &Rows,
) -> Result<Vec<Item>, AllocError>
    requires state { q < length automaton.now.states }
    requires sized { IsSized (bare_of automaton.now).symbols 1 symbols.now }
    ensures order { IfOk result (λ v. IsAscending v.items) }
    ensures exact { IfOk result (λ v. (i : Item) → Contains v.items i
        ↔ (Contains (state_of automaton.now q) i × IsAmong automaton.now symbols.now i)) }
{
    let _states = automaton.states();
    let mut found = Vec::new(alloc);
    for item in automaton.items(q) {
        if is_among(automaton, *item, symbols) {
            found.push(*item)?;
        }
    }
    Ok(found)
}

/// The items of state `q` that lead to the symbol `x`, in their order in the state: those with `x`
/// after their dot, and those from which the closure comes to such an item. `q` is below the number
/// of states, and `x` is any symbol of the grammar. It fails only when memory runs out (Aho, Sethi,
/// Ullman, section 4.7, closure).
pub fn leading(
    alloc: Global,
    automaton: &Automaton,
    q: usize,
    x: Sym,
) -> Result<Vec<Item>, AllocError>
    requires state { q < length automaton.now.states }
    requires symbol { x < (bare_of automaton.now).symbols }
    ensures order { IfOk result (λ v. IsAscending v.items) }
    ensures exact { IfOk result (λ v. (i : Item) → Contains v.items i ↔ Leads automaton.now q x i) }
{
    let _states = automaton.states();
    let _well_formed = automaton.grammar().symbols();
    let links = openings(alloc, automaton, q)?;
    let mut symbols = Rows::new(alloc, automaton.grammar().symbols(), 1)?;
    symbols.mark(x, 0);
    spread(alloc, &links, &mut symbols)?;
    items_among(alloc, automaton, q, &symbols)
}
