//! The search for a place that has a token of itself, back from the place that was asked for.

ghost use Rattle.std.specs.Prelude.{ℕ, suc, ◌≡◌, ◌≢◌, ◌<◌, ◌≤◌, ◌∷◌, List, length, drop};
ghost use Rattle.std.specs.Prelude.{◌↔◌, MatchOption, IfOk, IsTrue, OnOk, Some};
ghost use Rattle.std.specs.List.{Contains};
ghost use Rattle.ysymbols.specs.Grammar.{body_of, end_token};
ghost use Rattle.ylalr.specs.Collection.{bare_of, goto_in, state_of};
ghost use Rattle.ylalr.specs.Items.{Lookahead};
ghost use Rattle.yprovenance.specs.declared.reason.Cause.{Cause};
ghost use Rattle.yprovenance.specs.declared.reason.Place.{Place};
ghost use Rattle.yprovenance.specs.Reasons.{Gives, Has, place_of};
ghost use Rattle.yprovenance.specs.Trail.{AreBefore, Extends, IsTrail, IsTried, IsVisited};
ghost use Rattle.yprovenance.specs.Trail.{entry_at, places_of};

use crate::front::{Front, front_after};
use crate::reason::{Cause, Place};
use crate::trail::{Entry, Trail};
use std::alloc::AllocError;
use ybitsets::links::Links;
use ylalr::{Automaton, END, Item};
use ysymbols::Sym;

/// An entry of a trail whose place has a token of itself, and why.
#[derive(Clone, Copy, Drop)]
pub struct Source {
    /// The number of the entry.
    pub index: usize,
    /// Why its place has the token.
    pub cause: Cause,
}

/// Tries one item of the entry's state: adds it where it gives to the entry's item by the closure,
/// or says that the token can come after the left side that it has after its dot.
fn try_item(
    automaton: &Automaton,
    token: Sym,
    trail: &mut Trail,
    index: usize,
    item: Item,
) -> Result<Option<Cause>, AllocError>
    requires token { token < (bare_of automaton.now).symbols }
    requires trail { IsTrail automaton.now trail.old }
    requires index { index < length trail.old }
    requires first { (entry_at trail.old index).place.item.dot ≡ 0 }
    requires there { Contains (state_of automaton.now (entry_at trail.old index).place.state) item }
    ensures trail { OnOk result (IsTrail automaton.now trail.new) }
    ensures extends { OnOk result (Extends trail.old trail.new) }
    ensures found { IfOk result (λ o. MatchOption o
        (IsTried automaton.now token trail.new (entry_at trail.old index).place item)
        (λ c. Has automaton.now token (entry_at trail.old index).place c)) }
{
    let _states = automaton.states();
    let place = trail.at(index).place;
    match front_after(automaton, place.item.rule, item, token) {
        Front::Begins => return Ok(Some(Cause::Begins(item))),
        Front::Vanishes => trail.put(Entry {
            place: Place {
                state: place.state,
                item,
            },
            cause: Cause::Passes,
            gives: index,
        })?,
        Front::Neither => {}
    }
    Ok(None)
}

/// Tries all items of the entry's state.
fn open(
    automaton: &Automaton,
    token: Sym,
    trail: &mut Trail,
    index: usize,
) -> Result<Option<Cause>, AllocError>
    requires token { token < (bare_of automaton.now).symbols }
    requires trail { IsTrail automaton.now trail.old }
    requires index { index < length trail.old }
    requires first { (entry_at trail.old index).place.item.dot ≡ 0 }
    ensures trail { OnOk result (IsTrail automaton.now trail.new) }
    ensures extends { OnOk result (Extends trail.old trail.new) }
    ensures found { IfOk result (λ o. MatchOption o
        ((i : Item) → Contains (state_of automaton.now (entry_at trail.old index).place.state) i
        → IsTried automaton.now token trail.new (entry_at trail.old index).place i)
        (λ c. Has automaton.now token (entry_at trail.old index).place c)) }
{
    let _states = automaton.states();
    for item in automaton.items(trail.at(index).place.state) {
        if let Some(cause) = try_item(automaton, token, trail, index, *item)? {
            return Ok(Some(cause));
        }
    }
    Ok(None)
}

/// Adds the item with its dot one earlier in a state, where the goto over this symbol leads from
/// there to the state of the entry.
fn come_from(
    automaton: &Automaton,
    trail: &mut Trail,
    index: usize,
    symbol: Sym,
    state: usize,
) -> Result<(), AllocError>
    requires trail { IsTrail automaton.now trail.old }
    requires index { index < length trail.old }
    requires symbol { symbol < (bare_of automaton.now).symbols }
    requires other { symbol ≢ end_token }
    requires state { state < length automaton.now.states }
    requires dot { 0 < (entry_at trail.old index).place.item.dot }
    requires before { (d : ℕ) → (entry_at trail.old index).place.item.dot ≡ suc d →
        (y : List ℕ) × (drop d (body_of (bare_of automaton.now)
        (entry_at trail.old index).place.item.rule) ≡ symbol ∷ y) }
    ensures trail { OnOk result (IsTrail automaton.now trail.new) }
    ensures extends { OnOk result (Extends trail.old trail.new) }
    ensures there { OnOk result ((d : ℕ) → (entry_at trail.old index).place.item.dot ≡ suc d →
        goto_in automaton.now state symbol ≡ Some (entry_at trail.old index).place.state →
        Contains (places_of trail.new)
        (place_of state (entry_at trail.old index).place.item.rule d)) }
{
    let _states = automaton.states();
    let place = trail.at(index).place;
    if automaton.goto(state, symbol) == Some(place.state) {
        let item = Item {
            rule: place.item.rule,
            dot: place.item.dot - 1,
        };
        trail.put(Entry {
            place: Place { state, item },
            cause: Cause::Moves,
            gives: index,
        })?;
    }
    Ok(())
}

/// Adds the item with its dot one earlier in each state from which the goto leads here.
fn come_back(
    automaton: &Automaton,
    before: &Links,
    trail: &mut Trail,
    index: usize,
) -> Result<(), AllocError>
    requires before { AreBefore automaton.now before.now }
    requires trail { IsTrail automaton.now trail.old }
    requires index { index < length trail.old }
    requires dot { 0 < (entry_at trail.old index).place.item.dot }
    ensures trail { OnOk result (IsTrail automaton.now trail.new) }
    ensures extends { OnOk result (Extends trail.old trail.new) }
    ensures every { OnOk result ((p : Place) (c : Cause) →
        Gives automaton.now p (entry_at trail.old index).place c →
        Contains (places_of trail.new) p) }
{
    let _states = automaton.states();
    let grammar = automaton.grammar();
    let _well_formed = grammar.symbols();
    let place = trail.at(index).place;
    let symbol = grammar.rule(place.item.rule).body()[place.item.dot - 1];
    if symbol == END {
        return Ok(());
    }
    for state in before.of(place.state) {
        come_from(automaton, trail, index, symbol, *state)?;
    }
    Ok(())
}

/// Whether the place is that of the item before the whole input, and the token its end.
fn is_start(token: Sym, place: Place) -> bool
    ensures { IsTrue result ↔ ((token ≡ end_token) × (place.state ≡ 0) × (place.item.rule ≡ 0)
        × (place.item.dot ≡ 0)) }
{
    token == END && place.state == 0 && place.item.rule == 0 && place.item.dot == 0
}

/// Adds the places that give to that of the entry, or says why this has the token of itself.
fn visit(
    automaton: &Automaton,
    before: &Links,
    token: Sym,
    trail: &mut Trail,
    index: usize,
) -> Result<Option<Cause>, AllocError>
    requires before { AreBefore automaton.now before.now }
    requires token { token < (bare_of automaton.now).symbols }
    requires trail { IsTrail automaton.now trail.old }
    requires index { index < length trail.old }
    ensures trail { OnOk result (IsTrail automaton.now trail.new) }
    ensures extends { OnOk result (Extends trail.old trail.new) }
    ensures found { IfOk result (λ o. MatchOption o
        (IsVisited automaton.now token trail.new (entry_at trail.old index).place)
        (λ c. Has automaton.now token (entry_at trail.old index).place c)) }
{
    let place = trail.at(index).place;
    if is_start(token, place) {
        return Ok(Some(Cause::Starts));
    }
    if place.item.dot > 0 {
        come_back(automaton, before, trail, index)?;
        return Ok(None);
    }
    match open(automaton, token, trail, index)? {
        Some(cause) => Ok(Some(cause)),
        None => Ok(None),
    }
}

/// The first entry whose place has the token of itself: the entries are visited in the order in
/// which they were found. `None` where the token is no lookahead of the first entry's item.
pub fn search(
    automaton: &Automaton,
    before: &Links,
    token: Sym,
    trail: &mut Trail,
) -> Result<Option<Source>, AllocError>
    requires before { AreBefore automaton.now before.now }
    requires token { token < (bare_of automaton.now).symbols }
    requires trail { IsTrail automaton.now trail.old }
    ensures trail { OnOk result (IsTrail automaton.now trail.new) }
    ensures extends { OnOk result (Extends trail.old trail.new) }
    ensures found { IfOk result (λ o. MatchOption o
        (Lookahead (bare_of automaton.now) (state_of automaton.now
        (entry_at trail.old 0).place.state) (entry_at trail.old 0).place.item token → ⊥)
        (λ s. (s.index < length trail.new) ×
        Has automaton.now token (entry_at trail.new s.index).place s.cause)) }
{
    let _states = automaton.states();
    let _well_formed = automaton.grammar().symbols();
    for index in 0..usize::MAX {
        if index >= trail.len() {
            return Ok(None);
        }
        if let Some(cause) = visit(automaton, before, token, trail, index)? {
            return Ok(Some(Source { index, cause }));
        }
    }
    let _entries = trail.len();
    Ok(None)
}
