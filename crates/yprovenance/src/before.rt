//! For each state, those of which a goto leads to it.

ghost use Rattle.std.specs.Prelude.{ℕ, ◌≡◌, ◌<◌, ◌∷◌, List, length, drop, Some};
ghost use Rattle.std.specs.Prelude.{MatchOption, IfOk, OnOk};
ghost use Rattle.ysymbols.specs.Grammar.{body_of};
ghost use Rattle.ylalr.specs.Collection.{bare_of, goto_in};
ghost use Rattle.ybitsets.specs.Links.{AreLinks, MoreLinks};
ghost use Rattle.yprovenance.specs.Trail.{AreBefore, IsListed};

use std::alloc::{AllocError, Global};
use ybitsets::links::Links;
use ylalr::{Automaton, Item};

/// The state that the goto over the symbol after the dot leads to, where one does.
fn target(automaton: &Automaton, state: usize, item: Item) -> Option<usize>
    requires state { state < length automaton.now.states }
    requires item { item.rule < length (bare_of automaton.now).rules }
    ensures within { MatchOption result (Unit {0}) (λ n. n < length automaton.now.states) }
    ensures every { (n x : ℕ) → (y : List ℕ)
        → drop item.dot (body_of (bare_of automaton.now) item.rule) ≡ x ∷ y
        → goto_in automaton.now state x ≡ Some n → result ≡ Some n }
{
    let _states = automaton.states();
    let grammar = automaton.grammar();
    let _well_formed = grammar.symbols();
    let body = grammar.rule(item.rule).body();
    if item.dot < body.len() {
        automaton.goto(state, body[item.dot])
    } else {
        None
    }
}

/// Lists a state where the gotos of its items lead.
fn list_state(automaton: &Automaton, state: usize, before: &mut Links) -> Result<(), AllocError>
    requires state { state < length automaton.now.states }
    requires links { AreLinks (length automaton.now.states) before.old }
    ensures links { OnOk result (AreLinks (length automaton.now.states) before.new) }
    ensures kept { OnOk result (MoreLinks before.old before.new) }
    ensures every { OnOk result (IsListed automaton.now before.new state) }
{
    let _states = automaton.states();
    for item in automaton.items(state) {
        if let Some(n) = target(automaton, state, *item) {
            before.push(n, state)?;
        }
    }
    Ok(())
}

/// For each state, those of which a goto leads to it. It fails only when memory runs out.
pub fn before_of(alloc: Global, automaton: &Automaton) -> Result<Links, AllocError>
    ensures { IfOk result (λ l. AreBefore automaton.now l) }
{
    let mut before = Links::new(alloc, automaton.states())?;
    for state in 0..automaton.states() {
        list_state(automaton, state, &mut before)?;
    }
    Ok(before)
}
