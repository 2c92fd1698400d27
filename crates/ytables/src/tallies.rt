//! The tallies of all cells of a state: each complete item adds its rule at the tokens that it
//! looks at.

ghost use Rattle.std.specs.Prelude.{ℕ, ◌≡◌, ◌<◌, ◌≤◌, length, IfOk, None, slice_index_or, false};
ghost use Rattle.ylalr.specs.Collection.{Guide, IsGuide, state_of};
ghost use Rattle.ytables.specs.Tables.{level_of, has_before};
ghost use Rattle.ytables.specs.Tally.{no_tally};
ghost use Rattle.ytables.specs.Tallies.{against, AreSmall, AddsAt, IsTallyAt, IsTallyBy};
ghost use Rattle.ysymbols.specs.Grammar.{most_rules};

use crate::cell::Tally;
use crate::class::class_between;
use crate::dots::is_ready;
use std::alloc::{AllocError, Global};
use ylalr::{Automaton, END};
use ysymbols::{Grammar, Precedence, Sym};

/// The precedence of a token, where it has one; the end has none.
pub fn level_of(grammar: &Grammar, t: Sym) -> Option<Precedence>
    requires { t < grammar.now.bare.tokens }
    ensures { result ≡ level_of grammar.now t }
{
    let _well_formed = grammar.symbols();
    if t == END {
        None
    } else {
        grammar.precedence(t)
    }
}

/// What a rule is compared with at each token: the token's precedence, where the token can be
/// shifted.
fn levels_of(
    alloc: Global,
    grammar: &Grammar,
    before: &[bool],
) -> Result<Vec<Option<Precedence>>, AllocError>
    requires { length before.now ≡ grammar.now.bare.tokens }
    ensures len { IfOk result (λ v. length v.items ≡ length before.now) }
    ensures levels { IfOk result (λ v. (t : ℕ) → t < length before.now
        → slice_index_or v.items t None ≡ against grammar.now
        (slice_index_or before.now t false) t) }
{
    let mut levels = vec![in alloc; None; before.len()]?;
    for t in 0..before.len() {
        if before[t] {
            levels[t] = level_of(grammar, t);
        }
    }
    Ok(levels)
}

/// Adds the rule of the item at `index` at each token that the item looks at.
fn add_item(
    automaton: &Automaton,
    q: usize,
    index: usize,
    levels: &[Option<Precedence>],
    tallies: &mut [Tally],
)
    requires state { q < length automaton.now.states }
    requires index { index < length (state_of automaton.now q) }
    requires levels { length levels.now ≡ automaton.now.grammar.bare.tokens }
    requires tallies { length tallies.old ≡ automaton.now.grammar.bare.tokens }
    requires small { AreSmall index tallies.old }
    ensures len { length tallies.new ≡ length tallies.old }
    ensures adds { (u : Guide) → IsGuide automaton.now u
        → AddsAt automaton.now u q index levels.now tallies.old tallies.new }
{
    let _guide = automaton.states();
    let grammar = automaton.grammar();
    let _well_formed = grammar.symbols();
    let rule = automaton.items(q)[index].rule;
    let precedence = grammar.rule(rule).precedence();
    let mut t = automaton.next_look(q, index, 0);
    while t < tallies.len() {
        tallies[t].add(rule, class_between(levels[t], precedence));
        t = automaton.next_look(q, index, t + 1);
    }
}

/// Adds the rules of all complete items of a state, each at the tokens that it looks at.
fn add_items(automaton: &Automaton, q: usize, levels: &[Option<Precedence>], tallies: &mut [Tally])
    requires state { q < length automaton.now.states }
    requires levels { length levels.now ≡ automaton.now.grammar.bare.tokens }
    requires tallies { length tallies.old ≡ automaton.now.grammar.bare.tokens }
    requires none { (t : ℕ) → t < length tallies.old
        → slice_index_or tallies.old t no_tally ≡ no_tally }
    ensures len { length tallies.new ≡ length tallies.old }
    ensures small { AreSmall most_rules tallies.new }
    ensures tallies { (u : Guide) → IsGuide automaton.now u → (t : ℕ) → t < length tallies.old
        → IsTallyBy automaton.now u q (slice_index_or levels.now t None) t
        (slice_index_or tallies.new t no_tally) }
{
    let _guide = automaton.states();
    let grammar = automaton.grammar();
    let _well_formed = grammar.symbols();
    let items = automaton.items(q);
    for index in 0..items.len() {
        if is_ready(grammar, items[index]) {
            add_item(automaton, q, index, levels, tallies);
        }
    }
}

/// The tallies of the cells of state `q`; `before` says before which tokens a dot stands. It fails
/// only when memory runs out.
pub fn tallies_of(
    alloc: Global,
    automaton: &Automaton,
    q: usize,
    before: &[bool],
) -> Result<Vec<Tally>, AllocError>
    requires state { q < length automaton.now.states }
    requires tokens { length before.now ≡ automaton.now.grammar.bare.tokens }
    ensures len { IfOk result (λ v. length v.items ≡ length before.now) }
    ensures small { IfOk result (λ v. AreSmall most_rules v.items) }
    ensures tallies { IfOk result (λ v. (u : Guide) → IsGuide automaton.now u
        → (t : ℕ) → t < length before.now
        → IsTallyAt automaton.now u q (slice_index_or before.now t false) t
        (slice_index_or v.items t no_tally)) }
{
    let levels = levels_of(alloc, automaton.grammar(), before)?;
    let mut tallies = vec![in alloc; Tally::new(); before.len()]?;
    add_items(automaton, q, &levels, &mut tallies);
    Ok(tallies)
}
