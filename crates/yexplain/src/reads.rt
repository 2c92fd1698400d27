//! Reads of grammars and tables by any number: what is out of range has an answer.

ghost use Rattle.std.specs.Iterator.{at_most};

use std::alloc::{AllocError, Global};
use ylalr::{Automaton, Item};
use yprovenance::{Candidate, candidate_at, leading, next_rule, shift_at};
use ysymbols::{Grammar, Precedence, Rule, Sym};
use ytables::{Action, Conflict, Tables, is_ready, next_symbol};

/// What is made, unless memory runs out.
pub type Made<T> = Result<T, AllocError>;

/// Sets an entry, where there is one.
pub fn set<T: Copy>(entries: &mut [T], place: usize, value: T) {
    if let Some(entry) = entries.get_mut(place) {
        *entry = value;
    }
}

/// Whether a mark is set; one that isn't there is not.
pub fn is_set(marks: &[bool], place: usize) -> bool {
    matches!(marks.get(place), Some(true))
}

/// The grammar that tables were made for.
pub fn grammar_of(tables: &Tables) -> &Grammar {
    tables.automaton().grammar()
}

/// The printed name of a symbol; empty for a number that is no symbol.
pub fn name_of(grammar: &Grammar, symbol: Sym) -> &[u8] {
    if symbol < grammar.symbols() {
        grammar.name(symbol)
    } else {
        b""
    }
}

/// The rule of a number, or `None` for a number of no rule.
pub fn rule_of(grammar: &Grammar, number: usize) -> Option<&Rule> {
    if number < grammar.rules() {
        Some(grammar.rule(number))
    } else {
        None
    }
}

/// The body of a rule; empty for a number that is no rule.
pub fn body_of(grammar: &Grammar, number: usize) -> &[Sym] {
    match rule_of(grammar, number) {
        Some(rule) => rule.body(),
        None => &[],
    }
}

/// The left side of a rule, or `None` for a number of no rule.
pub fn left_of(grammar: &Grammar, number: usize) -> Option<Sym> {
    rule_of(grammar, number).map(|rule| rule.left())
}

/// The precedence of a token, where it has one; the end never has.
pub fn level_of(grammar: &Grammar, token: Sym) -> Option<Precedence> {
    if grammar.is_token(token) {
        ytables::level_of(grammar, token)
    } else {
        None
    }
}

/// Whether the symbol can be reached from the start.
pub fn is_reachable(grammar: &Grammar, symbol: Sym) -> bool {
    symbol < grammar.symbols() && grammar.reachable(symbol)
}

/// The items of a state; empty for a number of no state.
pub fn items_of(automaton: &Automaton, state: usize) -> &[Item] {
    if state < automaton.states() {
        automaton.items(state)
    } else {
        &[]
    }
}

/// Whether a state has an item.
pub fn has_item(automaton: &Automaton, state: usize, item: Item) -> bool {
    items_of(automaton, state)
        .binary_search_by_key(&(item.rule, item.dot), |i| (i.rule, i.dot))
        .is_ok()
}

/// The symbol after the dot of an item, or `None` at the end of the body.
pub fn next_of(grammar: &Grammar, item: Item) -> Option<Sym> {
    if item.rule < grammar.rules() {
        next_symbol(grammar, item)
    } else {
        None
    }
}

/// Whether an item is complete, and of another rule than rule 0.
pub fn is_complete(grammar: &Grammar, item: Item) -> bool {
    item.rule < grammar.rules() && is_ready(grammar, item)
}

/// Whether an item is of the kernel of its states: its dot isn't at the beginning, or it is that
/// of rule 0.
pub fn is_kernel(item: Item) -> bool {
    item.dot > 0 || item.rule == 0
}

/// Where the complete items of a state stand among its items.
pub fn ready_of(alloc: Global, automaton: &Automaton, state: usize) -> Made<Vec<usize>> {
    let items = items_of(automaton, state).iter().enumerate();
    items
        .filter(|(_, item)| is_complete(automaton.grammar(), **item))
        .map(|(index, _)| index)
        .collect(alloc)
}

/// The state to which a symbol leads from a state, or `None` where it leads nowhere.
pub fn goto_of(automaton: &Automaton, state: usize, symbol: Sym) -> Option<usize> {
    if state < automaton.states() && symbol < automaton.grammar().symbols() {
        automaton.goto(state, symbol)
    } else {
        None
    }
}

/// Whether a token is a merged lookahead of an item of a state.
pub fn looks_at(automaton: &Automaton, state: usize, item: Item, token: Sym) -> bool {
    state < automaton.states()
        && token < automaton.grammar().symbols()
        && automaton.looks(state, item, token)
}

/// The items of a state that lead to a symbol by the closure; none for a number of no state.
pub fn leading_at(
    alloc: Global,
    automaton: &Automaton,
    state: usize,
    symbol: Sym,
) -> Made<Vec<Item>> {
    if state < automaton.states() && symbol < automaton.grammar().symbols() {
        leading(alloc, automaton, state, symbol)
    } else {
        Ok(Vec::new(alloc))
    }
}

/// Whether a symbol derives the empty form.
pub fn vanishes(automaton: &Automaton, symbol: Sym) -> bool {
    symbol < automaton.grammar().symbols() && automaton.nullable(symbol)
}

/// Whether a symbol derives a form that begins with a token.
pub fn begins_with(automaton: &Automaton, symbol: Sym, token: Sym) -> bool {
    let symbols = automaton.grammar().symbols();
    symbol < symbols && token < symbols && automaton.in_first(symbol, token)
}

/// What is done in a state at a token; an error for a number of no state or no token.
pub fn action_of(tables: &Tables, state: usize, token: Sym) -> Action {
    let automaton = tables.automaton();
    if state < automaton.states() && automaton.grammar().is_token(token) {
        tables.action(state, token)
    } else {
        Action::Error
    }
}

/// The rule that a state reduces by at every token, where the state has a default rule.
pub fn default_of(tables: &Tables, state: usize) -> Option<usize> {
    if state < tables.automaton().states() {
        tables.default_rule(state)
    } else {
        None
    }
}

/// What the cells of a state count, by rising tokens; nothing for a number of no state.
pub fn conflicts_of(tables: &Tables, state: usize) -> &[Conflict] {
    if state < tables.automaton().states() {
        tables.conflicts_in(state)
    } else {
        &[]
    }
}

/// What a cell counts, where it counts something.
pub fn conflict_of(tables: &Tables, state: usize, token: Sym) -> Option<Conflict> {
    let conflicts = conflicts_of(tables, state);
    let place = conflicts.binary_search_by_key(&token, |conflict| conflict.token);
    conflicts.get(place.ok()?).copied()
}

/// How many rules a cell counts beside what is done in it: one of its two counts is 0.
pub fn rivals_in(conflict: Conflict) -> usize {
    conflict.shift_reduce.max(conflict.reduce_reduce)
}

/// The shift that is a candidate in a cell, where one is.
pub fn shift_of(tables: &Tables, state: usize, token: Sym) -> Option<Action> {
    let automaton = tables.automaton();
    if state < automaton.states() && automaton.grammar().is_token(token) {
        shift_at(tables, state, token)
    } else {
        None
    }
}

/// The candidate in a cell that the item at an index of the state is, where it is one.
pub fn candidate_of(tables: &Tables, state: usize, token: Sym, index: usize) -> Option<Candidate> {
    let automaton = tables.automaton();
    if state >= automaton.states() || !automaton.grammar().is_token(token) {
        return None;
    }
    if index < automaton.items(state).len() {
        candidate_at(tables, state, token, index)
    } else {
        None
    }
}

/// The rules that are candidates in a cell, in their order.
#[derive(Clone, Copy, Drop)]
pub struct Candidates<'a> {
    tables: &'a Tables,
    state: usize,
    token: Sym,
    /// Where the next one is sought among the items of the state.
    index: usize,
    /// There are no more than these.
    most: usize,
}

impl Iterator for Candidates<'_> {
    type Item = Candidate;

    ghost remaining = { λ s. at_most s.most };

    fn next(&mut self) -> Option<Candidate> {
        if self.most == 0 {
            return None;
        }
        self.most -= 1;
        let (tables, state, token) = (self.tables, self.state, self.token);
        let automaton = tables.automaton();
        if state >= automaton.states() || !automaton.grammar().is_token(token) {
            return None;
        }
        let candidate = next_rule(tables, state, token, self.index)?;
        self.index = candidate.index.saturating_add(1);
        Some(candidate)
    }
}

/// The rules that are candidates in a cell; none for a number of no state or no token.
pub fn candidates_of(tables: &Tables, state: usize, token: Sym) -> Candidates<'_> {
    Candidates {
        tables,
        state,
        token,
        index: 0,
        most: items_of(tables.automaton(), state).len(),
    }
}
