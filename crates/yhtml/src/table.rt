//! The grammar and the states as the page has them, all by number.

use serde::Serialize;
use std::alloc::Global;
use std::collections::HashMap;
use yexplain::lines::Lines;
use yexplain::reads::{
    Made, body_of, grammar_of, is_complete, is_kernel, items_of, left_of, looks_at,
};
use ylalr::{Automaton, END, Item, token_count};
use ysymbols::{Sym, let_go};
use ytables::Tables;
use yview::reading::name_of;

/// A state: its number, the rule and the dot of each kernel item, and of each complete item the
/// rule and which list of tokens its lookaheads are. The page adds the other items.
pub type State = (usize, Vec<(usize, usize)>, Vec<(usize, usize)>);

/// The grammar, and some states.
#[derive(Serialize)]
pub struct Table<'a> {
    /// The printed names of the symbols.
    names: Vec<&'a str>,
    /// How many symbols are tokens, which come first.
    tokens: usize,
    /// The left side and the body of each rule.
    rules: Vec<(Sym, &'a [Sym])>,
    /// The line on which each rule begins.
    lines: Vec<Option<usize>>,
    states: Vec<State>,
    /// The lists of lookaheads.
    looks: &'a [Vec<Sym>],
}

impl Drop for Table<'_> {
    // A call in each owner, which keeps their proofs short.
    fn drop(self) {
        let_go!(self: Table { names, tokens, rules, lines, states, looks });
    }
}

/// Lists of lookaheads, each once.
pub struct Looks {
    /// The lists.
    pub all: Vec<Vec<Sym>>,
    /// The place of each among them.
    places: HashMap<Vec<Sym>, usize>,
}

impl Drop for Looks {
    // A call in each owner, which keeps their proofs short.
    fn drop(self) {
        let_go!(self: Looks { all, places });
    }
}

impl Looks {
    /// No lists.
    pub fn new(alloc: Global) -> Looks {
        Looks {
            all: Vec::new(alloc),
            places: HashMap::new(alloc),
        }
    }

    /// The place of a list, which is added where it isn't there.
    fn place(&mut self, alloc: Global, list: Vec<Sym>) -> Made<usize> {
        if let Some(place) = self.places.get(&list).copied() {
            return Ok(place);
        }
        let place = self.all.len();
        self.all.push(Vec::from_slice(alloc, &list)?)?;
        self.places.insert(list, place)?;
        Ok(place)
    }
}

/// The tokens that are lookaheads of an item in a state.
fn looks_of(alloc: Global, automaton: &Automaton, state: usize, item: Item) -> Made<Vec<Sym>> {
    let mut tokens = Vec::new(alloc);
    for token in 0..token_count(automaton.grammar()) {
        if looks_at(automaton, state, item, token) {
            tokens.push(token)?;
        }
    }
    Ok(tokens)
}

/// States of these numbers, whose lists of lookaheads are added to some.
pub fn states_of(
    alloc: Global,
    automaton: &Automaton,
    numbers: &[usize],
    looks: &mut Looks,
) -> Made<Vec<State>> {
    let mut states = Vec::new(alloc);
    for number in numbers {
        let (mut items, mut complete) = (Vec::new(alloc), Vec::new(alloc));
        for item in items_of(automaton, *number) {
            if is_kernel(*item) {
                items.push((item.rule, item.dot))?;
            }
            if is_complete(automaton.grammar(), *item) {
                let tokens = looks_of(alloc, automaton, *number, *item)?;
                complete.push((item.rule, looks.place(alloc, tokens)?))?;
            }
        }
        states.push((*number, items, complete))?;
    }
    Ok(states)
}

impl<'a> Table<'a> {
    /// The grammar of tables, and states of theirs with their lists of lookaheads.
    pub fn new(
        alloc: Global,
        tables: &'a Tables,
        lines: &Lines,
        states: Vec<State>,
        looks: &'a [Vec<Sym>],
    ) -> Made<Table<'a>> {
        let grammar = grammar_of(tables);
        Ok(Table {
            names: (0..grammar.symbols())
                .map(|symbol| name_of(grammar, symbol))
                .collect(alloc)?,
            tokens: token_count(grammar),
            rules: (0..grammar.rules())
                .map(|rule| (
                    left_of(grammar, rule).unwrap_or(END),
                    body_of(grammar, rule),
                ))
                .collect(alloc)?,
            lines: (0..grammar.rules())
                .map(|rule| lines.rule(rule))
                .collect(alloc)?,
            states,
            looks,
        })
    }
}
