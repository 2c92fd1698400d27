//! What has to hold in a state so that a rule can be reduced at a token further on: an item must
//! have that token as its lookahead, by one of the ways that canonical LR(1) items know.

use crate::shortest::Shortest;
use std::alloc::Global;
use yexplain::reads::{Made, begins_with, body_of, has_item, left_of, looks_at, set, vanishes};
use ylalr::{Automaton, Item};
use ysymbols::{Grammar, Sym};

/// What a state has to fulfil.
#[derive(Clone, Copy, Drop, PartialEq, Eq, Hash)]
pub enum Need {
    /// Nothing: whatever comes before will do.
    Free,
    /// This item has the token as its lookahead.
    Item(Item),
}

impl Need {
    /// What has to hold in a state so that a rule can be reduced there.
    pub fn complete(grammar: &Grammar, rule: Option<usize>) -> Need {
        match rule {
            Some(rule) => Need::Item(Item {
                rule,
                dot: body_of(grammar, rule).len(),
            }),
            None => Need::Free,
        }
    }

    /// Whether it is an item with its dot at 0, which rests on others of its state.
    pub fn is_closed(self) -> bool {
        matches!(self, Need::Item(Item { dot: 0, .. }))
    }

    /// What has to hold in a state, so that this holds in the one after it; none where it can't.
    pub fn before(self, automaton: &Automaton, state: usize, token: Sym) -> Option<Need> {
        match self {
            Need::Free => Some(Need::Free),
            Need::Item(Item { rule, dot }) => {
                let dot = dot.saturating_sub(1);
                let item = Item { rule, dot };
                looks_at(automaton, state, item, token).then_some(Need::Item(item))
            }
        }
    }
}

/// What the form after a nonterminal is to a token.
#[derive(Clone, Copy, Drop)]
enum After {
    /// It begins with the token.
    Begins,
    /// It doesn't, but vanishes.
    Vanishes,
    /// Neither.
    Other,
}

/// Finds what has to hold before an item with its dot at 0.
#[derive(Drop)]
pub struct Needs {
    /// For each symbol, the round in which it was met last.
    met: Vec<usize>,
    round: usize,
    /// The left sides of this round.
    lefts: Vec<Sym>,
    /// How many items were looked at in this round.
    pub looked: usize,
}

/// What the form after a nonterminal is to a token.
fn form_after(automaton: &Automaton, item: Item, token: Sym) -> After {
    let body = body_of(automaton.grammar(), item.rule);
    let form = body.get(item.dot.saturating_add(1)..).unwrap_or(&[]);
    for symbol in form {
        if begins_with(automaton, *symbol, token) {
            return After::Begins;
        }
        if !vanishes(automaton, *symbol) {
            return After::Other;
        }
    }
    After::Vanishes
}

impl Needs {
    /// Nothing met.
    pub fn new(alloc: Global, symbols: usize) -> Made<Needs> {
        Ok(Needs {
            met: vec![in alloc; 0usize; symbols]?,
            round: 0,
            lefts: Vec::new(alloc),
            looked: 0,
        })
    }

    /// Adds the left side of a rule, where it wasn't met in this round.
    fn meet(&mut self, left: Sym) -> Made<()> {
        let round = self.round;
        if self.met.get(left).copied().unwrap_or(round) != round {
            set(&mut self.met, left, round);
            self.lefts.push(left)?;
        }
        Ok(())
    }

    /// Takes in the items of a state with their dot before a left side, and says whether one frees.
    fn take_all(
        &mut self,
        automaton: &Automaton,
        state: usize,
        items: &[Item],
        token: Sym,
        found: &mut Vec<Need>,
    ) -> Made<bool> {
        self.looked = self.looked.saturating_add(items.len());
        for item in items {
            let left = left_of(automaton.grammar(), item.rule);
            match (form_after(automaton, *item, token), left) {
                (After::Begins, _) if has_item(automaton, state, *item) => return Ok(true),
                (After::Vanishes, _) if !looks_at(automaton, state, *item, token) => {}
                (After::Vanishes, _) if item.dot > 0 => found.push(Need::Item(*item))?,
                (After::Vanishes, Some(left)) => self.meet(left)?,
                _ => {}
            }
        }
        Ok(false)
    }

    /// What has to hold in a state, so that this item of it has the token as its lookahead: any
    /// one of these.
    pub fn of(
        &mut self,
        alloc: Global,
        automaton: &Automaton,
        shortest: &Shortest,
        (state, item): (usize, Item),
        token: Sym,
    ) -> Made<Vec<Need>> {
        let mut found = Vec::new(alloc);
        self.looked = 0;
        if item.dot > 0 {
            found.push(Need::Item(item))?;
            return Ok(found);
        }
        self.round = self.round.saturating_add(1);
        self.lefts.clear();
        if let Some(left) = left_of(automaton.grammar(), item.rule) {
            self.meet(left)?;
        }
        for number in 0..self.met.len() {
            let Some(left) = self.lefts.get(number).copied() else {
                break;
            };
            if self.take_all(
                automaton,
                state,
                shortest.places.of(left),
                token,
                &mut found,
            )? {
                found.clear();
                found.push(Need::Free)?;
                break;
            }
        }
        Ok(found)
    }
}
