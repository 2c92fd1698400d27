//! The cells that count conflicts, those of one kind together.

use std::alloc::Global;
use std::collections::HashMap;
use yexplain::lines::{Lines, Spot};
use yexplain::reads::{
    Made, candidates_of, conflict_of, conflicts_of, items_of, next_of, rivals_in, set, shift_of,
};
use yexplain::why::Question;
use ylalr::Automaton;
use ysymbols::{Sym, let_go};
use ytables::{Class, Conflict, Tables};

/// The most rivals that are shown; kinds are compared by these.
pub const MOST_RIVALS: usize = 10;

/// An odd number that mixes those of items.
const SPREAD: u64 = 0x9e37_79b9_7f4a_7c15;

/// The most kinds that are kept apart.
const MOST_KINDS: usize = 20_000;

/// A kind of conflict: its token, the items that could shift it, by a number made of them, whether
/// that is done, and the rules that don't lose to it, by their number and the first of them.
#[derive(Clone, Copy, Drop, PartialEq, Eq, Hash)]
pub struct Kind {
    /// The token.
    pub token: Sym,
    shifted: u64,
    /// Whether the shift is taken.
    pub shift: bool,
    /// How many rules there are beside what is taken.
    pub rivals: usize,
    rules: [usize; 10],
}

/// The cells of one kind: the first state, how many states there are, and the last of them.
#[derive(Clone, Copy, Drop)]
pub struct Group {
    /// The first state that has it.
    pub state: usize,
    /// How many states have it.
    pub states: usize,
    /// The last state that has it.
    pub last: usize,
}

/// All conflicts of tables.
pub struct Conflicts {
    /// The cells of each kind, in the order of the first states.
    pub groups: Vec<(Kind, Group)>,
    /// The place of each kind among them.
    places: HashMap<Kind, usize>,
    /// How many cells have a conflict.
    pub cells: usize,
    /// How many of them were met once there were 20,000 kinds, and belong to no group.
    pub others: usize,
}

impl Drop for Conflicts {
    // A call in each owner, which keeps their proofs short.
    fn drop(self) {
        let_go!(self: Conflicts { groups, places, cells, others });
    }
}

impl Kind {
    /// That of a conflict of a state.
    fn of(tables: &Tables, state: usize, conflict: Conflict) -> Kind {
        let token = conflict.token;
        let shifts = shift_of(tables, state, token).is_some();
        // the first of the rules that don't lose to the shift, where there is one
        let (mut rules, mut place) = ([0usize; 10], 0);
        for candidate in candidates_of(tables, state, token) {
            if !shifts || candidate.standing.class() != Class::Lose {
                set(&mut rules, place, candidate.rule);
                place = place.saturating_add(1);
            }
        }
        Kind {
            token,
            shifted: shifted(tables.automaton(), state, token),
            shift: conflict.shift_reduce > 0,
            rivals: rivals_in(conflict),
            rules,
        }
    }

    /// The states that have it, of which these are known.
    pub fn states(&self, alloc: Global, tables: &Tables, group: Group) -> Made<Vec<usize>> {
        let mut states = Vec::new(alloc);
        for state in group.state..=group.last {
            let conflict = conflict_of(tables, state, self.token);
            if conflict.is_some_and(|it| Kind::of(tables, state, it) == *self) {
                states.push(state)?;
            }
        }
        Ok(states)
    }

    /// The first cell of the kind.
    pub fn cell<'a>(&self, group: Group, tables: &'a Tables, lines: &'a Lines) -> Question<'a> {
        Question {
            tables,
            lines,
            state: group.state,
            token: self.token,
        }
    }

    /// Where the first rule stands that isn't taken.
    pub fn spot(&self, lines: &Lines) -> Option<Spot> {
        let rule = self.others().first()?;
        lines.spot(*rule)
    }

    /// The rules that are shown: the one that is taken, if it is a rule, and then the others.
    pub fn rules(&self) -> &[usize] {
        let all = self.rivals.saturating_add(usize::from(!self.shift));
        let shown = self.rules.get(..all.min(MOST_RIVALS));
        shown.unwrap_or(&self.rules)
    }

    /// The rule that is taken, where it isn't the shift.
    pub fn taken(&self) -> Option<usize> {
        self.rules().first().copied().filter(|_| !self.shift)
    }

    /// The rules beside what is taken that are shown.
    pub fn others(&self) -> &[usize] {
        let taken = usize::from(!self.shift);
        self.rules().get(taken..).unwrap_or(&[])
    }
}

/// A number made of the items that could shift a token; 0 without such items.
fn shifted(automaton: &Automaton, state: usize, token: Sym) -> u64 {
    let mut number: u64 = 0;
    for item in items_of(automaton, state) {
        if next_of(automaton.grammar(), *item) == Some(token) {
            number = number
                .wrapping_mul(SPREAD)
                .wrapping_add(item.rule as u64)
                .wrapping_mul(SPREAD)
                .wrapping_add(item.dot as u64)
                .wrapping_add(1);
        }
    }
    number
}

impl Conflicts {
    /// The conflicts of tables.
    pub fn new(alloc: Global, tables: &Tables) -> Made<Conflicts> {
        let mut found = Conflicts {
            groups: Vec::new(alloc),
            places: HashMap::new(alloc),
            cells: 0,
            others: 0,
        };
        for state in 0..tables.automaton().states() {
            for conflict in conflicts_of(tables, state) {
                found.cells = found.cells.saturating_add(1);
                if found.groups.len() >= MOST_KINDS {
                    found.others = found.others.saturating_add(1);
                    continue;
                }
                found.note(Kind::of(tables, state, *conflict), state)?;
            }
        }
        Ok(found)
    }

    /// Notes a conflict of a kind in a state.
    fn note(&mut self, kind: Kind, state: usize) -> Made<()> {
        if let Some(place) = self.places.get(&kind).copied() {
            if let Some((_, group)) = self.groups.get_mut(place) {
                group.states = group.states.saturating_add(1);
                group.last = state;
            }
            return Ok(());
        }
        let group = Group {
            state,
            states: 1,
            last: state,
        };
        self.places.insert(kind, self.groups.len())?;
        self.groups.push((kind, group))?;
        Ok(())
    }
}
