//! What is found, in rows: the tokens that can be ahead after a spot, by how many tokens it takes.

use crate::sets::{Known, Sets, Source};
use std::alloc::Global;
use yexplain::distinct::Distinct;
use yexplain::reads::Made;
use ylalr::Item;
use ysearch::queue::{FAR, Queue};
use ysymbols::{Sym, let_go};

/// The most steps of a search: words of sets that are made, and rows that are looked at.
pub const MOST_STEPS: usize = 100_000_000;

/// The most words of all that is kept.
const MOST_WORDS: usize = 40_000_000;

/// About how many words a row takes beside its sets, and an origin beside its own.
const WORDS_OF_ROW: usize = 40;

const WORDS_OF_ORIGIN: usize = 12;

/// What tokens are ahead after.
#[derive(Clone, Copy, Drop, PartialEq, Eq, Hash)]
pub enum Spot {
    /// The stack has this state on top.
    State(usize),
    /// The nonterminal of this number of `Ways` has come on the stack in its state.
    Goto(usize),
    /// What is after the dot of an item has come on the stack, with this state before it, and the
    /// rule of the item is reduced next.
    Rest(usize, Item),
}

/// What a row is of: a spot, and the token that was ahead before it, where that matters.
#[derive(Clone, Copy, Drop, PartialEq, Eq, Hash)]
pub struct Key {
    /// The spot.
    pub spot: Spot,
    /// The token that was ahead; none for a state, and for a rest after a token.
    pub first: Option<Sym>,
}

/// A part of what is taken before.
#[derive(Clone, Copy, Drop)]
pub enum Part {
    /// Nothing.
    Nothing,
    /// A token.
    Token(Sym),
    /// What a row takes to have this token ahead.
    Row(usize, Sym),
    /// What a row takes to have the token ahead that the whole has.
    Last(usize),
}

/// What is taken before: two parts, the first one first.
#[derive(Clone, Copy, Drop)]
pub struct Taken {
    /// The first part.
    pub first: Part,
    /// The second one.
    pub second: Part,
}

/// Nothing is taken.
pub const NOTHING: Taken = Taken {
    first: Part::Nothing,
    second: Part::Nothing,
};

/// The tokens that come to be ahead in a row after the same number of tokens.
#[derive(Clone, Copy, Drop)]
pub struct Level {
    /// How many tokens are taken before.
    pub cost: u64,
    /// The set of the tokens ahead.
    pub at: usize,
}

/// By which way tokens come to be ahead in a row.
#[derive(Clone, Copy, Drop)]
struct Origin {
    level: Level,
    /// What is taken; its rows had these tokens before.
    taken: Taken,
}

/// A row.
#[derive(Drop)]
struct Row {
    /// The set of the tokens that its levels have.
    known: usize,
    levels: Vec<Level>,
    /// What waits, once for each number of tokens before it, which is `FAR` once it has come in.
    waiting: Vec<Level>,
    origins: Vec<Origin>,
}

/// All rows, and in which order what waits is taken.
pub struct Rows {
    alloc: Global,
    /// All sets.
    pub sets: Sets,
    /// The spots that have rows.
    pub spots: Distinct<Spot>,
    /// The rows of each spot.
    of_spots: Vec<Vec<usize>>,
    /// What each row is of.
    pub keys: Distinct<Key>,
    rows: Vec<Row>,
    /// The rows in which something waits or has waited, and what.
    waiting: Vec<(usize, Level)>,
    queue: Queue,
    steps: usize,
    words: usize,
}

impl Drop for Rows {
    // A call in each owner, which keeps their proofs short.
    fn drop(self) {
        let_go!(self: Rows {
            alloc, sets, spots, of_spots, keys, rows, waiting, queue, steps, words
        });
    }
}

impl Row {
    /// The set that waits with so many tokens before it.
    fn set_that_waits(&self, cost: u64) -> Option<usize> {
        for level in &self.waiting {
            if level.cost == cost {
                return Some(level.at);
            }
        }
        None
    }
}

impl Rows {
    /// No rows, over sets of so many tokens.
    pub fn new(alloc: Global, tokens: usize) -> Rows {
        Rows {
            alloc,
            sets: Sets::new(alloc, tokens),
            spots: Distinct::new(alloc),
            of_spots: Vec::new(alloc),
            keys: Distinct::new(alloc),
            rows: Vec::new(alloc),
            waiting: Vec::new(alloc),
            queue: Queue::new(alloc),
            steps: MOST_STEPS,
            words: MOST_WORDS,
        }
    }

    /// Takes steps from those that are left.
    pub fn spend(&mut self, steps: usize) {
        self.steps = self.steps.saturating_sub(steps);
    }

    /// Whether there are steps and words left.
    pub fn has_steps(&self) -> bool {
        self.steps > 0 && self.words > 0
    }

    /// Takes words from those that are left, and as many steps.
    fn keep(&mut self, words: usize) {
        self.spend(words);
        self.words = self.words.saturating_sub(words);
    }

    /// Makes an empty set.
    pub fn make_set(&mut self) -> Made<usize> {
        let width = self.sets.width;
        self.keep(width);
        self.sets.make()
    }

    /// How many rows the spot of a number has.
    pub fn count(&self, spot: usize) -> usize {
        self.of_spots.get(spot).map_or(0, |rows| rows.len())
    }

    /// A row of the spot of a number by its index, with the token before it, where that matters.
    pub fn row_at(&self, spot: usize, index: usize) -> Option<(usize, Sym)> {
        let row = self.of_spots.get(spot)?.get(index).copied()?;
        Some((row, self.key(row)?.first?))
    }

    /// What a row is of.
    pub fn key(&self, row: usize) -> Option<Key> {
        self.keys.at(row)
    }

    /// The levels of a row.
    pub fn levels(&self, row: usize) -> &[Level] {
        self.rows.get(row).map_or(&[], |row| row.levels.as_slice())
    }

    /// The level of a row that has a token.
    pub fn level(&self, row: usize, token: Sym) -> Option<Level> {
        if !self.sets.has(self.rows.get(row)?.known, token) {
            return None;
        }
        for level in self.levels(row) {
            if self.sets.has(level.at, token) {
                return Some(*level);
            }
        }
        None
    }

    /// What is taken before a token is ahead in a row, where it is.
    pub fn taken(&self, row: usize, token: Sym) -> Option<Taken> {
        let cost = self.level(row, token)?.cost;
        for it in &self.rows.get(row)?.origins {
            if it.level.cost == cost && self.sets.has(it.level.at, token) {
                return Some(it.taken);
            }
        }
        None
    }

    /// The row of a key, which is made where there is none.
    fn number(&mut self, key: Key) -> Made<usize> {
        if let Some(row) = self.keys.number(key) {
            return Ok(row);
        }
        let (place, is_new) = self.spots.add(key.spot)?;
        if is_new {
            self.of_spots.push(Vec::new(self.alloc))?;
        }
        let known = self.make_set()?;
        self.keep(WORDS_OF_ROW);
        let (row, _) = self.keys.add(key)?;
        self.rows.push(Row {
            known,
            levels: Vec::new(self.alloc),
            waiting: Vec::new(self.alloc),
            origins: Vec::new(self.alloc),
        })?;
        if let Some(rows) = self.of_spots.get_mut(place) {
            rows.push(row)?;
        }
        Ok(row)
    }

    /// Tokens wait to come into a row after so many others, which these parts are, but for those
    /// that it has, and those that wait already.
    pub fn put(&mut self, key: Key, cost: u64, source: Source, taken: Taken) -> Made<()> {
        let (row, width) = (self.number(key)?, self.sets.width);
        self.spend(width);
        let Some(found) = self.rows.get_mut(row) else {
            return Ok(());
        };
        let (at, other) = (found.known, found.set_that_waits(cost));
        let Some(at) = self.sets.make_of(source, Known { at, other })? else {
            return Ok(());
        };
        let level = Level { cost, at };
        found.origins.push(Origin { level, taken })?;
        match other {
            Some(waits) => self.sets.join(at, waits),
            None => {
                // a copy, since the set that waits grows
                let waits = self.sets.make()?;
                self.sets.join(at, waits);
                let level = Level { cost, at: waits };
                found.waiting.push(level)?;
                // the first to wait is taken first: the queue takes the greatest number
                let number = usize::MAX.saturating_sub(self.waiting.len());
                self.queue.put(cost, number)?;
                self.waiting.push((row, level))?;
            }
        }
        self.keep(width.saturating_add(WORDS_OF_ORIGIN));
        Ok(())
    }

    /// The next tokens that come into a row, after the fewest tokens: the row and its new level.
    pub fn take(&mut self) -> Made<Option<(usize, Level)>> {
        for _ in 0..self.waiting.len() {
            let Some((_, number)) = self.queue.take() else {
                break;
            };
            let place = usize::MAX.saturating_sub(number);
            let Some((row, level)) = self.waiting.get(place).copied() else {
                break;
            };
            let Some(found) = self.rows.get_mut(row) else {
                break;
            };
            for it in found.waiting.iter_mut() {
                if it.at == level.at {
                    it.cost = FAR;
                }
            }
            let is_new = self.sets.take_out(level.at, found.known);
            self.sets.join(level.at, found.known);
            if is_new {
                found.levels.push(level)?;
                return Ok(Some((row, level)));
            }
        }
        Ok(None)
    }
}
