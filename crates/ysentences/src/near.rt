//! Lists of tokens that are near to sentences: one token is left out, changed or put in.

use std::alloc::Global;
use std::collections::HashSet;
use yexplain::reads::Made;
use yinput::grammars::used_in;
use ylalr::ERROR;
use ylex::writer::Writer;
use ysymbols::{Grammar, Sym, let_go};

/// The most places at which a sentence is changed in one way.
const MOST_PLACES: usize = 3;

/// A change of a sentence, after so many of its tokens.
#[derive(Clone, Copy, Drop, PartialEq, Eq)]
pub enum Change {
    /// The next token is left out.
    LeaveOut(usize),
    /// The next token becomes this one.
    Replace(usize, Sym),
    /// This token is put in.
    PutIn(usize, Sym),
}

/// What changes sentences.
pub struct Near {
    alloc: Global,
    /// The tokens of the grammar's rules, but for `error`, and those that no text has.
    inputs: Vec<Sym>,
    /// How many of them were taken, one after the other, over and over.
    turn: usize,
    /// All lists that were met.
    met: HashSet<Vec<Sym>>,
}

impl Drop for Near {
    // A call in each owner, which keeps their proofs short.
    fn drop(self) {
        let_go!(self: Near { alloc, inputs, turn, met });
    }
}

/// The place of a part of so many places, the first one and the last one among them.
fn place_in(count: usize, part: usize) -> Option<usize> {
    let parts = count.min(MOST_PLACES);
    if part >= parts {
        return None;
    }
    let last = count.saturating_sub(1);
    let steps = parts.saturating_sub(1);
    Some(part.saturating_mul(last).checked_div(steps).unwrap_or(0))
}

impl Near {
    /// What changes sentences of a grammar; with a writer, by tokens that a text can have.
    pub fn new(alloc: Global, grammar: &Grammar, writer: Option<&Writer>) -> Made<Near> {
        let (mut inputs, marks) = (Vec::new(alloc), used_in(alloc, grammar)?);
        for (symbol, used) in marks.iter().enumerate() {
            let is_given = match writer {
                Some(writer) => writer.lexer.gives(symbol),
                None => true,
            };
            if *used && grammar.is_token(symbol) && symbol > ERROR && is_given {
                inputs.push(symbol)?;
            }
        }
        Ok(Near {
            alloc,
            inputs,
            turn: 0,
            met: HashSet::new(alloc),
        })
    }

    /// Notes a list, and says whether it is met for the first time.
    pub fn meet(&mut self, tokens: &[Sym]) -> Made<bool> {
        let mut list = Vec::new(self.alloc);
        list.extend_from_slice(tokens)?;
        Ok(self.met.insert(list)?)
    }

    /// The next token, other than this one; `None` where there is no other.
    fn other(&mut self, token: Option<Sym>) -> Option<Sym> {
        for _ in 0..2 {
            let place = self.turn.checked_rem(self.inputs.len())?;
            self.turn = self.turn.wrapping_add(1);
            let other = self.inputs.get(place).copied();
            if other != token {
                return other;
            }
        }
        None
    }

    /// The changes of a sentence: at some places the token is left out; at some it becomes another;
    /// at some one is put in.
    pub fn changes(&mut self, tokens: &[Sym]) -> Made<Vec<Change>> {
        let (mut changes, count) = (Vec::new(self.alloc), tokens.len());
        for part in 0..MOST_PLACES {
            if let Some(place) = place_in(count, part) {
                changes.push(Change::LeaveOut(place))?;
            }
        }
        for part in 0..MOST_PLACES {
            if let Some(place) = place_in(count, part) {
                if let Some(other) = self.other(tokens.get(place).copied()) {
                    changes.push(Change::Replace(place, other))?;
                }
            }
        }
        for part in 0..MOST_PLACES {
            if let Some(place) = place_in(count.saturating_add(1), part) {
                if let Some(other) = self.other(None) {
                    changes.push(Change::PutIn(place, other))?;
                }
            }
        }
        Ok(changes)
    }
}

impl Change {
    /// What becomes of a sentence.
    pub fn made(self, alloc: Global, tokens: &[Sym]) -> Made<Vec<Sym>> {
        let (place, token, taken) = match self {
            Change::LeaveOut(place) => (place, None, 1),
            Change::Replace(place, token) => (place, Some(token), 1),
            Change::PutIn(place, token) => (place, Some(token), 0),
        };
        let mut list = Vec::new(alloc);
        list.extend_from_slice(tokens.get(..place).unwrap_or(tokens))?;
        if let Some(token) = token {
            list.push(token)?;
        }
        let rest = tokens.get(place.saturating_add(taken)..).unwrap_or(&[]);
        list.extend_from_slice(rest)?;
        Ok(list)
    }
}
