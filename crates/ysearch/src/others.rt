//! Further lists of tokens for a cell, the shortest first: all sentences of the ways to it.

use crate::queue::Queue;
use crate::search::{Finder, Found, Search, Target};
use crate::shortest::Shortest;
use std::alloc::Global;
use std::collections::HashSet;
use yexplain::reads::{Made, body_of};
use ylalr::Automaton;
use ysymbols::{Grammar, Sym, let_go};

/// How many ways are sought.
const MOST_WAYS: usize = 100;

/// The most forms that are looked at for one list.
const MOST_FORMS: usize = 2_000;

/// The most symbols and tokens of a form that is taken in.
const MOST_SYMBOLS: usize = 1_000;

/// Forms that wait with the length of their shortest sentences.
struct Sentences {
    /// All forms that were met.
    met: HashSet<Vec<Sym>>,
    /// The same, by their numbers.
    forms: Vec<Vec<Sym>>,
    queue: Queue,
    /// How many forms may still be taken in.
    left: usize,
    /// How many symbols the forms had that were offered or taken.
    symbols: usize,
}

impl Drop for Sentences {
    // A call in each owner, which keeps their proofs short.
    fn drop(self) {
        let_go!(self: Sentences { met, forms, queue, left, symbols });
    }
}

/// Lists of tokens to come.
pub struct Others {
    alloc: Global,
    search: Search,
    /// The next way, once it was sought, and the length of its shortest sentence.
    way: Option<(Vec<Sym>, u64)>,
    /// Whether there are no more ways.
    done: bool,
    sentences: Sentences,
}

impl Drop for Others {
    // A call in each owner, which keeps their proofs short.
    fn drop(self) {
        let_go!(self: Others { alloc, search, way, done, sentences });
    }
}

impl Sentences {
    /// Takes a form in, where it is new and not too long.
    fn add(&mut self, shortest: &Shortest, form: Vec<Sym>) -> Made<()> {
        self.symbols = self.symbols.saturating_add(form.len());
        let length = shortest.length_of(&form);
        if self.left == 0 || form.len() > MOST_SYMBOLS || length > MOST_SYMBOLS as u64 {
            return Ok(());
        }
        self.left = self.left.saturating_sub(1);
        if self.met.insert(form.clone()?)? {
            self.queue.put(length, self.forms.len())?;
            self.forms.push(form)?;
        }
        Ok(())
    }

    /// Takes the form of the shortest sentence: itself, where it is one; else the forms of its
    /// first nonterminal's rules are taken in.
    fn take(
        &mut self,
        alloc: Global,
        shortest: &Shortest,
        grammar: &Grammar,
    ) -> Made<Option<Vec<Sym>>> {
        let Some((_, number)) = self.queue.take() else {
            return Ok(None);
        };
        let form = match self.forms.get(number) {
            Some(form) => form.clone()?,
            None => return Ok(None),
        };
        self.symbols = self.symbols.saturating_add(form.len());
        for (place, symbol) in form.iter().enumerate() {
            if !grammar.is_token(*symbol) {
                self.expand(alloc, shortest, grammar, (form.as_slice(), place))?;
                return Ok(None);
            }
        }
        Ok(Some(form))
    }

    /// Takes in what a form is where the symbol at a place begins with each of its rules.
    fn expand(
        &mut self,
        alloc: Global,
        shortest: &Shortest,
        grammar: &Grammar,
        (form, place): (&[Sym], usize),
    ) -> Made<()> {
        let symbol = form.get(place).copied().unwrap_or(0);
        for rule in shortest.rules.of(symbol) {
            if self.left > 0 {
                let mut next = Vec::new(alloc);
                next.extend_from_slice(form.get(..place).unwrap_or(&[]))?;
                next.extend_from_slice(body_of(grammar, *rule))?;
                next.extend_from_slice(form.get(place.saturating_add(1)..).unwrap_or(&[]))?;
                self.add(shortest, next)?;
            }
        }
        Ok(())
    }
}

impl Others {
    /// The lists for a cell, for which so many forms may be looked at.
    pub fn new(
        alloc: Global,
        finder: &mut Finder,
        automaton: &Automaton,
        target: Target,
        forms: usize,
    ) -> Made<Others> {
        Ok(Others {
            alloc,
            search: finder.search(automaton, target, MOST_WAYS)?,
            way: None,
            done: false,
            sentences: Sentences {
                met: HashSet::new(alloc),
                forms: Vec::new(alloc),
                queue: Queue::new(alloc),
                left: forms,
                symbols: 0,
            },
        })
    }

    /// The next list. The finder's steps are spent on it, and where too many are, none is found.
    pub fn next(&mut self, finder: &mut Finder, automaton: &Automaton) -> Made<Option<Vec<Sym>>> {
        for _ in 0..MOST_FORMS {
            if !finder.may_go_on(&self.search) {
                break;
            }
            self.seek(finder, automaton)?;
            let least = self.sentences.queue.least();
            if least.is_none() && self.way.is_none() {
                break;
            }
            // a way is taken in where no sentence is shorter
            let is_way = match &self.way {
                Some((_, length)) => *length <= least.unwrap_or(u64::MAX),
                None => false,
            };
            let (shortest, before) = (&finder.shortest, self.sentences.symbols);
            let mut found = None;
            if !is_way {
                found = self
                    .sentences
                    .take(self.alloc, shortest, automaton.grammar())?;
            } else if let Some((way, _)) = self.way.take() {
                self.sentences.add(shortest, way)?;
            }
            finder
                .steps
                .spend(self.sentences.symbols.saturating_sub(before));
            if found.is_some() {
                return Ok(found);
            }
        }
        Ok(None)
    }

    /// Seeks the next way, where none is there.
    fn seek(&mut self, finder: &mut Finder, automaton: &Automaton) -> Made<()> {
        if self.way.is_some() || self.done {
            return Ok(());
        }
        match finder.next(automaton, &mut self.search)? {
            Found::Way(way) => {
                let length = finder.shortest.length_of(&way);
                self.way = Some((way, length));
            }
            Found::Nothing | Found::Late => self.done = true,
        }
        Ok(())
    }
}
