//! All sentences of a few tokens, found by going on over every token from the empty stack on.

use std::alloc::Global;
use yexplain::reads::Made;
use ylalr::{END, ERROR, token_count};
use yparse::states::act;
use ysymbols::Sym;
use ytables::{Action, Tables};

/// The most sentences, their most tokens, and how often a token is gone on over in all.
const MOST_SENTENCES: usize = 400;

const MOST_TOKENS: usize = 40;

const MOST_TRIALS: usize = 60_000;

/// The most reductions before a token, and all of them together.
const MOST_REDUCTIONS: usize = 1_000;

const ALL_REDUCTIONS: usize = 1_000_000;

/// All sentences of up to so many tokens.
#[derive(Drop)]
pub struct Short {
    /// The sentences, the shortest first.
    pub sentences: Vec<Vec<Sym>>,
    /// How many tokens the longest may have.
    pub most: usize,
}

/// Tokens that a sentence may begin with, and the states of the stack after them.
#[derive(Drop)]
struct Prefix {
    tokens: Vec<Sym>,
    states: Vec<usize>,
}

/// What tables do on a token: an action that takes it, or an error, also where too many reductions
/// come first; and how many came.
fn taken(tables: &Tables, states: &mut Vec<usize>, token: Sym) -> Made<(Action, usize)> {
    for count in 0..MOST_REDUCTIONS {
        match act(tables, states, token)? {
            Action::Reduce(_) => {}
            action => return Ok((action, count)),
        }
    }
    Ok((Action::Error, MOST_REDUCTIONS))
}

/// What sentences are sought with: those of which all of a length are found first.
#[derive(Drop)]
struct Search {
    /// What sentences may begin with, the shortest first.
    prefixes: Vec<Prefix>,
    sentences: Vec<Vec<Sym>>,
    trials: usize,
    reductions: usize,
}

impl Search {
    /// Goes on over each token from what stands at a place; false where there is none.
    fn go_on(&mut self, alloc: Global, tables: &Tables, place: usize) -> Made<bool> {
        let Some(prefix) = self.prefixes.get(place) else {
            return Ok(false);
        };
        let mut longer = Vec::new(alloc);
        for token in END..token_count(tables.automaton().grammar()) {
            let mut states = Vec::from_slice(alloc, &prefix.states)?;
            let mut tokens = Vec::from_slice(alloc, &prefix.tokens)?;
            let (action, count) = taken(tables, &mut states, token)?;
            self.reductions = self.reductions.saturating_add(count);
            match action {
                Action::Shift(_) if token != ERROR => {
                    tokens.push(token)?;
                    longer.push(Prefix { tokens, states })?;
                }
                Action::Accept => self.sentences.push(tokens)?,
                _ => {}
            }
            self.trials = self.trials.saturating_add(1);
        }
        for _ in 0..longer.len() {
            let Some(prefix) = longer.pop() else {
                break;
            };
            self.prefixes.push(prefix)?;
        }
        Ok(true)
    }
}

/// All sentences of up to so many tokens that the tables accept, as far as there are few.
pub fn short_sentences(alloc: Global, tables: &Tables) -> Made<Short> {
    let mut search = Search {
        prefixes: Vec::new(alloc),
        sentences: Vec::new(alloc),
        trials: 0,
        reductions: 0,
    };
    search.prefixes.push(Prefix {
        tokens: Vec::new(alloc),
        states: Vec::from_slice(alloc, &[0])?,
    })?;
    let (mut most, mut whole) = (0, 0);
    for place in 0..MOST_TRIALS {
        let length = search.prefixes.get(place).map_or(0, |it| it.tokens.len());
        let is_late = search.trials > MOST_TRIALS || search.reductions > ALL_REDUCTIONS;
        if search.sentences.len() > MOST_SENTENCES || is_late {
            break;
        }
        if length > most {
            // all shorter ones were gone on from
            (most, whole) = (length, search.sentences.len());
        }
        if length > MOST_TOKENS {
            break;
        }
        if !search.go_on(alloc, tables, place)? {
            // there are no others
            (most, whole) = (most.saturating_add(1), search.sentences.len());
            break;
        }
    }
    let Search { sentences, .. } = search;
    let mut sentences = sentences;
    sentences.truncate(whole);
    Ok(Short {
        sentences,
        most: most.saturating_sub(1),
    })
}
