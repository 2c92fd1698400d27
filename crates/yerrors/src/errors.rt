//! The errors of all states.

use crate::confirm::{Confirmed, confirm, reductions};
pub use crate::rows::MOST_STEPS;
use crate::rows::Part;
use crate::search::{Search, can_stand};
use crate::ways::Ways;
use std::alloc::{AllocError, Global};
use std::io;
use yexplain::reads::{Made, action_of, default_of, grammar_of, set};
use ylalr::token_count;
use yparse::Session;
use ysymbols::{Sym, let_go};
use ytables::{Action, Tables};

/// The most parts that are opened for one list.
const MOST_PARTS: usize = 1_000_000;

/// The most tokens of a list that is written out.
const MOST_TOKENS: u64 = 1_000;

/// Why there is no list for a state.
#[derive(Clone, Copy, Drop, PartialEq, Eq)]
pub enum Reason {
    /// It reduces by one rule whatever comes.
    Reduces,
    /// It has an action at each token.
    TakesAll,
    /// No parse comes to it before an error.
    After,
    /// Whatever can be ahead there has an action: other tokens are detected before it.
    Before,
    /// A shortest list is too long to be written out.
    Long,
    /// The search was given up before.
    Late,
}

/// What is found for a state.
#[derive(Drop)]
pub enum Outcome {
    /// A shortest list of tokens whose last one is detected in it.
    List(Confirmed),
    /// There is none, or none is found.
    Without(Reason),
}

impl Outcome {
    /// The list, where there is one.
    pub fn list(&self) -> Option<&Confirmed> {
        match self {
            Outcome::List(confirmed) => Some(confirmed),
            Outcome::Without(_) => None,
        }
    }

    /// Why there is none, where that is so.
    pub fn reason(&self) -> Option<Reason> {
        match self {
            Outcome::List(_) => None,
            Outcome::Without(reason) => Some(*reason),
        }
    }
}

/// What is found for each state.
pub struct Errors {
    /// By state.
    pub outcomes: Vec<Outcome>,
}

impl Drop for Errors {
    // A call in each owner, which keeps their proofs short.
    fn drop(self) {
        let_go!(self: Errors { outcomes });
    }
}

/// What a search has for a state, before a session has seen it.
#[derive(Drop)]
enum Sought {
    /// The tokens before the last one, and that.
    List(Vec<Sym>, Sym),
    Without(Reason),
}

impl Part {
    /// The part, with the token that is ahead after it.
    fn with(self, token: Sym) -> Part {
        match self {
            Part::Last(row) => Part::Row(row, token),
            _ => self,
        }
    }
}

impl Search<'_> {
    /// A shortest list of tokens after which a state has a token ahead; none where the search has
    /// none, or writing it out takes too many parts.
    pub fn list(&self, alloc: Global, state: usize, token: Sym) -> Made<Option<Vec<Sym>>> {
        let Some(row) = self.row(state) else {
            return Ok(None);
        };
        // the parts that are still to come, the last one first
        let (mut tokens, mut parts) = (Vec::new(alloc), Vec::new(alloc));
        parts.push(Part::Row(row, token))?;
        for _ in 0..MOST_PARTS {
            match parts.pop() {
                None => return Ok(Some(tokens)),
                Some(Part::Nothing) => {}
                Some(Part::Token(token)) => tokens.push(token)?,
                Some(Part::Row(row, token)) => {
                    let Some(taken) = self.rows.taken(row, token) else {
                        break;
                    };
                    parts.push(taken.second.with(token))?;
                    parts.push(taken.first.with(token))?;
                }
                Some(Part::Last(_)) => break,
            }
        }
        Ok(None)
    }
}

/// Why a search has nothing for a state.
fn reason_of(search: &Search<'_>, absent: &[bool], state: usize, is_done: bool) -> Reason {
    let (tables, mut has_error) = (search.ways.tables, false);
    for token in 0..token_count(grammar_of(tables)) {
        let is_error = action_of(tables, state, token) == Action::Error;
        has_error = has_error || (is_error && can_stand(absent, token));
    }
    if default_of(tables, state).is_some() {
        Reason::Reduces
    } else if !has_error {
        Reason::TakesAll
    } else if !is_done {
        Reason::Late
    } else if search.row(state).is_some() {
        Reason::Before
    } else {
        Reason::After
    }
}

/// What a search has for each state, the last one first, by inputs without the tokens that are
/// marked. Each list ends in a token that ends few of the others.
fn seek(alloc: Global, tables: &Tables, absent: &[bool]) -> Made<Vec<Sought>> {
    let mut search = Search::new(alloc, Ways::new(alloc, tables)?, absent)?;
    let is_done = search.run()?;
    let mut uses = vec![in alloc; 0usize; token_count(grammar_of(tables))]?;
    let mut found = Vec::new(alloc);
    for state in 0..tables.automaton().states() {
        let sought = match search.detected(state) {
            None => Sought::Without(reason_of(&search, absent, state, is_done)),
            Some(detected) if detected.cost > MOST_TOKENS => Sought::Without(Reason::Long),
            Some(detected) => {
                let last = search.least_used(detected.at, &uses);
                match search.list(alloc, state, last)? {
                    Some(tokens) => {
                        let count = uses.get(last).copied().unwrap_or(0);
                        set(&mut uses, last, count.saturating_add(1));
                        Sought::List(tokens, last)
                    }
                    None => Sought::Without(Reason::Long),
                }
            }
        };
        found.push(sought)?;
    }
    found.reverse();
    Ok(found)
}

impl Errors {
    /// The errors of all states of a session's tables, by inputs without the tokens that are
    /// marked. The session is at its start, without tokens, and is left there.
    pub fn new(alloc: Global, session: &mut Session, absent: &[bool]) -> io::Result<Errors> {
        let (mut outcomes, mut left) = (Vec::new(alloc), reductions());
        let mut found = seek(alloc, session.tables(), absent)?;
        for state in 0..found.len() {
            let outcome = match found.pop() {
                None => break,
                Some(Sought::Without(reason)) => Outcome::Without(reason),
                Some(Sought::List(tokens, last)) => {
                    match confirm(alloc, session, (tokens, last), state, &mut left)? {
                        Some(confirmed) => Outcome::List(confirmed),
                        // one that the session doesn't confirm counts as not found
                        None => Outcome::Without(Reason::Late),
                    }
                }
            };
            outcomes.push(outcome).map_err(AllocError::from)?;
        }
        Ok(Errors { outcomes })
    }

    /// How many states have a list.
    pub fn count(&self) -> usize {
        let mut count: usize = 0;
        for outcome in &self.outcomes {
            count = count.saturating_add(usize::from(outcome.list().is_some()));
        }
        count
    }
}
