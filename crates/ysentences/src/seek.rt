//! Sentences that come to a state with a token ahead.

use crate::trial::Trier;
use std::alloc::{AllocError, Global};
use std::io;
use yexplain::reads::{Made, action_of, goto_of};
use ylalr::END;
use ysearch::completion::{End, Ties, end_over, rest_of};
use ysearch::others::Others;
use ysearch::search::{Finder, Found, Target};
use ysymbols::Sym;
use ytables::{Action, Tables};

/// The most tokens of a sentence.
pub const MOST_TOKENS: u64 = 5_000;

/// The most forms that are looked at for further lists.
const MOST_FORMS: usize = 2_000;

/// What a sentence is to come to: a state, with a token ahead where that matters.
#[derive(Clone, Copy, Drop)]
pub struct Goal {
    /// The state.
    pub state: usize,
    /// The token.
    pub token: Option<Sym>,
}

/// A sentence that was found, or why there is none.
#[derive(Drop)]
pub enum Sought {
    /// A sentence of the grammar, unless what the tables choose leads elsewhere.
    Sentence(Vec<Sym>),
    /// The parse over the tokens that were found goes another way.
    Astray,
    /// The shortest one has `error`, or too many tokens.
    Long,
    /// The search took too long.
    Late,
}

/// What seeks sentences.
#[derive(Drop)]
pub struct Seeker {
    /// What allocates.
    pub alloc: Global,
    /// What searches for the ways to a state.
    pub finder: Finder,
}

impl Goal {
    /// What is done there: nothing where no token matters.
    pub fn action(self, tables: &Tables) -> Action {
        match self.token {
            Some(token) => action_of(tables, self.state, token),
            None => Action::Error,
        }
    }

    /// The cell to which a way is sought: its rule has to be possible, where it reduces.
    fn target(self, tables: &Tables) -> Target {
        let first = match self.action(tables) {
            Action::Reduce(rule) => Some(rule),
            _ => None,
        };
        Target {
            state: self.state,
            token: self.token.unwrap_or(END),
            first,
            second: None,
        }
    }
}

impl Seeker {
    /// The shortest sentence of a form.
    pub fn sentence(&self, tables: &Tables, form: &[Sym]) -> Made<Sought> {
        let (shortest, grammar) = (&self.finder.shortest, tables.automaton().grammar());
        if shortest.length_of(form) > MOST_TOKENS {
            return Ok(Sought::Long);
        }
        match shortest.sentence(self.alloc, grammar, form)? {
            Some(tokens) => Ok(Sought::Sentence(tokens)),
            None => Ok(Sought::Long),
        }
    }

    /// The sentence with what stands on a stack, by the form that leads to its states.
    fn completed(&mut self, tables: &Tables, form: Vec<Sym>, states: &[usize]) -> Made<Sought> {
        let (mut form, automaton) = (form, tables.automaton());
        let (alloc, shortest) = (self.alloc, &self.finder.shortest);
        let end = end_over(alloc, shortest, automaton, states, Ties::Last, u64::MAX)?;
        let End { items, looked } = end;
        self.finder.steps.spend(looked);
        let Some(items) = items else {
            return Ok(Sought::Late);
        };
        for item in &items {
            form.extend_from_slice(rest_of(automaton.grammar(), *item))?;
        }
        // the end of the input
        form.pop();
        self.sentence(tables, &form)
    }

    /// A shortest sentence that comes to a goal.
    pub fn shortest(&mut self, trier: &mut Trier<'_>, goal: Goal) -> io::Result<Sought> {
        let tables = trier.session.tables();
        let (automaton, target) = (tables.automaton(), goal.target(tables));
        let Found::Way(way) = self.finder.find(automaton, target)? else {
            return Ok(Sought::Late);
        };
        let mut way = way;
        match (goal.action(tables), goal.token) {
            (Action::Reduce(_), Some(token)) => {
                return match self.sentence(tables, &way)? {
                    Sought::Sentence(tokens) => self.after(trier, tokens, Some(token)),
                    sought => Ok(sought),
                };
            }
            (Action::Shift(_), Some(token)) => way.push(token).map_err(AllocError::from)?,
            _ => {}
        }
        // the states over the symbols of the way, the first state of all at the bottom
        let (mut states, mut state) = (Vec::new(self.alloc), 0);
        states.push(state).map_err(AllocError::from)?;
        for symbol in &way {
            state = goto_of(automaton, state, *symbol).unwrap_or(0);
            states.push(state).map_err(AllocError::from)?;
        }
        Ok(self.completed(tables, way, &states)?)
    }

    /// The sentence that begins with a list and a token, by the stack of a parse over both.
    fn after(
        &mut self,
        trier: &mut Trier<'_>,
        tokens: Vec<Sym>,
        token: Option<Sym>,
    ) -> io::Result<Sought> {
        let mut tokens = tokens;
        if token == Some(END) {
            return Ok(Sought::Sentence(tokens));
        }
        if let Some(token) = token {
            tokens.push(token).map_err(AllocError::from)?;
        }
        let found = trier.stack_after(&tokens)?;
        self.finder.steps.spend(trier.steps);
        match found {
            Some(states) => {
                let tables = trier.session.tables();
                Ok(self.completed(tables, tokens, &states)?)
            }
            None => Ok(Sought::Astray),
        }
    }

    /// Further lists for a goal.
    pub fn others(&mut self, trier: &Trier<'_>, goal: Goal) -> Made<Others> {
        let tables = trier.session.tables();
        let target = goal.target(tables);
        let (alloc, automaton) = (self.alloc, tables.automaton());
        Others::new(alloc, &mut self.finder, automaton, target, MOST_FORMS)
    }

    /// The sentence that begins with the next of these lists; `None` where there is no other.
    pub fn next(
        &mut self,
        trier: &mut Trier<'_>,
        others: &mut Others,
        goal: Goal,
    ) -> io::Result<Option<Sought>> {
        let automaton = trier.session.tables().automaton();
        match others.next(&mut self.finder, automaton)? {
            Some(tokens) => self.after(trier, tokens, goal.token).map(Some),
            None => Ok(None),
        }
    }
}
