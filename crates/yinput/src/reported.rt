//! All errors that a parse over an input reports, by the recovery that the grammar has, one after
//! another: each is lent the stack, which is given back before the next one is sought.

use crate::expected::expected;
use crate::language::{Input, Language};
use crate::parse::session_of;
use crate::spelled::{Spelled, Spoken};
use crate::verdict::Rejection;
use std::alloc::{AllocError, Global};
use std::io::{self, ErrorKind};
use std::mem;
use yexplain::lines::Lines;
use yexplain::reads::{Made, grammar_of};
use yfaults::opening::Opened;
use ylalr::END;
use ylex::lexer::Lexer;
use yparse::machine::{StepFault, StepKind};
use yparse::{Session, Tokens};
use ysymbols::{Sym, let_go};

/// The most steps of a parse, which are as many as may stand.
pub const MOST_STEPS: usize = 1_000_000;

/// A parse over an input of a language, from one error that it reports to the next.
pub struct Reporting {
    session: Session,
    lines: Lines,
    spelled: Spelled,
    lexer: Option<Lexer>,
    /// How many tokens were shifted or discarded.
    passed: usize,
    /// The states of the stack, the first one of all at the bottom.
    states: Vec<usize>,
    /// How many tokens were before the entry of each.
    starts: Vec<usize>,
    /// How many steps were made since the last one that took something of the input, or `error`.
    since: usize,
}

impl Drop for Reporting {
    // A call in each owner, which keeps their proofs short.
    fn drop(self) {
        let_go!(self: Reporting {
            session, lines, spelled, lexer, passed, states, starts, since
        });
    }
}

/// Follows a step or an undo of a session with the states of its stack: all entries but the last one
/// of the shorter stack stay.
fn follow(session: &Session, states: &mut Vec<usize>) -> Made<()> {
    let length = session.view().stack_len();
    let kept = length.min(states.len().saturating_sub(1)).saturating_sub(1);
    states.truncate(kept.saturating_add(1));
    for index in kept..length {
        states.push(session.state_at(index))?;
    }
    Ok(())
}

impl Reporting {
    /// A parse over an input of a language, at its start.
    pub fn new(alloc: Global, language: Language, input: &Input) -> io::Result<Reporting> {
        let Language {
            opened,
            spelled,
            lexer,
        } = language;
        let Opened { tables, lines } = opened;
        let symbols = Vec::from_slice(alloc, &input.tokens.symbols)?;
        let Some(session) = session_of(alloc, tables, Tokens { symbols }) else {
            // can't be, since each token is one of the tables
            return Err(io::Error::from(ErrorKind::Other));
        };
        let (states, starts) = (vec![in alloc; 0]?, vec![in alloc; 0]?);
        Ok(Reporting {
            session,
            lines,
            spelled,
            lexer,
            passed: 0,
            states,
            starts,
            since: 0,
        })
    }

    /// Makes the next step, and says which; `None` where there is none.
    fn step(&mut self) -> io::Result<Option<StepKind>> {
        let kind = match self.session.step() {
            Ok(kind) => kind,
            Err(StepFault::Memory) => return Err(io::Error::from(ErrorKind::OutOfMemory)),
            Err(_) => return Ok(None),
        };
        let before = self.passed;
        match kind {
            StepKind::Shift(_) | StepKind::Discard(_) => {
                self.passed = before.saturating_add(1);
                self.since = 0;
            }
            StepKind::ShiftError => self.since = 0,
            _ => self.since = self.since.saturating_add(1),
        }
        follow(&self.session, &mut self.states)?;
        let states = self.states.len();
        self.starts.truncate(states);
        if self.starts.len() < states {
            self.starts.push(before).map_err(AllocError::from)?;
        }
        Ok(Some(kind))
    }

    /// The error that the last step detected, at this token ahead, with the stack. Which tokens can
    /// come is asked where the token before it was taken, before any reduction.
    fn rejection(&mut self, alloc: Global, token: Sym) -> Made<Rejection> {
        let steps = self.since;
        for _ in 0..steps {
            let _ = self.session.back();
            follow(&self.session, &mut self.states)?;
        }
        let wanted = expected(alloc, self.session.tables(), &self.states)?;
        for _ in 0..steps {
            let _ = self.session.step();
            follow(&self.session, &mut self.states)?;
        }
        Ok(Rejection {
            number: self.passed.saturating_add(1),
            token,
            wanted,
            state: self.states.last().copied().unwrap_or(0),
            states: mem::replace(&mut self.states, Vec::new(alloc)),
            starts: mem::replace(&mut self.starts, Vec::new(alloc)),
        })
    }

    /// Takes the stack back from the last error, without which the parse doesn't go on.
    pub fn take_back(&mut self, rejection: Rejection) {
        let Rejection { states, starts, .. } = rejection;
        self.states = states;
        self.starts = starts;
    }

    /// The next error that is reported, where there is one more and the stack was taken back from the
    /// last one. A parse that has no recovery reports one.
    pub fn next(&mut self, alloc: Global, input: &Input) -> io::Result<Option<Rejection>> {
        let has_stack = !self.states.is_empty();
        let most = if has_stack { MOST_STEPS } else { 0 };
        for _ in 0..most {
            let reported = self.session.view().errors();
            let Some(kind) = self.step()? else {
                break;
            };
            if kind == StepKind::Detect && self.session.view().errors() > reported {
                let token = input.tokens.symbols.get(self.passed).copied();
                return Ok(Some(self.rejection(alloc, token.unwrap_or(END))?));
            }
        }
        Ok(None)
    }

    /// The symbols of the grammar as people write them.
    pub fn spoken(&self) -> Spoken<'_> {
        Spoken {
            grammar: grammar_of(self.session.tables()),
            spelled: Some(&self.spelled),
        }
    }

    /// The language, once the parse is done with.
    pub fn into_language(self) -> Language {
        let Reporting {
            session,
            lines,
            spelled,
            lexer,
            passed: _,
            states: _,
            starts: _,
            since: _,
        } = self;
        let tables = session.into_tables();
        Language {
            opened: Opened { tables, lines },
            spelled,
            lexer,
        }
    }
}
