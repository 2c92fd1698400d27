//! Lists of tokens that are tried in a session: each is put before what is upcoming, the parse goes
//! on over it, and then all the way back; and whether one gets a parse to a cell.

use std::alloc::Global;
use std::io::{self, ErrorKind};
use ylalr::{END, ERROR};
use ymachine::machine::{Mode, StepFault, StepKind};
use yparse::{Session, Tokens};
use ysymbols::Sym;
use ytables::Tables;

/// The most steps without a shift in a row of a parse to a cell.
const MOST_IN_A_ROW: usize = 10_000;

/// How many steps a parse over a list has made, and how many it may make.
#[derive(Clone, Copy, Drop)]
pub struct Pace {
    /// How many were made.
    pub steps: usize,
    most: usize,
    /// How many of them without a shift in a row.
    row: usize,
    most_in_a_row: usize,
}

impl Pace {
    /// No step was made, and so many may be, without a shift so many in a row.
    pub fn new(most: usize, most_in_a_row: usize) -> Pace {
        Pace {
            steps: 0,
            most,
            row: 0,
            most_in_a_row,
        }
    }

    /// Whether no further step may be made.
    pub fn is_spent(&self) -> bool {
        self.steps >= self.most || self.row >= self.most_in_a_row
    }

    /// Makes a step, and says which; `None` where the parse can't go on, or may not.
    pub fn step(&mut self, session: &mut Session) -> io::Result<Option<StepKind>> {
        if self.is_spent() {
            return Ok(None);
        }
        let kind = match session.step() {
            Ok(kind) => kind,
            Err(StepFault::Memory) => return Err(io::Error::from(ErrorKind::OutOfMemory)),
            Err(_) => return Ok(None),
        };
        self.steps = self.steps.saturating_add(1);
        self.row = match kind {
            StepKind::Shift(_) => 0,
            _ => self.row.saturating_add(1),
        };
        Ok(Some(kind))
    }
}

/// A session without tokens.
pub fn empty_session(alloc: Global, tables: Tables) -> Session {
    let tokens = Tokens {
        symbols: Vec::new(alloc),
    };
    Session::new(alloc, tables, tokens)
}

/// Puts tokens before the upcoming ones, and says whether an input can have them.
pub fn put_all(session: &mut Session, tokens: &[Sym]) -> io::Result<bool> {
    for token in tokens.iter().rev() {
        if *token == ERROR {
            return Ok(false);
        }
        let Some(token) = session.token(session.name(*token)) else {
            return Ok(false);
        };
        match session.insert(token) {
            Ok(_) => {}
            Err(StepFault::Memory) => return Err(io::Error::from(ErrorKind::OutOfMemory)),
            Err(_) => return Err(io::Error::from(ErrorKind::Other)),
        }
    }
    Ok(true)
}

/// Puts tokens and a last one before the upcoming ones, and says whether an input can have them.
/// Where the last one is the end, it is left out.
pub fn put_with_last(session: &mut Session, tokens: &[Sym], last: Sym) -> io::Result<bool> {
    let one = [last];
    let after: &[Sym] = if last == END { &[] } else { &one };
    if !put_all(session, after)? {
        return Ok(false);
    }
    put_all(session, tokens)
}

/// All the way back.
pub fn go_back(session: &mut Session) {
    for _ in 0..session.position() {
        let _ = session.back();
    }
}

/// What a parse over a list of tokens comes to.
#[derive(Clone, Copy, Drop)]
pub enum Trial {
    /// After so many steps the state is reached with the token ahead.
    Reached(usize),
    /// After so many steps the state is reached with the token ahead, but after an error.
    Recovered(usize),
    /// The parse goes another way.
    Missed,
    /// The parse was given up after so many steps.
    Late(usize),
    /// The list has `error`, which no list of tokens has.
    HasError,
}

/// The cell that a parse is to come to, and how many steps it may take.
#[derive(Clone, Copy, Drop)]
pub struct Goal {
    /// The state.
    pub state: usize,
    /// The token that has to be ahead there.
    pub token: Sym,
    /// The most steps that the parse may take.
    pub most: usize,
}

impl Goal {
    /// What the parse has come to after so many steps, after an error or none; `None` where it may
    /// go on.
    fn reached(self, session: &Session, steps: usize, had_error: bool) -> Option<Trial> {
        let rest = session.view().rest_len();
        // how many tokens are upcoming there
        let left = if self.token == END { 0 } else { 1 };
        match session.view().mode() {
            _ if rest < left => Some(Trial::Missed),
            Mode::Running if rest > left || session.state() != self.state => None,
            Mode::Running if had_error => Some(Trial::Recovered(steps)),
            Mode::Running => Some(Trial::Reached(steps)),
            Mode::Popping => None,
            Mode::Accepted | Mode::Failed => Some(Trial::Missed),
        }
    }
}

/// Tries a list of tokens with the goal's token after it, in a session at its start, which is
/// left there unless memory runs out. Gives what the parse comes to and how many steps and edits
/// that took.
pub fn try_list(session: &mut Session, tokens: &[Sym], goal: Goal) -> io::Result<(Trial, usize)> {
    let (mut pace, mut had_error) = (Pace::new(goal.most, MOST_IN_A_ROW), false);
    let mut trial = Trial::HasError;
    if put_with_last(session, tokens, goal.token)? {
        trial = Trial::Late(goal.most);
        for steps in 0..goal.most {
            if let Some(reached) = goal.reached(session, steps, had_error) {
                trial = reached;
                break;
            }
            let Some(kind) = pace.step(session)? else {
                trial = if pace.is_spent() {
                    Trial::Late(steps)
                } else {
                    Trial::Missed
                };
                break;
            };
            had_error = had_error || kind == StepKind::Detect;
        }
    }
    let steps = session.position();
    go_back(session);
    Ok((trial, steps))
}
