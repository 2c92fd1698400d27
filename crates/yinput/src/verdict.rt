//! The verdict on an input.

use crate::course::Course;
use crate::expected::{Wanted, expected};
use std::alloc::Global;
use std::io::{self, ErrorKind};
use yexplain::reads::Made;
use ylalr::END;
use yparse::{Tokens, Verdict as Judged, judge};
use ysymbols::Sym;
use ytables::Tables;

/// What comes of an input.
#[derive(Drop)]
pub enum Verdict {
    /// It is accepted after so many steps.
    Accepted(usize),
    /// It is rejected at a token.
    Rejected(Rejection),
    /// Neither came within as many steps as are made.
    Undecided,
}

/// The first token that can't come.
#[derive(Drop)]
pub struct Rejection {
    /// Which token of the input it is, counted from 1.
    pub number: usize,
    /// The token; the end for the number after the last one.
    pub token: Sym,
    /// The tokens that can come in its place.
    pub wanted: Wanted,
    /// The state in which it is detected.
    pub state: usize,
    /// The states of the stack at which it is, this one on top.
    pub states: Vec<usize>,
    /// How many tokens were shifted before each entry of the stack at which it is detected, the
    /// first state of all counting as one at the bottom.
    pub starts: Vec<usize>,
}

impl Rejection {
    /// How many tokens stand before it.
    pub fn before(&self) -> usize {
        self.number.saturating_sub(1)
    }

    /// That of the token of a number, of these tokens.
    fn new(alloc: Global, tables: &Tables, tokens: &[Sym], number: usize) -> Made<Rejection> {
        let taken = number.saturating_sub(1);
        let before = tokens.get(..taken).unwrap_or(tokens);
        let token = tokens.get(taken).copied().unwrap_or(END);
        let mut course = Course::new(alloc, tables)?;
        course.shift_all(before)?;
        let wanted = expected(alloc, tables, &course.states)?;
        course.detect(token)?;
        let state = course.states.last().copied().unwrap_or(0);
        let Course { starts, states, .. } = course;
        Ok(Rejection {
            number,
            token,
            wanted,
            state,
            states,
            starts,
        })
    }
}

impl Verdict {
    /// The exit status of a run over one input: 0 where it is accepted, 1 where it is rejected, 4
    /// where neither came within as many steps as are made.
    pub fn status(&self) -> u8 {
        match self {
            Verdict::Accepted(_) => 0,
            Verdict::Rejected(_) => 1,
            Verdict::Undecided => 4,
        }
    }
}

/// The verdict on the tokens of an input of a language with these tables.
pub fn verdict_on(alloc: Global, tables: &Tables, tokens: &Tokens) -> io::Result<Verdict> {
    if !tokens.fits(tables) {
        return Err(io::Error::from(ErrorKind::Other));
    }
    match judge(alloc, tables, tokens) {
        Ok(Judged::Accepted(steps)) => Ok(Verdict::Accepted(steps)),
        Ok(Judged::Rejected(number)) => {
            let rejection = Rejection::new(alloc, tables, &tokens.symbols, number)?;
            Ok(Verdict::Rejected(rejection))
        }
        Ok(Judged::Limit) => Ok(Verdict::Undecided),
        Err(_) => Err(io::Error::from(ErrorKind::OutOfMemory)),
    }
}
