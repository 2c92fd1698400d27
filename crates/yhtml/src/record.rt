//! The steps of a parse as the page has them. Its script makes stacks and trees of them again.

use serde::Serialize;
use std::alloc::Global;
use yexplain::reads::Made;
use yinput::expected::Wanted;
use yparse::Session;
use yparse::machine::{Mode, StepKind};
use ysymbols::{Sym, let_go};
use yview::reading::{stack_state, stack_symbol};

/// Where a parse stands at the first position of the page.
#[derive(Drop, Serialize)]
pub struct Start {
    /// The position.
    pub position: usize,
    /// The word for what the parse is doing.
    pub mode: &'static str,
    /// The symbol of each entry of the stack from the bottom, and the state after it.
    pub stack: Vec<(Sym, usize)>,
    /// The recovery counter, 0 to 3.
    pub counter: usize,
    /// How many errors were reported.
    pub errors: usize,
}

/// The steps that the page shows.
#[derive(Serialize)]
pub struct Record {
    /// Where the parse stands before the first step of the page.
    pub start: Start,
    /// A letter for each step.
    pub kinds: String,
    /// The rule of each reduction.
    pub rules: Vec<usize>,
    /// The state after each reduction and each shift, that of `error` among them.
    pub states: Vec<usize>,
    /// The cell that says what is done next, for each position; `None` where no cell is asked.
    pub cells: Vec<Option<usize>>,
    /// The tokens that could come at errors, and those that take too many reductions to tell.
    pub expected: Vec<(Vec<Sym>, Vec<Sym>)>,
    /// Which of these could come at each of the first errors, and at an end that is given up at.
    pub wanted: Vec<usize>,
}

impl Drop for Record {
    // A call in each owner, which keeps their proofs short.
    fn drop(self) {
        let_go!(self: Record { start, kinds, rules, states, cells, expected, wanted });
    }
}

impl Start {
    /// Where a session stands.
    pub fn of(alloc: Global, session: &Session) -> Made<Start> {
        Ok(Start {
            position: session.position(),
            mode: match session.view().mode() {
                Mode::Running => "running",
                Mode::Popping => "popping",
                Mode::Accepted => "accepted",
                Mode::Failed => "failed",
            },
            stack: (0..session.view().stack_len())
                .map(|index| (stack_symbol(session, index), stack_state(session, index)))
                .collect(alloc)?,
            counter: session.view().counter(),
            errors: session.view().errors(),
        })
    }
}

impl Record {
    /// Notes a step, and the state after it. A page has no edits.
    pub fn note(&mut self, kind: StepKind, state: usize) -> Made<()> {
        let letter = match kind {
            StepKind::Shift(_) => 's',
            StepKind::Reduce(_) => 'r',
            StepKind::Accept => 'a',
            StepKind::Detect => 'e',
            StepKind::Pop(_) => 'p',
            StepKind::ShiftError => 'x',
            StepKind::Discard(_) => 'd',
            StepKind::Fail => 'f',
            StepKind::Insert(_) | StepKind::Drop(_) => 'i',
        };
        self.kinds.push(letter)?;
        if let StepKind::Reduce(rule) = kind {
            self.rules.push(rule)?;
        }
        if let StepKind::Reduce(_) | StepKind::Shift(_) | StepKind::ShiftError = kind {
            self.states.push(state)?;
        }
        Ok(())
    }
    /// Notes the tokens that could come at an error.
    pub fn want(&mut self, alloc: Global, found: &Wanted) -> Made<()> {
        let Wanted { can, unknown } = found;
        let mut place = self.expected.len();
        for (number, (known, untold)) in self.expected.iter().enumerate() {
            if known == can && untold == unknown {
                place = number;
            }
        }
        if place == self.expected.len() {
            let can = Vec::from_slice(alloc, can)?;
            let unknown = Vec::from_slice(alloc, unknown)?;
            self.expected.push((can, unknown))?;
        }
        self.wanted.push(place)?;
        Ok(())
    }
}
