//! The walk over the steps that are shown.

use crate::record::{Record, Start};
use std::alloc::Global;
use std::io::{self, ErrorKind};
use yexplain::distinct::Distinct;
use yexplain::reads::Made;
use yinput::Parse;
use yinput::expected::{Wanted, expected_within};
use yparse::Session;
use yparse::machine::{Mode, StepFault, StepKind};
use yparse::states::stack_states;
use ysymbols::{Sym, let_go};
use yview::reading::token_ahead;

/// The most steps that a page shows.
pub const MOST_STEPS: usize = 20_000;
/// The most errors of which a page tells the tokens that could come.
const MOST_TOLD: usize = 200;
/// The most reductions that are made to tell them.
const MOST_REDUCTIONS: usize = 10_000_000;

/// The positions that are wanted: from one to another, or to the end.
#[derive(Clone, Copy)]
pub struct Part {
    /// The first position.
    pub from: usize,
    /// The last position; `None` for the end of the parse.
    pub to: Option<usize>,
}

/// Steps that a page shows.
pub struct Trail {
    /// The steps.
    pub record: Record,
    /// The cells that they asked, each a state and a token.
    pub cells: Distinct<(usize, Sym)>,
}

impl Drop for Trail {
    // A call in each owner, which keeps their proofs short.
    fn drop(self) {
        let_go!(self: Trail { record, cells });
    }
}

/// What a walk came to.
#[derive(Drop)]
pub enum Walked {
    /// The steps that are wanted.
    Done(Trail),
    /// There are more steps than a page shows.
    Long,
    /// The parse ends at this position, before the first one that is wanted.
    Short(usize),
}

/// A walk on its way.
#[derive(Drop)]
struct Walk<'a> {
    alloc: Global,
    parse: &'a mut Parse,
    trail: &'a mut Trail,
    /// How many reductions may still be made to tell which tokens could come.
    left: usize,
}

/// A step, where one can be made.
fn step(parse: &mut Parse) -> io::Result<Option<StepKind>> {
    match parse.session.step() {
        Ok(kind) => Ok(Some(kind)),
        Err(StepFault::Memory) => Err(io::Error::from(ErrorKind::OutOfMemory)),
        Err(_) => Ok(None),
    }
}

/// The tokens that can come over the stack of a session, within so many reductions.
fn wanted_in(alloc: Global, session: &Session, left: &mut usize) -> Made<Wanted> {
    let states = stack_states(alloc, session)?;
    expected_within(alloc, session.tables(), &states, left)
}

impl Walk<'_> {
    /// Notes the cell that says what is done next.
    fn note_cell(&mut self) -> Made<()> {
        let session = &self.parse.session;
        let mut number = None;
        if session.view().mode() == Mode::Running {
            let cell = (session.state(), token_ahead(session));
            number = Some(self.trail.cells.add(cell)?.0);
        }
        self.trail.record.cells.push(number)?;
        Ok(())
    }

    /// Notes which tokens could come in place of the one that was refused now, over the stack as
    /// it was before the reductions that this one brought: the parse goes back there for a while.
    fn note_expected(&mut self) -> io::Result<()> {
        if self.trail.record.wanted.len() >= MOST_TOLD {
            return Ok(());
        }
        let (mut steps, position) = (1_usize, self.parse.session.position());
        for back in 2..=position {
            match self.parse.session.kind_at(position.saturating_sub(back)) {
                Some(StepKind::Reduce(_)) => steps = steps.saturating_add(1),
                _ => break,
            }
        }
        for _ in 0..steps {
            let _ = self.parse.session.back();
        }
        let mut left = self.left;
        let found = wanted_in(self.alloc, &self.parse.session, &mut left)?;
        self.left = left;
        for _ in 0..steps {
            step(self.parse)?;
        }
        self.trail.record.want(self.alloc, &found)?;
        Ok(())
    }

    /// Makes a step and notes it, and says whether one could be made.
    fn step(&mut self) -> io::Result<bool> {
        let is_running = self.parse.session.view().mode() == Mode::Running;
        let Some(kind) = step(self.parse)? else {
            return Ok(false);
        };
        let state = self.parse.session.state();
        self.trail.record.note(kind, state)?;
        self.note_cell()?;
        match kind {
            StepKind::Detect => self.note_expected()?,
            // the end, which can't be discarded
            StepKind::Fail if is_running => self.note_expected()?,
            _ => {}
        }
        Ok(true)
    }
}

/// Makes the steps that are wanted from where a parse stands.
fn walk_on(alloc: Global, parse: &mut Parse, most: usize) -> io::Result<Walked> {
    let record = Record {
        start: Start::of(alloc, &parse.session)?,
        kinds: String::new(alloc),
        rules: Vec::new(alloc),
        states: Vec::new(alloc),
        cells: Vec::new(alloc),
        expected: Vec::new(alloc),
        wanted: Vec::new(alloc),
    };
    let mut trail = Trail {
        record,
        cells: Distinct::new(alloc),
    };
    let mut walk = Walk {
        alloc,
        parse,
        trail: &mut trail,
        left: MOST_REDUCTIONS,
    };
    walk.note_cell()?;
    for _ in 0..MOST_STEPS.min(most) {
        if !walk.step()? {
            return Ok(Walked::Done(trail));
        }
    }
    if most > MOST_STEPS && step(walk.parse)?.is_some() {
        Ok(Walked::Long)
    } else {
        Ok(Walked::Done(trail))
    }
}

/// Makes the steps of a part, from the start of a parse on.
pub fn walk_part(alloc: Global, parse: &mut Parse, part: Part) -> io::Result<Walked> {
    for _ in 0..part.from {
        if step(parse)?.is_none() {
            break;
        }
    }
    let position = parse.session.position();
    if position < part.from {
        return Ok(Walked::Short(position));
    }
    let to = part.to.unwrap_or(usize::MAX);
    walk_on(alloc, parse, to.saturating_sub(part.from))
}
