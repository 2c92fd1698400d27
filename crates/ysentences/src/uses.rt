//! Steps, and what they use.

use crate::cells::Cells;
use crate::elements::Kind;
use std::alloc::Global;
use std::io;
use yexplain::reads::{Made, grammar_of, set};
use ylalr::ERROR;
use yparse::Session;
use yparse::machine::StepKind;
use ysearch::trial::Pace;
use ysymbols::let_go;
use ytables::Tables;
use yview::reading::token_ahead;

/// What parses use, in rounds: for each rule, state and filled cell the round in which it was used
/// last, which is 0 for none.
pub struct Uses {
    rules: Vec<usize>,
    states: Vec<usize>,
    cells: Vec<usize>,
    round: usize,
    /// What was used in this round, each element once, in the order of the steps.
    pub used: Vec<(Kind, usize)>,
}

impl Drop for Uses {
    // A call in each owner, which keeps their proofs short.
    fn drop(self) {
        let_go!(self: Uses { rules, states, cells, round, used });
    }
}

/// Notes the round in which an element is used, and says whether it is for the first time in that.
fn is_first(rounds: &mut [usize], number: usize, round: usize) -> bool {
    let last = rounds.get(number).copied().unwrap_or(round);
    set(rounds, number, round);
    last != round
}

impl Uses {
    /// Nothing but the first state, in which each parse begins.
    pub fn new(alloc: Global, tables: &Tables, cells: &Cells) -> Made<Uses> {
        let (rules, states) = (grammar_of(tables).rules(), tables.automaton().states());
        let mut uses = Uses {
            rules: vec![in alloc; 0usize; rules]?,
            states: vec![in alloc; 0usize; states]?,
            cells: vec![in alloc; 0usize; cells.count()]?,
            round: 0,
            used: Vec::new(alloc),
        };
        uses.begin()?;
        Ok(uses)
    }

    /// Begins a round, in which the first state is used.
    pub fn begin(&mut self) -> Made<()> {
        self.round = self.round.saturating_add(1);
        self.used.clear();
        self.note(Kind::States, 0)
    }

    /// Notes that an element of a kind is used.
    fn note(&mut self, kind: Kind, number: usize) -> Made<()> {
        let round = self.round;
        let is_first = match kind {
            Kind::Rules => is_first(&mut self.rules, number, round),
            Kind::States => is_first(&mut self.states, number, round),
            Kind::Cells => is_first(&mut self.cells, number, round),
        };
        if is_first {
            self.used.push((kind, number))?;
        }
        Ok(())
    }

    /// Makes a step, where the parse goes on, and notes what it uses.
    pub fn step(
        &mut self,
        session: &mut Session,
        cells: &Cells,
        pace: &mut Pace,
    ) -> io::Result<Option<StepKind>> {
        let (state, token) = (session.state(), token_ahead(session));
        let Some(kind) = pace.step(session)? else {
            return Ok(None);
        };
        // the filled cell that said what to do
        let cell = match kind {
            StepKind::Shift(_) | StepKind::Reduce(_) | StepKind::Accept => {
                cells.number(state, token)
            }
            StepKind::ShiftError => cells.number(state, ERROR),
            _ => None,
        };
        if let StepKind::Reduce(rule) = kind {
            self.note(Kind::Rules, rule)?;
        }
        if let Some(cell) = cell {
            self.note(Kind::Cells, cell)?;
        }
        self.note(Kind::States, session.state())?;
        Ok(Some(kind))
    }

    /// For each element of a kind the round in which it was used last. That of rule 0, which is
    /// never reduced, stands with them.
    pub fn rounds(&self, kind: Kind) -> &[usize] {
        match kind {
            Kind::Rules => self.rules.as_slice(),
            Kind::States => self.states.as_slice(),
            Kind::Cells => self.cells.as_slice(),
        }
    }
}
