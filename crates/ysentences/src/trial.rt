//! Lists of tokens in a session: whether each is accepted, what its steps use, and the stack after
//! its last token.

use crate::cells::Cells;
use crate::uses::Uses;
use std::alloc::Global;
use std::io;
use yexplain::reads::{Made, grammar_of};
use yparse::Session;
use yparse::machine::StepKind;
use yparse::states::stack_states;
use ysearch::trial::{Pace, go_back, put_all};
use ysymbols::{Sym, let_go};

/// The most steps of a parse over a list.
const MOST_STEPS: usize = 100_000;

/// The most of them without a shift in a row: so many for each token, one for each rule, and these.
const MOST_FOR_A_TOKEN: usize = 20;

const MOST_IN_A_ROW: usize = 1_000;

/// What tries lists in a session without tokens.
pub struct Trier<'a> {
    alloc: Global,
    /// The session, at its start.
    pub session: &'a mut Session,
    /// The filled cells of its tables.
    pub cells: Cells,
    /// What the last list used.
    pub uses: Uses,
    /// How many steps the last list took.
    pub steps: usize,
}

impl Drop for Trier<'_> {
    // A call in each owner, which keeps their proofs short.
    fn drop(self) {
        let_go!(self: Trier { alloc, session, cells, uses, steps });
    }
}

impl<'a> Trier<'a> {
    /// What tries lists.
    pub fn new(alloc: Global, session: &'a mut Session) -> Made<Trier<'a>> {
        let cells = Cells::new(alloc, session.tables())?;
        Ok(Trier {
            alloc,
            uses: Uses::new(alloc, session.tables(), &cells)?,
            session,
            cells,
            steps: 0,
        })
    }

    /// How far a parse over so many tokens may go.
    fn pace(&self, tokens: usize) -> Pace {
        let rules = grammar_of(self.session.tables()).rules();
        let most = tokens.saturating_mul(MOST_FOR_A_TOKEN);
        let most = most.saturating_add(rules).saturating_add(MOST_IN_A_ROW);
        Pace::new(MOST_STEPS, most)
    }

    /// Whether a list is accepted; what it uses is noted. The session is left at its start, unless
    /// memory runs out.
    pub fn accepts(&mut self, tokens: &[Sym]) -> io::Result<bool> {
        let (mut pace, mut is_accepted) = (self.pace(tokens.len()), false);
        self.uses.begin()?;
        if put_all(self.session, tokens)? {
            for _ in 0..MOST_STEPS {
                match self.uses.step(self.session, &self.cells, &mut pace)? {
                    Some(StepKind::Accept) => is_accepted = true,
                    Some(StepKind::Detect) | None => break,
                    Some(_) => {}
                }
            }
        }
        self.steps = pace.steps;
        go_back(self.session);
        Ok(is_accepted)
    }

    /// The states of the stack once a list is shifted, before anything is reduced after its last
    /// token; `None` where the parse doesn't get there without an error. The session is left at
    /// its start, unless memory runs out.
    pub fn stack_after(&mut self, tokens: &[Sym]) -> io::Result<Option<Vec<usize>>> {
        let (mut pace, mut found) = (self.pace(tokens.len()), None);
        if put_all(self.session, tokens)? {
            for _ in 0..MOST_STEPS {
                if self.session.view().rest_len() == 0 {
                    found = Some(stack_states(self.alloc, self.session)?);
                    break;
                }
                match pace.step(self.session)? {
                    Some(StepKind::Detect) | None => break,
                    Some(_) => {}
                }
            }
        }
        self.steps = pace.steps;
        go_back(self.session);
        Ok(found)
    }
}
