//! A parse over tokens that keeps the states of its stack, and where its entries begin.

use std::alloc::Global;
use yexplain::reads::Made;
use yparse::states::act;
use ysymbols::Sym;
use ytables::{Action, Tables};

/// The most steps of a parse, which are those of a verdict.
const MOST_STEPS: usize = 1_000_000;

/// A parse: the states of its stack, the first state of all at the bottom, and for each how many
/// tokens were shifted before its entry; and how many were shifted.
#[derive(Drop)]
pub struct Course<'a> {
    tables: &'a Tables,
    /// The states.
    pub states: Vec<usize>,
    /// How many tokens were shifted before the entry of each.
    pub starts: Vec<usize>,
    shifted: usize,
}

impl Course<'_> {
    /// A parse with the first state alone on its stack.
    pub fn new(alloc: Global, tables: &Tables) -> Made<Course<'_>> {
        Ok(Course {
            tables,
            states: vec![in alloc; 0]?,
            starts: vec![in alloc; 0]?,
            shifted: 0,
        })
    }

    /// Makes the step with a token ahead, and says whether the parse goes on. The entry of a left
    /// side begins where the first of its body did, or else before the token ahead.
    fn step(&mut self, token: Sym) -> Made<bool> {
        let start = match act(self.tables, &mut self.states, token)? {
            Action::Accept | Action::Error => return Ok(false),
            Action::Shift(_) => {
                let start = self.shifted;
                self.shifted = start.saturating_add(1);
                start
            }
            Action::Reduce(_) => {
                let place = self.states.len().saturating_sub(1);
                let start = self.starts.get(place).copied();
                self.starts.truncate(place);
                start.unwrap_or(self.shifted)
            }
        };
        self.starts.push(start)?;
        Ok(true)
    }

    /// Shifts tokens, as far as they can be.
    pub fn shift_all(&mut self, tokens: &[Sym]) -> Made<()> {
        for _ in 0..MOST_STEPS {
            let Some(token) = tokens.get(self.shifted).copied() else {
                break;
            };
            if !self.step(token)? {
                break;
            }
        }
        Ok(())
    }

    /// Reduces with a token ahead that can't come, until that is detected.
    pub fn detect(&mut self, token: Sym) -> Made<()> {
        for _ in 0..MOST_STEPS {
            if !self.step(token)? {
                break;
            }
        }
        Ok(())
    }
}
