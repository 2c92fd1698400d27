//! Breakpoints: conditions that are kept, and that runs stop at.

use crate::condition::{Condition, condition_of};
use std::alloc::Global;
use std::io::Write;
use yexplain::reads::Made;
use yinput::Parse;
use yparse::Session;
use yparse::machine::StepKind;
use yview::page::Page;

/// A breakpoint.
#[derive(Drop)]
struct Break {
    /// Its number, which no other one has had.
    number: usize,
    /// How its condition was written.
    said: String,
    /// Its condition.
    condition: Condition,
}

/// The breakpoints of a session, in the order in which they were set.
#[derive(Drop)]
pub struct Breaks {
    kept: Vec<Break>,
    /// The number of the last one that was set.
    last: usize,
}

/// A breakpoint at which a run stopped: its number and its condition.
#[derive(Clone, Copy)]
pub struct Hit {
    /// The number.
    pub number: usize,
    /// The condition.
    pub condition: Condition,
}

impl Breaks {
    /// None.
    pub fn new(alloc: Global) -> Breaks {
        Breaks {
            kept: Vec::new(alloc),
            last: 0,
        }
    }

    /// The first one that is met after a step or an undo of this kind.
    pub fn met(&self, session: &Session, kind: StepKind) -> Option<Hit> {
        for kept in &self.kept {
            let (number, condition) = (kept.number, kept.condition);
            if condition.is_met(session, kind) {
                return Some(Hit { number, condition });
            }
        }
        None
    }

    /// Keeps one, and gives its number.
    pub fn keep(&mut self, alloc: Global, said: &str, condition: Condition) -> Made<usize> {
        let number = self.last.saturating_add(1);
        let said = String::from_str(alloc, said)?;
        self.kept.push(Break {
            number,
            said,
            condition,
        })?;
        self.last = number;
        Ok(number)
    }

    /// Sets one, and says so.
    pub fn set<W: Write>(
        &mut self,
        alloc: Global,
        page: &mut Page<W>,
        session: &Session,
        (said, condition): (&str, Condition),
    ) -> Made<()> {
        let number = self.keep(alloc, said, condition)?;
        let _ = write!(page, "breakpoint {number}: ");
        condition.put(page, session);
        page.end();
        Ok(())
    }

    /// Removes the one of a number, and says so.
    pub fn delete<W: Write>(&mut self, page: &mut Page<W>, number: usize) {
        match self.kept.iter().position(|it| it.number == number) {
            Some(index) => {
                let _ = self.kept.remove(index);
                let _ = writeln!(page, "Breakpoint {number} is deleted.");
            }
            None => {
                let _ = writeln!(page, "There is no breakpoint {number}; breaks lists them.");
            }
        }
    }

    /// Removes all, and says so.
    pub fn clear<W: Write>(&mut self, page: &mut Page<W>) {
        page.line(if self.kept.is_empty() {
            "There are no breakpoints."
        } else {
            "All breakpoints are deleted."
        });
        self.kept.clear();
    }

    /// Writes them, a line for each.
    pub fn put<W: Write>(&self, page: &mut Page<W>, session: &Session) {
        if self.kept.is_empty() {
            page.line("There are no breakpoints; break C sets one.");
        }
        for kept in &self.kept {
            page.number_to(7, kept.number);
            page.put("  ");
            kept.condition.put(page, session);
            page.end();
        }
    }

    /// Writes the commands that set them.
    pub fn put_commands<W: Write>(&self, page: &mut Page<W>) {
        for kept in &self.kept {
            let _ = writeln!(page, "break {}", kept.said);
        }
    }

    /// Gives each its meaning in a parse whose files were read again, and deletes those that have
    /// none in it, which is said.
    pub fn renew<W: Write>(&mut self, page: &mut Page<W>, parse: &Parse) {
        let mut index = 0_usize;
        for _ in 0..self.kept.len() {
            let Some(kept) = self.kept.get_mut(index) else {
                return;
            };
            let said = kept.said.as_str();
            match condition_of(&parse.session, parse.tokens, said) {
                Ok(condition) => {
                    kept.condition = condition;
                    index = index.saturating_add(1);
                }
                Err(_) => {
                    let number = kept.number;
                    let _ = writeln!(page, "Breakpoint {number}, {said}, is deleted: it has no");
                    page.line("meaning in these files.");
                    let _ = self.kept.remove(index);
                }
            }
        }
    }
}
