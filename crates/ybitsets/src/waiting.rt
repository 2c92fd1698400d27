//! Numbers that wait, none twice. Those put while one round is taken make the next round. Each
//! round is taken from its end: where the numbers of one round were put in an order, those of the
//! next are taken against it.

ghost use Rattle.std.specs.Prelude.{ℕ, ◌≡◌, ◌<◌, true, false, [], All, IfOk, OnOk, length};
ghost use Rattle.std.specs.Prelude.{MatchOption, slice_set};
ghost use Rattle.std.specs.List.{Contains};
ghost use Rattle.ybitsets.specs.Marks.{Has};
ghost use Rattle.ybitsets.specs.Waiting.{AreOut, IsOut};

use crate::marks::Marks;
use std::alloc::{AllocError, Global};
use std::marker::Model;
use std::mem;

/// The rest of a round, the next round, and a mark for each number that waits.
pub struct Waiting {
    round: Vec<usize>,
    next: Vec<usize>,
    marks: Marks,
}

impl Drop for Waiting {
    // A call in each owner, which keeps their proofs short.
    fn drop(self) {
        let Waiting {
            round: _,
            next: _,
            marks: _,
        } = self;
    }
}

impl Model for Waiting {
    ghost use Rattle.std.specs.Prelude.{List, Bool};
    ghost use Rattle.ybitsets.specs.Waiting.{AreListed};

    ghost Value = { List Bool };

    ghost view = { λ w. w.marks };

    ghost invariant = { λ w. AreListed w.marks w.round.items w.next.items };
}

/// The number at the end of the round; where that is empty, at the end of the next one.
fn pop(round: &mut Vec<usize>, next: &mut Vec<usize>) -> Option<usize>
    ensures { MatchOption result (AreOut round.old.items next.old.items
        × AreOut round.new.items next.new.items)
        (IsOut round.old.items next.old.items round.new.items next.new.items) }
{
    if let Some(p) = round.pop() {
        return Some(p);
    }
    mem::swap(round, next);
    let p = round.pop()?;
    Some(p)
}

impl Waiting {
    /// No number waits, of those below `n`.
    fn none(alloc: Global, n: usize) -> Result<Waiting, AllocError>
        ensures { IfOk result (λ w. length w ≡ n) }
    {
        Ok(Waiting {
            round: Vec::new(alloc),
            next: Vec::new(alloc),
            marks: Marks::new(alloc, n)?,
        })
    }

    /// The numbers of a list wait, all below `n`; the last one is taken first. It fails only when
    /// memory runs out.
    pub fn from_back(alloc: Global, n: usize, list: &[usize]) -> Result<Waiting, AllocError>
        requires { All (λ p. p < n) list.now }
        ensures sized { IfOk result (λ w. length w ≡ n) }
        ensures every { IfOk result (λ w. (p : ℕ) → Contains list.now p → Has w p) }
    {
        let mut waiting = Waiting::none(alloc, n)?;
        for p in list {
            waiting.put(*p)?;
        }
        Ok(waiting)
    }

    /// Takes a number that waits, or `None` where none waits. From then on it can be put back.
    pub fn take(&mut self) -> Option<usize>
        ensures { MatchOption result ((p : ℕ) → Has self.old p → ⊥)
            (λ p. Has self.old p × (self.new ≡ slice_set self.old p false)) }
    {
        while let Some(p) = pop(&mut self.round, &mut self.next) {
            if self.marks.has(p) {
                self.marks.unmark(p);
                return Some(p);
            }
        }
        None
    }

    /// Lets a number wait, unless it does. It fails only when memory runs out.
    pub fn put(&mut self, p: usize) -> Result<(), AllocError>
        requires { p < length self.old }
        ensures { OnOk result (self.new ≡ slice_set self.old p true) }
    {
        if !self.marks.has(p) {
            self.next.push(p)?;
            self.marks.mark(p);
        }
        Ok(())
    }
}
