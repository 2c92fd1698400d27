//! Worklists of symbols: each symbol is marked once, and taken once, in the order in which they
//! were marked.

ghost use Rattle.std.specs.Prelude.{◌≡◌, ◌<◌, ◌⊎◌, ℕ, MatchOption, OnOk, length};
ghost use Rattle.ysymbols.specs.Marking.{Grows, IsMarked, IsWaiting, Takes};

use crate::rule::Sym;
use std::alloc::{AllocError, Global};
use std::marker::Model;

/// Marks of symbols; those marked since the start, in their order; and how many of these are
/// taken.
#[derive(Drop)]
pub struct Worklist {
    marks: Vec<bool>,
    order: Vec<Sym>,
    taken: usize,
}

impl Model for Worklist {
    ghost use Rattle.ysymbols.specs.Marking.{WorklistValue, IsWorklist};

    ghost Value = { WorklistValue };

    ghost view = { λ w. record { marks = w.marks.items; order = w.order.items; taken = w.taken } };

    ghost invariant = { λ w. IsWorklist (
        record { marks = w.marks.items; order = w.order.items; taken = w.taken }) };
}

impl Worklist {
    /// No symbol waits; these marks are set.
    pub fn new(alloc: Global, marks: Vec<bool>) -> Worklist
        ensures { result.marks ≡ marks.items }
    {
        Worklist {
            marks,
            order: Vec::new(alloc),
            taken: 0,
        }
    }

    /// For each symbol whether it is marked.
    pub fn marks(&self) -> &[bool]
        ensures { result.now ≡ self.now.marks }
    {
        &self.marks
    }

    /// The marks, once the work is done.
    pub fn into_marks(self) -> Vec<bool>
        ensures { result.items ≡ self.marks }
    {
        self.marks
    }

    /// Marks a symbol, which has to wait then, unless it is marked.
    pub fn mark(&mut self, s: Sym) -> Result<(), AllocError>
        requires { s < length self.old.marks }
        ensures grows { OnOk result (Grows self.old self.new) }
        ensures marked { OnOk result (IsMarked self.new.marks s) }
        ensures only { OnOk result ((t : ℕ) → IsMarked self.new.marks t →
            IsMarked self.old.marks t ⊎ (t ≡ s)) }
    {
        if !self.marks[s] {
            self.order.push(s)?;
            self.marks[s] = true;
        }
        Ok(())
    }

    /// Takes the symbol that waits longest.
    pub fn take(&mut self) -> Option<Sym>
        ensures { MatchOption result
            ((self.new ≡ self.old) × ((s : ℕ) → IsWaiting self.new s → ⊥))
            (λ s. Takes self.old s self.new) }
    {
        let s = self.order.get(self.taken).copied()?;
        self.taken += 1;
        Some(s)
    }
}
