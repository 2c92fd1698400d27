//! The past of a machine, kept as the changes that led to it.

ghost use Rattle.std.specs.Prelude.{◌≡◌, ◌≤◌};
ghost use Rattle.std.specs.Prelude.{Option, IsTrue, IfOk};
ghost use Rattle.ymachine.specs.Past.{most_steps};
ghost use Rattle.ymachine.specs.Reversible.{Advances, IsJournal, StepsOn, past_by, refusal_of};

use crate::machine::{AtStart, StepFault};
use crate::reversible::Reversible;
use std::alloc::Global;
use std::marker::Model;

/// The most steps and edits that may stand.
const MOST_STEPS: usize = 1_000_000;

/// A machine, and the changes of the steps and edits that stand, the newest last.
#[derive(Drop)]
pub struct Journal<M: Reversible> {
    /// The machine as it is now. Only this crate changes it, and only what it writes with.
    pub(crate) machine: M,
    changes: Vec<M::Change>,
}

impl<M: Reversible> Model for Journal<M> {
    ghost use Rattle.ymachine.specs.Past.{Past};
    ghost use Rattle.ymachine.specs.Reversible.{past_by, IsJournal};

    ghost Value = { Past M.Kind M };

    ghost view = { λ j. past_by M.before M.kind j.machine j.changes.items };

    ghost invariant = { λ j. IsJournal M.before M.fits j.machine j.changes.items };
}

/// Why nothing is made. Where 1,000,000 steps and edits stand, that is the reason, and not memory.
fn refusal(full: bool, fault: StepFault) -> StepFault
    ensures { result ≡ refusal_of full fault }
{
    match fault {
        StepFault::Memory if full => StepFault::Limit,
        _ => fault,
    }
}

/// Keeps the change that was made. Where 1,000,000 stand or memory runs out, it is taken back.
fn keep<M: Reversible>(
    machine: &mut M,
    changes: &mut Vec<M::Change>,
    made: Result<M::Change, StepFault>,
) -> Result<(), StepFault>
    requires { IfOk made (λ change. IsTrue (M.fits change machine.old)) }
    ensures { (old : M) (what : M → Option (M.Kind × M))
        → IsJournal M.before M.fits old changes.old.items
        → Advances M.next what M.before M.kind M.fits old made machine.old
        → StepsOn M.next what (past_by M.before M.kind old changes.old.items) result
        (past_by M.before M.kind machine.new changes.new.items)
        × IsJournal M.before M.fits machine.new changes.new.items }
{
    let full = changes.len() >= MOST_STEPS;
    match made {
        Ok(change) => {
            if full {
                machine.revert(change);
                return Err(StepFault::Limit);
            }
            match changes.push(change) {
                Ok(()) => Ok(()),
                Err(refused) => {
                    machine.revert(refused.value);
                    Err(StepFault::Memory)
                }
            }
        }
        Err(fault) => Err(refusal(full, fault)),
    }
}

impl<M: Reversible> Journal<M> {
    ghost use Rattle.std.specs.Prelude.{map, reverse, option_map, slice_get};
    ghost use Rattle.ymachine.specs.Past.{first_past, position};
    ghost use Rattle.ymachine.specs.Reversible.{StepsBack};

    /// The machine as it is, before its first step.
    pub fn new(alloc: Global, machine: M) -> Self
        ensures { result ≡ first_past machine }
    {
        Journal {
            machine,
            changes: Vec::new(alloc),
        }
    }

    /// How many steps and edits stand, 0 to 1,000,000.
    pub fn position(&self) -> usize
        ensures few { result ≤ most_steps }
        ensures position { result ≡ position self.now }
    {
        self.changes.len()
    }

    /// The machine as it is now.
    pub fn machine(&self) -> &M
        ensures { result.now ≡ self.now.now }
    {
        &self.machine
    }

    /// The machine as it is now, once its past is done with.
    pub fn into_machine(self) -> M
        ensures { result ≡ self.now }
    {
        let Journal {
            machine,
            changes: _,
        } = self;
        machine
    }

    /// The changes of the steps and edits that stand, the newest last. Taken back one after another
    /// from the machine as it is now, they lead to each content before.
    pub fn changes(&self) -> &[M::Change]
        ensures past { past_by M.before M.kind self.now.now result.now ≡ self.now }
        ensures kinds { map M.kind (reverse result.now) ≡ map (λ step. step.0) self.now.earlier }
    {
        &self.changes
    }

    /// The newest change, where one stands. It has the kind of the newest step or edit; taken back
    /// from the machine as it is now, it leads to what was before.
    pub fn last(&self) -> Option<&M::Change>
        ensures kind { option_map (λ change. M.kind change.now) result
            ≡ option_map (λ step. step.0) (slice_get self.now.earlier 0) }
        ensures before { option_map (λ change. M.before change.now self.now.now) result
            ≡ option_map (λ step. step.1) (slice_get self.now.earlier 0) }
    {
        self.changes.last()
    }

    /// One step. S1 where no step follows, else S2 where 1,000,000 stand, else S3 when memory runs
    /// out. An `Err` changes nothing.
    pub fn step(&mut self) -> Result<(), StepFault>
        ensures { StepsOn M.next M.next self.old result self.new }
    {
        let made = self.machine.advance();
        keep(&mut self.machine, &mut self.changes, made)
    }

    /// One edit of the input. S1 or S4 exactly where the edit can't be made: S1 where no step
    /// follows either, else S4. Else S2 where 1,000,000 steps and edits stand, else S3 when memory
    /// runs out. An `Err` changes nothing.
    pub fn edit(&mut self, edit: M::Edit) -> Result<(), StepFault>
        ensures { StepsOn M.next (M.edited edit) self.old result self.new }
    {
        let made = self.machine.edit(edit);
        keep(&mut self.machine, &mut self.changes, made)
    }

    /// One step or edit back, to the whole earlier content. It takes no memory, and is refused
    /// only at position 0.
    pub fn back(&mut self) -> Result<(), AtStart>
        ensures { StepsBack self.old result self.new }
    {
        match self.changes.pop() {
            Some(change) => {
                self.machine.revert(change);
                Ok(())
            }
            None => Err(AtStart),
        }
    }
}
