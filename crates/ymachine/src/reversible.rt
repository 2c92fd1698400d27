//! Machines that step forward, have their input edited, and take both back.

ghost use Rattle.std.specs.Prelude.{◌≡◌, Option, Bool, IsTrue};
ghost use Rattle.ymachine.specs.Reversible.{Advances};

use crate::machine::StepFault;

/// A machine that steps forward, takes edits of its input, and takes back what a step or an edit
/// has changed.
///
/// The contracts are the law: a step leaves what follows the content before it, an edit leaves
/// what it makes of that content, and the change leads back to it; what is refused changes
/// nothing.
pub trait Reversible {
    /// What a step or an edit has changed.
    type Change: Drop;

    /// An edit of the input.
    type Edit: Drop;

    /// The kind of a step or an edit.
    type Kind;

    /// The kind of the step from a content and what it leaves, where there is one.
    ghost next: { Self → Option (Self.Kind × Self) };

    /// The kind of an edit of a content and what it leaves, where it can be made.
    ghost edited: { Self.Edit → Self → Option (Self.Kind × Self) };

    /// What was before a change.
    ghost before: { Self.Change → Self → Self };

    /// The kind of the step or edit that a change is of.
    ghost kind: { Self.Change → Self.Kind };

    /// Whether a change can be taken back from a content, as it can right after it was made.
    ghost fits: { Self.Change → Self → Bool };

    /// One step. S1 exactly where no step follows; S3 when memory runs out; never S2 or S4. An
    /// `Err` changes nothing.
    fn advance(&mut self) -> Result<Self::Change, StepFault>
        ensures advances { Advances next next before kind fits self.old result self.new };

    /// An edit. S1 or S4 exactly where the edit can't be made: S1 where no step follows either,
    /// else S4; S3 when memory runs out; never S2. An `Err` changes nothing.
    fn edit(&mut self, edit: Self::Edit) -> Result<Self::Change, StepFault>
        ensures edits { Advances next (edited edit) before kind fits self.old result self.new };

    /// Takes a change back, from the content that it led to. It takes no memory.
    fn revert(&mut self, change: Self::Change)
        requires { IsTrue (fits change self.old) }
        ensures { self.new ≡ before change self.old };
}
