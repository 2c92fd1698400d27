//! What is done in a cell of rules that stand to its token in any way.

ghost use Rattle.std.specs.Prelude.{ℕ, ◌≡◌};
ghost use Rattle.ytables.specs.declared.class.Class.{Class};
ghost use Rattle.ytables.specs.Cell.{cell_of};
ghost use Rattle.ytables.specs.Tally.{IsTally};
ghost use Rattle.yprovenance.specs.Settled.{rivals_of, HaveClasses, HaveClassesWhere, class_where};

use ytables::{Action, Cell, Class, Standing, Tally};

/// A rule in a cell, and how it stands to the cell's token.
#[derive(Clone, Copy, Debug, Drop, PartialEq, Eq)]
pub struct Rival {
    /// The number of the rule.
    pub rule: usize,
    /// How the rule stands to the token.
    pub standing: Standing,
}

/// The class of a rule in a cell whose token can be shifted, or can't.
fn class_where(shifts: bool, rival: Rival) -> Class
    ensures { result ≡ class_where shifts rival }
{
    if shifts {
        rival.standing.class()
    } else {
        Class::Rest
    }
}

/// What a pass over these rules finds, where the token can be shifted or can't.
fn tally_of(shifts: bool, rivals: &[Rival]) -> Tally
    ensures { (class : ℕ → Class) → HaveClassesWhere shifts class rivals.now
        → IsTally class (rivals_of rivals.now) result }
{
    let mut tally = Tally::new();
    for rival in rivals {
        tally.add(rival.rule, class_where(shifts, *rival));
    }
    tally
}

/// The cell of this shift, or of none, and of these rules: what is done, and what is counted. Each
/// rule stands in one way to the token.
pub fn settle(shift: Option<Action>, rivals: &[Rival]) -> Cell
    ensures { (class : ℕ → Class) → HaveClasses class rivals.now
        → result ≡ cell_of class shift (rivals_of rivals.now) }
{
    tally_of(shift.is_some(), rivals).settle(shift)
}
