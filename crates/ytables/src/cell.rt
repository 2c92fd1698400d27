//! What is done at a token, and the one pass over the rules of a cell that settles it.

ghost use Rattle.std.specs.Prelude.{◌≡◌};
ghost use Rattle.ytables.specs.Cell.{lone};
ghost use Rattle.ytables.specs.Tally.{no_tally, IsSmall, tally_more, reduce_of, settle};

use crate::class::Class;

/// What is done in a state at a token.
#[derive(Clone, Copy, Debug, Drop, PartialEq, Eq)]
pub enum Action {
    /// The token moves to the stack, and this state comes on top.
    Shift(usize),
    /// The body of this rule is replaced by its left side.
    Reduce(usize),
    /// The input is a sentence.
    Accept,
    /// The token can't stand here.
    Error,
}

/// A cell of a state and a token: its action, what it counts, and whether it was chosen among
/// several.
#[derive(Clone, Copy, Debug, Drop, PartialEq, Eq)]
pub struct Cell {
    /// What is done.
    pub action: Action,
    /// How many rules could be reduced beside the shift.
    pub shift_reduce: usize,
    /// How many rules could be reduced beside the rule that is.
    pub reduce_reduce: usize,
    /// Whether the action was one of several candidates.
    pub choice: bool,
}

/// What a cell counts, where it counts something.
#[derive(Clone, Copy, Drop)]
pub struct Conflict {
    /// The number of the token.
    pub token: usize,
    /// How many rules could be reduced at this token beside its shift.
    pub shift_reduce: usize,
    /// How many rules could be reduced beside the rule that is.
    pub reduce_reduce: usize,
}

/// A cell that counts no conflict.
fn lone(action: Action, choice: bool) -> Cell
    ensures { result ≡ lone action choice }
{
    Cell {
        action,
        shift_reduce: 0,
        reduce_reduce: 0,
        choice,
    }
}

/// What one pass over the rules of a cell finds.
#[derive(Clone, Copy, Drop)]
pub struct Tally {
    /// Whether one is in the class Ban.
    pub banned: bool,
    /// Whether one is in the class Beat.
    pub beaten: bool,
    /// How many are in the class Rest.
    pub rests: usize,
    /// How many are in another class than Lose.
    pub kept: usize,
    /// The least of these, 0 before the first.
    pub first: usize,
    /// How many rules there are.
    pub all: usize,
}

impl Tally {
    /// The tally of no rules.
    pub fn new() -> Tally
        ensures { result ≡ no_tally }
    {
        Tally {
            banned: false,
            beaten: false,
            rests: 0,
            kept: 0,
            first: 0,
            all: 0,
        }
    }

    /// Takes one more rule in.
    pub fn add(&mut self, rule: usize, class: Class)
        requires { IsSmall self.old }
        ensures { self.new ≡ tally_more self.old rule class }
    {
        self.all += 1;
        if class == Class::Lose {
            return;
        }
        self.first = if self.kept == 0 {
            rule
        } else {
            self.first.min(rule)
        };
        self.kept += 1;
        match class {
            Class::Beat => self.beaten = true,
            Class::Ban => self.banned = true,
            Class::Rest => self.rests += 1,
            Class::Lose => {}
        }
    }

    /// The cell that reduces by the least rule, each further one counted as a conflict.
    fn reduce(&self, choice: bool) -> Cell
        ensures { result ≡ reduce_of self.now choice }
    {
        if self.kept == 0 {
            return lone(Action::Error, choice);
        }
        Cell {
            action: Action::Reduce(self.first),
            shift_reduce: 0,
            reduce_reduce: self.kept - 1,
            choice,
        }
    }

    /// The cell of these rules and this shift, or `None` where the token can't be shifted.
    pub fn settle(&self, shift: Option<Action>) -> Cell
        ensures { result ≡ settle self.now shift }
    {
        let Some(action) = shift else {
            return self.reduce(self.all > 1);
        };
        if self.banned {
            return lone(Action::Error, true);
        }
        if self.beaten {
            return self.reduce(true);
        }
        Cell {
            action,
            shift_reduce: self.rests,
            reduce_reduce: 0,
            choice: self.all > 0,
        }
    }
}
