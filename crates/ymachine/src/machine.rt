//! The words of a parse: the kinds of steps, the modes, the refusals.

ghost use Rattle.std.specs.Prelude.{◌≡◌};

use std::alloc::AllocError;
use thiserror::Error;
use ysymbols::Sym;

/// What a parse is doing.
#[derive(Clone, Copy, Debug, PartialEq, Eq)]
pub enum Mode {
    /// It does what the cells say.
    Running,
    /// It looks for a state in which `error` can be shifted.
    Popping,
    /// It has accepted its input.
    Accepted,
    /// It has given up.
    Failed,
}

/// The kind of a step or an edit (Aho, Sethi and Ullman, 4.7; POSIX yacc, "Error Handling").
#[derive(Clone, Copy, Debug, PartialEq, Eq)]
pub enum StepKind {
    /// This token went to the stack.
    Shift(Sym),
    /// The body of this rule was replaced by its left side.
    Reduce(usize),
    /// The input was accepted.
    Accept,
    /// An error was detected.
    Detect,
    /// This symbol was dropped from the stack.
    Pop(Sym),
    /// `error` went to the stack.
    ShiftError,
    /// This token was dropped from the input.
    Discard(Sym),
    /// The parse gave up.
    Fail,
    /// This token was put before the upcoming tokens.
    Insert(Sym),
    /// This token, the first of the upcoming ones, was taken out.
    Drop(Sym),
}

/// An edit of the upcoming tokens.
#[derive(Clone, Copy, Debug, PartialEq, Eq)]
pub enum Edit {
    /// This token comes before the upcoming tokens.
    Insert(Sym),
    /// The first of the upcoming tokens is taken out.
    Drop,
}

/// What can be done to a parse.
#[derive(Clone, Copy, Debug, PartialEq, Eq)]
pub enum Deed {
    /// Its next step.
    Step,
    /// An edit of the upcoming tokens.
    Edit(Edit),
}

/// Why a step or an edit is refused. What is refused changes nothing.
#[derive(Clone, Copy, Debug, PartialEq, Eq, Error)]
pub enum StepFault {
    /// S1: the mode is accepted or failed.
    #[error("the parse has halted")]
    Halted,
    /// S4: no upcoming token can be taken out, or what is to be inserted is no input token.
    #[error("no token")]
    NoToken,
    /// S2: the position is 1,000,000.
    #[error("the position is at its limit")]
    Limit,
    /// S3: memory ran out.
    #[error("no memory")]
    Memory,
}

impl From<AllocError> for StepFault {
    ghost use Rattle.ymachine.specs.declared.machine.StepFault.TheVariants.{Memory};

    ghost from_gives = { λ _ e. e ≡ Memory };

    fn from(_refused: AllocError) -> StepFault {
        StepFault::Memory
    }
}

/// Why an undo is refused: the position is 0.
#[derive(Clone, Copy, Debug, PartialEq, Eq, Error)]
#[error("the parse is at its start")]
pub struct AtStart;

/// Why a text of a parse isn't written, or is cut off.
#[derive(Clone, Copy, Debug, PartialEq, Eq, Error)]
pub enum UnwindFault {
    /// U1: the parse isn't accepted.
    #[error("not accepted")]
    NotAccepted,
    /// U2: an error step is in the history.
    #[error("had error")]
    HadError,
    /// U3: the writer's link failed; the text is cut off.
    #[error("write fault")]
    Write,
}
