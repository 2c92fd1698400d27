//! Steps, undos and edits of the session behind a handle.

ghost use Rattle.std.specs.Prelude.{◌≡◌};
ghost use Rattle.ymachine.specs.declared.machine.Edit.TheVariants as edits;
ghost use Rattle.yhandles.specs.Answers.{Answers};
ghost use Rattle.yhandles.specs.Moves.{Stepped, Edited, Inserted, Undone, of_step};
ghost use Rattle.yhandles.specs.Moves.{kind_number, kind_subject, move_of, fault_status};
ghost use Rattle.yhandles.specs.Moves.{refusal_status, answer_status, move_after};

use crate::handle::Handle;
use std::alloc::Global;
use ymachine::machine::{AtStart, StepFault, StepKind};
use ysession::Session;

/// What was made of a session.
#[repr(C)]
#[derive(Clone, Copy)]
pub struct Move {
    /// 1 shift, 2 reduce, 3 accept, 4 detect, 5 pop, 6 shift of `error`, 7 discard, 8 fail,
    /// 9 insert, 10 drop.
    pub kind: u32,
    /// The number of the symbol, or that of the rule of a reduction; 0 where there is none.
    pub subject: usize,
}

/// Why nothing was made of a session.
#[derive(Clone, Copy, Debug, PartialEq, Eq)]
pub enum Refusal {
    /// Nothing can be undone.
    AtStart,
    /// The bytes spell no input token.
    BadToken,
    /// The step or the edit is refused.
    Step(StepFault),
}

/// What was made, or why nothing.
pub type Answer = Result<StepKind, Refusal>;

/// An answer of a step or an edit.
fn of_step(made: Result<StepKind, StepFault>) -> Answer
    ensures { result ≡ of_step made }
{
    match made {
        Ok(kind) => Ok(kind),
        Err(fault) => Err(Refusal::Step(fault)),
    }
}

/// The number of a kind.
fn kind_number(kind: StepKind) -> u32
    ensures { result ≡ kind_number kind }
{
    match kind {
        StepKind::Shift(_) => 1,
        StepKind::Reduce(_) => 2,
        StepKind::Accept => 3,
        StepKind::Detect => 4,
        StepKind::Pop(_) => 5,
        StepKind::ShiftError => 6,
        StepKind::Discard(_) => 7,
        StepKind::Fail => 8,
        StepKind::Insert(_) => 9,
        StepKind::Drop(_) => 10,
    }
}

/// The number of its symbol or rule; 0 where it has none.
fn kind_subject(kind: StepKind) -> usize
    ensures { result ≡ kind_subject kind }
{
    match kind {
        StepKind::Shift(symbol) | StepKind::Pop(symbol) | StepKind::Discard(symbol) => symbol,
        StepKind::Insert(symbol) | StepKind::Drop(symbol) => symbol,
        StepKind::Reduce(rule) => rule,
        StepKind::Accept | StepKind::Detect | StepKind::ShiftError | StepKind::Fail => 0,
    }
}

/// What C gets of what was made.
fn move_of(kind: StepKind) -> Move
    ensures { result ≡ move_of kind }
{
    Move {
        kind: kind_number(kind),
        subject: kind_subject(kind),
    }
}

/// The status of a refused step or edit.
pub(crate) fn fault_status(fault: StepFault) -> u32
    ensures { result ≡ fault_status fault }
{
    match fault {
        StepFault::Memory => 3,
        StepFault::Halted => 5,
        StepFault::Limit => 6,
        StepFault::NoToken => 8,
    }
}

/// The status of a refusal.
fn refusal_status(refusal: Refusal) -> u32
    ensures { result ≡ refusal_status refusal }
{
    match refusal {
        Refusal::Step(fault) => fault_status(fault),
        Refusal::AtStart => 7,
        Refusal::BadToken => 9,
    }
}

/// The status of an answer, and what was made, where something was; 12 where there is no session.
pub fn tell(answer: Option<Answer>, made: &mut Move) -> u32
    ensures says { result ≡ answer_status answer }
    ensures told { made.new ≡ move_after answer made.old }
{
    match answer {
        Some(Ok(kind)) => {
            *made = move_of(kind);
            0
        }
        Some(Err(refusal)) => refusal_status(refusal),
        None => 12,
    }
}

/// One step of a session.
fn step_of(session: &mut Session) -> Answer
    ensures { Stepped session.old result session.new }
{
    of_step(session.step())
}

/// One undo of a session.
fn undo_of(session: &mut Session) -> Answer
    ensures { Undone session.old result session.new }
{
    match session.back() {
        Ok(kind) => Ok(kind),
        Err(AtStart) => Err(Refusal::AtStart),
    }
}

/// The token that the bytes spell comes before the upcoming tokens of a session.
fn insert_into(session: &mut Session, bytes: &[u8]) -> Answer
    ensures { Inserted bytes.now session.old result session.new }
{
    match session.token(bytes) {
        Some(token) => of_step(session.insert(token)),
        None => Err(Refusal::BadToken),
    }
}

/// The first of the upcoming tokens of a session is taken out.
fn drop_from(session: &mut Session) -> Answer
    ensures { Edited edits.Drop session.old result session.new }
{
    of_step(session.drop_next())
}

/// One step of the session behind a handle, or `None` where there is none.
pub fn step(alloc: Global, handle: &mut Handle) -> Option<Answer>
    ensures { Answers Stepped handle.old.session result handle.new.session }
{
    of_held!(alloc, handle, |held| step_of(&mut held))
}

/// One undo of the session behind a handle, or `None` where there is none.
pub fn back(alloc: Global, handle: &mut Handle) -> Option<Answer>
    ensures { Answers Undone handle.old.session result handle.new.session }
{
    of_held!(alloc, handle, |held| undo_of(&mut held))
}

/// The token that the bytes spell comes before the upcoming tokens of the session behind a handle;
/// `None` where there is no session.
pub fn insert(alloc: Global, handle: &mut Handle, bytes: &[u8]) -> Option<Answer>
    ensures { Answers (Inserted bytes.now) handle.old.session result handle.new.session }
{
    of_held!(alloc, handle, |held| insert_into(&mut held, bytes))
}

/// The first of the upcoming tokens of the session behind a handle is taken out; `None` where there
/// is no session.
pub fn drop_next(alloc: Global, handle: &mut Handle) -> Option<Answer>
    ensures { Answers (Edited edits.Drop) handle.old.session result handle.new.session }
{
    of_held!(alloc, handle, |held| drop_from(&mut held))
}
