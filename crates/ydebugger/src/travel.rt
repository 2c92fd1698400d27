//! Moves, and what the arguments of their commands mean.

use crate::condition::{Condition, condition_of, number_in};
use crate::refusal::{Refusal, misused};
use crate::verb::Verb;
use crate::words::first_word;
use yparse::Session;

/// The last position.
pub const LAST: usize = 1_000_000;

/// A move.
#[derive(Clone, Copy)]
pub enum Move {
    /// So many steps forward, each told.
    Step(usize),
    /// So many steps back, each told.
    Back(usize),
    /// To a position.
    To(usize),
    /// To the end, or to where an error comes next.
    Run,
    /// So many steps forward at most, as `Run`.
    RunFor(usize),
    /// Forward to where so many tokens are shifted.
    Next(usize),
    /// Forward to the reduction of the entry on top.
    Finish,
    /// Forward to where a condition holds.
    RunUntil(Condition),
    /// Back to where a condition holds.
    BackUntil(Condition),
}

/// How often: once where nothing is said.
fn count_of(text: &str) -> Result<usize, Refusal> {
    if text.is_empty() {
        return Ok(1);
    }
    number_in(text, "counts", 1, LAST)
}

/// What stands after `until`, or a beginning of it.
pub fn until_in(text: &str) -> Option<&str> {
    let (word, condition) = first_word(text);
    (!word.is_empty() && "until".starts_with(word)).then_some(condition)
}

/// The word of a condition for which it was refused: its first one, or the name after that.
pub fn condition_at_fault(condition: &str, refusal: Refusal) -> &str {
    let (word, name) = first_word(condition);
    match refusal {
        Refusal::NoCondition => word,
        _ => name,
    }
}

/// The move that a command and its arguments mean.
pub fn move_of(session: &Session, tokens: usize, verb: Verb, text: &str) -> Result<Move, Refusal> {
    let until = |condition: &str| condition_of(session, tokens, condition);
    match (verb, until_in(text)) {
        (Verb::Run, Some(condition)) => until(condition).map(Move::RunUntil),
        (Verb::Back, Some(condition)) => until(condition).map(Move::BackUntil),
        (Verb::Back, None) => count_of(text).map(Move::Back),
        (Verb::To, _) => number_in(text, "positions", 0, LAST).map(Move::To),
        (Verb::Run | Verb::Continue, None) if text.is_empty() => Ok(Move::Run),
        (Verb::Run, None) => number_in(text, "counts", 1, LAST).map(Move::RunFor),
        (Verb::Next, _) => count_of(text).map(Move::Next),
        (Verb::Finish, _) if session.view().stack_len() == 0 => Err(Refusal::Empty),
        (Verb::Finish, _) if text.is_empty() => Ok(Move::Finish),
        (Verb::Finish | Verb::Continue, _) => Err(misused(verb)),
        _ => count_of(text).map(Move::Step),
    }
}

/// The condition of a move from where a session stands.
pub fn until_of(session: &Session, wanted: Move) -> Option<Condition> {
    match wanted {
        Move::RunUntil(condition) | Move::BackUntil(condition) => Some(condition),
        Move::Next(_) => Some(Condition::AnyShift),
        Move::Finish => Some(Condition::Top(session.view().stack_len())),
        _ => None,
    }
}

/// Whether each step of a move is written.
pub fn tells_each(wanted: Move) -> bool {
    matches!(wanted, Move::Step(_) | Move::Back(_))
}
