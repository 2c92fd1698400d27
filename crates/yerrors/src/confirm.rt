//! A list of tokens put into a session, which goes on until an error is detected.

use std::alloc::{AllocError, Global};
use std::io;
use yinput::expected::{Wanted, expected_within};
use ylalr::END;
use yparse::Session;
use yparse::machine::StepKind;
use yparse::states::stack_states;
use ysearch::budget::Share;
use ysearch::trial::{Pace, go_back, put_with_last};
use ysymbols::{Sym, let_go};
use yview::reading::stack_symbol;

/// The most steps of a session over a list.
const MOST_STEPS: usize = 200_000;

/// The most reductions of all trials of a run that tell which tokens could come, beside those that
/// each list may take in any case.
const MOST_REDUCTIONS: usize = 8_000_000;

/// The reductions that any list may take.
const LEAST_REDUCTIONS: usize = 10_000;

/// How many reductions a run may make.
pub fn reductions() -> Share {
    Share::new(MOST_REDUCTIONS, 4, (LEAST_REDUCTIONS, MOST_REDUCTIONS))
}

/// A list of tokens whose last one is an error, as a session has it.
pub struct Confirmed {
    /// The tokens before the last one.
    pub tokens: Vec<Sym>,
    /// The last one; the end, where it is that.
    pub last: Sym,
    /// The symbols of the stack, the top last, where the error is detected.
    pub stack: Vec<Sym>,
    /// The tokens that could come in place of the last one.
    pub wanted: Wanted,
}

impl Drop for Confirmed {
    // A call in each owner, which keeps their proofs short.
    fn drop(self) {
        let_go!(self: Confirmed { tokens, last, stack, wanted });
    }
}

/// Puts tokens and a last one before the upcoming ones, and gives the states of the stack once the
/// tokens are shifted, where the first error is detected in a state with the last one ahead.
fn states_before(
    alloc: Global,
    session: &mut Session,
    (tokens, last): (&[Sym], Sym),
    state: usize,
) -> io::Result<Option<Vec<usize>>> {
    if !put_with_last(session, tokens, last)? {
        return Ok(None);
    }
    let after = if last == END { 0 } else { 1 };
    let (mut pace, mut states) = (Pace::new(MOST_STEPS, MOST_STEPS), None);
    for _ in 0..MOST_STEPS {
        let is_last = session.view().rest_len() == after;
        if is_last && states.is_none() {
            states = Some(stack_states(alloc, session)?);
        }
        match pace.step(session)? {
            Some(StepKind::Detect) if is_last && session.state() == state => return Ok(states),
            Some(StepKind::Detect) | None => break,
            Some(_) => {}
        }
    }
    Ok(None)
}

/// Puts a list into a session at its start, which is left there unless memory runs out. Gives what
/// comes of it, where the first error is detected in this state with the last token ahead; the
/// tokens that could come are told in a share of the reductions.
pub fn confirm(
    alloc: Global,
    session: &mut Session,
    (tokens, last): (Vec<Sym>, Sym),
    state: usize,
    reductions: &mut Share,
) -> io::Result<Option<Confirmed>> {
    let states = states_before(alloc, session, (tokens.as_slice(), last), state)?;
    let mut stack = Vec::new(alloc);
    for index in 0..session.view().stack_len() {
        stack
            .push(stack_symbol(session, index))
            .map_err(AllocError::from)?;
    }
    go_back(session);
    let Some(states) = states else {
        return Ok(None);
    };
    let most = reductions.part();
    let mut rest = most;
    let wanted = expected_within(alloc, session.tables(), &states, &mut rest)?;
    reductions.spend(most.saturating_sub(rest));
    Ok(Some(Confirmed {
        tokens,
        last,
        stack,
        wanted,
    }))
}
