//! Which tokens could come next: each is tried over the states of a stack, which stay.

ghost use Rattle.std.specs.Prelude.{◌≡◌, ◌-◌, ◌+◌, ◌≤◌, IfOk};
ghost use Rattle.ymachine.specs.declared.machine.Mode.TheVariants.{Running};
ghost use Rattle.ymachine.specs.Machine.{Configuration, symbols};
ghost use Rattle.ymachine.specs.MachineOver.{machine_over};
ghost use Rattle.ymachine.specs.Past.{most_steps, position};
ghost use Rattle.ysession.specs.Session.{history_of, machine_of, tables_of};
ghost use Rattle.ysession.specs.States.{AreStates, GoesOn};
ghost use Rattle.ysession.specs.Expected.{Says, SaysWithin, Shows, can_be_next, edits_for};

use crate::session::Session;
use crate::states::{act, stack_states};
use crate::verdict::MOST_STEPS;
use std::alloc::{AllocError, Global};
use ylalr::END;
use ymachine::machine::Mode;
use ymachine::tables::grammar_of;
use ysymbols::Sym;
use ytables::{Action, Tables};
use ytokens::tokens::is_input;

/// What is known of a token that might come next.
#[derive(Clone, Copy, Debug, PartialEq, Eq)]
pub enum Outlook {
    /// It can't come.
    Unexpected,
    /// It could come.
    Expected,
    /// As many reductions come as are made before that shows.
    Untold,
}

/// What a trial of a token shows, and how many reductions it made.
#[derive(Clone, Copy, Debug, PartialEq, Eq)]
pub struct Trial {
    /// What it shows.
    pub outlook: Outlook,
    /// How many reductions it made.
    pub reductions: usize,
}

/// Whether a token can be next: the end, or an input token.
#[tactic(auto, unfolding(ymachine::specs::MachineOver::machine_over))]
fn can_be_next(tables: &Tables, token: Sym) -> bool
    ensures { result ≡ can_be_next (machine_over tables.now).tokens token }
{
    token == END || is_input(grammar_of(tables), token)
}

/// What comes of a token ahead in a parse over these states, by so many reductions at most.
fn tried(
    tables: &Tables,
    states: &mut Vec<usize>,
    token: Sym,
    most: usize,
) -> Result<Trial, AllocError>
    ensures shows { IfOk result (λ trial. (first : Configuration)
        → GoesOn tables.now first token states.old.items
        → Shows (machine_over tables.now) first token most trial.outlook) }
    ensures few { IfOk result (λ trial. trial.reductions ≤ most) }
{
    for reductions in 0..most {
        let outlook = match act(tables, states, token)? {
            Action::Reduce(_) => continue,
            Action::Shift(_) | Action::Accept => Outlook::Expected,
            Action::Error => Outlook::Unexpected,
        };
        return Ok(Trial {
            outlook,
            reductions,
        });
    }
    let (outlook, reductions) = (Outlook::Untold, most);
    Ok(Trial {
        outlook,
        reductions,
    })
}

/// What is known of a token as one that could come next in a parse whose stack has these states,
/// the first state of all at the bottom. A trial makes so many reductions at most, and is untold
/// exactly where so many come. The states stay, and so does the parse. Only an `Err` tells nothing:
/// memory ran out.
pub fn outlook_over(
    alloc: Global,
    tables: &Tables,
    states: &[usize],
    token: Sym,
    most: usize,
) -> Result<Trial, AllocError>
    ensures says { IfOk result (λ trial. (c : Configuration) → c.mode ≡ Running
        → AreStates tables.now (symbols c.stack) states.now
        → SaysWithin (machine_over tables.now) c token most trial.outlook) }
    ensures few { IfOk result (λ trial. trial.reductions ≤ most) }
{
    if !can_be_next(tables, token) {
        let (outlook, reductions) = (Outlook::Unexpected, 0);
        return Ok(Trial {
            outlook,
            reductions,
        });
    }
    let mut tops = Vec::from_slice(alloc, states)?;
    tried(tables, &mut tops, token, most)
}

/// How many positions are left in a session once a token is brought next, by an edit or, for the
/// end, by as many as tokens are upcoming.
fn room_for(session: &Session, token: Sym) -> usize
    ensures { result ≡ most_steps - (position (history_of session.now)
        + edits_for token (history_of session.now).now) }
{
    let edits = match token {
        END => session.view().rest_len(),
        _ => 1,
    };
    MOST_STEPS
        .saturating_sub(session.position())
        .saturating_sub(edits)
}

/// What is known of a token as one that could come next in a session that goes on.
fn outlook_running(
    alloc: Global,
    session: &Session,
    states: &[usize],
    token: Sym,
) -> Result<Outlook, AllocError>
    requires states { AreStates (tables_of session.now) (symbols (history_of session.now).now.stack)
        states.now }
    requires running { (history_of session.now).now.mode ≡ Running }
    ensures { IfOk result (Says (machine_of session.now) (history_of session.now) token) }
{
    let most = room_for(session, token);
    let Trial { outlook, .. } = outlook_over(alloc, session.tables(), states, token, most)?;
    Ok(outlook)
}

/// The same of a session of whose stack these are the states, as `stack_states` gives them.
pub fn outlook_at(
    alloc: Global,
    session: &Session,
    states: &[usize],
    token: Sym,
) -> Result<Outlook, AllocError>
    requires { AreStates (tables_of session.now) (symbols (history_of session.now).now.stack)
        states.now }
    ensures { IfOk result (Says (machine_of session.now) (history_of session.now) token) }
{
    match session.view().mode() {
        Mode::Running => outlook_running(alloc, session, states, token),
        Mode::Popping | Mode::Accepted | Mode::Failed => Ok(Outlook::Unexpected),
    }
}

/// What is known of a token as one that could come next in a session, which stays as it is. It is
/// untold only where the limit of positions comes before that shows. Only an `Err` tells nothing:
/// memory ran out.
pub fn outlook_in(alloc: Global, session: &Session, token: Sym) -> Result<Outlook, AllocError>
    ensures { IfOk result (Says (machine_of session.now) (history_of session.now) token) }
{
    let states = stack_states(alloc, session)?;
    outlook_at(alloc, session, &states, token)
}
