//! The states of a stack: what is done in the one on top with a token ahead, and the states that
//! this leaves (Aho, Sethi and Ullman, 4.7, the LR parsing algorithm).

ghost use Rattle.std.specs.Prelude.{◌≡◌, IfOk, OnOk};
ghost use Rattle.ymachine.specs.Machine.{symbols};
ghost use Rattle.ysession.specs.Session.{history_of, tables_of};
ghost use Rattle.ysession.specs.States.{Acts, AreStates, Basis, acted, reduced, top_of};

use crate::session::Session;
use std::alloc::{AllocError, Global};
use ymachine::tables::{cell, goto, known, rule_of};
use ysymbols::Sym;
use ytables::{Action, Tables};

/// This call does nothing. It says what a parse by tables rests on.
fn basis(tables: &Tables)
    ensures { Basis tables.now }
{
    known(tables);
    let _states = tables.automaton().states();
}

/// The state on top; 0 where there are no states.
fn top_state(states: &[usize]) -> usize
    ensures { result ≡ top_of states.now }
{
    let top = states.len().saturating_sub(1);
    states.get(top).copied().unwrap_or(0)
}

/// The left side of a rule takes the place of its body.
fn reduce(tables: &Tables, states: &mut Vec<usize>, rule: usize) -> Result<(), AllocError>
    ensures { OnOk result (states.new.items ≡ reduced tables.now rule states.old.items) }
{
    let (left, body) = rule_of(tables, rule);
    let below = states.len().saturating_sub(body.len());
    states.truncate(below);
    let to = goto(tables, top_state(states), left).unwrap_or(0);
    states.push(to)?;
    Ok(())
}

/// Leaves the states after an action: a shift pushes its state, and a reduction replaces the states
/// of a body by the one of the left side.
fn leave(tables: &Tables, states: &mut Vec<usize>, action: Action) -> Result<(), AllocError>
    ensures { OnOk result (states.new.items ≡ acted tables.now action states.old.items) }
{
    match action {
        Action::Shift(to) => states.push(to)?,
        Action::Reduce(rule) => reduce(tables, states, rule)?,
        Action::Accept | Action::Error => {}
    }
    Ok(())
}

/// Does what the tables say in the state on top with a token ahead, and says what. Where these are
/// the states of the stack of a parse that goes on with this token ahead, that is its next step,
/// and the states after it are left. Only an `Err` is no step: memory ran out.
pub fn act(tables: &Tables, states: &mut Vec<usize>, token: Sym) -> Result<Action, AllocError>
    ensures { Acts tables.now states.old.items token result states.new.items }
{
    basis(tables);
    let action = cell(tables, top_state(states), token);
    leave(tables, states, action)?;
    Ok(action)
}

/// The states of the stack of a session, the first state of all at the bottom.
#[tactic(auto, unfolding(crate::specs::Session::setting_of, crate::specs::Session::history_of))]
pub fn stack_states(alloc: Global, session: &Session) -> Result<Vec<usize>, AllocError>
    ensures { IfOk result (λ states. AreStates (tables_of session.now)
        (symbols (history_of session.now).now.stack) states.items) }
{
    let mut states = Vec::new(alloc);
    states.push(0)?;
    for index in 0..session.view().stack_len() {
        states.push(session.state_at(index))?;
    }
    Ok(states)
}
