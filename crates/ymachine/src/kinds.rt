//! The kinds of the step and of the edits that a parse may make now.

ghost use Rattle.std.specs.Prelude.{◌≡◌, IsTrue};
ghost use Rattle.ymachine.specs.Ahead.{Ahead};
ghost use Rattle.ymachine.specs.Content.{running_at, popping_at, kind_in, edit_kind, valid};
ghost use Rattle.ymachine.specs.Content.{place_next, place_edited};
ghost use Rattle.ymachine.specs.Parts.{content_of};
ghost use Rattle.ymachine.specs.Place.{place_of};
ghost use Rattle.ytokens.specs.Tokens.{symbols_of};

use crate::machine::{Edit, Mode, StepFault, StepKind};
use crate::parts::{Parts, state_below};
use crate::rest::{is_left, token_ahead};
use crate::tables::{cell, grammar_of, known};
use ylalr::ERROR;
use ysymbols::Sym;
use ytables::{Action, Tables};
use ytokens::tokens::{Tokens, is_input};

/// The kind of the step of a running parse.
fn kind_running(tables: &Tables, tokens: &[Sym], parts: &Parts, state: usize) -> StepKind
    ensures { result ≡ running_at tables.now tokens.now (content_of parts.now) state }
{
    let token = token_ahead(tokens, &parts.rest);
    match cell(tables, state, token) {
        Action::Shift(_) => StepKind::Shift(token),
        Action::Reduce(rule) => StepKind::Reduce(rule),
        Action::Accept => StepKind::Accept,
        Action::Error if parts.counter != 3 => StepKind::Detect,
        Action::Error if is_left(tokens, &parts.rest) => StepKind::Discard(token),
        Action::Error => StepKind::Fail,
    }
}

/// The kind of the step that looks for a state in which `error` can be shifted.
fn kind_popping(tables: &Tables, parts: &Parts, state: usize) -> StepKind
    ensures { result ≡ popping_at tables.now (content_of parts.now) state }
{
    if let Action::Shift(_) = cell(tables, state, ERROR) {
        return StepKind::ShiftError;
    }
    let len = parts.stack.len();
    if len == 0 {
        StepKind::Fail
    } else {
        StepKind::Pop(parts.stack[len - 1].symbol)
    }
}

/// The kind of an edit, or `None` where the edit can't be made.
fn edit_kind(tables: &Tables, tokens: &Tokens, parts: &Parts, edit: Edit) -> Option<StepKind>
    ensures { result
        ≡ edit_kind tables.now (symbols_of tokens.now) (content_of parts.now) edit }
{
    let symbols: &[Sym] = &tokens.symbols;
    match edit {
        Edit::Insert(token) if is_input(grammar_of(tables), token) => Some(StepKind::Insert(token)),
        Edit::Drop if is_left(symbols, &parts.rest) => {
            Some(StepKind::Drop(token_ahead(symbols, &parts.rest)))
        }
        Edit::Insert(_) | Edit::Drop => None,
    }
}

/// The kind of the next step, or `None` where no step follows.
fn next_kind(tables: &Tables, tokens: &Tokens, parts: &Parts) -> Option<StepKind>
    ensures { result
        ≡ kind_in tables.now (symbols_of tokens.now) (content_of parts.now) parts.now.mode }
{
    let state = state_below(&parts.stack, parts.stack.len());
    match parts.mode {
        Mode::Running => Some(kind_running(tables, &tokens.symbols, parts, state)),
        Mode::Popping => Some(kind_popping(tables, parts, state)),
        Mode::Accepted => None,
        Mode::Failed => None,
    }
}

/// The kind of the next step, or S1.
pub(crate) fn step_ahead(
    tables: &Tables,
    tokens: &Tokens,
    parts: &Parts,
) -> Result<StepKind, StepFault>
    requires { IsTrue (valid (place_of tables.now tokens.now parts.now)) }
    ensures { Ahead place_next place_next (place_of tables.now tokens.now parts.now) result }
{
    known(tables);
    match next_kind(tables, tokens, parts) {
        Some(kind) => Ok(kind),
        None => Err(StepFault::Halted),
    }
}

/// The kind of an edit; S1 where no step follows, else S4 where it can't be made.
pub(crate) fn edit_ahead(
    tables: &Tables,
    tokens: &Tokens,
    parts: &Parts,
    edit: Edit,
) -> Result<StepKind, StepFault>
    requires { IsTrue (valid (place_of tables.now tokens.now parts.now)) }
    ensures { Ahead place_next (place_edited edit) (place_of tables.now tokens.now parts.now)
        result }
{
    known(tables);
    match next_kind(tables, tokens, parts) {
        None => Err(StepFault::Halted),
        Some(_) => match edit_kind(tables, tokens, parts, edit) {
            Some(kind) => Ok(kind),
            None => Err(StepFault::NoToken),
        },
    }
}
