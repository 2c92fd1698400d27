//! The texts that the calls hand over, in memory of their own.

ghost use Rattle.std.specs.Prelude.{ℕ, List, IfOk, IfErr, IfSome};
ghost use Rattle.ysession.specs.Session.{machine_of, history_of};
ghost use Rattle.ystepper.specs.Plain.{HasOneText};
ghost use Rattle.yembed.specs.Refusals.{LacksTables, Refuses};
ghost use Rattle.yembed.specs.Sessions.{IsSession, Replies};
ghost use Rattle.yembed.specs.Texts.{Counts, IsReport, IsTable};

use crate::refusal::Refusal;
use crate::sources::{session_of, tables_of};
use std::alloc::Global;
use ysession::Session;
use ystepper::run::run_session;
use ytables::{Link, Tables};

/// How many conflicts the cells of all states count.
#[repr(C)]
#[derive(Clone, Copy)]
pub struct Conflicts {
    /// One for each rule that could be reduced beside a shift.
    pub shift_reduce: usize,
    /// One for each rule that could be reduced beside the rule that is.
    pub reduce_reduce: usize,
}

/// A text of tables, and their conflicts.
#[derive(Drop)]
pub(crate) struct Written {
    pub(crate) text: Vec<u8>,
    pub(crate) conflicts: Conflicts,
}

/// What a session replies to these command lines, or `None` where memory runs out for that.
fn replies_of(alloc: Global, session: Session, commands: &[u8]) -> Option<Vec<u8>>
    ensures replies { IfSome result (λ text.
        Replies (machine_of session) (history_of session) commands.now text.items) }
    ensures plain { (lines : List (List ℕ)) →
        HasOneText (machine_of session) (history_of session) lines }
{
    let mut reader = Link::new(commands);
    let mut writer = Link::new(Vec::new(alloc));
    match run_session(session, &mut reader, &mut writer) {
        Ok(()) => Some(writer.into_inner()),
        Err(_) => None,
    }
}

/// What a session over a grammar and tokens replies to these command lines.
pub(crate) fn session_text(
    alloc: Global,
    grammar: &[u8],
    tokens: &[u8],
    commands: &[u8],
) -> Result<Vec<u8>, Refusal>
    ensures text { IfOk result (λ text.
        IsSession grammar.now tokens.now commands.now text.items) }
    ensures refused { IfErr result (Refuses grammar.now tokens.now) }
{
    let session = match session_of(alloc, grammar, tokens) {
        Ok(session) => session,
        Err(refusal) => return Err(refusal),
    };
    match replies_of(alloc, session, commands) {
        Some(text) => Ok(text),
        None => Err(Refusal::NoRoom),
    }
}

/// The conflicts of tables.
fn conflicts_of(tables: &Tables) -> Conflicts
    ensures { Counts tables.now result }
{
    let counts = tables.conflicts();
    Conflicts {
        shift_reduce: counts.shift_reduce as usize,
        reduce_reduce: counts.reduce_reduce as usize,
    }
}

/// The table of a grammar.
pub(crate) fn table_text(alloc: Global, grammar: &[u8]) -> Result<Written, Refusal>
    ensures text { IfOk result (λ w. IsTable grammar.now w.conflicts w.text.items) }
    ensures refused { IfErr result (LacksTables grammar.now) }
{
    let tables = match tables_of(alloc, grammar) {
        Ok(tables) => tables,
        Err(refusal) => return Err(refusal),
    };
    let conflicts = conflicts_of(&tables);
    let mut link = Link::new(Vec::new(alloc));
    let written = tables.write_table(&mut link);
    drop(tables);
    match written {
        Ok(()) => Ok(Written {
            text: link.into_inner(),
            conflicts,
        }),
        Err(_) => Err(Refusal::NoRoom),
    }
}

/// The report on a grammar.
pub(crate) fn report_text(alloc: Global, grammar: &[u8]) -> Result<Written, Refusal>
    ensures text { IfOk result (λ w. IsReport grammar.now w.conflicts w.text.items) }
    ensures refused { IfErr result (LacksTables grammar.now) }
{
    let tables = match tables_of(alloc, grammar) {
        Ok(tables) => tables,
        Err(refusal) => return Err(refusal),
    };
    let conflicts = conflicts_of(&tables);
    let mut link = Link::new(Vec::new(alloc));
    let written = tables.write_report(&mut link);
    drop(tables);
    match written {
        Ok(()) => Ok(Written {
            text: link.into_inner(),
            conflicts,
        }),
        Err(_) => Err(Refusal::NoRoom),
    }
}
