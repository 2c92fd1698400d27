//! A grammar without one of its rules, with a copy of a nonterminal, with rules that are written
//! otherwise, or with further precedences: written as a text without actions, which is read anew, so
//! that its own tables tell how many conflicts it has, and which sentences they accept.

use crate::changed_text::{Change, Changed};
use crate::rewriting::rewritten;
use std::alloc::{AllocError, Global};
use yexplain::lines::Lines;
use yexplain::reads::Made;
use yfiles::output::Output;
use ygrammar::{Grammar, GrammarFault, read_grammar};
use ylalr::{BuildFault, build};
use ytables::{Tables, resolve};

/// The tables of a grammar that is written as a text; `None` where that is refused, or has too many
/// states.
fn tables_of(alloc: Global, text: &[u8]) -> Made<Option<Tables>> {
    let grammar = match read_grammar(alloc, text) {
        Ok(grammar) => grammar,
        Err(GrammarFault::Memory) => return Err(AllocError),
        Err(_) => return Ok(None),
    };
    let automaton = match build(alloc, grammar) {
        Ok(automaton) => automaton,
        Err(BuildFault::Memory) => return Err(AllocError),
        Err(BuildFault::TooManySets) => return Ok(None),
    };
    match resolve(alloc, automaton) {
        Ok(tables) => Ok(Some(tables)),
        Err(_) => Err(AllocError),
    }
}

/// The tables of a grammar after a change; `None` where what comes of it is no grammar, or one with
/// too many states.
pub fn tables_after(
    alloc: Global,
    grammar: &Grammar,
    lines: &Lines,
    change: Change,
) -> Made<Option<Tables>> {
    let changed = Changed {
        grammar,
        lines,
        change,
    };
    let mut out = Output::new(alloc);
    match change {
        Change::Rewritten(rewriting) => {
            let rules = rewritten(alloc, grammar, lines, rewriting)?;
            changed.put_written(&mut out, &rules);
        }
        _ => changed.put(&mut out),
    }
    tables_of(alloc, &out.into_bytes()?)
}

/// How many conflicts the tables of a grammar have after a change; `None` where what comes of it is
/// no grammar, or one with too many states.
pub fn conflicts_after(
    alloc: Global,
    grammar: &Grammar,
    lines: &Lines,
    change: Change,
) -> Made<Option<usize>> {
    match tables_after(alloc, grammar, lines, change)? {
        Some(tables) => Ok(Some(conflicts_in(&tables))),
        None => Ok(None),
    }
}

/// How many conflicts tables have.
pub fn conflicts_in(tables: &Tables) -> usize {
    let counts = tables.conflicts();
    counts.shift_reduce.saturating_add(counts.reduce_reduce) as usize
}
