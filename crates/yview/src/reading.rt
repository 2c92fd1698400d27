//! Readings of a parse that answer for any number, and names as text.

use std::str;
use yexplain::reads;
use ylalr::END;
use yparse::{Session, TreeView};
use ysymbols::{Grammar, Sym};
use ytables::Tables;

/// How many nodes a parse has at most: no step makes more than one.
pub const MOST_NODES: usize = 1_000_000;

/// The printed name of a symbol; empty for a number that is no symbol.
pub fn name_of(grammar: &Grammar, symbol: Sym) -> &str {
    str::from_utf8(reads::name_of(grammar, symbol)).unwrap_or("?")
}

/// The number of the last rule.
pub fn last_rule(grammar: &Grammar) -> usize {
    grammar.rules().saturating_sub(1)
}

/// The number of the last state.
pub fn last_state(tables: &Tables) -> usize {
    tables.automaton().states().saturating_sub(1)
}

/// The symbol of a stack entry, counted from the bottom.
pub fn stack_symbol(session: &Session, index: usize) -> Sym {
    let view = session.view();
    if index < view.stack_len() {
        view.stack(index)
    } else {
        END
    }
}

/// The state after the symbols of the stack up to an entry, counted from the bottom, and its own.
pub fn stack_state(session: &Session, index: usize) -> usize {
    if index < session.view().stack_len() {
        session.state_at(index)
    } else {
        0
    }
}

/// An upcoming token and its place; `$end` after the last.
pub fn upcoming_token(session: &Session, index: usize) -> (Sym, usize) {
    let view = session.view();
    if index < view.rest_len() {
        view.rest(index)
    } else {
        (END, 0)
    }
}

/// The token ahead; `$end` after the last token.
pub fn token_ahead(session: &Session) -> Sym {
    upcoming_token(session, 0).0
}

/// The tree of a stack entry, counted from the bottom.
pub fn tree_at(session: &Session, index: usize) -> Option<TreeView<'_>> {
    if index < session.view().stack_len() {
        Some(session.tree_at(index))
    } else {
        None
    }
}

/// The tree of a child.
pub fn child_of<'a>(tree: &TreeView<'a>, index: usize) -> Option<TreeView<'a>> {
    if index < tree.children() {
        Some(tree.child(index))
    } else {
        None
    }
}
