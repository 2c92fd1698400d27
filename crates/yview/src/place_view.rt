//! Where a parse stands: its mode, its stack, its upcoming tokens, and the items of its state.

use crate::page::{Page, Paint};
use crate::reading::{name_of, stack_state, stack_symbol, token_ahead, upcoming_token};
use crate::state_view::put_kernel;
use std::io::Write;
use yexplain::reads::grammar_of;
use yparse::Session;
use yparse::machine::Mode;

/// How many symbols of the stack and of the upcoming tokens one line shows.
const SOME: usize = 14;
/// How many lines or tokens are shown at most.
pub const MANY: usize = 1_000;

/// Which token is ahead.
fn put_ahead<W: Write>(page: &mut Page<W>, session: &Session, tokens: usize) {
    let place = upcoming_token(session, 0).1;
    if session.view().rest_len() == 0 {
        page.put(", at the end of ");
        page.count(tokens, "token", "tokens");
    } else if place == 0 {
        page.put(", an inserted token ahead");
    } else {
        let _ = write!(page, ", token {place} of {tokens}");
    }
}

/// The position, the mode, the errors, and the token ahead; `tokens` were read from the file. Then
/// how many tokens must be shifted until an error is reported again, where any must.
pub fn put_head<W: Write>(page: &mut Page<W>, session: &Session, tokens: usize) {
    let (paint, words) = match session.view().mode() {
        Mode::Running => (Paint::Strong, "running"),
        Mode::Popping => (Paint::Bad, "popping, to a state that can shift error"),
        Mode::Accepted => (Paint::Good, "accepted"),
        Mode::Failed => (Paint::Bad, "given up"),
    };
    page.number_to(7, session.position());
    page.put("  ");
    page.painted(paint, words);
    page.put(", ");
    match session.view().errors() {
        0 => page.put("no errors"),
        errors => page.count(errors, "error", "errors"),
    }
    put_ahead(page, session, tokens);
    page.end();
    let counter = session.view().counter();
    if counter > 0 {
        page.put("recovery  errors are reported again after ");
        page.count(counter, "more shift", "more shifts");
        page.end();
    }
}

/// The symbols on top of the stack.
pub fn put_top<W: Write>(page: &mut Page<W>, session: &Session) {
    let grammar = grammar_of(session.tables());
    let len = session.view().stack_len();
    page.put(match len {
        0 => "stack     (empty)",
        1..=SOME => "stack    ",
        _ => "stack     ..",
    });
    for index in len.saturating_sub(SOME)..len {
        page.put(" ");
        page.put(name_of(grammar, stack_symbol(session, index)));
    }
    page.end();
}

/// The whole configuration in some lines: its head, its stack, the first of the upcoming tokens, and
/// its state.
pub fn put_where<W: Write>(page: &mut Page<W>, session: &Session, tokens: usize) {
    put_head(page, session, tokens);
    put_top(page, session);
    let (tables, state) = (session.tables(), session.state());
    let len = session.view().rest_len();
    page.put(match len {
        0 => "upcoming  (none)",
        _ => "upcoming ",
    });
    for index in 0..len.min(SOME) {
        page.put(" ");
        page.put(name_of(grammar_of(tables), upcoming_token(session, index).0));
    }
    page.put(if len > SOME { " .." } else { "" });
    page.end();
    let _ = writeln!(page, "state {state}");
    put_kernel(page, tables, state, token_ahead(session));
}

/// Writes how many of what was asked for are left out, where some are.
pub fn put_more<W: Write>(page: &mut Page<W>, count: usize, what: &str) {
    if count > 0 {
        let _ = writeln!(page, "  .. {count}{what}");
    }
}

/// The stack, a line for each entry, the top last: its number from the bottom, its symbol, and the
/// state after it. The last 1,000 of them.
pub fn put_stack<W: Write>(page: &mut Page<W>, session: &Session) {
    let len = session.view().stack_len();
    let from = len.saturating_sub(MANY);
    if len == 0 {
        page.line("The stack is empty.");
        return;
    }
    put_more(page, from, " entries below");
    let grammar = grammar_of(session.tables());
    for index in from..len {
        page.number_to(7, index.saturating_add(1));
        page.put("  ");
        page.put(name_of(grammar, stack_symbol(session, index)));
        page.tab(40);
        let _ = writeln!(page, "state {}", stack_state(session, index));
    }
}
