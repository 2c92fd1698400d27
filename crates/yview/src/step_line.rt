//! The line of a step: its position, its kind, its rule, and the state after it.

use crate::page::{Page, Paint};
use crate::reading::{name_of, token_ahead};
use std::io::Write;
use yexplain::reads::grammar_of;
use yexplain::text::RuleText;
use yparse::Session;
use yparse::machine::StepKind;
use ysymbols::{Grammar, Sym};

/// The column of the numbers of rules, and that of states.
const RULES: usize = 58;

const STATES: usize = 69;

/// A step or an undo that was made, as its line shows it.
#[derive(Clone, Copy)]
pub struct StepLine {
    /// The position after it.
    pub position: usize,
    /// What was done or undone.
    pub kind: StepKind,
    /// Whether it was undone.
    pub undone: bool,
    /// The state after it.
    pub state: usize,
    /// The token ahead after it.
    pub ahead: Sym,
}

impl StepLine {
    /// The line of what was just made.
    pub fn of(session: &Session, kind: StepKind, undone: bool) -> StepLine {
        StepLine {
            position: session.position(),
            kind,
            undone,
            state: session.state(),
            ahead: token_ahead(session),
        }
    }
}

/// The word of a kind.
pub fn kind_word(kind: StepKind) -> &'static str {
    match kind {
        StepKind::Shift(_) => "shift",
        StepKind::Reduce(_) => "reduce",
        StepKind::Accept => "accept",
        StepKind::Detect => "error",
        StepKind::Pop(_) => "pop",
        StepKind::ShiftError => "shift",
        StepKind::Discard(_) => "discard",
        StepKind::Fail => "give up",
        StepKind::Insert(_) => "insert",
        StepKind::Drop(_) => "drop",
    }
}

/// What a kind is about: a symbol, a rule, or where an error is.
pub fn put_subject<W: Write>(page: &mut Page<W>, grammar: &Grammar, kind: StepKind, ahead: Sym) {
    match kind {
        StepKind::Shift(symbol)
        | StepKind::Pop(symbol)
        | StepKind::Discard(symbol)
        | StepKind::Insert(symbol)
        | StepKind::Drop(symbol) => page.put(name_of(grammar, symbol)),
        StepKind::Reduce(rule) => page.show(RuleText(grammar, rule)),
        StepKind::ShiftError => page.put("error"),
        StepKind::Detect => {
            let _ = write!(page, "{} can't come here", name_of(grammar, ahead));
        }
        StepKind::Accept | StepKind::Fail => {}
    }
}

/// The number of the rule of a reduction.
pub fn put_rule_number<W: Write>(page: &mut Page<W>, kind: StepKind) {
    if let StepKind::Reduce(rule) = kind {
        page.tab(RULES);
        let _ = write!(page, "rule {rule}");
    }
}

/// Writes the line of what was made.
pub fn put_made<W: Write>(page: &mut Page<W>, session: &Session, line: StepLine) {
    page.number_to(7, line.position);
    page.put(if line.undone { "  undo " } else { "  " });
    let paint = match line.kind {
        StepKind::Accept => Paint::Good,
        StepKind::Detect | StepKind::Fail => Paint::Bad,
        _ => Paint::Strong,
    };
    page.painted(paint, kind_word(line.kind));
    page.tab(if line.undone { 23 } else { 18 });
    put_subject(page, grammar_of(session.tables()), line.kind, line.ahead);
    put_rule_number(page, line.kind);
    page.tab(STATES);
    let _ = writeln!(page, "state {}", line.state);
}
