//! The last steps and edits of a parse, and its whole input with the edits.

use std::io::Write;
use yexplain::reads::grammar_of;
use yinput::Parse;
use yparse::Session;
use yparse::machine::StepKind;
use ysymbols::Sym;
use yview::page::Page;
use yview::reading::{name_of, upcoming_token};
use yview::step_line::{kind_word, put_rule_number, put_subject};

/// How many steps are shown unless told otherwise.
pub const SOME_STEPS: usize = 20;

/// A step or an edit that stands, the first one at 0, and what it is about.
fn put_past<W: Write>(page: &mut Page<W>, session: &Session, index: usize) {
    let Some(kind) = session.kind_at(index) else {
        return;
    };
    page.number_to(7, index.saturating_add(1));
    page.put("  ");
    page.put(kind_word(kind));
    match kind {
        StepKind::Accept | StepKind::Fail => {}
        StepKind::Detect => {
            page.tab(18);
            page.put("a token that can't come");
        }
        kind => {
            page.tab(18);
            put_subject(page, grammar_of(session.tables()), kind, ylalr::END);
        }
    }
    put_rule_number(page, kind);
    page.end();
}

/// The last steps and edits, so many at most.
pub fn put_history<W: Write>(page: &mut Page<W>, parse: &Parse, most: usize) {
    let position = parse.session.position();
    let from = position.saturating_sub(most);
    if position == 0 {
        page.line("Nothing was done yet.");
        return;
    }
    if from > 0 {
        page.line("   ..");
    }
    for index in from..position {
        put_past(page, &parse.session, index);
    }
}

/// The token that was ahead after a step that stands: what came after it shifted, discarded or
/// dropped it, or it is upcoming.
fn ahead_after(session: &Session, index: usize) -> Sym {
    let mut inserted = 0_usize;
    for later in index.saturating_add(1)..session.position() {
        match session.kind_at(later) {
            Some(StepKind::Insert(_)) => inserted = inserted.saturating_add(1),
            Some(StepKind::Shift(token) | StepKind::Discard(token) | StepKind::Drop(token)) => {
                if inserted == 0 {
                    return token;
                }
                inserted = inserted.saturating_sub(1);
            }
            _ => {}
        }
    }
    upcoming_token(session, inserted).0
}

/// Where errors were detected: the position after each, and the token that couldn't come.
pub fn put_errors<W: Write>(page: &mut Page<W>, parse: &Parse) {
    let session = &parse.session;
    if session.view().errors() == 0 {
        page.line("No error was detected so far.");
    }
    for index in 0..session.position() {
        if let Some(StepKind::Detect) = session.kind_at(index) {
            let token = ahead_after(session, index);
            page.number_to(7, index.saturating_add(1));
            let name = name_of(grammar_of(session.tables()), token);
            let _ = writeln!(page, "  {name} couldn't come");
        }
    }
}

/// Whether any edit stands.
pub fn has_edits(session: &Session) -> bool {
    for index in 0..session.position() {
        let kind = session.kind_at(index);
        if matches!(kind, Some(StepKind::Insert(_) | StepKind::Drop(_))) {
            return true;
        }
    }
    false
}

/// The whole input with its edits, in the form of a tokens file: the tokens that were read and
/// shifted or discarded, and then the upcoming ones.
pub fn put_tokens<W: Write>(page: &mut Page<W>, parse: &Parse) {
    let (grammar, session) = (grammar_of(parse.session.tables()), &parse.session);
    for index in 0..session.position() {
        if let Some(StepKind::Shift(token) | StepKind::Discard(token)) = session.kind_at(index) {
            page.word(0, name_of(grammar, token));
        }
    }
    for index in 0..session.view().rest_len() {
        let (token, _) = upcoming_token(session, index);
        page.word(0, name_of(grammar, token));
    }
    page.end();
}
