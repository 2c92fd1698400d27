//! What a run stops at.

use crate::refusal::Refusal;
use crate::words::{Found, find, first_word, number_of};
use std::alloc::Global;
use std::io::Write;
use yexplain::reads::{Made, conflict_of, grammar_of, left_of};
use yfaults::nearest::Search;
use ylalr::{END, ERROR};
use yparse::Session;
use yparse::machine::{Mode, StepKind};
use ysymbols::{Grammar, Sym};
use yview::Page;
use yview::reading::{last_rule, last_state, name_of, token_ahead, upcoming_token};

/// The most entries that a stack has.
const DEEPEST: usize = 1_000_000;

/// What a run stops at.
#[derive(Clone, Copy)]
pub enum Condition {
    /// This token was shifted.
    Shift(Sym),
    /// This rule was reduced.
    Reduce(usize),
    /// A rule of this nonterminal was reduced.
    ReduceTo(Sym),
    /// An error was detected.
    Error,
    /// The state and the token ahead have a conflict.
    Conflict,
    /// The state is this.
    State(usize),
    /// The token of this place is ahead.
    Token(usize),
    /// The stack has so many entries.
    Depth(usize),
    /// The input was accepted.
    Accept,
    /// A token of the input was shifted.
    AnyShift,
    /// The entry that stood on top at this depth is part of a reduction, or was popped.
    Top(usize),
}

/// Each condition by its word, with 0 where a name or a number has to follow.
pub const WORDS: [(&str, Condition); 8] = [
    ("shift", Condition::Shift(0)),
    ("reduce", Condition::Reduce(0)),
    ("error", Condition::Error),
    ("conflict", Condition::Conflict),
    ("state", Condition::State(0)),
    ("token", Condition::Token(0)),
    ("depth", Condition::Depth(0)),
    ("accept", Condition::Accept),
];

/// A number of these.
pub fn number_in(word: &str, what: &'static str, from: usize, to: usize) -> Result<usize, Refusal> {
    match number_of(word) {
        Some(number) if from <= number && number <= to => Ok(number),
        None if !is_digits(word) => Err(Refusal::NoNumber),
        _ if to < from => Err(Refusal::None(what)),
        _ => Err(Refusal::Range(what, from, to)),
    }
}

/// Whether a word is a number, also where it is too long for one.
pub fn is_digits(word: &str) -> bool {
    !word.is_empty() && word.bytes().all(|b| b.is_ascii_digit())
}

/// The symbol of a name.
pub fn symbol_named(session: &Session, name: &str) -> Option<Sym> {
    let named = grammar_of(session.tables()).find(name.as_bytes());
    session.token(name.as_bytes()).or(named)
}

/// The token of a name: one of the input, or `error` or `$end`.
pub fn token_named(session: &Session, name: &str) -> Option<Sym> {
    let grammar = grammar_of(session.tables());
    symbol_named(session, name).filter(|symbol| grammar.is_token(*symbol))
}

/// What is reduced: a rule by its number, or a nonterminal by its name.
fn reduced(grammar: &Grammar, name: &str) -> Result<Condition, Refusal> {
    if is_digits(name) {
        return number_in(name, "rules", 1, last_rule(grammar)).map(Condition::Reduce);
    }
    match grammar.find(name.as_bytes()) {
        Some(symbol) if !grammar.is_token(symbol) => Ok(Condition::ReduceTo(symbol)),
        _ => Err(Refusal::NoNonterminal),
    }
}

/// The condition that a text says, where the file has so many tokens: by its word and what follows.
pub fn condition_of(session: &Session, tokens: usize, text: &str) -> Result<Condition, Refusal> {
    let (tables, (word, name)) = (session.tables(), first_word(text));
    let condition = match find(&WORDS, word) {
        Found::One(condition) => condition,
        Found::Many if !word.is_empty() => return Err(Refusal::ManyConditions),
        _ => return Err(Refusal::NoCondition),
    };
    match condition {
        Condition::Error | Condition::Conflict | Condition::Accept if name.is_empty() => {
            Ok(condition)
        }
        Condition::Error | Condition::Conflict | Condition::Accept => Err(Refusal::Alone),
        _ if name.is_empty() => Err(Refusal::Unfinished),
        Condition::Shift(_) => token_named(session, name)
            .map(Condition::Shift)
            .ok_or(Refusal::NoToken),
        Condition::Reduce(_) | Condition::ReduceTo(_) => reduced(grammar_of(tables), name),
        Condition::State(_) => {
            number_in(name, "states", 0, last_state(tables)).map(Condition::State)
        }
        Condition::Token(_) => number_in(name, "tokens", 1, tokens).map(Condition::Token),
        Condition::Depth(_) => number_in(name, "depths", 0, DEEPEST).map(Condition::Depth),
        // These two have no word of their own: they are those of next and finish.
        Condition::AnyShift | Condition::Top(_) => Err(Refusal::NoCondition),
    }
}

/// The symbol whose name is near to this one, of the kind that was wanted where this was refused.
pub fn symbol_near<'a>(
    alloc: Global,
    grammar: &'a Grammar,
    name: &'a str,
    refusal: Refusal,
) -> Made<Option<&'a str>> {
    let mut search = Search::new(name.as_bytes());
    for symbol in 0..grammar.symbols() {
        let is_wanted = match refusal {
            Refusal::NoToken => grammar.is_token(symbol),
            Refusal::NoInput => grammar.is_token(symbol) && symbol != END && symbol != ERROR,
            Refusal::NoNonterminal => !grammar.is_token(symbol),
            _ => true,
        };
        if is_wanted {
            search.offer(alloc, name_of(grammar, symbol).as_bytes())?;
        }
    }
    Ok(search.text())
}

impl Condition {
    /// Whether it is met after a step or an undo of this kind: by that, or in the configuration.
    pub fn is_met(self, session: &Session, kind: StepKind) -> bool {
        let tables = session.tables();
        match (self, kind) {
            (Condition::Shift(wanted), StepKind::Shift(token)) => wanted == token,
            (Condition::Shift(wanted), StepKind::ShiftError) => wanted == ERROR,
            (Condition::Reduce(wanted), StepKind::Reduce(rule)) => wanted == rule,
            (Condition::ReduceTo(left), StepKind::Reduce(rule)) => {
                left_of(grammar_of(tables), rule) == Some(left)
            }
            (Condition::Error, StepKind::Detect) => true,
            (Condition::Accept, StepKind::Accept) => true,
            (Condition::AnyShift, StepKind::Shift(_)) => true,
            // a reduction puts one entry in the place of those that it took
            (Condition::Top(depth), StepKind::Reduce(_)) => session.view().stack_len() <= depth,
            (Condition::Top(depth), StepKind::Pop(_)) => session.view().stack_len() < depth,
            (Condition::Conflict, _) => {
                let conflict = conflict_of(tables, session.state(), token_ahead(session));
                session.view().mode() == Mode::Running && conflict.is_some()
            }
            (Condition::State(state), _) => session.state() == state,
            (Condition::Token(place), _) => {
                session.view().rest_len() > 0 && upcoming_token(session, 0).1 == place
            }
            (Condition::Depth(depth), _) => session.view().stack_len() == depth,
            _ => false,
        }
    }

    /// Why the run stopped, or what never came.
    pub fn put<W: Write>(self, page: &mut Page<W>, session: &Session) {
        let grammar = grammar_of(session.tables());
        let (words, number) = match self {
            Condition::Shift(_) => ("shift of ", None),
            Condition::ReduceTo(_) => ("reduction to ", None),
            Condition::Reduce(rule) => ("reduction by rule ", Some(rule)),
            Condition::Error => ("error", None),
            Condition::Conflict => ("conflict", None),
            Condition::State(state) => ("state ", Some(state)),
            Condition::Token(place) => ("token ", Some(place)),
            Condition::Depth(depth) => ("depth ", Some(depth)),
            Condition::Accept => ("acceptance", None),
            Condition::AnyShift => ("shift of a token", None),
            Condition::Top(_) => ("reduction of the entry on top", None),
        };
        page.put(words);
        match (self, number) {
            (Condition::Shift(symbol) | Condition::ReduceTo(symbol), _) => {
                page.put(name_of(grammar, symbol));
            }
            (_, Some(number)) => page.number(number),
            _ => {}
        }
    }
}
