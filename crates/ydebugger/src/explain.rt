//! A position in a few lines: what was seen, what is waited for, what comes, what is done and why,
//! and how the parse goes on, also by the actions that weren't chosen.

use crate::text::words_of;
use std::alloc::Global;
use std::io::Write;
use yambiguity::choice::Choice;
use yambiguity::stacks::Stacks;
use yexplain::lines::Spots;
use yexplain::reads::{Made, action_of, candidates_of, grammar_of, shift_of};
use yexplain::why::{Question, put_cell};
use yinput::Parse;
use yinput::expected::expected;
use ylalr::END;
use yparse::Session;
use yparse::states::{act, stack_states};
use ysymbols::Sym;
use ytables::Action;
use yview::page::Page;
use yview::place_view::put_top;
use yview::reading::{name_of, stack_symbol, token_ahead, upcoming_token};
use yview::state_view::put_kernel;
use yview::tree_text::put_word;

/// The most steps of a trial.
const MOST_STEPS: usize = 100_000;
/// How many tokens are named of those that can come.
const SOME_TOKENS: usize = 8;
/// The most actions that are tried beside the one that is taken.
const MOST_OTHERS: usize = 4;

/// How a parse over the upcoming tokens goes on.
#[derive(Clone, Copy, Drop)]
enum Course {
    /// It accepts them.
    Accepted,
    /// That of this index can't come.
    Refused(usize),
    /// Neither came within the steps of a trial.
    Untold,
}

/// How a parse goes on from these states, the upcoming token of this index ahead.
fn course_from(session: &Session, mut states: Vec<usize>, first: usize) -> Made<Course> {
    let mut index = first;
    for _ in 0..MOST_STEPS {
        let token = upcoming_token(session, index).0;
        match act(session.tables(), &mut states, token)? {
            Action::Shift(_) => index = index.saturating_add(1),
            Action::Reduce(_) => {}
            Action::Accept => return Ok(Course::Accepted),
            Action::Error => return Ok(Course::Refused(index)),
        }
    }
    Ok(Course::Untold)
}

/// How a parse goes on that makes a choice now, whatever the tables say.
fn course_by(alloc: Global, session: &Session, choice: Choice) -> Made<Course> {
    let (automaton, token) = (session.tables().automaton(), token_ahead(session));
    let mut way = Vec::new(alloc);
    for index in 0..session.view().stack_len() {
        way.push(stack_symbol(session, index))?;
    }
    let Some((mut stacks, stack)) = Stacks::over(alloc, automaton, &way)? else {
        return Ok(Course::Untold);
    };
    let (next, first) = match choice {
        Choice::Shift if token == END => return Ok(Course::Accepted),
        Choice::Shift => (stacks.shifted(automaton, stack, token)?, 1),
        choice => (choice.made(automaton, &mut stacks, stack)?, 0),
    };
    match next {
        Some(next) => course_from(session, stacks.states(alloc, next)?, first),
        None => Ok(Course::Untold),
    }
}

/// Writes an upcoming token, with its word and its place.
fn put_upcoming<W: Write>(page: &mut Page<W>, parse: &Parse, index: usize) {
    let (token, number) = upcoming_token(&parse.session, index);
    let name = name_of(grammar_of(parse.session.tables()), token);
    if number > 0 && token != END {
        let words = words_of(parse);
        put_word(page, name, words, &mut Spots::new(words.bytes), number);
    } else {
        page.put(name);
        page.put(if token == END { "" } else { "  (inserted)" });
    }
}

/// Writes how a parse goes on.
fn put_course<W: Write>(page: &mut Page<W>, parse: &Parse, course: Course) {
    match course {
        Course::Accepted => page.line("the input is accepted"),
        Course::Refused(index) => {
            put_upcoming(page, parse, index);
            page.line(" can't come");
        }
        Course::Untold => page.line("no end came within 100,000 steps"),
    }
}

/// Writes the first of the tokens that can come.
fn put_expected<W: Write>(alloc: Global, page: &mut Page<W>, session: &Session) -> Made<()> {
    let (tables, states) = (session.tables(), stack_states(alloc, session)?);
    let wanted = expected(alloc, tables, &states)?;
    page.put("can come ");
    for token in wanted.can.iter().take(SOME_TOKENS) {
        page.put(" ");
        page.put(name_of(grammar_of(tables), *token));
    }
    let is_cut = wanted.can.len() > SOME_TOKENS || !wanted.unknown.is_empty();
    page.line(if is_cut { " .." } else { "" });
    Ok(())
}

/// Writes what would come of the actions that a cell allows beside the one that is taken.
fn put_others<W: Write>(
    alloc: Global,
    page: &mut Page<W>,
    parse: &Parse,
    (state, token): (usize, Sym),
) -> Made<()> {
    let (session, tables) = (&parse.session, parse.session.tables());
    let taken = action_of(tables, state, token);
    if shift_of(tables, state, token).is_some() && matches!(taken, Action::Reduce(_)) {
        page.put("otherwise shift: ");
        put_course(page, parse, course_by(alloc, session, Choice::Shift)?);
    }
    for candidate in candidates_of(tables, state, token).take(MOST_OTHERS) {
        let rule = candidate.rule;
        if taken != Action::Reduce(rule) {
            let _ = write!(page, "otherwise reduce by rule {rule}: ");
            let course = course_by(alloc, session, Choice::Reduce(rule))?;
            put_course(page, parse, course);
        }
    }
    Ok(())
}

/// Writes a position of a parse that runs: what was seen, what is waited for, what can come and what
/// does, what is done and why, and how the parse goes on by that and by what else could be done.
pub fn put_position<W: Write>(alloc: Global, page: &mut Page<W>, parse: &Parse) -> Made<()> {
    let (session, tables) = (&parse.session, parse.session.tables());
    let (state, token) = (session.state(), token_ahead(session));
    put_top(page, session);
    let _ = writeln!(page, "state {state}");
    put_kernel(page, tables, state, token);
    put_expected(alloc, page, session)?;
    page.put("comes     ");
    put_upcoming(page, parse, 0);
    page.end();
    let asked = Question {
        tables,
        lines: &parse.lines,
        state,
        token,
    };
    // The page remembers a fault.
    let _ = put_cell(page, asked);
    let _ = asked.put_reason(page);
    if action_of(tables, state, token) == Action::Error {
        return Ok(());
    }
    page.put("then ");
    let states = stack_states(alloc, session)?;
    put_course(page, parse, course_from(session, states, 0)?);
    put_others(alloc, page, parse, (state, token))
}
