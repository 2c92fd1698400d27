//! What is written of an input and of the state that detects its error, and of states without one.

use std::io::Write;
use yerrors::confirm::Confirmed;
use yerrors::errors::{Errors, MOST_STEPS, Reason};
use yexplain::reads::{grammar_of, is_kernel, items_of};
use yexplain::text::ItemText;
use ysymbols::{Grammar, Sym};
use ytables::Tables;
use yview::page::Page;
use yview::reading::name_of;

/// How long a line of words is.
const WIDTH: usize = 78;

/// The most items of a state that are shown.
const MOST_ITEMS: usize = 12;

/// What the tokens of a text stand after, and after what they go on in further lines.
pub const TOKENS: &str = "## tokens  ";

pub const FURTHER: &str = "##         ";

/// The greatest number of an entry of the stack that a message can have.
const MOST_ENTRIES: usize = 99;

/// The reasons for which a state has no input, in the order in which they are written.
const REASONS: [Reason; 6] = [
    Reason::Reduces,
    Reason::TakesAll,
    Reason::Before,
    Reason::After,
    Reason::Long,
    Reason::Late,
];

/// Writes a word of a list, on another line where this one is full. An entry of the stack has its
/// number before it, where that isn't 0.
fn put_word<W: Write>(page: &mut Page<W>, number: usize, word: &str) {
    let front = match number {
        0 => 0,
        1..=9 => 3,
        _ => 4,
    };
    if page.column.saturating_add(word.len()).saturating_add(front) >= WIDTH {
        page.end();
        page.put(FURTHER);
    }
    page.put(" ");
    if number > 0 {
        page.put("$");
        page.number(number);
        page.put("=");
    }
    page.put(word);
}

/// Writes symbols as a list after its title.
fn put_symbols<W: Write>(page: &mut Page<W>, grammar: &Grammar, title: &str, symbols: &[Sym]) {
    page.put(title);
    for symbol in symbols {
        put_word(page, 0, name_of(grammar, *symbol));
    }
    if symbols.is_empty() {
        page.put(" (nothing)");
    }
    page.end();
}

/// Writes the symbols of a stack, the top last, each with what a message calls it.
fn put_stack<W: Write>(page: &mut Page<W>, grammar: &Grammar, stack: &[Sym]) {
    page.put("## stack   ");
    let mut number = stack.len();
    for symbol in stack {
        let shown = if number > MOST_ENTRIES { 0 } else { number };
        put_word(page, shown, name_of(grammar, *symbol));
        number = number.saturating_sub(1);
    }
    if stack.is_empty() {
        page.put(" (nothing)");
    }
    page.end();
}

/// Writes the tokens of an input as a list, the last one too.
fn put_list<W: Write>(
    page: &mut Page<W>,
    grammar: &Grammar,
    title: &str,
    (tokens, last): (&[Sym], Sym),
) {
    page.put(title);
    for token in tokens {
        put_word(page, 0, name_of(grammar, *token));
    }
    put_word(page, 0, name_of(grammar, last));
    page.end();
}

/// Writes the tokens of a text.
pub fn put_tokens<W: Write>(page: &mut Page<W>, grammar: &Grammar, list: (&[Sym], Sym)) {
    put_list(page, grammar, TOKENS, list);
}

/// Writes the tokens for which no text is found.
pub fn put_no_text<W: Write>(page: &mut Page<W>, grammar: &Grammar, list: (&[Sym], Sym)) {
    put_list(page, grammar, "## no text ", list);
}

/// Writes the kernel items of a state.
fn put_items<W: Write>(page: &mut Page<W>, tables: &Tables, state: usize) {
    let mut count: usize = 0;
    for item in items_of(tables.automaton(), state) {
        if is_kernel(*item) {
            count = count.saturating_add(1);
            if count <= MOST_ITEMS {
                page.put("##   ");
                page.show(ItemText(grammar_of(tables), *item));
                page.end();
            }
        }
    }
    if count > MOST_ITEMS {
        let more = count.saturating_sub(MOST_ITEMS);
        let _ = writeln!(page, "##   .. {more} more");
    }
}

/// Writes the state of an input, its items, the stack, and the tokens that could come, unless these
/// are those of the input before it.
pub fn put_state<W: Write>(
    page: &mut Page<W>,
    tables: &Tables,
    state: usize,
    confirmed: &Confirmed,
    before: Option<&Confirmed>,
) {
    let grammar = grammar_of(tables);
    let _ = writeln!(page, "## state {state}");
    put_items(page, tables, state);
    put_stack(page, grammar, &confirmed.stack);
    let wanted = &confirmed.wanted;
    if let Some(Confirmed { wanted: others, .. }) = before {
        if others.can == wanted.can && others.unknown == wanted.unknown {
            return;
        }
    }
    put_symbols(page, grammar, "## expected", &wanted.can);
    if !wanted.unknown.is_empty() {
        put_symbols(page, grammar, "## unknown ", &wanted.unknown);
    }
}

/// Writes what a file of messages begins with, whose inputs are texts or tokens.
pub fn put_head<W: Write>(
    page: &mut Page<W>,
    path: &str,
    tables: &Tables,
    errors: &Errors,
    texts: bool,
) {
    let (count, states) = (errors.count(), tables.automaton().states());
    let inputs = if texts { "texts" } else { "inputs" };
    let _ = writeln!(
        page,
        "## {path}: an error can be detected in {count} of {states} states."
    );
    let _ = writeln!(
        page,
        "## A block has {inputs} whose last token is the error, an empty line, a message."
    );
    page.line("## In a message $0 is that token, $1, $2 .. are the entries of the stack from the");
    page.line("## top, $expected the tokens that could come. Lines with ## are written anew.");
    page.end();
}

/// What is said of states for a reason.
fn put_reason<W: Write>(page: &mut Page<W>, reason: Reason) {
    let steps = MOST_STEPS;
    let _ = match reason {
        Reason::Reduces => write!(page, "## no error, since they reduce by one rule always:"),
        Reason::TakesAll => write!(page, "## no error, since each token has an action:"),
        Reason::Before => write!(page, "## no error, since it is detected before them:"),
        Reason::After => write!(page, "## no error, since no parse comes there without one:"),
        Reason::Long => write!(page, "## inputs of more than 1,000 tokens:"),
        Reason::Late => write!(page, "## not found within {steps} steps:"),
    };
}

/// Writes the states that have no input for a reason, where there are some.
fn put_states<W: Write>(page: &mut Page<W>, errors: &Errors, reason: Reason) {
    let mut is_begun = false;
    for (state, outcome) in errors.outcomes.iter().enumerate() {
        if outcome.reason() == Some(reason) {
            if !is_begun {
                put_reason(page, reason);
            }
            is_begun = true;
            if page.column.saturating_add(5) >= WIDTH {
                page.end();
                page.put(FURTHER);
            }
            page.put(" ");
            page.number(state);
        }
    }
    if is_begun {
        page.end();
    }
}

/// Writes the states that have no input.
pub fn put_tail<W: Write>(page: &mut Page<W>, errors: &Errors) {
    for reason in &REASONS {
        put_states(page, errors, *reason);
    }
}
