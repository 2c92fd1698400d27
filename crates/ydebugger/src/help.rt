//! The command that a word means, and help on commands.

use crate::verb::{VERBS, Verb};
use crate::words::{Found, begins, find, find_whole, near_in};
use std::alloc::Global;
use std::fmt;
use std::io::Write;
use yexplain::reads::Made;
use yview::{Page, Paint};

/// The command that a word means.
pub fn verb_of(word: &str) -> Found<Verb> {
    match word {
        "s" => Found::One(Verb::Step),
        "b" => Found::One(Verb::Back),
        "r" => Found::One(Verb::Run),
        "w" => Found::One(Verb::Where),
        "e" => Found::One(Verb::Expected),
        "c" => Found::One(Verb::Continue),
        "n" => Found::One(Verb::Next),
        "l" => Found::One(Verb::List),
        "bt" | "backtrace" => Found::One(Verb::Stack),
        _ => find(&VERBS, word),
    }
}

/// What debuggers of programs call something, and what does it here.
const ELSEWHERE: [(&str, &str); 23] = [
    ("advance", "run until"),
    ("condition", "break"),
    ("display", "where"),
    ("down", "stack"),
    ("exit", "quit"),
    ("file", "reload"),
    ("frame", "where"),
    ("info", "breaks, stack, state, symbol or history"),
    ("jump", "to, insert or drop"),
    ("kill", "to 0"),
    ("nexti", "step"),
    ("print", "stack, tree, state or symbol"),
    ("reverse-continue", "back until"),
    ("reverse-next", "back until"),
    ("reverse-step", "back"),
    ("set", "insert or drop"),
    ("start", "to 0"),
    ("stepi", "step"),
    ("tbreak", "run until"),
    ("undo", "back"),
    ("until", "run until"),
    ("watch", "break"),
    ("x", "stack or tree"),
];

/// The commands that begin so.
pub fn put_candidates<W: Write>(page: &mut Page<W>, word: &str) {
    let _ = write!(page, "{word} could be any of:");
    for (name, _) in &VERBS {
        if begins(name, word) {
            page.put(" ");
            page.put(name);
        }
    }
    page.end();
}

/// A word as it was typed: control characters as escapes.
#[derive(Clone, Copy)]
struct Typed<'a>(&'a str);

impl fmt::Display for Typed<'_> {
    fn fmt<W: fmt::Write>(&self, f: &mut fmt::Formatter<W>) -> fmt::Result {
        for c in self.0.chars() {
            if c.is_control() {
                write!(f, "\\x{:02x}", u32::from(c))?;
            } else {
                f.write_char(c)?;
            }
        }
        Ok(())
    }
}

/// That a word is no command, and which one does that, or is near it.
pub fn put_unknown<W: Write>(alloc: Global, page: &mut Page<W>, word: &str) -> Made<()> {
    let near = near_in(alloc, &VERBS, word)?;
    page.paint(Paint::Bad);
    page.show(Typed(word));
    page.paint(Paint::Plain);
    let _ = match (find_whole(&ELSEWHERE, word), near) {
        (Some(ours), _) => writeln!(page, " is no command; here it is {ours}."),
        (None, Some(best)) => writeln!(page, " is no command; did you mean {best}?"),
        (None, None) => writeln!(page, " is no command; help lists them."),
    };
    Ok(())
}

/// How a command is used and what it does.
fn put_usage<W: Write>(page: &mut Page<W>, verb: Verb) {
    let (usage, about) = verb.told();
    page.put("  ");
    page.painted(Paint::Strong, usage);
    page.tab(28);
    page.line(about);
}

/// Help on all commands, or on one.
pub fn show_help<W: Write>(alloc: Global, page: &mut Page<W>, text: &str) -> Made<()> {
    match verb_of(text) {
        _ if text.is_empty() => {
            for (_, verb) in &VERBS {
                put_usage(page, *verb);
            }
            page.line("A beginning of a word is enough where no other word begins so;");
            page.line(
                "s, b, r, w and e are step, back, run, where and expected; n, c, l and bt are next,",
            );
            page.line("continue, list and stack.");
            page.line("An empty line repeats the last move.");
        }
        Found::One(verb) => {
            put_usage(page, verb);
            if !verb.more().is_empty() {
                page.line(verb.more());
            }
        }
        Found::Many => put_candidates(page, text),
        Found::Nothing => return put_unknown(alloc, page, text),
    }
    Ok(())
}
