//! Why a command isn't obeyed.

use crate::verb::Verb;
use std::alloc::AllocError;
use std::fmt;
use std::io::Write;
use yparse::machine::{Mode, StepFault};
use yview::{Page, Paint};

/// Why a command isn't obeyed. Nothing is changed then.
#[derive(Clone, Copy)]
pub enum Refusal {
    /// The arguments of the command are not those that it takes.
    Usage(&'static str),
    /// A number is out of range.
    Range(&'static str, usize, usize),
    /// There is nothing to be counted.
    None(&'static str),
    /// A word is no number.
    NoNumber,
    /// A name is no token of the grammar.
    NoToken,
    /// A name is no token that an input may have.
    NoInput,
    /// A name is no nonterminal of the grammar.
    NoNonterminal,
    /// A name is no symbol of the grammar.
    NoSymbol,
    /// A word is no condition.
    NoCondition,
    /// Several conditions begin so.
    ManyConditions,
    /// A condition is a word alone.
    Alone,
    /// A condition needs a name or a number.
    Unfinished,
    /// The stack is empty.
    Empty,
    /// Memory ran out.
    Memory,
}

impl From<AllocError> for Refusal {
    fn from(_refused: AllocError) -> Refusal {
        Refusal::Memory
    }
}

/// A number as it stands in texts: `1,000,000`.
#[derive(Clone, Copy)]
struct Grouped(usize);

impl fmt::Display for Grouped {
    fn fmt<W: fmt::Write>(&self, f: &mut fmt::Formatter<W>) -> fmt::Result {
        let (thousands, rest) = (self.0 / 1_000, self.0 % 1_000);
        match (thousands / 1_000, thousands % 1_000) {
            (0, 0) => write!(f, "{rest}"),
            (0, thousands) => write!(f, "{thousands},{rest:03}"),
            (millions, thousands) => write!(f, "{millions},{thousands:03},{rest:03}"),
        }
    }
}

/// The arguments of a command are not those that it takes.
pub fn misused(verb: Verb) -> Refusal {
    Refusal::Usage(verb.told().0)
}

/// Writes a refusal.
pub fn put_refusal<W: Write>(page: &mut Page<W>, refusal: Refusal) {
    page.paint(Paint::Bad);
    let _ = match refusal {
        Refusal::Usage(usage) => write!(page, "Usage: {usage}"),
        Refusal::Range(what, from, to) => {
            let (from, to) = (Grouped(from), Grouped(to));
            write!(page, "That is out of range: {what} are {from} to {to}.")
        }
        Refusal::None(what) => write!(page, "There are no {what}."),
        _ => Ok(()),
    };
    page.put(match refusal {
        Refusal::Usage(_) | Refusal::Range(_, _, _) | Refusal::None(_) => "",
        Refusal::NoNumber => "That is no number.",
        Refusal::NoToken => "That is not a terminal of this grammar.",
        Refusal::NoInput => "That is not a terminal that an input can have.",
        Refusal::NoNonterminal => "That is not a nonterminal of this grammar.",
        Refusal::NoSymbol => "That is not a symbol of this grammar.",
        Refusal::NoCondition => "That is no condition; help run lists them.",
        Refusal::ManyConditions => "Several conditions begin so; help run lists them.",
        Refusal::Alone => "That condition is a word alone; help run lists them.",
        Refusal::Unfinished => "That condition needs a name or a number; help run lists them.",
        Refusal::Empty => "The stack is empty: there is nothing to finish.",
        Refusal::Memory => "There is no memory for that; the parse is as it was.",
    });
    page.paint(Paint::Plain);
    page.end();
}

/// Why an edit can't be made.
pub fn edit_words(fault: StepFault, mode: Mode) -> &'static str {
    match (fault, mode) {
        (StepFault::Halted, Mode::Accepted) => {
            "The input is accepted: no token can be put in or taken out."
        }
        (StepFault::Halted, _) => "The parse has given up: no token can be put in or taken out.",
        _ => fault_words(fault, mode),
    }
}

/// Why a step can't be made.
pub fn fault_words(fault: StepFault, mode: Mode) -> &'static str {
    match (fault, mode) {
        (StepFault::Halted, Mode::Accepted) => "The input is accepted: there is no further step.",
        (StepFault::Halted, _) => "The parse has given up: there is no further step.",
        (StepFault::NoToken, _) => "There is no upcoming token.",
        (StepFault::Limit, _) => "The position is at its limit, 1,000,000.",
        (StepFault::Memory, _) => "There is no memory for one more step or edit.",
    }
}
