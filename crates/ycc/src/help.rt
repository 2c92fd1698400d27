//! The list of options, as help has it.

use crate::options::{Ask, COUNT, Has, Known, Whose, option_at};
use crate::words::USAGE;
use std::alloc::Global;
use yfiles::output::Output;
use yfindings::kinds::LISTED;

/// What stands at the head of the list.
const HEAD: &str = "\
Writes a parser in C, whose tables are proved, of a grammar file.

Options; what is bison's counts in a call as bison or with --bison, what is byacc's in any other:
";

/// Writes what an option is called.
fn put_names(out: &mut Output, (letter, names, _, has, _, _): Known) {
    let mut is_begun = letter.is_some();
    if let Some(letter) = letter {
        out.put("-");
        out.show(letter);
    }
    for name in names.split(' ') {
        if !name.is_empty() {
            if is_begun {
                out.put(", ");
            }
            out.put("--");
            out.put(name);
            is_begun = true;
        }
    }
    match has {
        Has::Nothing => {}
        Has::Value(shown) if names.is_empty() => {
            out.put(" ");
            out.put(shown);
        }
        Has::Value(shown) => {
            out.put("=");
            out.put(shown);
        }
        Has::Perhaps(shown) => {
            out.put(if names.is_empty() { "[" } else { "[=" });
            out.put(shown);
            out.put("]");
        }
    }
}

/// Writes an option, and what it does.
fn put_option(out: &mut Output, known: Known) {
    out.put("  ");
    put_names(out, known);
    out.put("\n        ");
    let (_, _, whose, _, ask, help) = known;
    match whose {
        Whose::All => {}
        Whose::Bison => out.put("as bison: "),
        Whose::Byacc => out.put("as byacc: "),
    }
    match ask {
        Ask::Refused(why) => out.line(why),
        _ => out.line(help),
    }
}

/// Writes the options that are refused, or all others.
fn put_options(out: &mut Output, are_refused: bool) {
    for number in 0..COUNT {
        let Some(known) = option_at(number) else {
            break;
        };
        if matches!(known.4, Ask::Refused(_)) == are_refused {
            put_option(out, known);
        }
    }
}

/// The list of options: those that do something, and those that are refused.
pub fn help_text(alloc: Global) -> Output {
    let mut out = Output::new(alloc);
    out.put_bytes(USAGE);
    out.put(HEAD);
    put_options(&mut out, false);
    out.put("Refused:\n");
    put_options(&mut out, true);
    out.put("Kinds of warnings:\n  ");
    out.put(LISTED);
    out
}
