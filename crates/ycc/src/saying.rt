//! What is said of what is found.

use crate::ending::{Ending, File, refuse_by};
use crate::faults::{help_with_name, help_with_value, put_misused, put_refused};
use std::alloc::Global;
use std::io::{self, Write};
use yfiles::diagnostic::{Diagnostic, Severity};
use yfiles::output::Output;
use yfiles::place::Place;
use yfindings::finding::{Finding, Idle, What, refusal};
use yfindings::kinds::{Telling, name_of};
use yparts::refusal::Refused;

/// Writes a number of things, and a word for one and for several of them.
fn put_count(out: &mut Output, count: usize, (one, several): (&str, &str), after: &str) {
    out.number(count);
    out.put(" ");
    out.put(if count == 1 { one } else { several });
    out.put(after);
}

/// Writes how many conflicts were found, and how many are expected, of a rule or of all.
fn put_expected(
    out: &mut Output,
    what: &str,
    rule: Option<usize>,
    (found, expected): (usize, usize),
) {
    out.put(what);
    out.put(" conflicts");
    if let Some(rule) = rule {
        out.put(" for rule ");
        out.number(rule);
    }
    out.put(": ");
    out.number(found);
    out.put(" found, ");
    out.number(expected);
    out.put(" expected");
}

/// Says what is found of words.
fn put_word(out: &mut Output, what: What<'_>) {
    match what {
        What::NoDirective(word) => out.put_pieces(&[b"POSIX Yacc does not support ", word]),
        What::NoString => out.put("POSIX Yacc does not support string literals"),
        What::NoHexadecimal => out.put("POSIX Yacc does not support hexadecimal literals"),
        What::NoDash(name) => {
            out.put_pieces(&[b"POSIX Yacc forbids dashes in symbol names: ", name]);
        }
        What::TypedToken => out.put("POSIX yacc reserves %type to nonterminals"),
        What::TypedAction => out.put("POSIX Yacc does not support typed midrule actions"),
        What::Old(old, better) => {
            out.put_pieces(&[b"deprecated directive: '", old, b"', use '"]);
            out.put(better.word);
            out.put(better.before);
            out.put_bytes(better.part);
            out.put(better.after);
            out.put("'");
        }
        What::WantsWord(name) => {
            out.put_pieces(&[b"%define variable '", name, b"' requires keyword values"]);
        }
        What::WantsBraces(name) => {
            out.put_pieces(&[b"%define variable '", name, b"' requires '{...}' values"]);
        }
        What::Redefined(name) => {
            out.put_pieces(&[b"%define variable '", name, b"' redefined"]);
        }
        What::Comma => out.put("stray ',' treated as white space"),
        What::ExpectReduce => out.put("%expect-rr applies only to GLR parsers"),
        What::RuleExpectsReduce => out.put("%expect-rr affects only GLR parsers"),
        _ => {}
    }
}

/// Says what is found of precedences, and of words.
fn put_level(out: &mut Output, what: What<'_>) {
    match what {
        What::Idle(Idle::Both, name) => {
            out.put_pieces(&[b"useless precedence and associativity for ", name]);
        }
        What::Idle(Idle::Level, name) => out.put_pieces(&[b"useless precedence for ", name]),
        What::Idle(Idle::Direction, name) => {
            out.put_pieces(&[b"useless associativity for ", name, b", use %precedence"]);
        }
        what => put_word(out, what),
    }
}

/// Says what is found of symbols.
fn put_symbol(out: &mut Output, what: What<'_>) {
    match what {
        What::Redeclared(name) => out.put_pieces(&[b"symbol ", name, b" redeclared"]),
        What::Retagged(name) => out.put_pieces(&[b"%type redeclaration for ", name]),
        What::SecondString(text) => {
            out.put_pieces(&[
                b"symbol ",
                text,
                b" used more than once as a literal string",
            ]);
        }
        What::SecondAlias(name) => {
            out.put_pieces(&[b"symbol ", name, b" given more than one literal string"]);
        }
        What::Loose(text) => {
            out.put_pieces(&[b"string literal ", text, b" not attached to a symbol"]);
        }
        What::NoRules(name) => out.put_pieces(&[
            b"symbol '",
            name,
            b"' is used, but is not defined as a token and has no rules",
        ]),
        What::NoSymbol(tag) => {
            out.put_pieces(&[
                b"type ",
                tag,
                b" is used, but is not associated to any symbol",
            ]);
        }
        What::IdleCode(word, tag) => {
            out.put_pieces(&[b"useless ", word, b" for type ", tag]);
        }
        What::Nonterminals(count) => {
            let words = ("nonterminal", "nonterminals");
            put_count(out, count, words, " useless in grammar");
        }
        What::Nonterminal(name) => out.put_pieces(&[b"nonterminal useless in grammar: ", name]),
        what => put_level(out, what),
    }
}

/// Says what is found of conflicts, and of symbols.
fn put_conflicts(out: &mut Output, what: What<'_>) {
    match what {
        What::Shifts(count) => {
            put_count(
                out,
                count,
                ("shift/reduce conflict", "shift/reduce conflicts"),
                "",
            );
        }
        What::Reduces(count) => {
            put_count(
                out,
                count,
                ("reduce/reduce conflict", "reduce/reduce conflicts"),
                "",
            );
        }
        What::OtherShifts(found, expected) => {
            put_expected(out, "shift/reduce", None, (found, expected));
        }
        What::OtherReduces(found, expected) => {
            put_expected(out, "reduce/reduce", None, (found, expected));
        }
        What::OtherInRule(rule, found, expected) => {
            put_expected(out, "shift/reduce", Some(rule), (found, expected));
        }
        what => put_symbol(out, what),
    }
}

/// Says what is found.
fn put_what(out: &mut Output, what: What<'_>) {
    match what {
        What::Empty => out.put("empty rule without %empty"),
        What::NoValue => out.put("empty rule for typed nonterminal, and no action"),
        What::Clash(left, first) => {
            out.put_pieces(&[
                b"type clash on default action: <",
                left,
                b"> != <",
                first,
                b">",
            ]);
        }
        What::Unused(place) => {
            out.put("unused value: $");
            out.number(place);
        }
        What::Unset => out.put("unset value: $$"),
        What::Rules(count) => put_count(out, count, ("rule", "rules"), " useless in grammar"),
        What::Action(number, text) => {
            let mut parts = text.windows(2);
            let has_value = parts.any(|part| matches!(part, b"$$" | b">$"));
            out.put("nonterminal useless in grammar: ");
            out.put(if has_value { "@" } else { "$@" });
            out.number(number);
        }
        What::Rule => out.put("rule useless in grammar"),
        What::Lost => out.put("rule useless in parser due to conflicts"),
        What::Misused(misused) => put_misused(out, &misused),
        What::Refused(refused) => put_refused(out, &refused),
        what => put_conflicts(out, what),
    }
}

/// Whether conflicts are found.
fn is_conflict(what: What<'_>) -> bool {
    matches!(
        what,
        What::Shifts(_)
            | What::Reduces(_)
            | What::OtherShifts(..)
            | What::OtherReduces(..)
            | What::OtherInRule(..)
    )
}

/// Adds what helps with something that is found.
fn help_with(
    alloc: Global,
    one: &mut Diagnostic,
    (path, source): (&str, &[u8]),
    finding: Finding<'_>,
) -> io::Result<()> {
    if let Some(at) = finding.before {
        let mut text = Vec::new(alloc);
        write!(
            text,
            "it was declared before at {}",
            Place { path, source, at }.spot()
        )?;
        one.help(text)?;
    }
    match finding.what {
        What::Misused(misused) => help_with_name(alloc, one, &misused),
        What::Refused(refused) => help_with_value(alloc, one, &refused),
        what if is_conflict(what) => {
            let mut text = Output::new(alloc);
            put_way(&mut text, path);
            one.help(text.into_bytes()?)?;
            Ok(())
        }
        _ => Ok(()),
    }
}

/// What is said of something that is found in a file of this path and these bytes, with a text
/// that helps.
pub fn diagnostic_of(
    alloc: Global,
    (path, source): (&str, &[u8]),
    finding: Finding<'_>,
    telling: Telling,
) -> io::Result<Diagnostic> {
    let mut one = match finding.at {
        Some(at) => Diagnostic::at(alloc, Place { path, source, at }, true)?,
        None => Diagnostic::new(alloc, Some(path), None)?,
    };
    let is_error = finding.kind.is_none() || telling == Telling::Error;
    if !is_error {
        one.severity = Severity::Warning;
    }
    let mut out = Output::new(alloc);
    put_what(&mut out, finding.what);
    if let Some(kind) = finding.kind {
        out.put(if is_error { " [-Werror=" } else { " [-W" });
        out.put(name_of(kind));
        out.put("]");
    }
    one.message = out.into_bytes()?;
    help_with(alloc, &mut one, (path, source), finding)?;
    Ok(one)
}

/// Says why a file is refused, and nothing else of it.
pub fn refuse(rt: &HostRuntime, file: &File, refused: Refused<'_>) -> Ending {
    let source = (file.path.as_str(), file.bytes.as_slice());
    let said = diagnostic_of(rt.alloc(), source, refusal(refused), Telling::Error);
    refuse_by(rt, said)
}

/// Says what shows conflicts.
fn put_way(out: &mut Output, path: &str) {
    out.put("ydebug conflicts ");
    out.put(path);
    out.put(" shows them, with an input for each");
}

/// Says in one line how many shift/reduce and reduce/reduce conflicts there are, as byacc does, and
/// what shows them.
pub fn put_counts(out: &mut Output, path: &str, (shifts, reduces): (usize, usize)) {
    if shifts == 0 && reduces == 0 {
        return;
    }
    out.put("ycc: ");
    if shifts > 0 {
        put_what(out, What::Shifts(shifts));
    }
    if shifts > 0 && reduces > 0 {
        out.put(", ");
    }
    if reduces > 0 {
        put_what(out, What::Reduces(reduces));
    }
    out.put(".\n  ");
    put_way(out, path);
    out.line("");
}
