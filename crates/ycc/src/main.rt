//! `ycc [-dlLtvyP] [-b prefix] [-o file] [-p prefix] [-H file] [-D name=value] [-W kinds] grammar`
//! writes a parser in C of a grammar file, a drop-in for `yacc` and `bison` in a build.
//!
//! `words` has what the command line asks for, `options` the options, `reader` reads words by them,
//! `persona` says who is called, `policy` which states reduce by default, and `help` lists options;
//! `names` has the names of the files that are written; `reading` reads the grammar file, `against`
//! looks at variables that words and file set, `messages` reads those for errors, `making` makes
//! the texts and writes them, `called` has what symbols are called in the file, `saying` has the
//! words for what is found and `faults` those for misused values and refusals, `warnings` tells what
//! is to be told of it, `examples` those of conflicts, and `ending` says how a run ends.
#![tactic(auto)]

mod against;
mod called;
mod classes;
mod ending;
mod examples;
mod faults;
mod found;
mod help;
mod making;
mod messages;
mod names;
mod options;
mod persona;
mod policy;
mod reader;
mod reading;
mod saying;
mod warnings;
mod words;

use crate::against::refuse_others;
use crate::ending::{Ending, File, outside, say};
use crate::help::help_text;
use crate::making::write_files;
use crate::reader::{Wrong, asked_by};
use crate::reading::{RefusedWord, read};
use crate::words::{Asked, Given, USAGE};
use std::alloc::Global;
use std::io::Write;
use std::mem;
use std::process::ExitCode;
use yexplain::reads::Made;
use yexplain::text::Escaped;
use yfaults::opening::grammar_bytes;
use yfiles::arguments::{Arguments, arguments_of};
use yfiles::output::Output;
use yparts::foreign::Wished;
use yparts::options::{Language, Options, Purity};

/// The name of a variable that words set, and its value, of which braces or quotes around it are
/// left out; and whether it stood in braces.
fn named_in(variable: &[u8]) -> (&[u8], &[u8], bool) {
    let equals = variable.iter().position(|byte| *byte == b'=');
    let end = equals.unwrap_or(variable.len());
    let name = variable.get(..end).unwrap_or(variable);
    match variable.get(end.saturating_add(1)..).unwrap_or(&[]) {
        [b'{', code @ .., b'}'] => (name, code, true),
        [b'"', text @ .., b'"'] => (name, text, false),
        value => (name, value, false),
    }
}

/// Sets the variables that words have, each with a zero after it and a letter before it, and gives
/// those that are refused; where none is, also those that a parser of this language doesn't have.
fn define<'a>(
    alloc: Global,
    variables: &'a [u8],
    options: &mut Options<'a>,
) -> Made<Vec<RefusedWord<'a>>> {
    let mut refused = Vec::new(alloc);
    for is_set in [false, true] {
        if is_set && !refused.is_empty() {
            break;
        }
        for word in variables.split(|byte| *byte == 0) {
            let Some((by, variable)) = word.split_first() else {
                continue;
            };
            let (name, value, is_code) = named_in(variable);
            options.is_bison = true;
            let refusal = match is_set {
                true => options.refusal_of(name),
                false => options.define(name, value, is_code).err(),
            };
            if let Some(refusal) = refusal {
                let by = *by;
                refused.push(RefusedWord {
                    by,
                    variable,
                    refusal,
                })?;
            }
        }
    }
    Ok(refused)
}

/// Does what words ask for with a grammar file; their wishes are taken as if the file had them.
fn generate(rt: &HostRuntime, given: &Given<'_>, file: &File) -> Result<(), Ending> {
    let mut found = read(rt, file)?;
    refuse_others(rt, file, &found.parts)?;
    let options = &mut found.parts.options;
    if given.pure {
        options.purity = Purity::Yes;
    }
    options.has_names = options.has_names || given.names;
    let refused = define(rt.alloc(), file.variables.as_slice(), options)?;
    found.refused_words = refused;
    write_files(rt, given, file, &found)
}

/// What words wish of a grammar file as if it said so. A parser in C++ is one of bison, and so is
/// one for which words set variables.
fn wished_of(given: &Given<'_>, is_plain: bool) -> Wished {
    let (language, skeleton) = (given.language, given.skeleton);
    let is_cxx = skeleton.or(language) == Some(Language::Cxx);
    Wished {
        is_bison: given.bison || is_cxx || !is_plain,
        language,
        skeleton,
    }
}

/// Does what words ask for.
fn obey(rt: &HostRuntime, given: &Given<'_>, variables: Vec<u8>) -> Result<(), Ending> {
    let name = given.grammar;
    let bytes = match grammar_bytes(rt, name) {
        Ok(bytes) => bytes,
        Err(error) => return Err(outside(rt, "read", name, &error)),
    };
    let file = File {
        path: String::from_str(rt.alloc(), name)?,
        bytes,
        wished: wished_of(given, variables.is_empty()),
        locations: given.locations,
        variables,
    };
    generate(rt, given, &file)
}

/// Writes a text in place of files.
fn answer(rt: &HostRuntime, text: &[u8]) -> Ending {
    match rt.stdout().write_all(text) {
        Ok(()) => Ending::Helped,
        Err(_) => Ending::Outside,
    }
}

/// Says why words are refused.
fn refuse(rt: &HostRuntime, wrong: Wrong<'_>) -> Ending {
    match wrong {
        Wrong::NoGrammar => Ending::Words,
        Wrong::Word(dashes, name, why) => {
            let mut out = Output::new(rt.alloc());
            out.put("ycc: ");
            out.put(dashes);
            out.put(name);
            out.put(": ");
            out.line(why);
            say(rt, out, Ending::Words)
        }
        Wrong::Memory => Ending::Memory,
    }
}

/// The arguments; where one is no text, that is said.
fn arguments_in(rt: &HostRuntime) -> Result<Vec<String>, Ending> {
    match arguments_of(rt)? {
        Arguments::All(given) => Ok(given),
        Arguments::NoText(bytes) => {
            let mut out = Output::new(rt.alloc());
            out.put("ycc: ");
            out.show(Escaped(&bytes));
            out.line(" is no UTF-8 text");
            Err(say(rt, out, Ending::Arguments))
        }
    }
}

/// Reads the words and does what they ask for.
fn run(rt: &HostRuntime) -> Result<(), Ending> {
    let words = arguments_in(rt)?;
    match asked_by(rt.alloc(), words.as_slice()) {
        Ok(Asked::Files(mut wanted)) => {
            let none = Vec::new(rt.alloc());
            let variables = mem::replace(&mut wanted.variables, none);
            obey(rt, &wanted.given, variables)
        }
        Ok(Asked::Help) => Err(answer(rt, &help_text(rt.alloc()).into_bytes()?)),
        Ok(Asked::Text(text)) => Err(answer(rt, text)),
        Err(wrong) => Err(refuse(rt, wrong)),
    }
}

/// Says how a run ended where nothing was said yet, and gives the exit status.
fn end(rt: &HostRuntime, ending: Ending) -> u8 {
    let (text, status): (&[u8], u8) = match ending {
        Ending::Helped => (b"", 0),
        Ending::Refused | Ending::Untold => (b"", 1),
        Ending::Later => (b"", 63),
        Ending::Words => (USAGE, 2),
        Ending::Arguments => (b"", 2),
        Ending::Memory => (b"ycc: no memory\n", 3),
        Ending::Outside => (b"", 3),
    };
    let _ = rt.stderr().write_all(text);
    status
}

fn main(rt: HostRuntime) -> ExitCode {
    match run(&rt) {
        Ok(()) => ExitCode::SUCCESS,
        Err(ending) => ExitCode::from(end(&rt, ending)),
    }
}
