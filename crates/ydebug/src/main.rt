//! `ydebug grammar tokens`: a debugger of parses for people. `ydebug conflicts grammar` explains
//! the conflicts of a grammar, `ydebug check grammar tokens..` says what its sentences are, `ydebug
//! errors grammar` lists its errors, and `ydebug page grammar tokens` makes a page of a parse.
//! `ydebug sentences grammar` writes sentences that use all of a grammar, `ydebug cover grammar
//! tokens..` says what inputs use of it, and `ydebug test grammar folder` tries those that are to
//! be accepted, and others. `ydebug init name` begins a new language. `ydebug import file` makes a grammar file that `yacc`
//! reads out of one for bison. With `--lex SPEC` a text stands in place of a tokens file; `ydebug
//! tokens` writes the tokens of one, and `ydebug lex-spec` sketches a SPEC. `ydebug rules grammar`
//! names the rules of a grammar for programs that read its table, and `ydebug table` writes that
//! as `yacc` does.
//!
//! What words ask for is done by `ycommandline`, over the files and the streams of the system.
#![tactic(auto)]

use std::alloc::AllocError;
use std::env;
use std::io::{BufWriter, IsTerminal, Write};
use std::process::ExitCode;
use ycommandline::{Ended, Given, Setting, status_of};
use yexplain::text::Escaped;
use yfiles::arguments::{Arguments, arguments_of};
use yfiles::breaking::Breaking;
use yfiles::steady::Steady;
use yserve::serve::run_serve;

/// Whether an environment variable is set to something that counts.
fn is_set(rt: &HostRuntime, name: &str) -> bool {
    match env::var(rt, name) {
        Ok(value) => !value.is_empty(),
        Err(_) => false,
    }
}

/// Whether the terminal is one without colour.
fn is_dumb(rt: &HostRuntime) -> bool {
    match env::var(rt, "TERM") {
        Ok(value) => value.as_str() == "dumb",
        Err(_) => false,
    }
}

/// How many columns a line for people has: those that the environment says, from 20 on, or 80 at a
/// terminal; in a file or a pipe a line has any number.
fn columns_of(rt: &HostRuntime, is_terminal: bool) -> Option<usize> {
    let said = match env::var(rt, "COLUMNS") {
        Ok(value) => value.parse::<usize>().ok(),
        Err(_) => None,
    };
    match said {
        Some(columns) if columns >= 20 => Some(columns),
        _ if is_terminal => Some(80),
        _ => None,
    }
}

/// How many lines a screen has: those that the environment says, from 5 on.
fn lines_of(rt: &HostRuntime) -> Option<usize> {
    match env::var(rt, "LINES") {
        Ok(value) => value.parse::<usize>().ok().filter(|lines| *lines >= 5),
        Err(_) => None,
    }
}

/// Where a session takes place.
fn setting_of(rt: &HostRuntime) -> Setting {
    let shown = rt.stdout().is_terminal();
    Setting {
        terminal: shown && rt.stdin().is_terminal(),
        colour: shown && !is_set(rt, "NO_COLOR") && !is_dumb(rt),
        columns: columns_of(rt, shown),
        lines: lines_of(rt),
    }
}

/// What is said of the server for editors.
const SERVE: &str = "Serves an editor: the Language Server Protocol over standard input and output

Usage: ydebug serve

  --stdio     Nothing else is done without it
  -h, --help  Print help
";

/// Serves an editor, or says how that is asked for.
fn serve(rt: &HostRuntime, words: &[&str]) -> Ended {
    let mut out = BufWriter::new(rt.alloc(), rt.stdout())?;
    match (words.first(), words.len()) {
        (None | Some(&"--stdio"), 0 | 1) => Ok(run_serve(rt, rt.stdin(), &mut out)?),
        (Some(&"-h" | &"--help"), 1) => {
            out.write_all(SERVE.as_bytes())?;
            out.flush()?;
            Ok(0)
        }
        _ => {
            writeln!(
                rt.stderr(),
                "ydebug serve takes no arguments but --stdio and --help"
            )?;
            Ok(2)
        }
    }
}

/// Does what arguments ask for. Where what is wrong can't be said, the work is done all the same,
/// and that is how it ends.
fn obey(rt: &HostRuntime, arguments: &[String]) -> Ended {
    let mut words = Vec::with_capacity(rt.alloc(), arguments.len())?;
    for word in arguments {
        words.push(word.as_str()).map_err(AllocError::from)?;
    }
    if words.get(1) == Some(&"serve") {
        return serve(rt, words.get(2..).unwrap_or(&[]));
    }
    let mut out = BufWriter::new(rt.alloc(), rt.stdout())?;
    let columns = columns_of(rt, rt.stderr().is_terminal());
    let errors = Breaking::new(rt.alloc(), rt.stderr(), columns);
    let mut given = Given {
        rt,
        input: rt.stdin(),
        errors: Steady::new(errors, true),
        setting: setting_of(rt),
    };
    let obeyed = given.obey(&words, &mut out);
    given.errors.flush()?;
    let status = obeyed?;
    given.errors.finish()?;
    Ok(status)
}

/// Reads the arguments and does what they ask for; where one is no text, that is said.
fn run(rt: &HostRuntime) -> Ended {
    match arguments_of(rt)? {
        Arguments::All(arguments) => obey(rt, &arguments),
        Arguments::NoText(bytes) => {
            let argument = Escaped(&bytes);
            let _ = writeln!(rt.stderr(), "ydebug: {argument} is no UTF-8 text");
            Ok(2)
        }
    }
}

fn main(rt: HostRuntime) -> ExitCode {
    let ended = run(&rt);
    ExitCode::from(status_of(ended, &mut rt.stderr()))
}
