//! `yacc [-v] [-b prefix] grammar`: writes the LALR(1) table of a grammar file, and its report.
#![tactic(auto)]

use std::env;
use std::io::{self, ErrorKind, Write};
use std::process::ExitCode;
use ygenerate::generator::yacc_run;
use ylink::{Buffer, Buffered};
use ytables::Link;

/// Passes on the words and the standard streams, and gives the exit status.
fn status(rt: &HostRuntime) -> io::Result<u8> {
    let alloc = rt.alloc();
    let given: Vec<String> = env::args(rt)?.collect(alloc)?;
    let mut words = Vec::with_capacity(alloc, given.len())?;
    for word in &given {
        words.push(word.as_str())?;
    }
    let mut writer = Link::new(Buffered::over(Buffer::new(alloc)?, rt.stdout()));
    let mut errors = Link::new(rt.stderr());
    Ok(yacc_run(rt, &words, &mut writer, &mut errors))
}

/// What is written where there is no run, and the status: memory ran out, or a word is no text.
fn refusal(error: &io::Error) -> (&'static [u8], u8) {
    match error.kind() {
        ErrorKind::OutOfMemory => (b"yacc: no memory\n", 3),
        _ => (b"usage: yacc [-v] [-b prefix] grammar\n", 2),
    }
}

fn main(rt: HostRuntime) -> ExitCode {
    match status(&rt) {
        Ok(status) => ExitCode::from(status),
        Err(error) => {
            let (message, status) = refusal(&error);
            let _ = rt.stderr().write_all(message);
            ExitCode::from(status)
        }
    }
}
