//! `calls grammar tokens` makes each public call that takes memory by itself, and once more where
//! memory ran out, and then those that take none. In `make refuse` its allocations fail.
#![tactic(auto)]

mod files;
mod parse;
mod run;
mod said;

use run::all_made;
use std::env;
use std::io::{self, Write};
use std::process::ExitCode;

/// Makes the calls over the files that the arguments name, and gives the exit status.
fn status(rt: &HostRuntime) -> io::Result<u8> {
    let words: Vec<String> = env::args(rt)?.collect(rt.alloc())?;
    let status = all_made(rt, &words);
    drop(words);
    status
}

fn main(rt: HostRuntime) -> ExitCode {
    match status(&rt) {
        Ok(status) => ExitCode::from(status),
        Err(_) => {
            let _ = rt
                .stderr()
                .write_all(b"calls: cannot write, or no memory\n");
            ExitCode::from(3)
        }
    }
}
