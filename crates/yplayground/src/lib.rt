//! `ydebug` over files in memory, for the playground: all that it does of a command line, of files
//! and of standard input is done by the crate of the program itself, `ycommandline`.
//!
//! What is given differs from a system in this. Files are read alone: whatever would write one, or
//! look into a folder, is refused as where nothing may be written. A name means one file, and is
//! compared byte for byte: `./a` isn't `a`, there are no links, and two names are two files. A file
//! has the bytes that it is given, as many times as it is read. Nobody sits at a terminal, and no
//! output fails unless memory runs out.
#![tactic(auto)]

mod laid;
mod shelf;

use crate::laid::laid_out;
use crate::shelf::Shelf;
use std::alloc::Global;
use std::io::Read;
use std::rt::Files;
use ycommandline::{Given, Refused, Setting, status_of};

/// The status where the words or the files aren't laid out as they are to be. No run has it.
const UNREADABLE: u32 = 125;

/// Nobody sits at a terminal.
const SETTING: Setting = Setting {
    terminal: false,
    colour: false,
    columns: None,
    lines: None,
};

/// What a run came to: all that it wrote, and its exit status.
#[derive(Drop)]
struct Run {
    out: Vec<u8>,
    errors: Vec<u8>,
    status: u8,
}

/// A run of `ydebug` by these words, over files and an input.
fn run_over<F: Files + AllocGlobal + Clone + Drop, R: Read + Drop>(
    rt: &F,
    words: &[&str],
    input: R,
) -> Run {
    let alloc = rt.alloc();
    let mut given = Given {
        rt,
        input,
        errors: Vec::new(alloc),
        setting: SETTING,
    };
    let mut out = Vec::new(alloc);
    let ended = given.obey(words, &mut out);
    let status = status_of(ended, &mut given.errors);
    let Given { errors, .. } = given;
    Run {
        out,
        errors,
        status,
    }
}

/// A run that came to nothing.
fn ended_by(alloc: Global, refused: Refused) -> Run {
    let mut errors = Vec::new(alloc);
    let status = status_of(Err(refused), &mut errors);
    Run {
        out: Vec::new(alloc),
        errors,
        status,
    }
}

/// Puts the beginning that fits into the caller's memory, and gives the whole length.
fn put_beginning(text: &[u8], room: &mut [u8]) -> usize {
    let count = text.len().min(room.len());
    room[..count].copy_from_slice(&text[..count]);
    text.len()
}

/// What the program `ydebug` writes of a command line, of files and of standard input, and the
/// status with which it ends.
///
/// The words are those after the name of the program, each with a NUL byte after it. Of each file
/// stand its name, a NUL byte, its length in decimal digits, a NUL byte and its bytes. Where they
/// stand otherwise, the status is 125, and nothing is written. What goes to standard output and to
/// standard error is put into the caller's memory by the beginnings that fit, and the lengths say
/// how long each is.
#[unsafe(no_mangle)]
pub extern "C" fn sulderko_ydebug(
    alloc: Global,
    words: &[u8],
    files: &[u8],
    input: &[u8],
    out: &mut [u8],
    length: &mut usize,
    errors: &mut [u8],
    errors_length: &mut usize,
) -> u32 {
    let laid = laid_out(alloc, words, files);
    let run = match laid {
        Ok(Some(laid)) => {
            let files = &laid.files;
            run_over(&Shelf { alloc, files }, &laid.words, input)
        }
        Ok(None) => {
            *length = 0;
            *errors_length = 0;
            return UNREADABLE;
        }
        Err(refused) => ended_by(alloc, refused),
    };
    *length = put_beginning(&run.out, out);
    *errors_length = put_beginning(&run.errors, errors);
    u32::from(run.status)
}
