//! `ydebug init`: the folder of a new language.

use crate::texts::{FILES, FOLDERS};
use std::alloc::{AllocError, Global};
use std::fs;
use std::io::{self, ErrorKind, Write};
use std::rt::Files;
use yfiles::writing::write_new;

/// What stands for the name of the language in paths and texts.
const MARK: char = '~';

/// A folder or a file that is to be made: its path, and the text of a file.
#[derive(Drop)]
struct Part {
    path: String,
    text: Option<String>,
}

/// Why a language can't have this name, where it can't.
pub fn wrong_in(name: &str) -> Option<&'static str> {
    let is_begun = name.bytes().next().is_some_and(|b| b.is_ascii_alphabetic());
    let is_all = name
        .bytes()
        .all(|b| b.is_ascii_alphanumeric() || b == b'_' || b == b'-');
    if is_begun && is_all {
        None
    } else {
        Some("the name of a language is letters, digits, _ and -, a letter first")
    }
}

/// A text with the name where the mark stands.
fn named(alloc: Global, text: &str, name: &str) -> Result<String, AllocError> {
    let mut named = String::new(alloc);
    for (index, piece) in text.split(MARK).enumerate() {
        if index > 0 {
            named.push_str(name)?;
        }
        named.push_str(piece)?;
    }
    Ok(named)
}

/// All that is to be made of a language, what holds others before them.
fn parts_of(alloc: Global, name: &str) -> Result<Vec<Part>, AllocError> {
    let mut parts = Vec::new(alloc);
    for path in &FOLDERS {
        let path = named(alloc, path, name)?;
        parts.push(Part { path, text: None })?;
    }
    for (path, text) in &FILES {
        let path = named(alloc, path, name)?;
        let text = Some(named(alloc, text, name)?);
        parts.push(Part { path, text })?;
    }
    Ok(parts)
}

/// Takes away what was made, the last of it first, as far as that goes.
fn take_away<F: Files>(rt: &F, made: &[Part]) {
    for part in made.iter().rev() {
        // what can't be taken away stays
        let _ = match &part.text {
            Some(_) => fs::remove_file(rt, &part.path),
            None => fs::remove_dir(rt, &part.path),
        };
    }
}

/// Makes all parts. Where one can't be made, those before it are taken away again, and the answer
/// is that part with the reason.
fn make<'a, F: Files + AllocGlobal>(
    rt: &F,
    parts: &'a [Part],
) -> Result<(), (&'a Part, io::Error)> {
    for (count, part) in parts.iter().enumerate() {
        let made = match &part.text {
            Some(text) => write_new(rt, &part.path, text.as_bytes()),
            None => fs::create_dir(rt, &part.path),
        };
        if let Err(error) = made {
            take_away(rt, parts.get(..count).unwrap_or(&[]));
            return Err((part, error));
        }
    }
    Ok(())
}

/// Makes the folder of a language with this name, which [`wrong_in`] lets through, and gives the
/// exit status: 0; 1 where something has its path; 3 where it can't be written, or memory runs
/// out. Nothing is left of it then, as far as it can be taken away.
pub fn run_init<F: Files + AllocGlobal, W: Write, E: Write>(
    rt: &F,
    name: &str,
    out: &mut W,
    errors: &mut E,
) -> io::Result<u8> {
    // all texts are there before anything is made
    let parts = parts_of(rt.alloc(), name)?;
    let (part, error) = match make(rt, &parts) {
        Ok(()) => {
            writeln!(
                out,
                "made {name}: in it, make builds the parser, and make check tries it"
            )?;
            return Ok(0);
        }
        Err(unmade) => unmade,
    };
    let path = part.path.as_str();
    match error.kind() {
        ErrorKind::OutOfMemory => Err(error),
        ErrorKind::AlreadyExists => {
            writeln!(errors, "ydebug: error: {path} is there already")?;
            Ok(1)
        }
        _ => {
            writeln!(errors, "ydebug: error: cannot make {path}")?;
            Ok(3)
        }
    }
}
