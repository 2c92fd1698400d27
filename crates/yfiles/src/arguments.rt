//! The arguments of a program, and the first one that is no text.

use std::alloc::{AllocError, Global};
use std::env::{self, Env, FillError};
use std::io::{self, ErrorKind};
use std::str;

/// The most bytes of an argument that is no text which are looked at.
const MOST_BYTES: usize = 131_072;

/// What a program is given.
#[derive(Drop)]
pub enum Arguments {
    /// Its arguments, of which the first is its name.
    All(Vec<String>),
    /// The bytes of one that is no UTF-8 text.
    NoText(Vec<u8>),
}

/// The first argument that is no text; nothing where all are.
fn no_text_in<R: Env>(rt: &R, alloc: Global) -> Result<Vec<u8>, AllocError> {
    for number in 0..usize::MAX {
        let mut bytes = vec![in alloc; 0; MOST_BYTES]?;
        let length = match rt.arg(number, &mut bytes) {
            Ok(length) => length,
            Err(FillError::TooLong) => MOST_BYTES,
            Err(FillError::NotPresent) => break,
        };
        bytes.truncate(length);
        if str::from_utf8(&bytes).is_err() {
            return Ok(bytes);
        }
    }
    Ok(Vec::new(alloc))
}

/// The arguments.
pub fn arguments_of<R: Env + AllocGlobal>(rt: &R) -> io::Result<Arguments> {
    match env::args(rt) {
        Ok(given) => Ok(Arguments::All(given.collect(rt.alloc())?)),
        Err(error) if error.kind() == ErrorKind::InvalidData => {
            Ok(Arguments::NoText(no_text_in(rt, rt.alloc())?))
        }
        Err(error) => Err(error),
    }
}
