//! Words and files as they are laid out in bytes.

use crate::shelf::File;
use std::alloc::{AllocError, Global};
use std::str;
use ycommandline::Refused;
use ydebugger::words::number_of;

/// The name of the program, which stands before its words.
const PROGRAM: &str = "ydebug";

/// The words of a command line, from the name of the program on, and files.
#[derive(Drop)]
pub struct Laid<'w, 'f> {
    /// The words.
    pub words: Vec<&'w str>,
    /// The files.
    pub files: Vec<File<'f>>,
}

/// The bytes before the first NUL byte, and those after it.
fn part(text: &[u8]) -> Option<(&[u8], &[u8])> {
    let end = text.iter().position(|byte| *byte == 0)?;
    Some((text.get(..end)?, text.get(end.saturating_add(1)..)?))
}

/// The first file, and what comes after it.
fn file_of(text: &[u8]) -> Option<(File<'_>, &[u8])> {
    let (name, rest) = part(text)?;
    let (digits, rest) = part(rest)?;
    let length = number_of(str::from_utf8(digits).ok()?)?;
    let bytes = rest.get(..length)?;
    Some((File { name, bytes }, rest.get(length..)?))
}

/// All files, where they are laid out so.
fn files_of(alloc: Global, text: &[u8]) -> Result<Option<Vec<File<'_>>>, AllocError> {
    let (mut files, mut rest) = (Vec::new(alloc), text);
    for _ in 0..text.len() {
        let Some((file, after)) = file_of(rest) else {
            break;
        };
        files.push(file)?;
        rest = after;
    }
    Ok(if rest.is_empty() { Some(files) } else { None })
}

/// The name of the program and the words, which stand with a NUL byte between two. One that is no
/// text is refused, as the program does it.
fn words_of(alloc: Global, text: Option<&[u8]>) -> Result<Vec<&str>, Refused> {
    let mut words = Vec::new(alloc);
    words.push(PROGRAM).map_err(AllocError::from)?;
    let Some(text) = text else {
        return Ok(words);
    };
    for word in text.split(|byte| *byte == 0) {
        match str::from_utf8(word) {
            Ok(word) => words.push(word).map_err(AllocError::from)?,
            Err(_) => return Err(Refused::Outside),
        }
    }
    Ok(words)
}

/// The words and the files, where they are laid out as they are to be.
pub fn laid_out<'w, 'f>(
    alloc: Global,
    words: &'w [u8],
    files: &'f [u8],
) -> Result<Option<Laid<'w, 'f>>, Refused> {
    let words = match words {
        [] => None,
        [first @ .., 0] => Some(first),
        _ => return Ok(None),
    };
    match files_of(alloc, files)? {
        Some(files) => Ok(Some(Laid {
            words: words_of(alloc, words)?,
            files,
        })),
        None => Ok(None),
    }
}
