//! Lists of tokens kept as tokens files, or as texts.

use std::alloc::Global;
use std::fs::{self, DirEntry};
use std::io::{self, ErrorKind, Write};
use std::rt::Files;
use yexplain::text::{Name, Names};
use yfiles::same::{Clash, is_among, name_in};
use yfiles::writing::write_over;
use ysymbols::{Grammar, Sym};
use yview::page::Page;

/// A folder for lists, where one is wanted.
#[derive(Drop)]
pub struct Folder<'a, F> {
    /// What opens files.
    pub rt: &'a F,
    /// The path of the folder.
    pub path: Option<&'a str>,
    /// What stands before and after the numbers in the names of the files.
    pub name: (&'a str, &'a str),
    /// What couldn't be written; nothing is kept after that.
    pub failed: Option<String>,
}

/// Whether something was written; only no memory stays an error.
fn is_written(written: io::Result<()>) -> io::Result<bool> {
    match written {
        Ok(()) => Ok(true),
        Err(error) if error.kind() == ErrorKind::OutOfMemory => Err(error),
        Err(_) => Ok(false),
    }
}

/// Whether a text is a number from 1 on, as names of lists have one.
fn is_number(text: &str) -> bool {
    !text.is_empty() && !text.starts_with('0') && text.bytes().all(|b| b.is_ascii_digit())
}

/// Whether a file's name is one that a list gets.
fn is_of_list((front, end): (&str, &str), name: &str) -> bool {
    let numbers = name.strip_prefix(front).unwrap_or("");
    let numbers = numbers.strip_suffix(end).unwrap_or("");
    match numbers.split_once('-') {
        Some((number, part)) => is_number(number) && is_number(part) && part != "1",
        None => is_number(numbers),
    }
}

/// The path of the first file in a folder that has the name of a list and is an input.
fn input_in<F: Files + AllocGlobal + Clone + Drop>(
    rt: &F,
    folder: &str,
    name: (&str, &str),
    inputs: &[&str],
) -> io::Result<Option<String>> {
    // the lists of a folder that can't be read aren't removed either
    let Ok(entries) = fs::read_dir(rt, folder) else {
        return Ok(None);
    };
    for entry in entries {
        match entry {
            Ok(entry) if is_of_list(name, entry.file_name()) => {
                let path = entry.path();
                if is_among(rt, path.as_str(), inputs)? {
                    return String::from_str(rt.alloc(), path.as_str())
                        .map(Some)
                        .map_err(io::Error::from);
                }
            }
            Err(error) if error.kind() == ErrorKind::OutOfMemory => return Err(error),
            _ => {}
        }
    }
    Ok(None)
}

/// The first input that would have the name of a list in a folder, also one that isn't there yet.
fn named_as_list<'a, F: Files + AllocGlobal>(
    rt: &F,
    folder: &str,
    name: (&str, &str),
    inputs: &[&'a str],
) -> io::Result<Option<&'a str>> {
    for input in inputs {
        if let Some(own) = name_in(rt, input, folder)? {
            if is_of_list(name, &own) {
                return Ok(Some(*input));
            }
        }
    }
    Ok(None)
}

/// Whether lists aren't kept in a folder, since one would have the place of an input: that is
/// written.
pub fn are_refused<F: Files + AllocGlobal + Clone + Drop, E: Write>(
    rt: &F,
    folder: &str,
    name: (&str, &str),
    inputs: &[&str],
    errors: &mut E,
) -> io::Result<bool> {
    let found = input_in(rt, folder, name, inputs)?;
    let path = match &found {
        Some(path) => Some(path.as_str()),
        None => named_as_list(rt, folder, name, inputs)?,
    };
    if let Some(path) = path {
        let clash = Clash::Input(path);
        writeln!(errors, "ydebug: {clash}")?;
    }
    Ok(path.is_some())
}

/// Removes a file of a folder, where its name is that of a list, and says whether that was done
/// where it had to be.
fn is_cleared<F: Files + Drop>(
    rt: &F,
    name: (&str, &str),
    entry: io::Result<DirEntry<F, Global>>,
) -> io::Result<bool> {
    match entry {
        Ok(entry) if is_of_list(name, entry.file_name()) => {
            is_written(fs::remove_file(rt, entry.path()))
        }
        Err(error) if error.kind() == ErrorKind::OutOfMemory => Err(error),
        _ => Ok(true),
    }
}

/// Removes the lists that stand in a folder, and says whether that was done; a folder that isn't
/// there has none.
fn are_cleared<F: Files + AllocGlobal + Clone + Drop>(
    rt: &F,
    name: (&str, &str),
    path: &str,
) -> io::Result<bool> {
    let entries = match fs::read_dir(rt, path) {
        Ok(entries) => entries,
        Err(error) => match error.kind() {
            ErrorKind::NotFound => return Ok(true),
            ErrorKind::OutOfMemory => return Err(error),
            _ => return Ok(false),
        },
    };
    let mut are_cleared = true;
    for entry in entries {
        are_cleared = is_cleared(rt, name, entry)? && are_cleared;
    }
    Ok(are_cleared)
}

impl<F: Files + AllocGlobal + Clone + Drop> Folder<'_, F> {
    /// Removes the lists of an earlier run from the folder, where one is wanted: the files with
    /// the names that lists get, and no others.
    pub fn clear(&mut self) -> io::Result<()> {
        let Some(path) = self.path else {
            return Ok(());
        };
        if !are_cleared(self.rt, self.name, path)? {
            self.failed = Some(String::from_str(self.rt.alloc(), path)?);
        }
        Ok(())
    }

    /// Makes the folder, where one is wanted and isn't there.
    pub fn make(&mut self) -> io::Result<()> {
        let Some(path) = self.path else {
            return Ok(());
        };
        if !is_written(fs::create_dir_all(self.rt, path))? {
            self.failed = Some(String::from_str(self.rt.alloc(), path)?);
        }
        Ok(())
    }

    /// Keeps the tokens of a conflict, and one more where there is one, where a folder is wanted and
    /// the page's writer has not failed, and writes the file's path.
    pub fn keep<W: Write>(
        &mut self,
        page: &mut Page<W>,
        grammar: &Grammar,
        numbers: (usize, usize),
        tokens: &[Sym],
        last: Option<Sym>,
    ) -> io::Result<()> {
        page.checked()?;
        let mut text = Vec::new(self.rt.alloc());
        let names = Names(grammar, tokens);
        match last.map(|last| Name(grammar, last)) {
            Some(name) => writeln!(text, "{names} {name}")?,
            None => writeln!(text, "{names}")?,
        }
        let text = text.strip_prefix(b" ").unwrap_or(&text);
        if let Some(path) = self.store_text(numbers, text)? {
            page.put("  saved   ");
            page.line(&path);
        }
        Ok(())
    }

    /// Keeps a text under a name with these numbers, the second one counted from 0, and gives the
    /// file's path. Where no folder is wanted, or a file couldn't be written, nothing is kept.
    pub fn store_text(
        &mut self,
        (number, part): (usize, usize),
        text: &[u8],
    ) -> io::Result<Option<String>> {
        let (Some(folder), None) = (self.path, &self.failed) else {
            return Ok(None);
        };
        let (alloc, (front, end)) = (self.rt.alloc(), self.name);
        let path = if part == 0 {
            format!(in alloc; "{folder}/{front}{number}{end}")?
        } else {
            let part = part.saturating_add(1);
            format!(in alloc; "{folder}/{front}{number}-{part}{end}")?
        };
        if is_written(write_over(self.rt, &path, text))? {
            return Ok(Some(path));
        }
        self.failed = Some(path);
        Ok(None)
    }
}

/// Writes what couldn't be written, where there is something, and gives the exit status.
pub fn put_failed<E: Write>(errors: &mut E, failed: Option<&String>, status: u8) -> io::Result<u8> {
    match failed {
        Some(path) => {
            writeln!(errors, "ydebug: cannot write {path}")?;
            Ok(3)
        }
        None => Ok(status),
    }
}
