//! Whether paths mean one file, and whether outputs may be written.

use std::fmt;
use std::fs::{self, Metadata};
use std::io::{self, ErrorKind, Write};
use std::os::unix::fs::MetadataExt;
use std::rt::Files;

/// The most links that are followed to a file that isn't there.
const MOST_LINKS: usize = 40;

/// Whether two files are known to be one, by the numbers of their devices and their own; `None`
/// where these aren't known.
fn are_one(one: &Metadata, two: &Metadata) -> Option<bool> {
    let are_known = (one.dev() != 0 || one.ino() != 0) && (two.dev() != 0 || two.ino() != 0);
    are_known.then_some(one.dev() == two.dev() && one.ino() == two.ino())
}

/// The folder of a path, and the name in it.
fn folder_and_name(path: &str) -> (&str, &str) {
    match path.rsplit_once('/') {
        Some(("", name)) => ("/", name),
        Some((folder, name)) => (folder, name),
        None => (".", path),
    }
}

/// The path of a file that isn't there, behind the links that lead to it.
fn behind_links<F: Files + AllocGlobal>(rt: &F, path: &str) -> io::Result<String> {
    let alloc = rt.alloc();
    let mut found = format!(in alloc; "{path}")?;
    for _ in 0..MOST_LINKS {
        let target = match fs::read_link(rt, &found) {
            Ok(target) => target,
            Err(error) if error.kind() == ErrorKind::OutOfMemory => return Err(error),
            Err(_) => break,
        };
        let (folder, _) = folder_and_name(&found);
        let target = target.as_str();
        found = if target.starts_with('/') {
            format!(in alloc; "{target}")?
        } else {
            format!(in alloc; "{folder}/{target}")?
        };
    }
    Ok(found)
}

/// Whether two paths mean one plain file: by the numbers of its device and of the file, and where
/// neither is there yet, by those of its folder and by its name, behind links. Where numbers aren't
/// known, the paths themselves tell.
pub fn is_same_file<F: Files + AllocGlobal>(rt: &F, path: &str, other: &str) -> io::Result<bool> {
    match (fs::metadata(rt, path), fs::metadata(rt, other)) {
        (Ok(one), Ok(two)) => {
            return match are_one(&one, &two) {
                Some(is_one) => Ok(is_one && one.is_file()),
                None => Ok(path == other),
            };
        }
        (Err(_), Err(_)) => {}
        _ => return Ok(false),
    }
    let (path, other) = (behind_links(rt, path)?, behind_links(rt, other)?);
    let (folder, name) = folder_and_name(&path);
    let (other_folder, other_name) = folder_and_name(&other);
    let are_folders_one = match (fs::metadata(rt, folder), fs::metadata(rt, other_folder)) {
        (Ok(one), Ok(two)) => are_one(&one, &two),
        _ => None,
    };
    match are_folders_one {
        Some(is_one) => Ok(is_one && name == other_name),
        None => Ok(path == other),
    }
}

/// The name that a file has in a folder, behind links, where it stands there or would.
pub fn name_in<F: Files + AllocGlobal>(
    rt: &F,
    path: &str,
    folder: &str,
) -> io::Result<Option<String>> {
    let path = behind_links(rt, path)?;
    let (own, name) = folder_and_name(&path);
    let is_there = match (fs::metadata(rt, own), fs::metadata(rt, folder)) {
        (Ok(one), Ok(two)) => are_one(&one, &two).unwrap_or(own == folder),
        _ => false,
    };
    if is_there {
        Ok(Some(String::from_str(rt.alloc(), name)?))
    } else {
        Ok(None)
    }
}

/// Whether a path means one of some files.
pub fn is_among<F: Files + AllocGlobal>(rt: &F, path: &str, files: &[&str]) -> io::Result<bool> {
    for file in files {
        if is_same_file(rt, path, file)? {
            return Ok(true);
        }
    }
    Ok(false)
}

/// Why outputs aren't written.
#[derive(Clone, Copy)]
pub enum Clash<'a> {
    /// One is an input.
    Input(&'a str),
    /// Two are one file.
    Both(&'a str),
}

impl fmt::Display for Clash<'_> {
    fn fmt<W: fmt::Write>(&self, f: &mut fmt::Formatter<W>) -> fmt::Result {
        match self {
            Clash::Input(path) => write!(f, "{path} is an input, and isn't written over"),
            Clash::Both(path) => write!(f, "{path} can't be both outputs"),
        }
    }
}

/// Why some outputs, of which each may be left out, aren't written, where one of them is one of
/// these inputs or another output.
pub fn clash_of<'a, F: Files + AllocGlobal>(
    rt: &F,
    outputs: &[Option<&'a str>],
    inputs: &[&str],
) -> io::Result<Option<Clash<'a>>> {
    for (place, output) in outputs.iter().enumerate() {
        let Some(path) = *output else {
            continue;
        };
        if is_among(rt, path, inputs)? {
            return Ok(Some(Clash::Input(path)));
        }
        for other in outputs.get(..place).unwrap_or(&[]) {
            if let Some(other) = *other {
                if is_same_file(rt, path, other)? {
                    return Ok(Some(Clash::Both(path)));
                }
            }
        }
    }
    Ok(None)
}

/// Writes why outputs aren't written, where they aren't, and gives the exit status; `None` where
/// they may be.
pub fn refused_outputs<F: Files + AllocGlobal, E: Write>(
    rt: &F,
    outputs: &[Option<&str>],
    inputs: &[&str],
    errors: &mut E,
) -> io::Result<Option<u8>> {
    match clash_of(rt, outputs, inputs)? {
        Some(clash) => {
            writeln!(errors, "ydebug: {clash}")?;
            Ok(Some(2))
        }
        None => Ok(None),
    }
}
