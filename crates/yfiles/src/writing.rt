//! Texts written to files so that none is left cut off: a text goes to a new file beside its own,
//! which gets its name once it is complete.

use std::fs::{self, File, OpenFile, OpenOptions, Permissions};
use std::io::{self, ErrorKind, Write};
use std::os::unix::fs::MetadataExt;
use std::rt::Files;

/// How many names are tried for the file beside another.
const MOST_NAMES: usize = 100;

/// Makes a file in the folder of a path, and gives its own path. The folder's other files need not
/// be looked at, since a file is made only where none has the name.
fn make_beside<F: Files + AllocGlobal>(rt: &F, path: &str) -> io::Result<(F::File, String)> {
    for number in 0..MOST_NAMES {
        let beside = match path.rsplit_once('/') {
            Some((folder, _)) => format!(in rt.alloc(); "{folder}/.ydebug-{number}")?,
            None => format!(in rt.alloc(); ".ydebug-{number}")?,
        };
        match File::create_new(rt, &beside) {
            Ok(device) => return Ok((device, beside)),
            Err(error) if error.kind() == ErrorKind::AlreadyExists => {}
            Err(error) => return Err(error),
        }
    }
    Err(io::Error::from(ErrorKind::Other))
}

/// Writes a text to a file that was made, and gives it the rights of the one that it replaces, and
/// that one's name.
fn complete<F: Files>(
    rt: &F,
    (device, beside): (&mut F::File, &str),
    rights: Option<Permissions>,
    path: &str,
    text: &[u8],
) -> io::Result<()> {
    device.write_all(text)?;
    device.flush()?;
    if let Some(rights) = rights {
        // where that can't be done, the file has those of any new one
        let _ = device.set_permissions(rights);
    }
    fs::rename(rt, beside, path)
}

/// Writes a text to a new file, which then gets this path. Where that fails, no new file is left,
/// and what has the path stays.
fn replace<F: Files + AllocGlobal>(
    rt: &F,
    path: &str,
    text: &[u8],
    rights: Option<Permissions>,
) -> io::Result<()> {
    let (mut device, beside) = make_beside(rt, path)?;
    let written = complete(rt, (&mut device, &beside), rights, path, text);
    if written.is_err() {
        let _ = fs::remove_file(rt, &beside);
    }
    written
}

/// Writes a text to the file of a path. A plain one under one name, which may be written, or none
/// is replaced by a complete one;
/// links, pipes and devices are written in place. Where it fails, a plain file is as it was.
pub fn write_over<F: Files + AllocGlobal>(rt: &F, path: &str, text: &[u8]) -> io::Result<()> {
    match fs::symlink_metadata(rt, path) {
        Ok(there) if there.is_file() && there.nlink() < 2 => {
            OpenOptions::new().write(true).open(rt, path)?;
            replace(rt, path, text, Some(there.permissions()))
        }
        Ok(_) => {
            let mut device = fs::create(rt, path)?;
            device.write_all(text)?;
            device.flush()
        }
        Err(error) if error.kind() == ErrorKind::NotFound => replace(rt, path, text, None),
        Err(error) => Err(error),
    }
}

/// Writes a text to a new file of a path, which it has only once it is complete, but for a moment
/// in which an empty one holds the path. Where something has the path, the error is
/// `AlreadyExists`; where it fails otherwise, no file is left.
pub fn write_new<F: Files + AllocGlobal>(rt: &F, path: &str, text: &[u8]) -> io::Result<()> {
    drop(File::create_new(rt, path)?);
    let written = replace(rt, path, text, None);
    if written.is_err() {
        let _ = fs::remove_file(rt, path);
    }
    written
}

/// Writes a text to the file of a path, where one is given, and says so where it can't be written.
/// The exit status is the answer; only no memory stays an error.
pub fn put_file<F: Files + AllocGlobal, E: Write>(
    rt: &F,
    path: Option<&str>,
    text: &[u8],
    errors: &mut E,
) -> io::Result<u8> {
    let Some(path) = path else {
        return Ok(0);
    };
    match write_over(rt, path, text) {
        Ok(()) => Ok(0),
        Err(error) if error.kind() == ErrorKind::OutOfMemory => Err(error),
        Err(_) => {
            writeln!(errors, "ydebug: cannot write {path}")?;
            Ok(3)
        }
    }
}

/// Writes a text likewise where a path is given, and to `out` where none is.
pub fn put_output<F: Files + AllocGlobal, W: Write, E: Write>(
    rt: &F,
    path: Option<&str>,
    text: &[u8],
    out: &mut W,
    errors: &mut E,
) -> io::Result<u8> {
    if path.is_none() {
        out.write_all(text)?;
    }
    put_file(rt, path, text, errors)
}
