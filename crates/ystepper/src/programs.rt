//! What `ystep` does, except its exit.

ghost use Rattle.std.specs.Prelude.{◌≡◌, false, map};
ghost use Rattle.ylink.specs.Link.{device_of, has_failed};
ghost use Rattle.ystepper.specs.Programs.{Asks, EndsIn, PassesOn, Runs};
ghost use Rattle.yfolder.specs.Disk.{disk_over};

use crate::ending::Ending;
use crate::stepper::step_through;
use clap::error::ErrorKind;
use std::alloc::Global;
use std::io::{Read, Write};
use std::rt::Files;
use yfolder::{Disk, Folder};
use ygenerate::arguments::{YstepWords, ystep_words};
use ygenerate::message::{Trouble, put_help};
use ytables::Link;

/// What the words of a program ask for.
enum Request<'a> {
    /// A session.
    Session(YstepWords<'a>),
    /// This text of help.
    Help(String),
}

/// What the words of `ystep` ask for.
fn request_of<'a>(alloc: Global, words: &'a [&'a str]) -> Result<Request<'a>, Trouble<'a>>
    ensures { Asks (map (λ word. word.now) words.entry.now) result }
{
    match ystep_words(alloc, words) {
        Ok(words) => Ok(Request::Session(words)),
        Err(error) => match error.kind() {
            ErrorKind::OutOfMemory => Err(Trouble::NoMemory),
            ErrorKind::DisplayHelp => match format!(in alloc; "{error}") {
                Ok(text) => Ok(Request::Help(text)),
                Err(_) => Err(Trouble::NoMemory),
            },
            _ => Err(Trouble::Usage),
        },
    }
}

/// Steps through the parse of the tokens file by the grammar file of these words.
fn step_files<'a, D: Folder, R: Read, W: Write>(
    alloc: Global,
    folder: &mut D,
    words: YstepWords<'a>,
    reader: &mut Link<R>,
    writer: &mut Link<W>,
) -> Result<(), Ending<'a>>
    ensures { PassesOn D.reads D.unreadable folder.old folder.new R.remaining W.contents
        (device_of reader.old) reader.new (device_of writer.old) writer.new words.entry result }
{
    let (grammar, tokens) = (words.grammar(), words.tokens());
    match step_through(alloc, folder, grammar, tokens, reader, writer) {
        Ok(()) => Ok(()),
        Err(fault) => Err(Ending::of_start(words, fault)),
    }
}

/// Does what the words ask for.
fn obey<'a, D: Folder, R: Read, W: Write>(
    alloc: Global,
    folder: &mut D,
    words: &'a [&'a str],
    reader: &mut Link<R>,
    writer: &mut Link<W>,
) -> Result<(), Ending<'a>>
    requires reader_clear { has_failed reader.old ≡ false }
    requires writer_clear { has_failed writer.old ≡ false }
    ensures { EndsIn D.reads D.unreadable folder.old folder.new R.remaining W.contents
        (device_of reader.old) reader.new (device_of writer.old) writer.new
        (map (λ word. word.now) words.entry.now) result }
{
    match request_of(alloc, words) {
        Ok(Request::Session(words)) => step_files(alloc, folder, words, reader, writer),
        Ok(Request::Help(text)) => {
            put_help(writer, text.as_str());
            Ok(())
        }
        Err(trouble) => Err(Ending::Trouble(trouble)),
    }
}

/// All that `ystep` does over a folder, except its exit: `ystep grammar tokens` runs a session with
/// command lines from the reader and replies to the writer. Messages go to the last link. The answer
/// is the exit status: 0 where the session was served or help was asked for, 1 where a file is
/// refused, 2 where the words are, 3 where a file or stream fails, memory runs out, or there are
/// too many item sets. Where a message or a help text can't be written, nothing more is said.
pub fn ystep_in<'a, D: Folder, R: Read, W: Write, E: Write>(
    alloc: Global,
    folder: &mut D,
    words: &'a [&'a str],
    reader: &mut Link<R>,
    writer: &mut Link<W>,
    errors: &mut Link<E>,
) -> u8
    ensures { Runs D.reads D.unreadable folder.old folder.new R.remaining W.contents E.contents
        (map (λ word. word.now) words.entry.now) (device_of reader.old) reader.new
        (device_of writer.old) writer.new (device_of errors.old) errors.new result }
{
    reader.clear();
    writer.clear();
    errors.clear();
    match obey(alloc, folder, words, reader, writer) {
        Ok(()) => 0,
        Err(ending) => {
            let _ = ending.put(errors);
            let _ = errors.flush();
            ending.status()
        }
    }
}

/// All that `ystep` does, except its exit: [`ystep_in`] over the files of the file system.
pub fn ystep_run<'a, F: Files + AllocGlobal + 'a, R: Read, W: Write, E: Write>(
    rt: &F,
    words: &'a [&'a str],
    reader: &mut Link<R>,
    writer: &mut Link<W>,
    errors: &mut Link<E>,
) -> u8
    ensures { (after : _) × Runs ⟦<Disk<'a, F> as Folder>⟧.reads ⟦<Disk<'a, F> as Folder>⟧.unreadable
        (disk_over rt.entry) after R.remaining W.contents E.contents
        (map (λ word. word.now) words.entry.now) (device_of reader.old) reader.new
        (device_of writer.old) writer.new (device_of errors.old) errors.new result }
{
    let mut disk = Disk::new(rt);
    ystep_in(rt.alloc(), &mut disk, words, reader, writer, errors)
}
