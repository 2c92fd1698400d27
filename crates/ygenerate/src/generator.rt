//! What `yacc` does, except its exit.

ghost use Rattle.std.specs.Prelude.{◌≡◌, false, map, is_some};
ghost use Rattle.ylink.specs.Link.{device_of, has_failed};
ghost use Rattle.ylink.specs.Sends.{Sends};
ghost use Rattle.ygenerate.specs.Generating.{Asks, EndsIn, PassesOn, Runs, said_of};
ghost use Rattle.yfolder.specs.Disk.{disk_over};

use crate::arguments::{YaccWords, yacc_words};
use crate::generate::generate;
use crate::message::{Program, Trouble, put_conflicts, put_help};
use clap::error::ErrorKind;
use std::alloc::Global;
use std::io::Write;
use std::rt::Files;
use yfolder::{Disk, Folder};
use ytables::{Counts, Link};

/// What the words of `yacc` ask for.
enum Request<'a> {
    /// The files of a grammar.
    Generate(YaccWords<'a>),
    /// This text of help.
    Help(String),
}

/// What a run did.
#[derive(Clone, Copy)]
enum Done {
    /// It gave help.
    Helped,
    /// It wrote the files of a grammar whose cells count so many conflicts.
    Wrote(Counts),
}

impl Done {
    /// Writes the line on conflicts, where there are some.
    fn put<E: Write>(self, link: &mut Link<E>) -> Option<()>
        ensures { Sends E.contents link.old link.new (is_some result) (said_of self) }
    {
        match self {
            Done::Helped => Some(()),
            Done::Wrote(counts) => put_conflicts(link, counts),
        }
    }
}

/// What the words of `yacc` ask for.
fn request_of<'a>(alloc: Global, words: &'a [&'a str]) -> Result<Request<'a>, Trouble<'a>>
    ensures { Asks (map (λ word. word.now) words.entry.now) result }
{
    match yacc_words(alloc, words) {
        Ok(words) => Ok(Request::Generate(words)),
        Err(error) => match error.kind() {
            ErrorKind::OutOfMemory => Err(Trouble::NoMemory),
            ErrorKind::DisplayHelp => match format!(in alloc; "{error}") {
                Ok(text) => Ok(Request::Help(text)),
                Err(_) => Err(Trouble::NoMemory),
            },
            _ => Err(Trouble::Usage),
        },
    }
}

/// Generates from the files of these words.
fn generate_files<'a, D: Folder>(
    alloc: Global,
    folder: &mut D,
    words: YaccWords<'a>,
) -> Result<Counts, Trouble<'a>>
    ensures { PassesOn D.reads D.unreadable D.opens D.unwritable D.closes D.File.contents folder.old
        folder.new words.entry result }
{
    let (grammar, prefix) = (words.grammar(), words.prefix());
    match generate(alloc, folder, grammar, prefix, words.verbose()) {
        Ok(counts) => Ok(counts),
        Err(fault) => Err(Trouble::of_generating(words, fault)),
    }
}

/// Does what the words ask for.
fn obey<'a, D: Folder, W: Write>(
    alloc: Global,
    folder: &mut D,
    words: &'a [&'a str],
    writer: &mut Link<W>,
) -> Result<Done, Trouble<'a>>
    requires { has_failed writer.old ≡ false }
    ensures { EndsIn D.reads D.unreadable D.opens D.unwritable D.closes D.File.contents folder.old
        folder.new W.contents (map (λ word. word.now) words.entry.now) (device_of writer.old)
        writer.new result }
{
    match request_of(alloc, words) {
        Ok(Request::Generate(words)) => match generate_files(alloc, folder, words) {
            Ok(counts) => Ok(Done::Wrote(counts)),
            Err(trouble) => Err(trouble),
        },
        Ok(Request::Help(text)) => {
            put_help(writer, text.as_str());
            Ok(Done::Helped)
        }
        Err(trouble) => Err(trouble),
    }
}

/// All that `yacc` does over a folder, except its exit: `yacc [-v] [-b prefix] grammar` writes the
/// table of the grammar to the file `prefix.tab`, with `-v` its report to `prefix.output`. A line on
/// conflicts, where there are some, goes to the last link, as messages do. Help goes to the writer.
/// The answer is the exit status: 0 where all was done, 1 where the grammar file is refused, 2 where
/// the words are, 3 where a file can't be read or written, memory runs out, or there are too many
/// item sets. Where a message or a help text can't be written, nothing more is said.
pub fn yacc_in<'a, D: Folder, W: Write, E: Write>(
    alloc: Global,
    folder: &mut D,
    words: &'a [&'a str],
    writer: &mut Link<W>,
    errors: &mut Link<E>,
) -> u8
    ensures { Runs D.reads D.unreadable D.opens D.unwritable D.closes D.File.contents folder.old
        folder.new W.contents E.contents (map (λ word. word.now) words.entry.now)
        (device_of writer.old) writer.new (device_of errors.old) errors.new result }
{
    writer.clear();
    errors.clear();
    match obey(alloc, folder, words, writer) {
        Ok(done) => {
            let _ = done.put(errors);
            let _ = errors.flush();
            0
        }
        Err(trouble) => {
            let _ = trouble.put(errors, Program::Yacc);
            let _ = errors.flush();
            trouble.status()
        }
    }
}

/// All that `yacc` does, except its exit: [`yacc_in`] over the files of the file system.
pub fn yacc_run<'a, F: Files + AllocGlobal + 'a, W: Write, E: Write>(
    rt: &F,
    words: &'a [&'a str],
    writer: &mut Link<W>,
    errors: &mut Link<E>,
) -> u8
    ensures { (after : _) × Runs ⟦<Disk<'a, F> as Folder>⟧.reads ⟦<Disk<'a, F> as Folder>⟧.unreadable
        ⟦<Disk<'a, F> as Folder>⟧.opens ⟦<Disk<'a, F> as Folder>⟧.unwritable
        ⟦<Disk<'a, F> as Folder>⟧.closes F.File.contents (disk_over rt.entry) after
        W.contents E.contents (map (λ word. word.now) words.entry.now)
        (device_of writer.old) writer.new (device_of errors.old) errors.new result }
{
    let mut disk = Disk::new(rt);
    yacc_in(rt.alloc(), &mut disk, words, writer, errors)
}
