//! The generator over a folder: a grammar file in, its table and its report out.

ghost use Rattle.std.specs.Prelude.{◌≡◌, true, not, IfErr, IfOk, OnOk, string_bytes};
ghost use Rattle.ylalr.specs.Collection.{Guide, IsGuide};
ghost use Rattle.ylink.specs.Link.{device_of, has_failed};
ghost use Rattle.ylink.specs.Sends.{Grows};
ghost use Rattle.ygenerate.specs.Written.{text_of, Takes, OpenFails, Writes, FillsBy, WriteFails};
ghost use Rattle.ygenerate.specs.Written.{WritesAll, AllFail, Generated, ending_of, path_of};

use crate::source::{SourceFault, tables_from};
use std::alloc::{AllocError, Global};
use std::io::{ErrorKind, Write};
use thiserror::Error;
use yfolder::Folder;
use ylink::{Buffer, Buffered};
use ytables::{Counts, Link, Tables};

/// The texts that can be written of a grammar.
#[derive(Clone, Copy, Debug, PartialEq, Eq)]
pub enum Text {
    /// The table.
    Table,
    /// The report.
    Report,
}

impl Text {
    /// What follows the prefix in the name of its file (POSIX yacc, "Output Files").
    pub fn ending(self) -> &'static str
        ensures { result.now ≡ ending_of self }
    {
        match self {
            Text::Table => ".tab",
            Text::Report => ".output",
        }
    }
}

/// Why not all that is wanted of a grammar was written.
#[derive(Debug, Drop, Error)]
pub enum GenerateFault {
    /// There are no tables of the grammar.
    #[error("{0}")]
    Source(SourceFault),
    /// The file of this text can't be opened.
    #[error("cannot open what is to be written")]
    Unopened(Text),
    /// Memory ran out before the file of this text was opened.
    #[error("no memory")]
    NoRoom(Text),
    /// A call of the file of this text failed.
    #[error("write fault")]
    Unwritten(Text),
}

/// The path of the file of a text.
fn path_of(alloc: Global, prefix: &str, text: Text) -> Result<String, AllocError>
    ensures { IfOk result (λ path. string_bytes path ≡ path_of prefix.now text) }
{
    let mut path = String::new(alloc);
    path.push_str(prefix)?;
    path.push_str(text.ending())?;
    Ok(path)
}

/// Opens the file of a text.
fn open_text<D: Folder>(
    alloc: Global,
    folder: &mut D,
    prefix: &str,
    text: Text,
) -> Result<D::File, GenerateFault>
    ensures opened { IfOk result (λ file.
        D.opens folder.old (path_of prefix.now text) file folder.new) }
    ensures fails { IfErr result
        (OpenFails D.unwritable (path_of prefix.now text) text folder.old folder.new) }
{
    let Ok(path) = path_of(alloc, prefix, text) else {
        return Err(GenerateFault::NoRoom(text));
    };
    match folder.open(path.as_str()) {
        Ok(file) => Ok(file),
        Err(error) => match error.kind() {
            ErrorKind::OutOfMemory => Err(GenerateFault::NoRoom(text)),
            _ => Err(GenerateFault::Unopened(text)),
        },
    }
}

/// Writes a text; whether the link took all of it.
fn put_text<W: Write>(tables: &Tables, text: Text, link: &mut Link<W>) -> bool
    ensures text { (u : Guide) → IsGuide tables.now.built u
        → Grows (W.contents (device_of link.old)) (W.contents (device_of link.new)) result
        (text_of tables.now u text) }
    ensures failed { has_failed link.new ≡ not result }
{
    match text {
        Text::Table => tables.write_table(link).is_ok(),
        Text::Report => tables.write_report(link).is_ok(),
    }
}

/// Writes a text to a file, through a buffer, which is then empty: the link to the file, whose flag
/// says whether a call of it failed.
fn send<W: Write + Drop>(tables: &Tables, text: Text, buffer: Buffer, file: W) -> Link<W>
    ensures { (u : Guide) → IsGuide tables.now.built u
        → Takes (W.contents file) (W.contents (device_of result)) (has_failed result)
        (text_of tables.now u text) }
{
    let mut link = Link::new(Buffered::over(buffer, file));
    let _whole = put_text(tables, text, &mut link);
    link.finish()
}

/// Writes a text to the file that was opened for it, flushes the file and closes it.
fn write_file<D: Folder>(
    tables: &Tables,
    text: Text,
    folder: &mut D,
    buffer: Buffer,
    file: D::File,
) -> Result<(), GenerateFault>
    ensures { FillsBy D.closes D.File.contents tables.now text file folder.old folder.new result }
{
    let link = send(tables, text, buffer, file);
    if folder.close(link) {
        Ok(())
    } else {
        Err(GenerateFault::Unwritten(text))
    }
}

/// Opens the file of a text and writes it. The memory of the buffer is asked for before the file is
/// opened.
fn write_text<D: Folder>(
    alloc: Global,
    tables: &Tables,
    text: Text,
    folder: &mut D,
    prefix: &str,
) -> Result<(), GenerateFault>
    ensures wrote { OnOk result (Writes D.opens D.closes D.File.contents
        (path_of prefix.now text) tables.now text true folder.old folder.new) }
    ensures fails { IfErr result (WriteFails D.opens D.closes D.File.contents D.unwritable
        prefix.now tables.now text folder.old folder.new) }
{
    let Ok(buffer) = Buffer::new(alloc) else {
        return Err(GenerateFault::NoRoom(text));
    };
    match open_text(alloc, folder, prefix, text) {
        Ok(file) => write_file(tables, text, folder, buffer, file),
        Err(fault) => Err(fault),
    }
}

/// Writes the table, and then the report where it is wanted.
fn write_texts<D: Folder>(
    alloc: Global,
    tables: &Tables,
    folder: &mut D,
    prefix: &str,
    verbose: bool,
) -> Result<(), GenerateFault>
    ensures wrote { OnOk result (WritesAll D.opens D.closes D.File.contents prefix.now tables.now
        verbose folder.old folder.new) }
    ensures fails { IfErr result (AllFail D.opens D.closes D.File.contents D.unwritable prefix.now
        tables.now verbose folder.old folder.new) }
{
    match write_text(alloc, tables, Text::Table, folder, prefix) {
        Ok(()) if verbose => write_text(alloc, tables, Text::Report, folder, prefix),
        written => written,
    }
}

/// Generates from a grammar file: reads it, writes its table, and then its report where that is
/// wanted (`verbose`), to the files of this prefix. The answer counts the conflicts of all cells.
///
/// Each file is opened once at most, takes its text and nothing else, is flushed and closed; where a
/// call of it failed, it has taken no more than a beginning. Nothing is opened to be written before
/// there are tables, and the report is opened only after the table was written.
pub fn generate<D: Folder>(
    alloc: Global,
    folder: &mut D,
    grammar: &str,
    prefix: &str,
    verbose: bool,
) -> Result<Counts, GenerateFault>
    ensures { Generated D.reads D.unreadable D.opens D.unwritable D.closes D.File.contents
        grammar.now prefix.now verbose folder.old folder.new result }
{
    let tables = match tables_from(alloc, folder, grammar) {
        Ok(tables) => tables,
        Err(fault) => return Err(GenerateFault::Source(fault)),
    };
    let written = write_texts(alloc, &tables, folder, prefix, verbose);
    let counts = tables.conflicts();
    drop(tables);
    match written {
        Ok(()) => Ok(counts),
        Err(fault) => Err(fault),
    }
}
