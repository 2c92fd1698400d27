//! `ydebug table`: the files that `yacc` writes, by the same call.

use crate::given::Given;
use std::io::{self, ErrorKind, Read, Write};
use std::rt::Files;
use yfiles::same::refused_outputs;
use yfolder::Disk;
use yfrontend::import::Dialect;
use ygenerate::generate::{GenerateFault, generate};
use yinput::grammars::{GrammarFile, open_file};
use ytables::Counts;

/// What is asked for: the table of a grammar file, and its report where that is wanted.
#[derive(Clone, Copy)]
pub struct Asked<'a> {
    /// The path of the grammar file.
    pub grammar: &'a str,
    /// What the names of the files begin with.
    pub prefix: &'a str,
    /// Whether the report is wanted.
    pub report: bool,
}

/// Writes how many conflicts there are, where there are some.
fn put_conflicts<E: Write>(errors: &mut E, counts: Counts) -> io::Result<()> {
    let Counts {
        shift_reduce,
        reduce_reduce,
    } = counts;
    if shift_reduce == 0 && reduce_reduce == 0 {
        return Ok(());
    }
    writeln!(
        errors,
        "conflicts: {shift_reduce} shift/reduce, {reduce_reduce} reduce/reduce"
    )
}

impl<F: Files + AllocGlobal, R: Read, E: Write> Given<'_, F, R, E> {
    /// The exit status where a file would be written over the grammar, or both are one file.
    fn refused_files(&mut self, asked: Asked<'_>) -> io::Result<Option<u8>> {
        let (alloc, prefix) = (self.rt.alloc(), asked.prefix);
        let table = format!(in alloc; "{prefix}.tab")?;
        let report = format!(in alloc; "{prefix}.output")?;
        let report = if asked.report {
            Some(report.as_str())
        } else {
            None
        };
        let outputs = [Some(table.as_str()), report];
        refused_outputs(self.rt, &outputs, &[asked.grammar], &mut self.errors)
    }

    /// Writes the files, and gives the exit status: 0; 1 where the grammar is refused; 2 where a
    /// file would be written over it, or both are one file; 3 where a file can't be read or
    /// written, memory runs out, or there are too many states.
    pub fn run_table(&mut self, asked: Asked<'_>) -> io::Result<u8> {
        if let Some(status) = self.refused_files(asked)? {
            return Ok(status);
        }
        let (rt, path, prefix) = (self.rt, asked.grammar, asked.prefix);
        match generate(rt.alloc(), &mut Disk::new(rt), path, prefix, asked.report) {
            Ok(counts) => put_conflicts(&mut self.errors, counts).map(|()| 0),
            Err(GenerateFault::Source(_)) => {
                let dialect = Dialect::Yacc;
                match open_file(rt, GrammarFile { path, dialect }, &mut self.errors)? {
                    // memory ran out when the file was read before
                    Ok(_) => Err(io::Error::from(ErrorKind::OutOfMemory)),
                    Err(status) => Ok(status),
                }
            }
            Err(GenerateFault::Unopened(text) | GenerateFault::Unwritten(text)) => {
                let ending = text.ending();
                writeln!(self.errors, "ydebug: cannot write {prefix}{ending}")?;
                Ok(3)
            }
            Err(GenerateFault::NoRoom(_)) => Err(io::Error::from(ErrorKind::OutOfMemory)),
        }
    }
}
