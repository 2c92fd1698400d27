//! A grammar file read: one that `yacc` takes as `yacc` reads it, any other by its import.

use crate::ending::{Ending, File};
use crate::saying::refuse;
use std::alloc::Global;
use yexplain::reads::grammar_of;
use yfaults::opening::{Opened, Trouble as Unopened, add_trouble};
use yfiles::category::Choice;
use yfiles::diagnostic::Diagnostics;
use yfiles::steady::Steady;
use yfrontend::compared::Counts;
use yfrontend::import::{Dialect, Foreign, import_of, open_import};
use yfrontend::notes::Source;
use ygrammar::{Grammar, Mapped, Mark, read_mapped};
use yimport::import::Imported;
use yimport::symbols::Expected;
use ylalr::build;
use yparts::parts::Parts;
use yparts::refusal::Refusal;
use yparts::{foreign, native};
use yskeleton::is_of_bison;
use ysymbols::let_go;
use ytables::{Tables, resolve};

/// A variable that a word sets, and why it is refused.
#[derive(Clone, Copy, Drop)]
pub struct RefusedWord<'a> {
    /// The letter of the word.
    pub by: u8,
    /// The variable, with its value.
    pub variable: &'a [u8],
    /// Why it is refused.
    pub refusal: Refusal,
}

/// A grammar file read.
pub struct Reading<'a> {
    /// Its tables.
    pub tables: Tables,
    /// What it says of its parser.
    pub parts: Parts<'a>,
    /// Its import, where it was read by one.
    pub imported: Option<Imported>,
    /// Its shift/reduce conflicts.
    pub shift_reduce: usize,
    /// Its reduce/reduce conflicts.
    pub reduce_reduce: usize,
    /// The shift/reduce conflicts that it expects.
    pub expected_shift: Option<Expected>,
    /// The reduce/reduce conflicts that it expects.
    pub expected_reduce: Option<Expected>,
    /// The variables of words that are refused.
    pub refused_words: Vec<RefusedWord<'a>>,
    /// Whether all was written that is said of it.
    pub is_told: bool,
}

impl Drop for Reading<'_> {
    // A call in each owner, which keeps their proofs short.
    fn drop(self) {
        let_go!(self: Reading {
            tables, parts, imported, shift_reduce, reduce_reduce, expected_shift,
            expected_reduce, refused_words, is_told
        });
    }
}

/// The file as what is said of it names it.
fn source_of(file: &File) -> Source<'_> {
    Source {
        path: &file.path,
        bytes: &file.bytes,
    }
}

/// Says what was found in a grammar file, which is refused with this status.
fn refused(rt: &HostRuntime, told: &Diagnostics, status: u8) -> Ending {
    match told.put(&mut Steady::new(rt.stderr(), true), "ycc") {
        Ok(()) if status == 1 => Ending::Refused,
        Ok(()) => Ending::Outside,
        Err(error) => Ending::from(error),
    }
}

/// What a grammar file has and means.
fn map<'a>(rt: &HostRuntime, bytes: &'a [u8]) -> Result<(Grammar, Vec<Mark<'a>>), Unopened<'a>> {
    let Mapped {
        grammar,
        marks,
        barren,
    } = match read_mapped(rt.alloc(), bytes) {
        Ok(mapped) => mapped,
        Err(placed) => return Err(Unopened::of_text(rt.alloc(), placed)),
    };
    match grammar {
        Ok(grammar) => Ok((grammar, marks)),
        Err(placed) => Err(Unopened::of_fault(placed, marks, barren)),
    }
}

/// Takes in what words wish of a file as if it said so, and says whether it is one of bison.
fn look_at(parts: &mut Parts<'_>, file: &File) {
    let options = &mut parts.options;
    options.locations = options.locations || file.locations;
    options.language = file.wished.language.or(options.language);
    options.skeleton = file.wished.skeleton.or(options.skeleton);
    options.is_bison = options.is_bison || options.is_cxx();
    let is_bison = is_of_bison(&*parts);
    parts.options.is_bison = is_bison;
}

/// A file that `yacc` takes.
fn read_native<'a>(
    rt: &HostRuntime,
    file: &'a File,
    (grammar, marks): (Grammar, Vec<Mark<'a>>),
) -> Result<Reading<'a>, Ending> {
    let alloc = rt.alloc();
    let mut parts = native::parts_of(alloc, file.bytes.as_slice(), &grammar, &marks)?;
    look_at(&mut parts, file);
    let automaton = match build(alloc, grammar) {
        Ok(automaton) => automaton,
        Err(fault) => {
            let (trouble, mut told) = (Unopened::from(fault), Diagnostics::new(alloc));
            add_trouble(alloc, &mut told, (&file.path, &file.bytes), &trouble)?;
            return Err(refused(rt, &told, trouble.status()));
        }
    };
    let tables = resolve(alloc, automaton).map_err(|_| Ending::Memory)?;
    let counts = Counts::of(&tables);
    Ok(Reading {
        tables,
        parts,
        imported: None,
        shift_reduce: counts.shift_reduce,
        reduce_reduce: counts.reduce_reduce,
        expected_shift: None,
        expected_reduce: None,
        refused_words: Vec::new(alloc),
        is_told: true,
    })
}

/// What is said of an import, but for conflicts and useless rules, which are said by themselves;
/// of a file of bison nothing that is a warning, since its parser does what bison's does.
fn only_own(alloc: Global, told: Diagnostics, is_bison: bool) -> Result<Diagnostics, Ending> {
    let words = if is_bison {
        ["none", "none", "none"]
    } else {
        ["no-conflicts-sr", "no-conflicts-rr", "no-other"]
    };
    match Choice::of(&words, &[]) {
        Some(choice) => Ok(told.only(alloc, choice.shown)?),
        None => Ok(told),
    }
}

/// Refuses a file for a later bison.
fn refuse_later(rt: &HostRuntime, file: &File, parts: &Parts<'_>) -> Result<(), Ending> {
    for refused in &parts.refused {
        if refused.refusal == Refusal::Later {
            return Err(match refuse(rt, file, *refused) {
                Ending::Refused => Ending::Later,
                ending => ending,
            });
        }
    }
    Ok(())
}

/// A file that an import made one of `yacc`.
fn read_imported<'a>(
    rt: &HostRuntime,
    file: &'a File,
    imported: Imported,
) -> Result<Reading<'a>, Ending> {
    let (alloc, source) = (rt.alloc(), source_of(file));
    let mut told = Diagnostics::new(alloc);
    let foreign = match open_import(alloc, &mut told, source, imported)? {
        Ok(foreign) => foreign,
        Err(status) => return Err(refused(rt, &told, status)),
    };
    let (grammar, imported) = (grammar_of(&foreign.opened.tables), &foreign.imported);
    let mut parts = foreign::parts_of(alloc, &file.bytes, grammar, imported, file.wished)?;
    look_at(&mut parts, file);
    let is_bison = parts.options.is_bison || !parts.refused.is_empty();
    let mut errors = Steady::new(rt.stderr(), true);
    only_own(alloc, told, is_bison)?.put(&mut errors, "ycc")?;
    refuse_later(rt, file, &parts)?;
    let Foreign {
        opened,
        imported,
        counts,
    } = foreign;
    let Opened { tables, .. } = opened;
    let (expected_shift, expected_reduce) = (imported.shift_reduce, imported.reduce_reduce);
    Ok(Reading {
        tables,
        parts,
        imported: Some(imported),
        shift_reduce: counts.shift_reduce,
        reduce_reduce: counts.reduce_reduce,
        expected_shift,
        expected_reduce,
        refused_words: Vec::new(alloc),
        is_told: errors.finish().is_ok(),
    })
}

/// What a grammar file means and says; where it is refused, that is said.
pub fn read<'a>(rt: &HostRuntime, file: &'a File) -> Result<Reading<'a>, Ending> {
    match map(rt, file.bytes.as_slice()) {
        Ok(mapped) => read_native(rt, file, mapped),
        Err(trouble) => {
            let mut told = Diagnostics::new(rt.alloc());
            let dialect = match file.wished.is_bison {
                true => Dialect::Bison,
                false => Dialect::Seen,
            };
            match import_of(rt.alloc(), &mut told, source_of(file), &trouble, dialect)? {
                Ok(imported) => read_imported(rt, file, imported),
                Err(status) => Err(refused(rt, &told, status)),
            }
        }
    }
}
