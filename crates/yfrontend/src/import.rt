//! `ydebug import`.

use crate::cell_text::{CellText, add_cells};
use crate::compared::{Compared, Counts, Other};
use crate::notes::{Source, Telling, add_expected, add_notes, shown};
use crate::opening::{Origin, open_bytes};
use crate::peer::Peer;
use std::alloc::Global;
use std::io::{self, ErrorKind, Write};
use std::rt::Files;
use yexplain::lines::is_inner;
use yexplain::reads::{Made, grammar_of};
use yfaults::opening::{Opened, Trouble, add_trouble, grammar_bytes};
use yfiles::category::{Categories, Category};
use yfiles::diagnostic::{Diagnostic, Diagnostics, Severity};
use yfiles::place::Place;
use yfiles::reading::undone;
use yfiles::same::refused_outputs;
use yfiles::writing::put_output;
use yforeign::directive::is_imported;
use ygrammar::{GrammarFault, LONGEST_FILE, PlacedFault};
use yimport::import::{Imported, import};
use yimport::refusal::{self, Refused};
use yimport::symbols::Ended;
use ysymbols::Grammar;

/// What is said of a file that is too long.
const TOO_LONG: PlacedFault = PlacedFault {
    fault: GrammarFault::TooLong,
    at: 0,
    state: None,
};

/// What is asked for: the import of a file, to a file of this path or to standard output.
#[derive(Clone, Copy)]
pub struct Asked<'a> {
    /// The path of the file.
    pub file: &'a str,
    /// The path to which the import goes; `None` for standard output.
    pub output: Option<&'a str>,
    /// Which warnings are shown.
    pub shown: Categories,
}

/// A file, what it becomes, and which changes are written.
#[derive(Clone, Copy)]
struct Looked<'a> {
    source: Source<'a>,
    imported: &'a Imported,
    telling: Telling,
}

/// For each rule, which of the ends that were taken out of bodies stood in its own. The bodies of a
/// file are the rules but those of inner actions, in their order.
fn ended_rules(alloc: Global, grammar: &Grammar, ends: &[Ended]) -> Made<Vec<Option<usize>>> {
    let mut ended = Vec::with_capacity(alloc, grammar.rules())?;
    let mut body: usize = 0;
    for rule in 0..grammar.rules() {
        let is_body = rule > 0 && !is_inner(grammar, rule);
        body = body.saturating_add(usize::from(is_body));
        let end = ends.binary_search_by_key(&body, |end| end.body);
        ended.push(end.ok().filter(|_| is_body))?;
    }
    Ok(ended)
}

/// Tells what was changed, and which conflicts aren't those of bison.
fn add_changes(
    alloc: Global,
    told: &mut Diagnostics,
    asked: Looked<'_>,
    found: &Compared,
    text: Option<CellText<'_>>,
) -> io::Result<()> {
    let (source, imported, stay) = (asked.source, asked.imported, found.conflicts_stay());
    add_notes(alloc, told, source, imported, asked.telling, stay)?;
    if let Some(text) = text {
        let mut one = text.conflict(alloc)?;
        one.severity = Severity::Warning;
        one.category = Some(Category::Yacc);
        told.add(one)?;
    }
    add_cells(alloc, told, source.path, found)?;
    add_expected(alloc, told, source, imported, found.counts)
}

/// Compares the cells of what a file becomes with bison's, says what is to be said of the import,
/// and gives the conflicts as bison counts them, or the exit status where bison does something else
/// in a cell.
fn look_at(
    alloc: Global,
    told: &mut Diagnostics,
    asked: Looked<'_>,
    opened: &Opened,
) -> io::Result<Result<Counts, u8>> {
    let Opened { tables, lines } = opened;
    let ends = &asked.imported.ended;
    let ended = ended_rules(alloc, grammar_of(tables), ends)?;
    let peer = Peer {
        tables,
        levels: &asked.imported.levels,
        ended: &ended,
    };
    let found = Compared::new(alloc, peer)?;
    let text = |other: Other| CellText {
        source: asked.source,
        peer,
        lines,
        ends,
        other,
    };
    match found.deed {
        Some(other) => {
            told.add(text(other).refused(alloc)?)?;
            Ok(Err(1))
        }
        None => {
            add_changes(alloc, told, asked, &found, found.conflict.map(text))?;
            Ok(Ok(found.counts))
        }
    }
}

/// Says why what a file becomes isn't opened, with the column that the place has in the file
/// itself, where it has one.
fn add_unopened(
    alloc: Global,
    told: &mut Diagnostics,
    asked: Looked<'_>,
    trouble: &Trouble<'_>,
) -> io::Result<()> {
    let (path, imported) = (asked.source.path, asked.imported);
    if trouble.status() == 1 {
        let mut one = Diagnostic::new(alloc, Some(path), None)?;
        one.say("yacc would refuse what it becomes:")?;
        told.add(one)?;
    }
    add_trouble(alloc, told, (path, &imported.text), trouble)?;
    let place = trouble.place();
    let original = place.and_then(|at| imported.pieces.original_place(at));
    let source = asked.source.bytes;
    let column = original.and_then(|at| Place { path, source, at }.spot().column);
    if let Some(spot) = told.all.last_mut().and_then(|one| one.spot.as_mut()) {
        // lines are the same in both
        spot.column = column;
    }
    Ok(())
}

/// Opens what a file becomes as `yacc` does, with its conflicts, where all its cells are the same;
/// else says why not, and gives the exit status.
fn open_imported(
    alloc: Global,
    told: &mut Diagnostics,
    asked: Looked<'_>,
) -> io::Result<Result<(Opened, Counts), u8>> {
    let (bytes, imported) = (asked.source.bytes, asked.imported);
    let pieces = &imported.pieces;
    let origin = Some(Origin { bytes, pieces });
    let opened = match open_bytes(alloc, &imported.text, origin) {
        Ok(opened) => opened,
        Err(trouble) => {
            add_unopened(alloc, told, asked, &trouble)?;
            return Ok(Err(trouble.status()));
        }
    };
    match look_at(alloc, told, asked, &opened)? {
        Ok(counts) => Ok(Ok((opened, counts))),
        Err(status) => Ok(Err(status)),
    }
}

/// Says why a file isn't imported, for all that is refused of it.
fn add_refused(
    alloc: Global,
    told: &mut Diagnostics,
    source: Source<'_>,
    all: &[Refused],
) -> io::Result<()> {
    let Source { path, bytes } = source;
    for refused in all {
        let (at, source) = (refused.span.from, bytes);
        let mut one = Diagnostic::at(alloc, Place { path, source, at }, true)?;
        let (word, dots) = shown(bytes, at, refused.span.to);
        one.subject.extend_from_slice(word)?;
        one.subject.extend_from_slice(dots.as_bytes())?;
        let (before, after) = refused.refusal.words();
        one.say(before)?;
        if !after.is_empty() {
            one.message.write_all(word)?;
            one.say(after)?;
        }
        told.add(one)?;
    }
    Ok(())
}

/// What a file becomes; else says why it isn't imported, and gives the exit status.
fn imported_from(
    alloc: Global,
    told: &mut Diagnostics,
    source: Source<'_>,
) -> io::Result<Result<Imported, u8>> {
    let Source { path, bytes } = source;
    if bytes.len() > LONGEST_FILE {
        let trouble = Trouble::of_text(alloc, TOO_LONG);
        add_trouble(alloc, told, (path, bytes), &trouble)?;
        return Ok(Err(1));
    }
    match import(alloc, bytes) {
        Ok(imported) => Ok(Ok(imported)),
        Err(refusal::Trouble::Refused(refused)) => {
            add_refused(alloc, told, source, &refused)?;
            Ok(Err(1))
        }
        Err(refusal::Trouble::Memory) => Err(io::Error::from(ErrorKind::OutOfMemory)),
    }
}

/// What a file becomes, where `yacc` takes that; else the exit status. What is said of it is told.
fn imported_of<F: Files + AllocGlobal>(
    rt: &F,
    told: &mut Diagnostics,
    path: &str,
) -> io::Result<Result<Imported, u8>> {
    let alloc = rt.alloc();
    let bytes = match grammar_bytes(rt, path) {
        Ok(bytes) => bytes,
        Err(error) => return undone(alloc, told, ("read", path), error).map(Err),
    };
    let source = Source {
        path,
        bytes: &bytes,
    };
    let imported = match imported_from(alloc, told, source)? {
        Ok(imported) => imported,
        Err(status) => return Ok(Err(status)),
    };
    let looked = Looked {
        source,
        imported: &imported,
        telling: Telling::All,
    };
    let opened = open_imported(alloc, told, looked)?;
    match opened {
        Ok(_) => Ok(Ok(imported)),
        Err(status) => Ok(Err(status)),
    }
}

/// Writes what is asked for, with a line on `errors` for each change, and gives the exit status:
/// 0; 1 where the file is refused; 2 where the output is the file itself; 3 where a file can't be
/// read or written, or memory runs out.
pub fn run_import<F: Files + AllocGlobal, W: Write, E: Write>(
    rt: &F,
    asked: Asked<'_>,
    out: &mut W,
    errors: &mut E,
) -> io::Result<u8> {
    if let Some(status) = refused_outputs(rt, &[asked.output], &[asked.file], errors)? {
        return Ok(status);
    }
    let mut told = Diagnostics::new(rt.alloc());
    let imported = imported_of(rt, &mut told, asked.file)?;
    told.only(rt.alloc(), asked.shown)?.put(errors, "ydebug")?;
    match imported {
        Ok(imported) => put_output(rt, asked.output, &imported.text, out, errors),
        Err(status) => Ok(status),
    }
}

/// A file of bison or byacc that was opened.
#[derive(Drop)]
pub struct Foreign {
    /// What it becomes.
    pub imported: Imported,
    /// The tables of that.
    pub opened: Opened,
    /// Its conflicts as bison counts them.
    pub counts: Counts,
}

/// Opens the grammar that the bytes of a file of bison become, by an import that was made. Only
/// changes by which the language or a conflict can change are told. Where the file is refused, that
/// is said, and the exit status is the answer.
pub fn open_import(
    alloc: Global,
    told: &mut Diagnostics,
    source: Source<'_>,
    imported: Imported,
) -> io::Result<Result<Foreign, u8>> {
    let looked = Looked {
        source,
        imported: &imported,
        telling: Telling::Weighty,
    };
    match open_imported(alloc, told, looked)? {
        Ok((opened, counts)) => Ok(Ok(Foreign {
            imported,
            opened,
            counts,
        })),
        Err(status) => Ok(Err(status)),
    }
}

/// How a grammar file is read.
#[derive(Clone, Copy, Drop, PartialEq, Eq)]
pub enum Dialect {
    /// As `yacc` reads it, and in no other way.
    Yacc,
    /// As `yacc` reads it; by an import, where it has what only bison or byacc takes.
    Seen,
    /// By an import.
    Bison,
}

/// A grammar file that is open.
#[derive(Drop)]
pub enum Read {
    /// One that `yacc` takes.
    Plain(Opened),
    /// One of bison or byacc.
    Foreign(Foreign),
}

/// Whether the place where `yacc` stops reading begins with what an import takes, or an import
/// comes beyond it, up to a place.
fn is_foreign(bytes: &[u8], trouble: &Trouble<'_>, end: usize) -> bool {
    let Trouble::Grammar(refusal) = trouble else {
        return false;
    };
    let at = refusal.placed.at;
    let rest = bytes.get(at..).unwrap_or(&[]);
    let is_passed = match refusal.placed.fault {
        GrammarFault::BadNumber { .. } => at <= end,
        GrammarFault::BadLiteral { .. }
        | GrammarFault::Foreign { .. }
        | GrammarFault::Syntax { .. } => at < end,
        GrammarFault::Unproductive { .. } => true,
        _ => false,
    };
    rest.starts_with(b"//") || is_imported(rest) || is_passed
}

/// Whether all that `yacc` says against a file is that no list of tokens can be made of a
/// nonterminal.
fn is_barren(trouble: &Trouble<'_>) -> bool {
    match trouble {
        Trouble::Grammar(refusal) => {
            matches!(refusal.placed.fault, GrammarFault::Unproductive { .. })
        }
        _ => false,
    }
}

/// Where the first thing stands that an import refuses.
fn first_of(refused: &[Refused]) -> usize {
    refused.first().map_or(0, |it| it.span.from)
}

/// What a file becomes that `yacc` refuses for this reason, where it has what only bison or byacc
/// takes; else says why it isn't opened, and gives the exit status. Of a file of bison that is what
/// the import says.
pub fn import_of(
    alloc: Global,
    told: &mut Diagnostics,
    source: Source<'_>,
    trouble: &Trouble<'_>,
    dialect: Dialect,
) -> io::Result<Result<Imported, u8>> {
    let Source { path, bytes } = source;
    if bytes.len() <= LONGEST_FILE && !matches!(trouble, Trouble::Memory) {
        match import(alloc, bytes) {
            Ok(imported) if !imported.notes.is_empty() => return Ok(Ok(imported)),
            Err(refusal::Trouble::Refused(refused))
                if dialect == Dialect::Bison || is_foreign(bytes, trouble, first_of(&refused)) => {
                add_refused(alloc, told, source, &refused)?;
                return Ok(Err(1));
            }
            Err(refusal::Trouble::Memory) => {
                return Err(io::Error::from(ErrorKind::OutOfMemory));
            }
            Ok(_) | Err(refusal::Trouble::Refused(_)) => {}
        }
    }
    add_trouble(alloc, told, (path, bytes), trouble)?;
    Ok(Err(trouble.status()))
}

/// Notes that a file is read as one of bison or byacc, at the place where `yacc` refuses it.
fn add_seen(
    alloc: Global,
    told: &mut Diagnostics,
    source: Source<'_>,
    trouble: &Trouble<'_>,
) -> io::Result<()> {
    let Source { path, bytes } = source;
    let place = |at| Place {
        path,
        source: bytes,
        at,
    }
    .spot();
    let mut one = Diagnostic::new(alloc, Some(path), trouble.place().map(place))?;
    one.severity = Severity::Note;
    one.say("read as a file of bison or byacc, since yacc refuses this")?;
    Ok(told.add(one)?)
}

/// Opens a grammar file. What is to be said of it is told; where it is refused, the exit status is
/// the answer.
pub fn open_grammar(
    alloc: Global,
    told: &mut Diagnostics,
    source: Source<'_>,
    dialect: Dialect,
) -> io::Result<Result<Read, u8>> {
    let imported = if dialect == Dialect::Bison {
        imported_from(alloc, told, source)?
    } else {
        match open_bytes(alloc, source.bytes, None) {
            Ok(opened) => return Ok(Ok(Read::Plain(opened))),
            Err(trouble) if dialect == Dialect::Seen && !is_barren(&trouble) => {
                let imported = import_of(alloc, told, source, &trouble, dialect)?;
                if imported.is_ok() {
                    add_seen(alloc, told, source, &trouble)?;
                }
                imported
            }
            Err(trouble) => {
                add_trouble(alloc, told, (source.path, source.bytes), &trouble)?;
                return Ok(Err(trouble.status()));
            }
        }
    };
    match imported {
        Ok(imported) => match open_import(alloc, told, source, imported)? {
            Ok(foreign) => Ok(Ok(Read::Foreign(foreign))),
            Err(status) => Ok(Err(status)),
        },
        Err(status) => Ok(Err(status)),
    }
}
