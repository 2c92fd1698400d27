//! Whole parses, one after the other: what was used of tables, and what never was.

use crate::cells::Cells;
use crate::elements::{Elements, Kind};
use crate::uses::Uses;
use std::alloc::Global;
use std::io::{self, ErrorKind, Write};
use yinput::language::Input;
use yinput::session_of;
use yparse::Tokens;
use ysearch::trial::Pace;
use ysymbols::let_go;
use ytables::Tables;

/// The most steps of a parse, which are as many as may stand.
const MOST_STEPS: usize = 1_000_000;

/// All kinds, in the order in which they are written.
const KINDS: [Kind; 3] = [Kind::Rules, Kind::States, Kind::Cells];

/// The most elements of a kind that are listed where they aren't asked for.
const FEW: usize = 10;

/// What is listed of all that isn't used, beside rules.
#[derive(Clone, Copy)]
pub struct Listed {
    /// States.
    pub states: bool,
    /// Actions: filled cells.
    pub actions: bool,
}

impl Listed {
    /// Whether so many elements of a kind are listed.
    fn has(self, kind: Kind, count: usize) -> bool {
        match kind {
            Kind::Rules => true,
            Kind::States => self.states || count <= FEW,
            Kind::Cells => self.actions || count <= FEW,
        }
    }
}

/// What parses by tables have used.
pub struct Walked {
    /// The tables.
    pub tables: Tables,
    /// Their filled cells.
    pub cells: Cells,
    /// What was used.
    pub uses: Uses,
}

impl Drop for Walked {
    // A call in each owner, which keeps their proofs short.
    fn drop(self) {
        let_go!(self: Walked { tables, cells, uses });
    }
}

/// What parses over these inputs use, each up to its end, also through errors.
pub fn walk_all(alloc: Global, tables: Tables, inputs: &[Input]) -> io::Result<Walked> {
    let cells = Cells::new(alloc, &tables)?;
    let mut uses = Uses::new(alloc, &tables, &cells)?;
    let mut tables = tables;
    for input in inputs {
        let symbols = Vec::from_slice(alloc, &input.tokens.symbols)?;
        let Some(session) = session_of(alloc, tables, Tokens { symbols }) else {
            // can't be, since each token is one of the tables
            return Err(io::Error::from(ErrorKind::Other));
        };
        let (mut session, mut pace) = (session, Pace::new(MOST_STEPS, MOST_STEPS));
        for _ in 0..MOST_STEPS {
            if uses.step(&mut session, &cells, &mut pace)?.is_none() {
                break;
            }
        }
        tables = session.into_tables();
    }
    Ok(Walked {
        tables,
        cells,
        uses,
    })
}

/// How many elements of a kind there are, and how many of them were used.
fn counts_of(uses: &Uses, kind: Kind) -> (usize, usize) {
    let rounds = uses.rounds(kind).get(kind.first()..).unwrap_or(&[]);
    let mut used: usize = 0;
    for round in rounds {
        used = used.saturating_add(usize::from(*round > 0));
    }
    (rounds.len(), used)
}

/// Writes how many of each kind were used, in one line.
pub fn put_counts<W: Write>(out: &mut W, uses: &Uses) -> io::Result<()> {
    for (place, kind) in KINDS.iter().enumerate() {
        let (front, word) = (if place > 0 { ", " } else { "" }, kind.word(0));
        let (all, used) = counts_of(uses, *kind);
        write!(out, "{front}{word} {used} of {all}")?;
    }
    writeln!(out)
}

/// Writes how many of each kind were used, a line for each rule that never was, and one for each
/// other element, or how many these are; says whether all was used.
pub fn put_report<W: Write>(
    out: &mut W,
    elements: Elements<'_>,
    uses: &Uses,
    listed: Listed,
) -> io::Result<bool> {
    put_counts(out, uses)?;
    let mut is_all = true;
    for kind in &KINDS {
        let (all, used) = counts_of(uses, *kind);
        let (unused, word) = (all.saturating_sub(used), kind.word(0));
        is_all = is_all && unused == 0;
        if !listed.has(*kind, unused) {
            writeln!(out, "not used: {unused} {word}; --{word} lists them")?;
            continue;
        }
        for (number, round) in uses.rounds(*kind).iter().enumerate() {
            if *round == 0 && number >= kind.first() {
                write!(out, "not used: ")?;
                elements.put_line(out, *kind, number)?;
            }
        }
    }
    Ok(is_all)
}
