//! What is said of the faults of grammar files, with what helps beside the words of their codes.

use crate::coming::{Coming, near_directive};
use crate::nearest::Search;
use crate::words::{AT_END, grammar_code, words_of};
use std::alloc::Global;
use std::io::{self, Write};
use yexplain::lines::name_in;
use yexplain::reads::Made;
use yexplain::text::Bytes;
use yfiles::diagnostic::{Diagnostic, Diagnostics};
use yfiles::place::Place;
use yforeign::directive::is_imported;
use ygrammar::{GrammarFault, Mapped, PlacedFault, read_mapped};
use ysymbols::limits::LONGEST_BODY;
use ysymbols::names::{SymbolTable, intern};
use ysyntax::{Mark, Role};

/// The most names that are listed.
const MOST_NAMED: usize = 20;

/// What helps with a file of bison.
const FOREIGN: &str = "If the file is one of bison or byacc, ydebug import makes it one of yacc.";

/// The name at a place of a file.
fn name_at<'a>(map: &[Mark<'a>], at: usize) -> Option<&'a [u8]> {
    let here = map.iter().find(|mark| mark.placed.at == at);
    here.and_then(|mark| name_in(mark.placed.lexeme))
}

/// The nearest to the name at a place of those that are symbols of a file.
fn nearest_symbol<'a>(alloc: Global, map: &[Mark<'a>], at: usize) -> Made<Option<&'a [u8]>> {
    let Some(wanted) = name_at(map, at) else {
        return Ok(None);
    };
    let mut search = Search::new(wanted);
    search.offer(alloc, b"error")?;
    for mark in map {
        let makes_symbol = matches!(mark.role, Role::Declared | Role::Levelled | Role::Left(_));
        if let (true, Some(name)) = (makes_symbol, name_in(mark.placed.lexeme)) {
            search.offer(alloc, name)?;
        }
    }
    Ok(search.found)
}

/// Asks whether a name was meant.
pub fn ask(alloc: Global, one: &mut Diagnostic, name: &[u8]) -> io::Result<()> {
    let (mut note, name) = (Vec::new(alloc), Bytes(name));
    write!(note, "Did you mean {name}?")?;
    Ok(one.help(note)?)
}

/// The names of a file that are neither tokens nor left sides: the first is at a place, and each
/// other is found by reading the file again with a line that declares those before it.
fn undefined_names(
    alloc: Global,
    source: &[u8],
    marks: &[Mark<'_>],
    at: usize,
) -> Made<SymbolTable> {
    let mut names = SymbolTable::new(alloc);
    let mut text = Vec::from_slice(alloc, source)?;
    intern(alloc, &mut names, name_at(marks, at).unwrap_or(b""))?;
    for number in 0..=MOST_NAMED {
        let mut more = Vec::from_slice(alloc, b"%token ")?;
        more.extend_from_slice(names.get(number).unwrap_or(b""))?;
        more.push(b'\n')?;
        more.extend_from_slice(&text)?;
        text = more;
        match read_mapped(alloc, &text) {
            Ok(
                Mapped {
                    grammar: Err(placed),
                    marks,
                    ..
                },
            ) if matches!(placed.fault, GrammarFault::Undefined { .. }) => {
                intern(alloc, &mut names, name_at(&marks, placed.at).unwrap_or(b""))?;
            }
            _ => return Ok(names),
        }
    }
    Ok(names)
}

/// Says of which names but the first a fault is too.
fn say_others(alloc: Global, one: &mut Diagnostic, names: &SymbolTable) -> io::Result<()> {
    if names.len() < 2 {
        return Ok(());
    }
    let mut note = Vec::new(alloc);
    note.write_all(b"The same holds of:")?;
    for number in 1..names.len().min(MOST_NAMED + 1) {
        let name = Bytes(names.get(number).unwrap_or(b""));
        write!(note, " {name}")?;
    }
    if names.len() > MOST_NAMED + 1 {
        note.write_all(b" ..")?;
    }
    Ok(one.help(note)?)
}

/// Where the first rule with a body above the limit begins. An action is a symbol of a body only
/// where more follows it.
fn long_rule(map: &[Mark<'_>]) -> Option<usize> {
    let (mut at, mut symbols, mut acted) = (0_usize, 0_usize, false);
    for mark in map {
        match mark.role {
            Role::Left(_) | Role::Bar(_) => {
                at = mark.placed.at;
                symbols = 0;
                acted = false;
            }
            Role::Action(_) => {
                symbols = symbols.saturating_add(usize::from(acted));
                acted = true;
            }
            Role::Symbol(_) => {
                symbols = symbols.saturating_add(1).saturating_add(usize::from(acted));
                acted = false;
            }
            _ => {}
        }
        if symbols > LONGEST_BODY {
            return Some(at);
        }
    }
    None
}

/// A fault of a grammar file, with the file's source map; that has no marks where the file has no
/// syntax.
#[derive(Drop)]
pub struct Refusal<'a> {
    /// The fault and its place.
    pub placed: PlacedFault,
    /// The lexemes of the file, and what they are there for.
    pub marks: Vec<Mark<'a>>,
    /// Where those left sides stand of which no list of tokens can be made, in their order, where
    /// that is the fault.
    pub barren: Vec<usize>,
}

impl Refusal<'_> {
    /// How many bytes stand before what is wrong; `None` where it is the whole file. A grammar
    /// above a limit has that place at the rule that is too long, where one is.
    pub fn place(&self) -> Option<usize> {
        match self.placed.fault {
            GrammarFault::TooLong | GrammarFault::Memory => None,
            GrammarFault::Limit { .. } => long_rule(&self.marks),
            _ => Some(self.placed.at),
        }
    }

    /// The nonterminals of which no list of tokens can be made.
    fn barren_names(&self, alloc: Global) -> Made<SymbolTable> {
        let mut names = SymbolTable::new(alloc);
        for mark in &self.marks {
            if self.barren.binary_search(&mark.placed.at).is_ok() {
                intern(
                    alloc,
                    &mut names,
                    name_in(mark.placed.lexeme).unwrap_or(b""),
                )?;
            }
        }
        Ok(names)
    }
}

/// Says what helps with a fault beside the words of its code.
fn help(
    alloc: Global,
    one: &mut Diagnostic,
    source: &[u8],
    refusal: &Refusal<'_>,
) -> io::Result<()> {
    let (PlacedFault { fault, at, state }, marks) = (refusal.placed, refusal.marks.as_slice());
    match fault {
        GrammarFault::Syntax { .. } => {
            if let Some(state) = state {
                let (mut note, coming) = (Vec::new(alloc), Coming(state));
                write!(note, "Here can come: {coming}")?;
                one.help(note)?;
            }
            Ok(())
        }
        GrammarFault::Undefined { .. } => {
            if let Some(name) = nearest_symbol(alloc, marks, at)? {
                ask(alloc, one, name)?;
            }
            say_others(alloc, one, &undefined_names(alloc, source, marks, at)?)
        }
        GrammarFault::Unproductive { .. } => {
            say_others(alloc, one, &refusal.barren_names(alloc)?)
        }
        GrammarFault::Foreign { .. } => {
            let rest = source.get(at..).unwrap_or(&[]);
            if is_imported(rest) {
                return Ok(one.note(alloc, FOREIGN)?);
            }
            match near_directive(alloc, rest)? {
                Some(name) => ask(alloc, one, name),
                None => Ok(()),
            }
        }
        _ => Ok(()),
    }
}

/// Says what is wrong with a grammar file of these bytes: where, with the text of the line and a
/// caret but at the end of the file, how to mend it, and what else helps. Where memory runs out while
/// that is sought, the error says so.
pub fn add_grammar_fault(
    alloc: Global,
    told: &mut Diagnostics,
    (path, source): (&str, &[u8]),
    refusal: &Refusal<'_>,
) -> io::Result<()> {
    let fault = refusal.placed.fault;
    let Some(words) = words_of(grammar_code(fault)) else {
        return Ok(());
    };
    let Some(at) = refusal.place() else {
        let mut one = Diagnostic::new(alloc, Some(path), None)?;
        words.say(alloc, &mut one)?;
        return Ok(told.add(one)?);
    };
    let is_end = matches!(fault, GrammarFault::Syntax { .. }) && at >= source.len();
    let words = if is_end { AT_END } else { words };
    let mut one = Diagnostic::at(alloc, Place { path, source, at }, !is_end)?;
    words.say(alloc, &mut one)?;
    help(alloc, &mut one, source, refusal)?;
    Ok(told.add(one)?)
}
