//! What is opened of a grammar file, and what is wrong with grammar files and tokens files that are
//! refused.

use crate::grammar_fault::{Refusal, add_grammar_fault, ask};
use crate::nearest::Search;
use crate::words::{token_code, words_of};
use std::alloc::Global;
use std::fs;
use std::io::{self, ErrorKind, Read};
use std::rt::Files;
use yexplain::lines::Lines;
use yexplain::reads::name_of;
use yfiles::diagnostic::{Diagnostic, Diagnostics};
use yfiles::place::Place;
use ygrammar::{Grammar, GrammarFault, LONGEST_FILE, Mark, PlacedFault};
use ylalr::{BuildFault, token_count};
use ylexemes::bytes::is_blank;
use ytables::Tables;
use ytokens::token_words::{Front, front_of};
use ytokens::tokens::TokenFault;

/// The tables of a grammar file, and where things stand in it.
#[derive(Drop)]
pub struct Opened {
    /// The tables.
    pub tables: Tables,
    /// Where rules and symbols stand in the file.
    pub lines: Lines,
}

/// Why a file isn't opened.
#[derive(Drop)]
pub enum Trouble<'a> {
    /// Memory ran out.
    Memory,
    /// It has a fault.
    Grammar(Refusal<'a>),
    /// Its grammar has too many states.
    TooManySets,
}

impl<'a> Trouble<'a> {
    /// A fault of a file with this source map and these left sides of which no list of tokens can
    /// be made, or that memory ran out.
    pub fn of_fault(placed: PlacedFault, marks: Vec<Mark<'a>>, barren: Vec<usize>) -> Trouble<'a> {
        match placed.fault {
            GrammarFault::Memory => Trouble::Memory,
            _ => Trouble::Grammar(Refusal {
                placed,
                marks,
                barren,
            }),
        }
    }

    /// A fault of a file without syntax, or that memory ran out.
    pub fn of_text(alloc: Global, placed: PlacedFault) -> Trouble<'a> {
        Trouble::of_fault(placed, Vec::new(alloc), Vec::new(alloc))
    }

    /// How many bytes stand before what is wrong with the file, where that is at a place.
    pub fn place(&self) -> Option<usize> {
        match self {
            Trouble::Grammar(refusal) => refusal.place(),
            Trouble::Memory | Trouble::TooManySets => None,
        }
    }

    /// The exit status of a run that ends with it: 1 for a fault of the file; 3 where memory runs
    /// out, or there are too many states.
    pub fn status(&self) -> u8 {
        match self {
            Trouble::Grammar(_) => 1,
            Trouble::Memory | Trouble::TooManySets => 3,
        }
    }
}

impl<'a> From<BuildFault> for Trouble<'a> {
    fn from(fault: BuildFault) -> Trouble<'a> {
        match fault {
            BuildFault::TooManySets => Trouble::TooManySets,
            BuildFault::Memory => Trouble::Memory,
        }
    }
}

/// The bytes of a grammar file, one more than it may have at most.
pub fn grammar_bytes<F: Files + AllocGlobal>(rt: &F, path: &str) -> io::Result<Vec<u8>> {
    let most = (LONGEST_FILE as u64).saturating_add(1);
    let mut bytes = Vec::new(rt.alloc());
    fs::open(rt, path)?.take(most).read_to_end(&mut bytes)?;
    Ok(bytes)
}

/// Says why the grammar file of these bytes isn't opened. No memory is an error, which each program
/// tells in its own name.
pub fn add_trouble(
    alloc: Global,
    told: &mut Diagnostics,
    file: (&str, &[u8]),
    trouble: &Trouble<'_>,
) -> io::Result<()> {
    match trouble {
        Trouble::Memory => Err(io::Error::from(ErrorKind::OutOfMemory)),
        Trouble::Grammar(refusal) => add_grammar_fault(alloc, told, file, refusal),
        Trouble::TooManySets => {
            let mut one = Diagnostic::new(alloc, Some(file.0), None)?;
            if let Some(words) = words_of("B1") {
                words.say(alloc, &mut one)?;
            }
            Ok(told.add(one)?)
        }
    }
}

/// The place of a word of a tokens file, counted from 1; that of the end for the next number.
pub fn word_place(source: &[u8], number: usize) -> Option<usize> {
    let mut rest = source;
    for _ in 1..number {
        match front_of(rest) {
            Front::Word(_, after) | Front::Literal(_, after) => rest = after,
            Front::Nothing | Front::Broken => return None,
        }
    }
    let blanks = rest.iter().take_while(|b| is_blank(**b)).count();
    let before = source.len().saturating_sub(rest.len());
    Some(before.saturating_add(blanks))
}

/// The token that could be meant, where tokens of these bytes have a name that the grammar hasn't:
/// the nearest of those that an input can have.
fn near_token<'a>(
    alloc: Global,
    grammar: &'a Grammar,
    source: &'a [u8],
    fault: TokenFault,
) -> io::Result<Option<&'a [u8]>> {
    let TokenFault::Unknown(place) = fault else {
        return Ok(None);
    };
    let at = word_place(source, place).unwrap_or(source.len());
    let Front::Word(word, _) = front_of(source.get(at..).unwrap_or(&[])) else {
        return Ok(None);
    };
    let mut search = Search::new(word);
    for token in 2..token_count(grammar) {
        search.offer(alloc, name_of(grammar, token))?;
    }
    Ok(search.found)
}

/// What is wrong with tokens of these bytes, as something already has its place.
fn token_fault(
    alloc: Global,
    grammar: &Grammar,
    part: &[u8],
    fault: TokenFault,
    mut one: Diagnostic,
) -> io::Result<Diagnostic> {
    if let Some(words) = words_of(token_code(fault).0) {
        words.say(alloc, &mut one)?;
    }
    if let Some(name) = near_token(alloc, grammar, part, fault)? {
        ask(alloc, &mut one, name)?;
    }
    Ok(one)
}

/// A fault of a tokens file of these bytes, and the token that could be meant. Where memory runs out
/// in that search, the error says so.
pub fn file_fault(
    alloc: Global,
    grammar: &Grammar,
    (path, source): (&str, &[u8]),
    fault: TokenFault,
) -> io::Result<Diagnostic> {
    let word = token_code(fault).1;
    let one = match word.and_then(|number| word_place(source, number)) {
        Some(at) => Diagnostic::at(alloc, Place { path, source, at }, true)?,
        None => Diagnostic::new(alloc, Some(path), None)?,
    };
    token_fault(alloc, grammar, source, fault, one)
}

/// A fault of tokens that are a part of another file, which begins at a place, likewise.
pub fn part_fault(
    alloc: Global,
    grammar: &Grammar,
    (place, part): (Place<'_>, &[u8]),
    fault: TokenFault,
) -> io::Result<Diagnostic> {
    let word = token_code(fault).1;
    let before = word.and_then(|number| word_place(part, number));
    let at = place.at.saturating_add(before.unwrap_or(0));
    let one = Diagnostic::at(alloc, Place { at, ..place }, true)?;
    token_fault(alloc, grammar, part, fault, one)
}
