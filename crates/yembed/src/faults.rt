//! The first fault of a grammar and tokens, and where it stands.

ghost use Rattle.std.specs.Prelude.{◌≡◌, ◌≢◌, IfOk, IfErr, unwrap_or};
ghost use Rattle.ygrammar.specs.GrammarOf.{line_in};
ghost use Rattle.ytokens.specs.Tokens.{symbols_of};
ghost use Rattle.yembed.specs.Faults.{Finds, IsFaultless, IsTabled, LacksTables, fault_of};
ghost use Rattle.yembed.specs.Faults.{build_status, finding_status, grammar_code, grammar_status};
ghost use Rattle.yembed.specs.Faults.{no_fault, token_code, token_place};

use crate::refusal::token_status;
use std::alloc::Global;
use ygrammar::{GrammarFault, PlacedFault, read_placed};
use ylalr::{BuildFault, build};
use ytables::{Tables, resolve};
use ytokens::{TokenFault, Tokens, read_tokens};

/// The fault of a grammar or of tokens.
#[repr(C)]
#[derive(Clone, Copy)]
pub struct Fault {
    /// Of a grammar: 1 to 13, for G1 to G13. Of tokens: 1, 2, 3 or 5, for K1, K2, K3 or K5. 0 where
    /// there is none.
    pub code: u32,
    /// The line of the grammar, counted from 1; 0 where the fault has none.
    pub line: usize,
    /// How many bytes of the grammar stand before what is at fault; 0 for tokens.
    pub offset: usize,
    /// Which of the tokens is at fault, counted from 1; 0 where the fault has no place.
    pub place: usize,
}

/// The fault that is found first.
#[derive(Drop)]
pub(crate) enum Finding {
    /// A fault of the grammar, or memory ran out while it was read.
    Grammar(PlacedFault),
    /// There are too many item sets, or memory ran out for them.
    Build(BuildFault),
    /// Memory ran out for the tables.
    NoRoom,
    /// A fault of the tokens, or memory ran out while they were read.
    Tokens(TokenFault),
}

/// The tables of a grammar, or its first fault and where that is.
fn tables_read(alloc: Global, source: &[u8]) -> Result<Tables, Finding>
    ensures tables { IfOk result (λ t. IsTabled source.now t) }
    ensures fault { IfErr result (LacksTables source.now) }
{
    let grammar = match read_placed(alloc, source) {
        Ok(grammar) => grammar,
        Err(placed) => return Err(Finding::Grammar(placed)),
    };
    let automaton = match build(alloc, grammar) {
        Ok(automaton) => automaton,
        Err(fault) => return Err(Finding::Build(fault)),
    };
    let _guide = automaton.states();
    match resolve(alloc, automaton) {
        Ok(tables) => Ok(tables),
        Err(_) => Err(Finding::NoRoom),
    }
}

/// The tokens of a text, or what is found first in the grammar and them.
pub(crate) fn tokens_read(alloc: Global, source: &[u8], text: &[u8]) -> Result<Tokens, Finding>
    ensures tokens { IfOk result (λ found. IsFaultless source.now text.now (symbols_of found)) }
    ensures fault { IfErr result (Finds source.now text.now) }
{
    let tables = match tables_read(alloc, source) {
        Ok(tables) => tables,
        Err(finding) => return Err(finding),
    };
    let found = read_tokens(alloc, &tables, text);
    drop(tables);
    match found {
        Ok(tokens) => Ok(tokens),
        Err(fault) => Err(Finding::Tokens(fault)),
    }
}

/// The number of the code of a fault of a grammar.
fn grammar_code(fault: GrammarFault) -> u32
    ensures { result ≡ grammar_code fault }
{
    match fault {
        GrammarFault::TooLong => 1,
        GrammarFault::Unfinished { line: _ } => 2,
        GrammarFault::BadLiteral { line: _ } => 3,
        GrammarFault::Foreign { line: _ } => 4,
        GrammarFault::Syntax { line: _ } => 5,
        GrammarFault::TokenLeft { line: _ } => 6,
        GrammarFault::Undefined { line: _ } => 7,
        GrammarFault::TwicePrecedence { line: _ } => 8,
        GrammarFault::BadNumber { line: _ } => 9,
        GrammarFault::BadStart { line: _ } => 10,
        GrammarFault::Unproductive { line: _ } => 11,
        GrammarFault::BadPrec { line: _ } => 12,
        GrammarFault::Limit { line: _ } => 13,
        GrammarFault::Memory => 0,
    }
}

/// The line of a fault of a grammar, 0 where it has none.
fn grammar_line(fault: GrammarFault) -> usize
    ensures { result ≡ unwrap_or (line_in fault) 0 }
{
    match fault {
        GrammarFault::TooLong | GrammarFault::Memory => 0,
        GrammarFault::Unfinished { line }
        | GrammarFault::BadLiteral { line }
        | GrammarFault::Foreign { line }
        | GrammarFault::Syntax { line }
        | GrammarFault::TokenLeft { line }
        | GrammarFault::Undefined { line }
        | GrammarFault::TwicePrecedence { line }
        | GrammarFault::BadNumber { line }
        | GrammarFault::BadStart { line }
        | GrammarFault::Unproductive { line }
        | GrammarFault::BadPrec { line }
        | GrammarFault::Limit { line } => line,
    }
}

/// The number of the code of a fault of tokens.
fn token_code(fault: TokenFault) -> u32
    ensures { result ≡ token_code fault }
{
    match fault {
        TokenFault::Unknown(_) => 1,
        TokenFault::NotInput(_) => 2,
        TokenFault::TooMany => 3,
        TokenFault::Memory => 0,
        TokenFault::BadLiteral(_) => 5,
    }
}

/// Which word is at fault, counted from 1; 0 where the fault has no place.
fn token_place(fault: TokenFault) -> usize
    ensures { result ≡ token_place fault }
{
    match fault {
        TokenFault::TooMany | TokenFault::Memory => 0,
        TokenFault::Unknown(place) | TokenFault::NotInput(place) | TokenFault::BadLiteral(place) =>
            place,
    }
}

/// The status of a fault of a grammar.
fn grammar_status(fault: GrammarFault) -> u32
    ensures value { result ≡ grammar_status fault }
    ensures refused { result ≢ 0 }
{
    match fault {
        GrammarFault::Memory => 3,
        _ => 1,
    }
}

/// The status where there are no tables of a grammar.
fn build_status(fault: &BuildFault) -> u32
    ensures value { result ≡ build_status fault.now }
    ensures refused { result ≢ 0 }
{
    match fault {
        BuildFault::TooManySets => 4,
        BuildFault::Memory => 3,
    }
}

/// What C gets where there is no fault.
pub(crate) fn no_fault() -> Fault
    ensures { result ≡ no_fault }
{
    Fault {
        code: 0,
        line: 0,
        offset: 0,
        place: 0,
    }
}

impl Finding {
    /// The status, which is that of a refusal.
    pub(crate) fn status(&self) -> u32
        ensures value { result ≡ finding_status self.now }
        ensures refused { result ≢ 0 }
    {
        match self {
            Finding::Grammar(placed) => grammar_status(placed.fault),
            Finding::Build(fault) => build_status(fault),
            Finding::NoRoom => 3,
            Finding::Tokens(fault) => token_status(*fault),
        }
    }

    /// The fault as C gets it, all 0 where memory ran out or there are too many item sets.
    pub(crate) fn fault(&self) -> Fault
        ensures { result ≡ fault_of self.now }
    {
        match self {
            Finding::Grammar(placed) => Fault {
                code: grammar_code(placed.fault),
                line: grammar_line(placed.fault),
                offset: placed.at,
                place: 0,
            },
            Finding::Tokens(fault) => Fault {
                code: token_code(*fault),
                line: 0,
                offset: 0,
                place: token_place(*fault),
            },
            Finding::Build(_) | Finding::NoRoom => no_fault(),
        }
    }
}
