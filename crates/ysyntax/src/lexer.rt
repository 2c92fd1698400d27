//! A grammar file cut into lexemes, up to its first fault.

ghost use Rattle.std.specs.Prelude.{◌≡◌, ◌+◌, ◌++◌, ◌<◌, ◌≤◌, ◌↔◌, ℕ, List, [], length, Ok, Err};
ghost use Rattle.std.specs.Prelude.{IfOk};
ghost use Rattle.std.specs.Prelude.{IfErr, IsErrOf};
ghost use Rattle.ysyntax.specs.Answers.{Gives, Answers, StandIn, StopsIn, fault_at, views};
ghost use Rattle.ysyntax.specs.Placing.{too_long};
ghost use Rattle.ysyntax.specs.Lexer.{IsLine, SpellsSyntax, Outcome, Refusal};
ghost use Rattle.ysymbols.specs.Grammar.{longest_file};
ghost use Rattle.ylexemes.specs.Lexemes.{Lexeme as LexemeOf};
ghost use Rattle.ysyntax.specs.Sites.{StandFrom};
ghost use Rattle.ysyntax.specs.SiteViews.{marks_in};
ghost use Rattle.ysyntax.specs.Tree.{HasOneTree};

use crate::fault::{GrammarFault, PlacedFault};
use crate::recogniser::State;
use std::alloc::Global;
use ylexemes::front::part_at;
use ylexemes::part::{Lexeme, LexicalFault, Part};
use ysymbols::limits::LONGEST_FILE;

/// A lexeme, and where it stands.
#[derive(Clone, Copy)]
pub struct Placed<'a> {
    /// The lexeme.
    pub lexeme: Lexeme<'a>,
    /// How many bytes of the file stand before it.
    pub at: usize,
    /// How many bytes of the file stand before what follows it.
    pub end: usize,
}

/// The line of the place where the rest of some bytes begins.
fn line_of(bytes: &[u8], rest: &[u8]) -> usize
    requires { (before : List ℕ) × (bytes.now ≡ before ++ rest.now) }
    ensures { IsLine bytes.now rest.now result }
{
    let before = bytes.split_at(bytes.len() - rest.len()).0;
    before.iter().filter(|b| **b == b'\n').count() + 1
}

/// The fault of a file where no part begins, or of one without syntax, on a line.
fn at_line(fault: Option<LexicalFault>, line: usize) -> GrammarFault
    ensures { result ≡ fault_at fault line }
{
    match fault {
        Some(LexicalFault::Unfinished) => GrammarFault::Unfinished { line },
        Some(LexicalFault::BadLiteral) => GrammarFault::BadLiteral { line },
        Some(LexicalFault::Foreign) => GrammarFault::Foreign { line },
        None => GrammarFault::Syntax { line },
    }
}

/// The fault of a file where no part begins, or of one without syntax, at the place where the rest
/// of its bytes begins.
fn stopped(fault: Option<LexicalFault>, bytes: &[u8], rest: &[u8], state: State) -> PlacedFault
    requires { (before : List ℕ) × (bytes.now ≡ before ++ rest.now) }
    ensures line { (line : ℕ) × IsLine bytes.now rest.now line
        × (result.fault ≡ fault_at fault line) }
    ensures place { result.at + length rest.now ≡ length bytes.now }
    ensures state { result.state ≡ Some state }
{
    PlacedFault {
        fault: at_line(fault, line_of(bytes, rest)),
        at: bytes.len() - rest.len(),
        state: Some(state),
    }
}

/// The lexemes of a grammar file, up to the second `%%` or the end, or its first fault; memory may
/// run out in place of any answer.
pub fn read_lexemes<'a>(alloc: Global, bytes: &'a [u8]) -> Result<Vec<Placed<'a>>, PlacedFault>
    ensures outcome { Gives bytes.now result }
    ensures placed { IfOk result (λ v. StandIn bytes.now v.items) }
    ensures sites { IfOk result (λ v. StandFrom bytes.now [] (marks_in v.items)) }
    ensures state { IfErr result (λ e. StopsIn bytes.now e.at e.fault e.state) }
{
    let mut lexemes = Vec::new(alloc);
    let mut state = State::Declarations;
    let mut rest = bytes;
    'parts: while !rest.is_empty() {
        let (part, after) = match part_at(rest) {
            Ok(found) => found,
            Err(fault) => return Err(stopped(Some(fault), bytes, rest, state)),
        };
        match part {
            Part::Blank => {}
            Part::Comment => {}
            Part::Lexeme(lexeme) => {
                match state.next(lexeme.kind()) {
                    None => return Err(stopped(None, bytes, rest, state)),
                    Some(next) => state = next,
                }
                lexemes.push(Placed {
                    lexeme,
                    at: bytes.len() - rest.len(),
                    end: bytes.len() - after.len(),
                })?;
                if state.is_end() {
                    return Ok(lexemes);
                }
            }
        }
        rest = after;
    }
    if state.is_final() {
        Ok(lexemes)
    } else {
        Err(stopped(None, bytes, rest, state))
    }
}

/// The lexemes of a grammar file of at most 1,048,576 bytes, or its first fault.
///
/// Memory may run out in place of any answer but `TooLong`.
pub fn read_syntax<'a>(alloc: Global, bytes: &'a [u8]) -> Result<Vec<Placed<'a>>, PlacedFault>
    // This comes before every other answer.
    ensures too_long { IsErrOf result too_long ↔ (longest_file < length bytes.now) }
    // What is read is spelled.
    ensures found { IfOk result (λ v. SpellsSyntax bytes.now (views v.items)) }
    // Its lexemes are those of exactly one syntax tree.
    ensures tree { IfOk result (λ v. HasOneTree (views v.items)) }
    // What is spelled is read.
    ensures only { (ls : List LexemeOf) → length bytes.now ≤ longest_file →
        SpellsSyntax bytes.now ls → Answers result (Ok ls) }
    // The first fault of the file is answered, with its line and its place.
    ensures fault { (r : Refusal) → length bytes.now ≤ longest_file → Outcome bytes.now (Err r) →
        Answers result (Err r) }
    // There is no other answer.
    ensures exact { length bytes.now ≤ longest_file → Gives bytes.now result }
    // Each lexeme stands at its place.
    ensures placed { IfOk result (λ v. StandIn bytes.now v.items) }
    // Reading comes to the place of each with those before it.
    ensures sites { IfOk result (λ v. StandFrom bytes.now [] (marks_in v.items)) }
    // With a fault of the text stands how far the syntax was read.
    ensures state { IfErr result (λ e. StopsIn bytes.now e.at e.fault e.state) }
{
    if bytes.len() > LONGEST_FILE {
        return Err(PlacedFault {
            fault: GrammarFault::TooLong,
            at: 0,
            state: None,
        });
    }
    read_lexemes(alloc, bytes)
}
