//! SPECs opened.

use crate::fault::{Fault, What};
use crate::grammars::used_in;
use std::alloc::Global;
use std::io;
use std::rt::Files;
use yexplain::reads::{Made, grammar_of, is_set};
use yfiles::reading::{LONGEST_SPEC, Limited};
use ylex::lexer::Lexer;
use ylex::spec::{needs_line, read_spec};
use ysymbols::Grammar;
use ytables::Tables;

/// The tokens of the grammar's rules that no line gives.
fn ungiven(alloc: Global, grammar: &Grammar, lexer: &Lexer) -> Made<Vec<What>> {
    let (used, mut found) = (used_in(alloc, grammar)?, Vec::new(alloc));
    for (token, is_used) in used.iter().enumerate() {
        if *is_used && !is_set(&lexer.named, token) && needs_line(grammar, token) {
            found.push(What::Ungiven(token))?;
        }
    }
    Ok(found)
}

/// What cuts texts by a SPEC of these bytes, and all that is wrong with it: with its lines, in their
/// order, or where they are right the tokens that none of them gives.
fn lexer_over(alloc: Global, grammar: &Grammar, bytes: &[u8]) -> Made<(Lexer, Vec<What>)> {
    let mut faults = Vec::new(alloc);
    let spec = read_spec(alloc, grammar, bytes, &mut faults)?;
    let lexer = Lexer::new(alloc, grammar, spec, &mut faults)?;
    if faults.is_empty() {
        let missing = ungiven(alloc, grammar, &lexer)?;
        return Ok((lexer, missing));
    }
    faults.sort_by_key(|fault| fault.0)?;
    let mut all = Vec::new(alloc);
    for (at, wrong) in &faults {
        all.push(What::Spec(*at, *wrong))?;
    }
    Ok((lexer, all))
}

/// What cuts texts by the SPEC at a path, for these tables; or why there is none.
pub fn read_lexer<F: Files + AllocGlobal>(
    rt: &F,
    tables: &Tables,
    path: &str,
) -> io::Result<Result<Lexer, Fault>> {
    let (alloc, grammar, most) = (rt.alloc(), grammar_of(tables), LONGEST_SPEC);
    let file = Limited { path, most };
    let bytes = match Fault::of_reading(alloc, file, What::LongSpec, file.bytes(rt))? {
        Ok(bytes) => bytes,
        Err(fault) => return Ok(Err(fault)),
    };
    let (lexer, all) = lexer_over(alloc, grammar, &bytes)?;
    if all.is_empty() {
        return Ok(Ok(lexer));
    }
    Ok(Err(Fault::of_all(alloc, file, bytes, all)?))
}
