//! The tables of a grammar text.

use std::alloc::Global;
use std::test::Fail;
use ygrammar::read_grammar;
use ylalr::build;
use ytables::{Tables, resolve};

/// The tables of a grammar text. An error is any fault of it, or memory ran out.
pub fn tables_of(alloc: Global, grammar: &[u8]) -> Result<Tables, Fail> {
    Ok(resolve(alloc, build(alloc, read_grammar(alloc, grammar)?)?)?)
}
