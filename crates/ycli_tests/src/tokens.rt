//! Tokens that fit the tables that they were read for, and others.

use crate::made::tables_of;
use std::alloc::Global;
use std::test::Fail;
use testkit::worked::{ONE, SUMS};
use yparse::read_tokens;
use ytables::Tables;

/// Whether the tokens of a text for tables fit these, and fit those of another grammar.
fn fit(alloc: Global, tables: &Tables, other: &[u8], text: &[u8]) -> Result<(bool, bool), Fail> {
    let tokens = read_tokens(alloc, tables, text)?;
    let others = tables_of(alloc, other)?;
    let fits = (tokens.fits(tables), tokens.fits(&others));
    drop(others);
    Ok(fits)
}

#[test]
fn tokens_fit_tables_with_as_many_tokens(rt: HostRuntime) -> Result<(), Fail> {
    let alloc = rt.alloc();
    let sums = tables_of(alloc, SUMS)?;
    let fits = fit(alloc, &sums, ONE, b"NUM '*' NUM");
    drop(sums);
    assert_eq!(rt; fits?, (true, false));
    Ok(())
}
