//! Each public call that takes memory by itself, and once more where it ran out of memory, with
//! what it came to. In `make refuse` its allocations fail.

ghost use Rattle.yparse.specs.Tokens.{Fits, symbols_of};

use crate::files::{bytes_at, tables_over, tokens_over, twice, words_of};
use crate::parse::{tell_verdict, walk};
use std::io;
use yparse::{Session, Tokens};
use ytables::Tables;

/// Judges tokens and steps through their parse; answers whether memory was there.
fn parse_all(rt: &HostRuntime, tables: Tables, tokens: Tokens) -> bool
    requires { Fits tables.built.grammar (symbols_of tokens) }
{
    let judged = tell_verdict(rt, &tables, &tokens);
    let mut session = Session::new(rt.alloc(), tables, tokens);
    let walked = walk(rt, &mut session);
    drop(session);
    judged && walked
}

/// The tokens of a file; `None` where a call has made nothing.
fn tokens_at(rt: &HostRuntime, tables: &Tables, path: &str) -> Option<Tokens> {
    let alloc = rt.alloc();
    let bytes = twice(rt, || bytes_at(rt, path))?;
    let tokens = twice(rt, || tokens_over(alloc, tables, &bytes));
    drop(bytes);
    tokens
}

/// Parses the tokens of a file; answers whether all calls were made.
fn parse_file(rt: &HostRuntime, tables: Tables, path: &str) -> bool {
    match tokens_at(rt, &tables, path) {
        Some(tokens) if tokens.fits(&tables) => parse_all(rt, tables, tokens),
        others => {
            drop(tables);
            drop(others);
            false
        }
    }
}

/// The tables of a grammar file; `None` where a call has made nothing.
fn tables_at(rt: &HostRuntime, path: &str) -> Option<Tables> {
    let alloc = rt.alloc();
    let source = twice(rt, || bytes_at(rt, path))?;
    let tables = twice(rt, || tables_over(alloc, &source));
    drop(source);
    tables
}

/// Makes the calls over two files; answers whether all were made.
fn run(rt: &HostRuntime, given: &[&str]) -> bool {
    let alloc = rt.alloc();
    let Some(words) = twice(rt, || words_of(alloc, given)) else {
        return false;
    };
    match tables_at(rt, words.grammar()) {
        Some(tables) => parse_file(rt, tables, words.tokens()),
        None => false,
    }
}

/// The exit status over the arguments, the first of which is the program's name: 0 where all calls
/// were made, else 3.
pub fn all_made(rt: &HostRuntime, given: &[String]) -> io::Result<u8> {
    let words: Vec<&str> = given.iter().map(String::as_str).collect(rt.alloc())?;
    Ok(if run(rt, &words) { 0 } else { 3 })
}
