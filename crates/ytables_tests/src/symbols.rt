//! Symbols by their names.

use std::test::Fail;
use ygrammar::{Grammar, Sym, read_grammar};

/// Whether the printed name is that of this symbol, a token or not.
fn is_symbol(grammar: &Grammar, name: &[u8], s: Sym, token: bool) -> bool {
    grammar.find(name) == Some(s) && grammar.is_token(s) == token
}

/// Whether the symbols of sums and products are found, and no others.
fn finds(grammar: &Grammar) -> bool {
    is_symbol(grammar, b"$end", 0, true)
        && is_symbol(grammar, b"error", 1, true)
        && is_symbol(grammar, b"NUM", 2, true)
        && is_symbol(grammar, b"'*'", 4, true)
        && is_symbol(grammar, b"$accept", 5, false)
        && is_symbol(grammar, b"e", 6, false)
        && grammar.find(b"'-'").is_none()
        && grammar.find(b"-").is_none()
        && grammar.find(b"").is_none()
        && grammar.find_literal(b'*') == Some(4)
        && grammar.find_literal(b'-').is_none()
}

#[test]
fn symbols_by_their_names(rt: HostRuntime) -> Result<(), Fail> {
    let file = b"%token NUM %left '+' %left '*' %% e : e '+' e | e '*' e | NUM ;";
    let grammar = read_grammar(rt.alloc(), file)?;
    let found = finds(&grammar);
    drop(grammar);
    assert!(rt; found);
    Ok(())
}
