//! A symbol: what it is, where it is defined and used, and what it begins with.

use crate::grammar_view::{Rules, put_precedence};
use crate::page::Page;
use crate::reading::name_of;
use std::io::Write;
use yexplain::lines::Lines;
use yexplain::reads::{begins_with, body_of, grammar_of, left_of, level_of, vanishes};
use ylalr::token_count;
use ysymbols::Sym;
use ysyntax::Role;
use ytables::Tables;

/// How many rules that use a symbol are shown.
const SOME_RULES: usize = 40;

/// The rules whose bodies have a symbol: the first 40 of them.
fn put_uses<W: Write>(page: &mut Page<W>, rules: Rules<'_>, symbol: Sym) {
    page.line("used in");
    let mut count = 0usize;
    for rule in 0..rules.grammar.rules() {
        if body_of(rules.grammar, rule).contains(&symbol) {
            count = count.saturating_add(1);
            if count > SOME_RULES {
                page.line("     ..");
                return;
            }
            rules.put(page, rule);
        }
    }
    if count == 0 {
        page.line("     no rule");
    }
}

/// The tokens that a nonterminal begins with, and whether it can be empty.
fn put_first<W: Write>(page: &mut Page<W>, tables: &Tables, symbol: Sym) {
    let grammar = grammar_of(tables);
    page.put("begins with");
    let mut none = true;
    for token in 0..token_count(grammar) {
        if begins_with(tables.automaton(), symbol, token) {
            none = false;
            page.word(3, name_of(grammar, token));
        }
    }
    page.line(if none { " no token" } else { "" });
    let can = if vanishes(tables.automaton(), symbol) {
        "can"
    } else {
        "can't"
    };
    let _ = writeln!(page, "{can} be empty");
}

/// Where a symbol is named outside of the rules, or by `%prec`: the first 40 places.
fn put_mentions<W: Write>(page: &mut Page<W>, lines: &Lines, symbol: Sym) {
    let mut left = SOME_RULES;
    for mention in &lines.mentions {
        if left == 0 || mention.symbol != symbol {
            continue;
        }
        let words = match mention.role {
            Role::Declared => "listed by %token",
            Role::Levelled => "given a precedence",
            Role::Typed => "named by %type",
            Role::Start => "named by %start",
            Role::PrecName(_) => "named by %prec",
            _ => continue,
        };
        left -= 1;
        let _ = writeln!(page, "{words} on line {}", mention.spot.line);
    }
}

/// A symbol: what it is, where it is defined and used, what it begins with.
pub fn put_symbol<W: Write>(page: &mut Page<W>, tables: &Tables, lines: &Lines, symbol: Sym) {
    let grammar = grammar_of(tables);
    let rules = Rules { grammar, lines };
    page.put(name_of(grammar, symbol));
    if grammar.is_token(symbol) {
        page.put(": a token");
        if symbol < grammar.symbols() {
            if let Some(number) = grammar.number(symbol) {
                let _ = write!(page, ", number {number}");
            }
        }
        put_precedence(page, level_of(grammar, symbol));
        page.end();
    } else {
        page.line(": a nonterminal");
        page.line("defined by");
        for rule in 0..grammar.rules() {
            if left_of(grammar, rule) == Some(symbol) {
                rules.put(page, rule);
            }
        }
        put_first(page, tables, symbol);
    }
    put_mentions(page, lines, symbol);
    put_uses(page, rules, symbol);
}
