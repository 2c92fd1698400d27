//! A grammar: its rules.

use crate::page::Page;
use crate::reading::name_of;
use std::io::Write;
use yexplain::lines::Lines;
use yexplain::reads::{grammar_of, rule_of};
use yexplain::text::{Numbered, RuleText};
use ysymbols::{Associativity, Grammar, Precedence};
use ytables::Tables;

/// A precedence, where there is one.
pub fn put_precedence<W: Write>(page: &mut Page<W>, precedence: Option<Precedence>) {
    let Some(Precedence { level, kind }) = precedence else {
        page.put(", no precedence");
        return;
    };
    let word = match kind {
        Associativity::Left => "%left",
        Associativity::Right => "%right",
        Associativity::Nonassoc => "%nonassoc",
    };
    let _ = write!(page, ", precedence {level} by {word}");
}

/// The rules of a grammar, with their lines in its file.
#[derive(Clone, Copy)]
pub struct Rules<'a> {
    /// The grammar.
    pub grammar: &'a Grammar,
    /// The lines.
    pub lines: &'a Lines,
}

impl Rules<'_> {
    /// The number of a rule, its text, and its line.
    pub fn put<W: Write>(self, page: &mut Page<W>, rule: usize) {
        page.number_to(7, rule);
        page.put("  ");
        page.show(RuleText(self.grammar, rule));
        if let Some(line) = self.lines.rule(rule) {
            page.tab(58);
            let _ = write!(page, "line {line}");
        }
        page.end();
    }

    /// A rule, its line, its precedence, and the token that gives it.
    pub fn put_one<W: Write>(self, page: &mut Page<W>, rule: usize) {
        let grammar = self.grammar;
        let precedence = match rule_of(grammar, rule) {
            Some(rule) => rule.precedence(),
            None => None,
        };
        page.show(Numbered(self.lines, rule));
        put_precedence(page, precedence);
        if let (Some(_), Some(token)) = (precedence, self.lines.giver(grammar, rule)) {
            let _ = write!(page, " from {}", name_of(grammar, token));
        }
        let _ = writeln!(page, "\n   {}", RuleText(grammar, rule));
    }
}

/// Every rule with its number.
pub fn put_grammar<W: Write>(page: &mut Page<W>, tables: &Tables, lines: &Lines) {
    let grammar = grammar_of(tables);
    for rule in 0..grammar.rules() {
        Rules { grammar, lines }.put(page, rule);
    }
}
