//! A changed grammar as the text of a grammar file, without actions.

use crate::rewriting::{Rewriting, Written};
use yexplain::lines::{Lines, is_inner};
use yexplain::reads::{body_of, left_of, level_of, name_of};
use yfiles::output::Output;
use ylalr::{ERROR, token_count};
use ysymbols::{Associativity, Grammar, Sym};

/// Writes a name after a space.
fn put_name(out: &mut Output, grammar: &Grammar, symbol: Sym) {
    out.put_pieces(&[b" ", name_of(grammar, symbol)]);
}

/// The directive for lines of precedence.
pub fn directive_of(kind: Associativity) -> &'static str {
    match kind {
        Associativity::Left => "%left",
        Associativity::Right => "%right",
        Associativity::Nonassoc => "%nonassoc",
    }
}

/// Writes the tokens of a level.
fn put_level(out: &mut Output, grammar: &Grammar, level: usize) {
    let mut is_begun = false;
    for token in ERROR..token_count(grammar) {
        match level_of(grammar, token) {
            Some(it) if it.level == level => {
                if !is_begun {
                    out.put(directive_of(it.kind));
                    is_begun = true;
                }
                put_name(out, grammar, token);
            }
            _ => {}
        }
    }
    out.put_bytes(b"\n");
}

/// The name of a precedence of a rule's own, which no file has a token of.
const OWN: &[u8] = b"own.precedence";

/// Writes the line of a precedence of a rule's own.
fn put_own(out: &mut Output) {
    out.put_pieces(&[b"\n%right ", OWN, b"\n"]);
}

/// Writes the declarations: the tokens that have names, not literals, and no precedence; those of
/// each level, and a precedence of a rule's own, where it goes before one or after it; the start
/// symbol.
fn put_declarations(out: &mut Output, grammar: &Grammar, own: Option<(usize, bool)>) {
    let mut last: usize = 0;
    for token in ERROR..token_count(grammar) {
        if let Some(it) = level_of(grammar, token) {
            last = last.max(it.level);
        } else if token > ERROR && !name_of(grammar, token).starts_with(b"'") {
            out.put_bytes(b"%token");
            put_name(out, grammar, token);
            out.put_bytes(b"\n");
        }
    }
    for level in 1..last.saturating_add(1) {
        if own == Some((level, true)) {
            put_own(out);
        }
        put_level(out, grammar, level);
        if own == Some((level, false)) {
            put_own(out);
        }
    }
    if let Some(start) = body_of(grammar, 0).first() {
        out.put_bytes(b"%start");
        put_name(out, grammar, *start);
    }
}

/// Writes a line of precedence for one token.
fn put_line(out: &mut Output, grammar: &Grammar, kind: Associativity, token: Sym) {
    out.put_bytes(b"\n");
    out.put(directive_of(kind));
    put_name(out, grammar, token);
}

/// A change of a grammar.
#[derive(Clone, Copy, Drop, PartialEq, Eq)]
pub enum Change {
    /// Without this rule.
    Without(usize),
    /// With a copy of a nonterminal, which has the same rules, in its place in the body of a rule.
    Copied {
        /// The nonterminal.
        symbol: Sym,
        /// The rule.
        rule: usize,
    },
    /// With a precedence of its own for a rule, by a new name, beside that of a token, which gets a
    /// line after all others where it has none.
    Own {
        /// The rule.
        rule: usize,
        /// The token.
        token: Sym,
        /// Whether the token's line is the later one.
        shifts: bool,
    },
    /// With one or two lines of precedence after all others.
    Lines {
        /// Their word.
        kind: Associativity,
        /// The token of the first line.
        first: Sym,
        /// The token of the second one, where there is one.
        second: Option<Sym>,
    },
    /// With rules that are written otherwise.
    Rewritten(Rewriting),
}

/// A grammar, where its rules stand, and what is changed.
#[derive(Clone, Copy)]
pub struct Changed<'a> {
    /// The grammar.
    pub grammar: &'a Grammar,
    /// Where its rules stand.
    pub lines: &'a Lines,
    /// The change.
    pub change: Change,
}

/// What follows the name of a nonterminal in that of its copy.
const COPY: &[u8] = b".copy";

/// The name of a symbol that is new, which no file has.
const FRESH: &[u8] = b"new.symbol";

impl Changed<'_> {
    /// Writes a rule, with this after the name of its left side, and the token that gives it a
    /// precedence. An action stands for each symbol of the body that was made for one.
    fn put_rule(&self, out: &mut Output, rule: usize, after: &[u8]) {
        let (grammar, body) = (self.grammar, body_of(self.grammar, rule));
        let left = name_of(grammar, left_of(grammar, rule).unwrap_or(0));
        out.put_pieces(&[left, after, b" :"]);
        let mut is_last_action = false;
        for symbol in body {
            let symbol = *symbol;
            is_last_action = name_of(grammar, symbol).starts_with(b"$$");
            if is_last_action {
                out.put_bytes(b" {}");
            } else {
                put_name(out, grammar, symbol);
                if self.change == (Change::Copied { symbol, rule }) {
                    out.put_bytes(COPY);
                }
            }
        }
        if is_last_action {
            // an action at the end would be that of the rule
            out.put_bytes(b" {}");
        }
        let is_own = matches!(self.change, Change::Own { rule: it, .. } if it == rule);
        if is_own {
            out.put_pieces(&[b" %prec ", OWN]);
        } else if let Some(giver) = self.lines.giver(grammar, rule) {
            out.put_bytes(b" %prec");
            put_name(out, grammar, giver);
        }
        out.put_bytes(b" ;\n");
    }

    /// Writes the declarations, with lines of precedence that are new.
    fn put_lines(&self, out: &mut Output) {
        let grammar = self.grammar;
        let mut own = None;
        match self.change {
            Change::Rewritten(Rewriting::Token { .. }) => {
                out.put_pieces(&[b"%token ", FRESH, b"\n"]);
            }
            Change::Own { token, shifts, .. } => {
                if let Some(it) = level_of(grammar, token) {
                    own = Some((it.level, shifts));
                }
            }
            _ => {}
        }
        put_declarations(out, grammar, own);
        match self.change {
            Change::Lines {
                kind,
                first,
                second,
            } => {
                put_line(out, grammar, kind, first);
                if let Some(second) = second {
                    put_line(out, grammar, kind, second);
                }
            }
            Change::Own { token, shifts, .. } if own.is_none() => {
                if shifts {
                    put_own(out);
                }
                put_line(out, grammar, Associativity::Right, token);
                if !shifts {
                    put_own(out);
                }
            }
            _ => {}
        }
    }

    /// Writes the grammar, and after it the rules of a copy, which are those of its nonterminal.
    pub fn put(&self, out: &mut Output) {
        let (grammar, change) = (self.grammar, self.change);
        self.put_lines(out);
        out.put_bytes(b"\n%%\n");
        for rule in 1..grammar.rules() {
            if change != Change::Without(rule) && !is_inner(grammar, rule) {
                self.put_rule(out, rule, b"");
            }
        }
        if let Change::Copied { symbol, .. } = change {
            for rule in 1..grammar.rules() {
                if left_of(grammar, rule) == Some(symbol) {
                    let change = Change::Without(rule);
                    Changed { change, ..*self }.put_rule(out, rule, COPY);
                }
            }
        }
    }

    /// Writes a symbol after a space, also a new one.
    fn put_symbol(&self, out: &mut Output, symbol: Sym) {
        if symbol < self.grammar.symbols() {
            put_name(out, self.grammar, symbol);
        } else {
            out.put_pieces(&[b" ", FRESH]);
        }
    }

    /// Writes the grammar with these rules in place of its own.
    pub fn put_written(&self, out: &mut Output, rules: &[Written]) {
        self.put_lines(out);
        out.put_bytes(b"\n%%\n");
        for rule in rules {
            self.put_symbol(out, rule.left);
            out.put_bytes(b" :");
            let mut is_last_action = false;
            for symbol in &rule.body {
                is_last_action = name_of(self.grammar, *symbol).starts_with(b"$$");
                if is_last_action {
                    out.put_bytes(b" {}");
                } else {
                    self.put_symbol(out, *symbol);
                }
            }
            if is_last_action {
                // an action at the end would be that of the rule
                out.put_bytes(b" {}");
            }
            if let Some(giver) = rule.giver {
                out.put_bytes(b" %prec");
                put_name(out, self.grammar, giver);
            }
            out.put_bytes(b" ;\n");
        }
    }
}
