//! The part of a report on rules and symbols.

use crate::report::Report;
use crate::sheet::{Mark, Sheet};
use crate::spare::Part;
use yexplain::reads::{Made, body_of, is_reachable, is_set, left_of};
use yfindings::walk::{Walk, conflicts_in};
use ysymbols::{Sym, let_go};

/// For each symbol the numbers of the rules that have it on their left side, or in their body.
struct Uses {
    lefts: Vec<Vec<usize>>,
    bodies: Vec<Vec<usize>>,
}

impl Drop for Uses {
    // A call in each owner, which keeps their proofs short.
    fn drop(self) {
        let_go!(self: Uses { lefts, bodies });
    }
}

/// Notes that a rule has a symbol, once.
fn note(lists: &mut Vec<Vec<usize>>, symbol: Sym, number: usize) -> Made<()> {
    if let Some(list) = lists.get_mut(symbol) {
        if list.last().copied() != Some(number) {
            list.push(number)?;
        }
    }
    Ok(())
}

/// Writes numbers of rules after a word, where there are some.
fn put_numbers(sheet: &mut Sheet, word: &str, numbers: Option<&Vec<usize>>) {
    let Some(numbers) = numbers else {
        return;
    };
    for (place, number) in numbers.iter().enumerate() {
        sheet.put(if place == 0 { word } else { "" });
        sheet.put(" ");
        sheet.mark("", Mark::ToRule, *number);
    }
}

/// Writes the number of a rule in a column of its own.
pub fn put_number(sheet: &mut Sheet, mark: Mark, number: usize) {
    let width = match number {
        0..=9 => 4,
        10..=99 => 3,
        _ => 2,
    };
    sheet.spaces(width);
    sheet.mark("", mark, number);
    sheet.put(" ");
}

impl Report<'_> {
    /// Writes the number and the left side of a rule, unless that is the one of the rule before.
    pub fn put_left(&self, sheet: &mut Sheet, mark: Mark, rule: usize, before: Option<usize>) {
        let layout = self.layout;
        put_number(sheet, mark, layout.rule(rule));
        match layout.new_left(rule, before) {
            Some(left) => {
                self.put_name(sheet, left);
                sheet.put(":");
            }
            None => {
                let left = left_of(layout.grammar, rule).unwrap_or(0);
                sheet.spaces(layout.manner.width(left));
                sheet.put("|");
            }
        }
    }

    /// Whether a rule stands in sentences, as far as rules lead to it.
    fn is_needed(&self, rule: usize) -> bool {
        let grammar = self.layout.grammar;
        rule == 0 || is_reachable(grammar, left_of(grammar, rule).unwrap_or(0))
    }

    /// Writes a rule, and an empty line before it where its left side is another one.
    fn put_rule(&self, sheet: &mut Sheet, mark: Mark, rule: usize, before: Option<usize>) {
        let layout = self.layout;
        if before.is_some() && layout.new_left(rule, before).is_some() {
            sheet.put("\n");
        }
        self.put_left(sheet, mark, rule, before);
        let body = body_of(layout.grammar, rule);
        for symbol in body {
            sheet.put(" ");
            self.put_name(sheet, *symbol);
        }
        if body.is_empty() {
            sheet.put(" ");
            sheet.put(layout.manner.signs.empty.0);
        }
        sheet.put("\n");
    }

    /// Writes the rules.
    pub fn put_grammar(&self, sheet: &mut Sheet) {
        sheet.title("Grammar");
        let mut before = None;
        for rule in 0..self.layout.grammar.rules() {
            if self.is_needed(rule) {
                self.put_rule(sheet, Mark::Rule, rule, before);
                before = Some(rule);
            }
        }
        sheet.put("\n\n");
    }

    /// Writes the rules that are never reduced, since they lose conflicts.
    pub fn put_lost(&self, sheet: &mut Sheet) -> Made<()> {
        let walk = Walk::new(self.layout.alloc, self.layout.tables)?;
        let mut before = None;
        for rule in 1..self.layout.grammar.rules() {
            if !self.is_needed(rule) || is_set(&walk.reduced, rule) {
                continue;
            }
            if before.is_none() {
                sheet.title("Rules useless in parser due to conflicts");
            }
            self.put_rule(sheet, Mark::ToRule, rule, before);
            before = Some(rule);
        }
        sheet.put(if before.is_some() { "\n\n" } else { "" });
        Ok(())
    }

    /// Writes a part of a rule that no sentence needs.
    fn put_part(&self, sheet: &mut Sheet, part: Part<'_>) {
        match part {
            Part::Symbol(symbol) => self.put_name(sheet, symbol),
            Part::Text(text) => sheet.put_bytes(text),
            Part::Action(number) => {
                sheet.put("$@");
                sheet.number(number);
            }
        }
    }

    /// Writes what no sentence needs: nonterminals, tokens, and rules, which are numbered after all
    /// others.
    pub fn put_spares(&self, sheet: &mut Sheet) {
        let spares = self.spares;
        for (title, parts) in [
            ("Nonterminals useless in grammar", &spares.nonterminals),
            ("Terminals unused in grammar", &spares.tokens),
        ] {
            if parts.is_empty() {
                continue;
            }
            sheet.title(title);
            for part in parts {
                sheet.put("    ");
                self.put_part(sheet, *part);
                sheet.put("\n");
            }
            sheet.put("\n\n");
        }
        if !spares.rules.is_empty() {
            sheet.title("Rules useless in grammar");
            self.put_spare_rules(sheet);
            sheet.put("\n\n");
        }
    }

    /// Writes the rules that no sentence needs.
    fn put_spare_rules(&self, sheet: &mut Sheet) {
        let (spares, layout, mut number) = (self.spares, self.layout, 0usize);
        for rule in 0..layout.grammar.rules() {
            number = number.saturating_add(usize::from(self.is_needed(rule)));
        }
        for (place, rule) in spares.rules.iter().enumerate() {
            if place > 0 && !rule.goes_on {
                sheet.put("\n");
            }
            put_number(sheet, Mark::Rule, number);
            number = number.saturating_add(1);
            let parts = rule.parts.as_slice();
            let Some((left, body)) = parts.split_first() else {
                continue;
            };
            if rule.goes_on {
                sheet.spaces(left.width(layout.manner));
                sheet.put("|");
            } else {
                self.put_part(sheet, *left);
                sheet.put(":");
            }
            for part in body {
                sheet.put(" ");
                self.put_part(sheet, *part);
            }
            if body.is_empty() {
                sheet.put(" ");
                sheet.put(layout.manner.signs.empty.0);
            }
            sheet.put("\n");
        }
    }

    /// Writes how many conflicts states have.
    pub fn put_conflicts(&self, sheet: &mut Sheet, drawn: &[(usize, usize)]) {
        let mut any = false;
        for (number, state) in drawn {
            let found = conflicts_in(self.layout.tables, *state);
            if found.shifts == 0 && found.reduces == 0 {
                continue;
            }
            any = true;
            sheet.mark("State ", Mark::ToState, *number);
            sheet.put(" conflicts: ");
            if found.shifts > 0 {
                sheet.number(found.shifts);
                sheet.put(" shift/reduce");
            }
            if found.reduces > 0 {
                sheet.put(if found.shifts > 0 { ", " } else { "" });
                sheet.number(found.reduces);
                sheet.put(" reduce/reduce");
            }
            sheet.put("\n");
        }
        sheet.put(if any { "\n\n" } else { "" });
    }

    /// For each symbol the numbers of the rules that have it.
    fn uses(&self) -> Made<Uses> {
        let (alloc, grammar) = (self.layout.alloc, self.layout.grammar);
        let mut uses = Uses {
            lefts: Vec::new(alloc),
            bodies: Vec::new(alloc),
        };
        for _ in 0..grammar.symbols() {
            uses.lefts.push(Vec::new(alloc))?;
            uses.bodies.push(Vec::new(alloc))?;
        }
        for rule in 0..grammar.rules() {
            if !self.is_needed(rule) {
                continue;
            }
            let number = self.layout.rule(rule);
            note(&mut uses.lefts, left_of(grammar, rule).unwrap_or(0), number)?;
            for symbol in body_of(grammar, rule) {
                note(&mut uses.bodies, *symbol, number)?;
            }
        }
        Ok(uses)
    }

    /// Writes the name of a symbol with its tag and its number.
    fn put_symbol(&self, sheet: &mut Sheet, symbol: Sym, number: usize) {
        sheet.put("    ");
        self.put_name(sheet, symbol);
        if let Some(tag) = self.parts.tag_of(symbol) {
            sheet.put_bytes(b" <");
            sheet.put_bytes(tag);
            sheet.put_bytes(b">");
        }
        sheet.put(" (");
        sheet.number(number);
        sheet.put(")");
    }

    /// Writes the tokens by their numbers, each with the rules that have it.
    fn put_tokens(&self, sheet: &mut Sheet, uses: &Uses) -> Made<()> {
        sheet.title("Terminals, with rules where they appear");
        let mut tokens = Vec::new(self.layout.alloc);
        let numbering = self.layout.numbering;
        for (token, number) in numbering.told.iter().enumerate() {
            if let (Some(number), false) = (*number, numbering.none == Some(token)) {
                tokens.push((number, token))?;
            }
        }
        tokens.sort()?;
        for (number, token) in &tokens {
            self.put_symbol(sheet, *token, *number);
            put_numbers(sheet, "", uses.bodies.get(*token));
            sheet.put("\n");
        }
        sheet.put("\n\n");
        Ok(())
    }

    /// Writes the nonterminals, each with the rules that have it.
    fn put_nonterminals(&self, sheet: &mut Sheet, uses: &Uses) {
        sheet.title("Nonterminals, with rules where they appear");
        // what is no token is one of the tokens that bison counts
        let layout = self.layout;
        let more = usize::from(layout.numbering.none.is_none());
        let mut number = layout.tokens.len().saturating_add(more);
        for (place, symbol) in layout.nonterminals.iter().enumerate() {
            let symbol = *symbol;
            if place > 0 && !is_reachable(layout.grammar, symbol) {
                continue;
            }
            self.put_symbol(sheet, symbol, number);
            number = number.saturating_add(1);
            put_numbers(sheet, "\n        on left:", uses.lefts.get(symbol));
            put_numbers(sheet, "\n        on right:", uses.bodies.get(symbol));
            sheet.put("\n");
        }
    }

    /// Writes the symbols.
    pub fn put_symbols(&self, sheet: &mut Sheet) -> Made<()> {
        let uses = self.uses()?;
        self.put_tokens(sheet, &uses)?;
        self.put_nonterminals(sheet, &uses);
        Ok(())
    }
}
