//! What a file has: its symbols, the parts that an editor folds, and what it selects.

use crate::document::{Document, position_at};
use crate::index::{Mention, Rule, Use};
use crate::members::Members;
use serde_json::Value;
use std::alloc::{AllocError, Global};
use std::str;
use yforeign::lexeme::Kind;

/// The kinds of symbols that the protocol has for a token and for a nonterminal.
const TOKEN: usize = 14;

const NONTERMINAL: usize = 12;

/// A symbol of a file: its name, and its kind.
fn named(alloc: Global, name: &str, mention: &Mention) -> Members {
    let is_token = mention.named == Use::Token;
    let kind = if is_token { TOKEN } else { NONTERMINAL };
    Members::new(alloc)
        .with("kind", Ok(Value::from(kind)))
        .with_text("name", name)
}

impl Document {
    /// The name of a symbol as a text.
    fn name_of(&self, mention: &Mention) -> &str {
        str::from_utf8(self.index.name(mention.name)).unwrap_or("?")
    }

    /// The part of the file that all rules of a nonterminal take which stand side by side, from the
    /// one of a number on.
    fn rules_from(&self, number: usize, rule: &Rule) -> (usize, usize) {
        let mut to = rule.to;
        for next in self.index.rules.get(number..).unwrap_or(&[]) {
            if next.left != rule.left {
                break;
            }
            to = next.to;
        }
        (rule.from, to)
    }

    /// The mentions that a file shows as its symbols: tokens that are declared, and the first rule
    /// of each group of rules of one nonterminal; each with the part that belongs to it.
    fn shown(&self, alloc: Global) -> Result<Vec<(Mention, usize, usize)>, AllocError> {
        let mut shown = Vec::new(alloc);
        for mention in &self.index.mentions {
            match mention.named {
                Use::Token => {
                    let span = mention.span;
                    shown.push((*mention, span.from, span.to))?;
                }
                Use::Left => {
                    if let Some(rule) = self.index.rules.get(mention.rule) {
                        let (from, to) = self.rules_from(mention.rule, rule);
                        shown.push((*mention, from, to))?;
                    }
                }
                _ => {}
            }
        }
        Ok(shown)
    }

    /// The symbols of the file.
    pub fn symbols(&self, alloc: Global) -> Result<Value, AllocError> {
        let mut symbols = Vec::new(alloc);
        for (mention, from, to) in &self.shown(alloc)? {
            let span = mention.span;
            let symbol = named(alloc, self.name_of(mention), mention)
                .with("range", self.range(alloc, *from, *to))
                .with("selectionRange", self.range(alloc, span.from, span.to));
            symbols.push(symbol.done()?)?;
        }
        Ok(Value::Array(symbols))
    }

    /// Adds the symbols of the file whose names have a text in them.
    pub fn add_symbols(
        &self,
        alloc: Global,
        wanted: &str,
        found: &mut Vec<Value>,
    ) -> Result<(), AllocError> {
        for (mention, _, _) in &self.shown(alloc)? {
            let name = self.name_of(mention);
            if name.contains(wanted) {
                let span = mention.span;
                let symbol = named(alloc, name, mention).with(
                    "location",
                    self.location(alloc, span.from, span.to),
                );
                found.push(symbol.done()?)?;
            }
        }
        Ok(())
    }

    /// Adds a part that can be folded, where it has several lines.
    fn add_fold(
        &self,
        alloc: Global,
        (from, to): (usize, usize),
        folds: &mut Vec<Value>,
    ) -> Result<(), AllocError> {
        let (start, end) = (self.position(from).line, self.position(to).line);
        if start < end {
            let fold = Members::new(alloc)
                .with("startLine", Ok(Value::from(start)))
                .with("endLine", Ok(Value::from(end)));
            folds.push(fold.done()?)?;
        }
        Ok(())
    }

    /// The parts that can be folded: the rules of a nonterminal, actions, code blocks.
    pub fn folds(&self, alloc: Global) -> Result<Value, AllocError> {
        let mut folds = Vec::new(alloc);
        for (mention, from, to) in &self.shown(alloc)? {
            if mention.named == Use::Left {
                self.add_fold(alloc, (*from, *to), &mut folds)?;
            }
        }
        for lexeme in &self.index.lexemes {
            if matches!(lexeme.kind, Kind::Braced | Kind::Code) {
                self.add_fold(alloc, (lexeme.span.from, lexeme.span.to), &mut folds)?;
            }
        }
        Ok(Value::Array(folds))
    }

    /// The parts around a place, from the whole file to the lexeme there.
    fn around(&self, alloc: Global, at: usize) -> Result<Vec<(usize, usize)>, AllocError> {
        let mut parts = Vec::new(alloc);
        parts.push((0usize, self.text.len()))?;
        if let Some((number, rule)) = self.rule_group(at) {
            parts.push(self.rules_from(number, &rule))?;
        }
        let has = |(from, to): (usize, usize)| from <= at && at <= to;
        for part in &self.index.parts {
            if has(*part) {
                parts.push(*part)?;
                break;
            }
        }
        for lexeme in &self.index.lexemes {
            let part = (lexeme.span.from, lexeme.span.to);
            if has(part) {
                parts.push(part)?;
                break;
            }
        }
        Ok(parts)
    }

    /// The first of the rules of one nonterminal, side by side, among which a place stands, with its
    /// number.
    fn rule_group(&self, at: usize) -> Option<(usize, Rule)> {
        let number = self.index.rule_at(at)?;
        let rule = self.index.rules.get(number).copied()?;
        let mut first = number;
        for (place, it) in self.index.rules.iter().enumerate().take(number) {
            let is_same = it.left == rule.left;
            first = if is_same { first.min(place) } else { number };
        }
        Some((first, self.index.rules.get(first).copied()?))
    }

    /// What an editor selects from a place on, one part after the other.
    fn selection(&self, alloc: Global, at: usize) -> Result<Value, AllocError> {
        let mut selected = Value::Null;
        for (from, to) in &self.around(alloc, at)? {
            let part = Members::new(alloc).with("range", self.range(alloc, *from, *to));
            let part = match selected {
                Value::Null => part,
                parent => part.with("parent", Ok(parent)),
            };
            selected = part.done()?;
        }
        Ok(selected)
    }

    /// What an editor selects from each of the places that a message has.
    pub fn selections(&self, alloc: Global, message: &Value) -> Result<Value, AllocError> {
        let mut all = Vec::new(alloc);
        if let Some(Value::Array(places)) = message.pointer("/params/positions") {
            for place in places {
                if let Some(position) = position_at(alloc, place, "")? {
                    all.push(self.selection(alloc, self.offset(position))?)?;
                }
            }
        }
        Ok(Value::Array(all))
    }
}
