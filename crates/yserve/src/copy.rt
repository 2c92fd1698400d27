//! A copy of a nonterminal for the body of one rule, as a change of the file.

use crate::document::{Document, Edit, Mend};
use crate::index::{Rule, Use};
use std::alloc::{AllocError, Global};
use std::str;
use ydiagnostics::mends::SplitSheet;
use yforeign::lexeme::Kind;
use yskeleton::names_one;

/// What follows the name of a nonterminal in that of its copy, and how often at most.
const COPY: &str = "_copy";

const MOST_COPIES: usize = 8;

impl Document {
    /// The name of a copy, which no symbol of the file has.
    fn copy_name(&self, alloc: Global, name: &[u8]) -> Result<Option<String>, AllocError> {
        let mut copy = String::from_str(alloc, str::from_utf8(name).unwrap_or(""))?;
        for _ in 0..MOST_COPIES {
            copy.push_str(COPY)?;
            if !self.index.has(copy.as_bytes()) {
                return Ok(Some(copy));
            }
        }
        Ok(None)
    }

    /// What a rule has after its colon or its bar, as it stands in the file.
    fn body_text(&self, rule: &Rule) -> &str {
        let (mut from, mut to) = (None, rule.from);
        for lexeme in &self.index.lexemes {
            let span = lexeme.span;
            if span.from < rule.from || rule.to <= span.from || lexeme.kind == Kind::Semicolon {
                continue;
            }
            if from.is_some() {
                to = span.to;
            } else if matches!(lexeme.kind, Kind::Colon | Kind::Bar) {
                from = Some(span.to);
                to = span.to;
            }
        }
        let body = self.text.get(from.unwrap_or(to)..to).unwrap_or(&[]);
        str::from_utf8(body.trim_ascii()).unwrap_or("")
    }

    /// Whether the actions of a rule name a value or a place by the name of a symbol.
    fn is_named_in(&self, rule: &Rule, name: &[u8]) -> bool {
        for lexeme in &self.index.lexemes {
            let span = lexeme.span;
            let is_its = rule.from <= span.from && span.from < rule.to;
            if is_its && lexeme.kind == Kind::Braced && names_one(lexeme.text(&self.text), name) {
                return true;
            }
        }
        false
    }

    /// The rules of a copy, which are those of a nonterminal, after these; none where an action has
    /// its name.
    fn copied_rules(
        &self,
        alloc: Global,
        left: usize,
        copy: &str,
    ) -> Result<Option<Edit>, AllocError> {
        let mut text = format!(in alloc; "\n\n{copy}")?;
        let (mut count, mut at) = (0usize, 0usize);
        for rule in &self.index.rules {
            if rule.left != left {
                continue;
            }
            if self.is_named_in(rule, self.index.name(left)) {
                return Ok(None);
            }
            text.push_str(if count == 0 { ": " } else { "\n  | " })?;
            text.push_str(self.body_text(rule))?;
            count = count.saturating_add(1);
            at = rule.to;
        }
        text.push_str("\n  ;")?;
        if count == 0 {
            return Ok(None);
        }
        Ok(Some(Edit {
            from: at,
            to: at,
            text,
        }))
    }

    /// The number of the rule that begins at a place, and of the nonterminal of a copy.
    fn split_place(&self, split: &SplitSheet) -> Option<(usize, usize)> {
        let (start, _) = self.line(split.line?.saturating_sub(1));
        let from = start.saturating_add(split.column?.saturating_sub(1));
        let mut found = None;
        for (number, rule) in self.index.rules.iter().enumerate() {
            if rule.from == from {
                found = Some(number);
            }
        }
        for rule in &self.index.rules {
            if self.index.name(rule.left) == split.symbol.as_bytes() {
                return Some((found?, rule.left));
            }
        }
        None
    }

    /// The places of a nonterminal in the body of a rule become those of its copy.
    fn add_renamed(
        &self,
        alloc: Global,
        (number, left): (usize, usize),
        copy: &str,
        edits: &mut Vec<Edit>,
    ) -> Result<(), AllocError> {
        for mention in &self.index.mentions {
            let is_its = mention.rule == number && mention.named == Use::Body;
            if is_its && mention.name == left {
                let text = String::from_str(alloc, copy)?;
                let (from, to) = (mention.span.from, mention.span.to);
                edits.push(Edit { from, to, text })?;
            }
        }
        Ok(())
    }

    /// The changes that write a copy of this name: its type, its rules, and where it stands; none
    /// where an action has the name of its nonterminal.
    fn copy_edits(
        &self,
        alloc: Global,
        (number, left): (usize, usize),
        copy: &str,
    ) -> Result<Option<Vec<Edit>>, AllocError> {
        let Some(rule) = self.index.rules.get(number) else {
            return Ok(None);
        };
        let Some(rules) = self.copied_rules(alloc, left, copy)? else {
            return Ok(None);
        };
        if self.is_named_in(rule, self.index.name(left)) {
            return Ok(None);
        }
        let mut edits = Vec::new(alloc);
        if let Some(tag) = self.index.tags.get(&left) {
            let (from, tag) = (self.mark(), self.part(tag.from, tag.to));
            let (to, text) = (from, format!(in alloc; "%type {tag} {copy}\n")?);
            edits.push(Edit { from, to, text })?;
        }
        if rules.from <= rule.from {
            edits.push(rules)?;
            self.add_renamed(alloc, (number, left), copy, &mut edits)?;
        } else {
            self.add_renamed(alloc, (number, left), copy, &mut edits)?;
            edits.push(rules)?;
        }
        Ok(Some(edits))
    }

    /// The copy that was tried, as changes of the file that are offered at a line.
    pub fn split_mend(
        &self,
        alloc: Global,
        split: &SplitSheet,
        line: usize,
    ) -> Result<Option<Mend>, AllocError> {
        let Some(place) = self.split_place(split) else {
            return Ok(None);
        };
        let Some(copy) = self.copy_name(alloc, self.index.name(place.1))? else {
            return Ok(None);
        };
        let Some(edits) = self.copy_edits(alloc, place, copy.as_str())? else {
            return Ok(None);
        };
        let (name, rule) = (split.symbol.as_str(), split.line.unwrap_or(0));
        let mut title = format!(in alloc; "copy {name} for the rule on line {rule}")?;
        let (left, all) = (split.left, split.all);
        title.push_str(&format!(in alloc; " ({left} of {all} conflicts left)")?)?;
        Ok(Some(Mend {
            line,
            title,
            edits,
            left: Some(left),
        }))
    }
}
