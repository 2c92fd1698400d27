//! Actions, and what their references mean: `$2`, `@1`, `$$`, `$<tag>2`, and names.

use crate::complete::{item, word_before};
use crate::document::Document;
use crate::index::Use;
use serde_json::Value;
use std::alloc::{AllocError, Global};
use std::str;
use yforeign::lexeme::{Kind, Span};
use yparts::bodies::Body;
use yparts::parts::Named;
use yskeleton::{Dialect, Piece, Whose, meant_in, piece_at};

/// What an action may name.
const ALL: Dialect = Dialect {
    names: true,
    places: true,
};

/// The kind of the protocol for a reference.
const VARIABLE: usize = 6;

/// What an action can name: the left side, or itself within a body, and what stands before it.
#[derive(Drop)]
struct Values<'a> {
    /// The names, that of the left side first.
    names: Vec<Named<'a>>,
    /// Where each stands, and the tag that an action has before it; within a body the action itself
    /// is the first, since `$$` means it there.
    parts: Vec<(Span, Option<Span>)>,
    /// Whether the action stands within its body.
    is_inner: bool,
}

/// A reference, and where it stands.
#[derive(Clone, Copy)]
pub struct Referred<'a> {
    /// What it says.
    piece: Piece<'a>,
    /// How many bytes stand before it.
    pub from: usize,
    /// How many bytes stand before what follows it.
    pub to: usize,
}

impl<'a> Values<'a> {
    /// The value that a reference means.
    fn meant(&self, whose: Whose<'_>) -> Option<(Span, Option<Span>)> {
        let seen = self.names.len().saturating_sub(1);
        match meant_in(&self.names, (seen, self.is_inner), whose) {
            Ok(None) => self.parts.first().copied(),
            Ok(Some(number)) if number > 0 => {
                let place = usize::try_from(number).ok()?;
                self.parts.get(place).copied()
            }
            _ => None,
        }
    }

    /// The name in brackets that a value has, where the action sees it.
    fn called(&self, place: usize) -> Option<&'a [u8]> {
        let named = self.names.get(place).copied()?;
        let is_seen = named.name != named.symbol && !(place == 0 && self.is_inner);
        if is_seen { Some(named.name) } else { None }
    }
}

impl Document {
    /// The action that a place stands in.
    pub fn action_at(&self, at: usize) -> Option<Span> {
        self.index.rule_at(at)?;
        // the end of the file is within an action that has no end
        let at_end = at == self.text.len();
        for it in &self.index.lexemes {
            let is_before = at < it.span.to || at_end && at == it.span.to;
            if it.kind == Kind::Braced && it.span.from < at && is_before {
                return Some(it.span);
            }
        }
        None
    }

    /// The reference at a place of an action.
    pub fn reference_at(&self, action: Span, at: usize) -> Option<Referred<'_>> {
        let (mut rest, mut from) = (self.text.get(action.from..action.to)?, action.from);
        for _ in action.from..action.to {
            let (piece, front, after) = piece_at(rest, ALL)?;
            let to = from.saturating_add(front.len());
            if from <= at && at <= to && !matches!(piece, Piece::Text) {
                return Some(Referred { piece, from, to });
            }
            from = to;
            rest = after;
        }
        None
    }

    /// The number of the name of the left side or the symbol of a body that begins at a place.
    fn body_name(&self, from: usize) -> Option<usize> {
        for it in &self.index.mentions {
            if it.span.from == from {
                let is_symbol = matches!(it.named, Use::Left | Use::Body);
                return if is_symbol { Some(it.name) } else { None };
            }
        }
        None
    }

    /// Where the rules of the left side begin that stand around a place, and where its rule ends.
    fn rule_around(&self, at: usize) -> (usize, usize) {
        let mut head = 0usize;
        for mention in &self.index.mentions {
            if mention.named == Use::Left && mention.span.from < at {
                head = mention.span.from;
            }
        }
        let rule = self.index.rule_at(at).unwrap_or(usize::MAX);
        match self.index.rules.get(rule) {
            Some(rule) => (head, rule.to),
            None => (head, at),
        }
    }

    /// Whether a value follows an action in its rule, which ends at a place.
    fn is_followed(&self, alloc: Global, action: Span, end: usize) -> Result<bool, AllocError> {
        let (mut names, mut body) = (Vec::new(alloc), Body::new());
        for lexeme in &self.index.lexemes {
            let from = lexeme.span.from;
            if action.from < from && from < end {
                body.take(&mut names, lexeme.kind, lexeme.text(&self.text))?;
            }
        }
        Ok(!names.is_empty())
    }

    /// What an action can name: its left side, or itself within a body, and what stands before it.
    fn values(&self, alloc: Global, action: Span) -> Result<Values<'_>, AllocError> {
        let (mut names, mut parts) = (Vec::new(alloc), Vec::new(alloc));
        let (mut body, mut tag) = (Body::new(), None);
        let (head, end) = self.rule_around(action.from);
        for lexeme in &self.index.lexemes {
            let (kind, span) = (lexeme.kind, lexeme.span);
            if span.from < head || action.from <= span.from {
                continue;
            }
            let text = lexeme.text(&self.text);
            if kind == Kind::Bar {
                names.truncate(1);
                parts.truncate(1);
                body = Body::new();
            }
            if span.from == head {
                names.push(Named {
                    name: text,
                    symbol: text,
                    place: 0,
                })?;
            } else {
                body.take(&mut names, kind, text)?;
            }
            if names.len() > parts.len() {
                parts.push((span, tag))?;
            }
            let is_tag = kind == Kind::Tag;
            tag = if is_tag { Some(span) } else { None };
        }
        let is_inner = self.is_followed(alloc, action, end)?;
        if let (Some(left), true) = (parts.first_mut(), is_inner) {
            *left = (action, tag);
        }
        Ok(Values {
            names,
            parts,
            is_inner,
        })
    }

    /// What stands in a part of the file between two brackets.
    fn within(&self, span: Span) -> &[u8] {
        let inner = self.text.get(span.from..span.to).unwrap_or(&[]);
        let end = inner.len().saturating_sub(1);
        inner.get(1..end).unwrap_or(&[]).trim_ascii()
    }

    /// A value: its name, and its tag, which a reference can give itself.
    fn value_text<'a>(
        &'a self,
        alloc: Global,
        (span, before): (Span, Option<Span>),
        own: Option<&'a [u8]>,
    ) -> Result<String, AllocError> {
        let (line, mut tag) = (span.line, before);
        let mut text = match self.body_name(span.from) {
            Some(number) => {
                tag = self.index.tags.get(&number).copied();
                String::from_str(
                    alloc,
                    str::from_utf8(self.index.name(number)).unwrap_or("?"),
                )?
            }
            None => format!(in alloc; "the action on line {line}")?,
        };
        let tag = match (own, tag) {
            (Some(own), _) => own,
            (None, Some(tag)) => self.within(tag),
            (None, None) => return Ok(text),
        };
        text.push_str(", tag ")?;
        text.push_str(str::from_utf8(tag).unwrap_or("?"))?;
        Ok(text)
    }

    /// What a reference of an action means.
    pub fn reference_text(
        &self,
        alloc: Global,
        action: Span,
        referred: Referred<'_>,
    ) -> Result<Option<String>, AllocError> {
        let (word, whose, own) = match referred.piece {
            Piece::Value(it) => ("value", it.whose, it.tag),
            Piece::Place(whose) => ("place", whose, None),
            Piece::Text => return Ok(None),
        };
        let values = self.values(alloc, action)?;
        let Some(part) = values.meant(whose) else {
            return Ok(None);
        };
        let text = self.value_text(alloc, part, own)?;
        let rule = self.index.rule_at(action.from).unwrap_or(0);
        let from = match self.index.rules.get(rule) {
            Some(rule) => rule.from,
            None => 0,
        };
        let line = self.position(from).line.saturating_add(1);
        Ok(Some(format!(in alloc; "the {word} of {text}\nin the rule on line {line}\n")?))
    }

    /// A reference to a value that could be written in place of a part of the file.
    fn reference_item(
        &self,
        alloc: Global,
        label: &str,
        part: (usize, usize),
        value: (Span, Option<Span>),
    ) -> Result<Value, AllocError> {
        let text = self.value_text(alloc, value, None)?;
        item(alloc, label, VARIABLE)
            .with_text("detail", text.as_str())
            .with("textEdit", self.edit(alloc, part, label))
            .done()
    }

    /// The references that could be written at a place of an action: after a dollar or an at sign,
    /// by their numbers, and by the names in brackets that the rule has.
    pub fn references_offered(
        &self,
        alloc: Global,
        action: Span,
        at: usize,
    ) -> Result<Value, AllocError> {
        let (mut items, text) = (
            Vec::new(alloc),
            self.text.get(action.from..at).unwrap_or(&[]),
        );
        let before = text.len().saturating_sub(word_before(text));
        let sign = match text.get(..before).unwrap_or(&[]) {
            [.., b'$', b'$'] | [.., b'@', b'$'] => return Ok(Value::Array(items)),
            [.., b'$'] => "$",
            [.., b'@'] => "@",
            _ => return Ok(Value::Array(items)),
        };
        let from = action.from.saturating_add(before).saturating_sub(1);
        let values = self.values(alloc, action)?;
        for (number, value) in values.parts.iter().enumerate() {
            let label = match number {
                0 => format!(in alloc; "{sign}$")?,
                _ => format!(in alloc; "{sign}{number}")?,
            };
            items.push(self.reference_item(alloc, label.as_str(), (from, at), *value)?)?;
            if let Some(name) = values.called(number) {
                let name = str::from_utf8(name).unwrap_or("?");
                let label = format!(in alloc; "{sign}[{name}]")?;
                items.push(self.reference_item(alloc, label.as_str(), (from, at), *value)?)?;
            }
        }
        Ok(Value::Array(items))
    }
}
