//! What could be written at a place.

use crate::document::Document;
use crate::index::Use;
use crate::members::Members;
use serde_json::Value;
use std::alloc::{AllocError, Global};
use std::str;

/// The directives that are offered.
const DIRECTIVES: [&str; 21] = [
    "token",
    "left",
    "right",
    "nonassoc",
    "precedence",
    "type",
    "nterm",
    "start",
    "union",
    "prec",
    "empty",
    "expect",
    "expect-rr",
    "define",
    "code",
    "parse-param",
    "lex-param",
    "param",
    "initial-action",
    "destructor",
    "printer",
];

/// The kinds of the protocol that are used.
const FUNCTION: usize = 3;

const KEYWORD: usize = 14;

const CONSTANT: usize = 21;

/// What is offered.
pub fn item(alloc: Global, label: &str, kind: usize) -> Members {
    Members::new(alloc)
        .with("kind", Ok(Value::from(kind)))
        .with_text("label", label)
}

/// What stands before a place, which says what is wanted there.
#[derive(Clone, Copy, PartialEq, Eq)]
enum Wanted {
    /// A directive, of which this many bytes stand there, after its percent sign.
    Directive,
    /// A token after `%prec`.
    Token,
    /// Any symbol.
    Symbol,
}

/// The length of the part of a word that stands before a place.
pub fn word_before(text: &[u8]) -> usize {
    let mut length: usize = 0;
    for byte in text {
        let is_part = byte.is_ascii_alphanumeric() || matches!(*byte, b'_' | b'.' | b'-');
        length = if is_part { length.saturating_add(1) } else { 0 };
    }
    length
}

/// What is wanted after a text.
fn wanted_after(text: &[u8]) -> Wanted {
    let rest = text.len().saturating_sub(word_before(text));
    let before = text.get(..rest).unwrap_or(&[]);
    if before.last() == Some(&b'%') {
        Wanted::Directive
    } else if before.trim_ascii_end().ends_with(b"%prec") {
        Wanted::Token
    } else {
        Wanted::Symbol
    }
}

impl Document {
    /// Whether a symbol is declared as a token, or gets a precedence.
    fn is_token(&self, name: usize) -> bool {
        for it in &self.index.mentions {
            if it.name == name && matches!(it.named, Use::Token | Use::Level) {
                return true;
            }
        }
        false
    }

    /// What could be written at a place: references in actions, directives after a percent sign,
    /// tokens after `%prec`, and elsewhere the symbols of the file.
    pub fn completion(&self, alloc: Global, at: usize) -> Result<Value, AllocError> {
        if let Some(action) = self.action_at(at) {
            return self.references_offered(alloc, action, at);
        }
        let (wanted, mut items) = (
            wanted_after(self.text.get(..at).unwrap_or(&[])),
            Vec::new(alloc),
        );
        if wanted == Wanted::Directive {
            for word in &DIRECTIVES {
                items.push(item(alloc, *word, KEYWORD).done()?)?;
            }
            return Ok(Value::Array(items));
        }
        for (number, name) in self.index.names.iter().enumerate() {
            let is_left = self.index.is_left(number);
            let fits = wanted == Wanted::Symbol || !is_left && self.is_token(number);
            if let (true, Ok(label)) = (fits, str::from_utf8(name)) {
                let kind = if is_left { FUNCTION } else { CONSTANT };
                items.push(item(alloc, label, kind).done()?)?;
            }
        }
        Ok(Value::Array(items))
    }
}
