//! A symbol of a file gets another name.

use crate::document::Document;
use crate::index::Mention;
use crate::wire::Wrong;
use serde_json::Value;
use std::alloc::{AllocError, Global};

/// Whether a text is a name of a symbol.
fn is_name(text: &[u8]) -> bool {
    match text {
        [first, ..] if first.is_ascii_digit() => false,
        [] => false,
        _ => {
            let mut is_name = true;
            for byte in text {
                let is_part = byte.is_ascii_alphanumeric() || matches!(*byte, b'_' | b'.');
                is_name = is_name && is_part;
            }
            is_name
        }
    }
}

impl Document {
    /// The mention at a place, where it is a name and not a literal or a string.
    fn renamed(&self, at: usize) -> Option<Mention> {
        let mention = self.index.at(at)?;
        let text = self.text.get(mention.span.from..mention.span.to)?;
        if is_name(text) { Some(mention) } else { None }
    }

    /// The part that would be renamed at a place.
    pub fn renamed_part(&self, alloc: Global, at: usize) -> Result<Value, AllocError> {
        match self.renamed(at) {
            Some(mention) => self.range(alloc, mention.span.from, mention.span.to),
            None => Ok(Value::Null),
        }
    }

    /// The changes by which the symbol at a place gets another name; names in C code aren't changed.
    /// It is refused where there is no name, or another symbol has the new one.
    pub fn rename(
        &self,
        alloc: Global,
        at: usize,
        new: &str,
    ) -> Result<Result<Value, Wrong>, AllocError> {
        let Some(mention) = self.renamed(at) else {
            return Ok(Err(Wrong::NoName));
        };
        if self.index.has(new.as_bytes()) || !is_name(new.as_bytes()) {
            return Ok(Err(Wrong::NoName));
        }
        let mut edits = Vec::new(alloc);
        for other in &self.index.mentions {
            let text = self.text.get(other.span.from..other.span.to);
            if other.name == mention.name && text.is_some_and(is_name) {
                let part = (other.span.from, other.span.to);
                edits.push(self.edit(alloc, part, new)?)?;
            }
        }
        Ok(Ok(self.edits(alloc, edits)?))
    }
}
