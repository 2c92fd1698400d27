//! Where something stands: definitions, references, what is marked beside them.

use crate::document::Document;
use crate::index::Use;
use crate::members::Members;
use serde_json::Value;
use std::alloc::{AllocError, Global};

/// Where the symbol at a place is defined: its first rule, or its declaration.
pub fn definition(alloc: Global, document: &Document, at: usize) -> Result<Value, AllocError> {
    let Some(mention) = document.index.at(at) else {
        return Ok(Value::Null);
    };
    match document.index.definition(mention.name) {
        Some(found) => document.location(alloc, found.span.from, found.span.to),
        None => Ok(Value::Null),
    }
}

/// All places of the symbol at a place; without those that declare it, where these aren't wanted.
pub fn references(
    alloc: Global,
    document: &Document,
    at: usize,
    declared: bool,
) -> Result<Value, AllocError> {
    let mut found = Vec::new(alloc);
    if let Some(mention) = document.index.at(at) {
        for other in &document.index.mentions {
            let is_use = matches!(other.named, Use::Body | Use::Prec | Use::Start);
            if other.name == mention.name && (declared || is_use) {
                let span = other.span;
                found.push(document.location(alloc, span.from, span.to)?)?;
            }
        }
    }
    Ok(Value::Array(found))
}

/// What is marked with the symbol at a place: where it is defined as written, elsewhere as read.
pub fn highlights(alloc: Global, document: &Document, at: usize) -> Result<Value, AllocError> {
    let mut found = Vec::new(alloc);
    if let Some(mention) = document.index.at(at) {
        for other in &document.index.mentions {
            if other.name == mention.name {
                let is_written = matches!(other.named, Use::Left | Use::Token);
                let kind = if is_written { 3usize } else { 2 };
                let span = other.span;
                let mark = Members::new(alloc)
                    .with("kind", Ok(Value::from(kind)))
                    .with("range", document.range(alloc, span.from, span.to));
                found.push(mark.done()?)?;
            }
        }
    }
    Ok(Value::Array(found))
}
