//! What a symbol is, in lines for people.

use crate::document::Document;
use crate::members::Members;
use serde_json::Value;
use std::alloc::{AllocError, Global};
use std::{io, str};
use yexplain::reads::grammar_of;
use yview::page::Page;
use yview::symbol_view::put_symbol;

impl Document {
    /// A text about a part of the file.
    fn text_about(
        &self,
        alloc: Global,
        (from, to): (usize, usize),
        text: &str,
    ) -> Result<Value, AllocError> {
        let contents = Members::new(alloc)
            .with_text("kind", "plaintext")
            .with_text("value", text);
        Members::new(alloc)
            .with("contents", contents.done())
            .with("range", self.range(alloc, from, to))
            .done()
    }

    /// A text, and what a symbol is, by the tables of the last text that had some.
    fn with_symbol(&self, text: Vec<u8>, name: &[u8]) -> io::Result<Vec<u8>> {
        let mut page = Page::new(text, false);
        if let Some(opened) = self.tables() {
            if let Some(symbol) = grammar_of(&opened.tables).find(name) {
                put_symbol(&mut page, &opened.tables, &opened.lines, symbol);
            }
        }
        page.checked()?;
        Ok(page.into_out())
    }

    /// What the reference at a place of an action means.
    fn hover_action(&self, alloc: Global, at: usize) -> Result<Value, AllocError> {
        let Some(action) = self.action_at(at) else {
            return Ok(Value::Null);
        };
        let Some(referred) = self.reference_at(action, at) else {
            return Ok(Value::Null);
        };
        match self.reference_text(alloc, action, referred)? {
            Some(text) => self.text_about(alloc, (referred.from, referred.to), text.as_str()),
            None => Ok(Value::Null),
        }
    }

    /// What is wrong at a place, and what the symbol there is; or what a reference there is.
    pub fn hover(&self, alloc: Global, at: usize) -> io::Result<Value> {
        let (mut text, mut part) = (Vec::new(alloc), (at, at));
        for fault in &self.faults {
            if fault.from <= at && at <= fault.to {
                text.extend_from_slice(fault.text.as_bytes())?;
                part = (fault.from, fault.to);
                break;
            }
        }
        if let Some(mention) = self.index.at(at) {
            text = self.with_symbol(text, self.index.name(mention.name))?;
            part = (mention.span.from, mention.span.to);
        } else if text.is_empty() {
            return Ok(self.hover_action(alloc, at)?);
        }
        match str::from_utf8(&text) {
            Ok(text) if !text.is_empty() => Ok(self.text_about(alloc, part, text)?),
            _ => Ok(Value::Null),
        }
    }
}
