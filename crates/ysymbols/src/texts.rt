//! The braced texts of a grammar's rules, as parts of its source.

ghost use Rattle.std.specs.Prelude.{◌≡◌, ◌++◌, ◌∷◌, [], None, slice_index_or, IfOk, IfSome, OnOk};
ghost use Rattle.ysymbols.specs.Sources.{part_of};
ghost use Rattle.ysymbols.specs.Sources.{option_view, text_view};

use crate::let_go;
use std::alloc::{AllocError, Global};
use std::marker::Model;

/// Where a text stands in a source.
#[derive(Clone, Copy, Drop)]
pub struct Span {
    /// How many bytes of the source stand before it.
    pub start: usize,
    /// How many bytes it has.
    pub len: usize,
}

/// The part of a source at a place; the end of the source cuts it off.
fn part_at<'s>(source: &'s [u8], span: Span) -> &'s [u8]
    ensures { result.now ≡ part_of source.now span }
{
    let from = if span.start < source.len() {
        source.split_at(span.start).1
    } else {
        &[]
    };
    if span.len < from.len() {
        from.split_at(span.len).0
    } else {
        from
    }
}

/// The text of each rule, where it has one: places in a source that is kept once.
pub struct Texts {
    source: Vec<u8>,
    spans: Vec<Option<Span>>,
}

impl Drop for Texts {
    fn drop(self) {
        let_go!(self: Texts { source, spans });
    }
}

impl Model for Texts {
    ghost use Rattle.std.specs.Prelude.{map};
    ghost use Rattle.ysymbols.specs.Sources.{TextsValue, part_of};
    ghost use Rattle.ysymbols.specs.Sources.{option_view};

    ghost Value = { TextsValue };

    ghost view = { λ t. record {
      source = t.source.items;
      texts = map (option_view (part_of t.source.items)) t.spans.items;
    } };
}

impl Texts {
    /// No texts yet, of a copy of this source. It fails only when memory runs out.
    pub fn new(alloc: Global, source: &[u8]) -> Result<Texts, AllocError>
        ensures { IfOk result (λ t. t ≡ record { source = source.now; texts = [] }) }
    {
        Ok(Texts {
            source: Vec::from_slice(alloc, source)?,
            spans: Vec::new(alloc),
        })
    }

    /// Adds the place of the text of the next rule, or `None` where it has no text. It fails only
    /// when memory runs out.
    pub fn push(&mut self, span: Option<Span>) -> Result<(), AllocError>
        ensures { OnOk result (self.new
            ≡ record self.old {
              texts = self.old.texts ++ option_view (part_of self.old.source) span ∷ [];
            }) }
    {
        self.spans.push(span)?;
        Ok(())
    }

    /// The text of the rule of this number, or `None` where it has no text.
    pub fn get(&self, r: usize) -> Option<&[u8]>
        ensures { text_view result ≡ slice_index_or self.now.texts r None }
    {
        if r < self.spans.len() {
            match self.spans[r] {
                Some(span) => Some(part_at(&self.source, span)),
                None => None,
            }
        } else {
            None
        }
    }
}
