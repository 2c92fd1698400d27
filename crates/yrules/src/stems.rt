//! What alternatives are called: by the name that a comment gives, or by the left side and the
//! place among the alternatives of that.

use crate::comments::begun_by;
use crate::given::{Given, given_to};
use std::alloc::Global;
use yexplain::lines::{Site, is_inner};
use yexplain::reads::{Made, left_of, name_of};
use yfiles::output::Output;
use ysymbols::Grammar;

/// What an alternative is called.
#[derive(Clone, Copy)]
pub struct Stem<'a> {
    /// The name that a comment gives it.
    pub given: Option<Given<'a>>,
    /// How many bytes of the file stand before it.
    at: usize,
    /// The name of its left side.
    left: &'a [u8],
    /// Its place among the alternatives of that, counted from 1.
    place: usize,
}

impl Stem<'_> {
    /// Where a name of it stands in the file: the name that is given, or its own beginning.
    pub fn at(&self) -> usize {
        match self.given {
            Some(given) => given.at,
            None => self.at,
        }
    }

    /// Writes it as C has it: with a line below in place of each period.
    pub fn put(&self, out: &mut Output) {
        if let Some(given) = self.given {
            out.put_characters(given.name);
            return;
        }
        for byte in self.left {
            out.put_characters(&[if *byte == b'.' { b'_' } else { *byte }]);
        }
        out.put("_");
        out.number(self.place);
    }
}

/// What the alternatives of a file are called, in their order: the rules of its grammar but those
/// of inner actions.
pub fn stems_of<'a>(
    alloc: Global,
    grammar: &'a Grammar,
    sites: &[Site],
    given: &[Given<'a>],
) -> Made<Vec<Stem<'a>>> {
    // where the alternatives begin
    let mut starts = Vec::new(alloc);
    for site in sites {
        if begun_by(site.role).is_some() {
            starts.push(site.at)?;
        }
    }
    // how many of them each symbol had so far
    let mut places = vec![in alloc; 0usize; grammar.symbols()]?;
    let mut stems = Vec::with_capacity(alloc, starts.len())?;
    for rule in 1..grammar.rules() {
        if is_inner(grammar, rule) {
            continue;
        }
        let left = left_of(grammar, rule).unwrap_or(0);
        let mut place = 0;
        if let Some(count) = places.get_mut(left) {
            *count = count.saturating_add(1);
            place = *count;
        }
        stems.push(Stem {
            given: given_to(given, stems.len()),
            at: starts.get(stems.len()).copied().unwrap_or(0),
            left: name_of(grammar, left),
            place,
        })?;
    }
    Ok(stems)
}
