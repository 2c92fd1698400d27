//! The nearest of some names to another name, for a slip in spelling: of symbols, commands,
//! options.

use std::alloc::Global;
use std::str;
use strsim::osa_distance;
use yexplain::reads::Made;

/// The longest name that is compared with others.
const LONGEST: usize = 64;

/// A search among names for the one that is nearest to a wanted name.
#[derive(Clone, Copy, Drop)]
pub struct Search<'a> {
    wanted: &'a [u8],
    /// The nearest of the names that were offered.
    pub found: Option<&'a [u8]>,
    /// Fewer edits than these must lead to a name.
    edits: usize,
}

/// A name without the quotes around it.
fn unquoted(name: &[u8]) -> &[u8] {
    match name {
        [b'\'', inner @ .., b'\''] | [b'"', inner @ .., b'"'] => inner,
        _ => name,
    }
}

impl<'a> Search<'a> {
    /// A search for a name at most one edit away for each three bytes of the wanted name, or for
    /// two bytes.
    pub fn new(wanted: &'a [u8]) -> Search<'a> {
        let most = (wanted.len() / 3).max(usize::from(wanted.len() > 1));
        Search {
            wanted,
            found: None,
            edits: most.saturating_add(1),
        }
    }

    /// Takes a name in.
    pub fn offer(&mut self, alloc: Global, name: &'a [u8]) -> Made<()> {
        if self.wanted.len() > LONGEST || name.len() > LONGEST {
            return Ok(());
        }
        // those that differ only in case or quotes are no edit apart
        let edits = if unquoted(self.wanted).eq_ignore_ascii_case(unquoted(name)) {
            0
        } else {
            match (str::from_utf8(self.wanted), str::from_utf8(name)) {
                (Ok(wanted), Ok(name)) => osa_distance(alloc, wanted, name)?,
                _ => LONGEST,
            }
        };
        if edits < self.edits {
            self.found = Some(name);
            self.edits = edits;
        }
        Ok(())
    }

    /// The nearest of the names that were offered, as text.
    pub fn text(&self) -> Option<&'a str> {
        str::from_utf8(self.found?).ok()
    }
}
