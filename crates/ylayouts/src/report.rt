//! The report on an automaton: what no sentence needs, conflicts, rules, symbols, states.

use crate::layout::Layout;
use crate::sheet::Sheet;
use crate::spare::Spares;
use yexplain::reads::Made;
use yfindings::finding::Seen;
use yparts::parts::Parts;
use ysymbols::Sym;

/// What a report says of each state beside its kernel and what is done there.
#[derive(Clone, Copy, Drop)]
pub struct Things {
    /// All of its items.
    pub items: bool,
    /// The tokens at which rules may be reduced.
    pub lookaheads: bool,
    /// What precedences settle.
    pub settled: bool,
}

impl Things {
    /// Nothing more.
    pub const NONE: Things = Things {
        items: false,
        lookaheads: false,
        settled: false,
    };
}

/// What a report is made of.
#[derive(Clone, Copy)]
pub struct Report<'a> {
    /// The automaton.
    pub layout: &'a Layout<'a>,
    /// What the file says of its symbols.
    pub parts: &'a Parts<'a>,
    /// What no sentence needs.
    pub spares: &'a Spares<'a>,
    /// For each rule the token that gives it its precedence.
    pub givers: &'a [Option<Sym>],
    /// The file, where it can be looked at.
    pub seen: Option<&'a Seen<'a>>,
    /// What is said of states.
    pub things: Things,
}

impl Report<'_> {
    /// Writes the name of a symbol.
    pub fn put_name(&self, sheet: &mut Sheet, symbol: Sym) {
        sheet.put_bytes(self.layout.manner.name(symbol));
    }

    /// The report on a grammar file of this path, as a text or as a page.
    pub fn text(&self, path: &str, is_page: bool) -> Made<Vec<u8>> {
        let layout = self.layout;
        let mut sheet = Sheet::new(layout.alloc, path, is_page);
        let drawn = layout.drawn()?;
        self.put_spares(&mut sheet);
        self.put_lost(&mut sheet)?;
        self.put_conflicts(&mut sheet, &drawn);
        self.put_grammar(&mut sheet);
        self.put_symbols(&mut sheet)?;
        for (number, state) in &drawn {
            self.put_state(&mut sheet, *number, *state)?;
        }
        sheet.into_bytes()
    }
}
