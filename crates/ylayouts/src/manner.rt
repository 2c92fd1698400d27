//! How counterexamples are written: names of symbols, and signs.

use yfiles::output::Output;
use ysymbols::Sym;

/// The signs of drawings, each with how many columns it takes.
#[derive(Clone, Copy)]
pub struct Signs {
    /// What stands before a rule.
    pub arrow: (&'static str, usize),
    /// What stands for a body without symbols.
    pub empty: (&'static str, usize),
    /// What stands where the conflict is.
    pub dot: &'static str,
}

/// Signs in ASCII.
pub const ASCII: Signs = Signs {
    arrow: ("`-> ", 4),
    empty: ("%empty", 6),
    dot: ".",
};

/// Signs in UTF-8.
pub const UTF_8: Signs = Signs {
    arrow: ("↳ ", 2),
    empty: ("ε", 1),
    dot: "•",
};

/// How counterexamples are written.
#[derive(Clone, Copy)]
pub struct Manner<'a> {
    /// What symbols are called in the file.
    pub names: &'a [Vec<u8>],
    /// The signs.
    pub signs: Signs,
}

impl<'a> Manner<'a> {
    /// What a symbol is called.
    pub fn name(self, symbol: Sym) -> &'a [u8] {
        match self.names.get(symbol) {
            Some(name) => name.as_slice(),
            None => b"",
        }
    }

    /// Writes what a symbol is called.
    pub fn put_name(self, out: &mut Output, symbol: Sym) {
        out.put_bytes(self.name(symbol));
    }

    /// How many columns the name of a symbol takes: bytes that go on with a character take none.
    pub fn width(self, symbol: Sym) -> usize {
        let mut width: usize = 0;
        for byte in self.name(symbol) {
            width = width.saturating_add(usize::from(*byte & 0xc0 != 0x80));
        }
        width
    }
}
