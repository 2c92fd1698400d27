//! Symbols by their printed names: each name once, its number the place where it was interned.

ghost use Rattle.std.specs.Prelude.{◌≡◌, ◌≤◌, ℕ, List, length, map, take, false, OnOk, IfOk, []};
ghost use Rattle.std.specs.Prelude.{◌∷◌};
ghost use Rattle.std.specs.Prelude.{◌++◌, OnErr, slice_get};
ghost use Rattle.ysymbols.specs.Names.{find_in, is_among, with_name, with_names, number_in};
ghost use Rattle.ysymbols.specs.Names.{printed_literal};
ghost use Rattle.ysymbols.specs.Sources.{text_view};

use std::alloc::{AllocError, Global};
use std::collections::HashMap;
use std::marker::Model;

/// Printed names by number: symbol `s` has the name at place `s`, counted from 0.
pub struct SymbolTable {
    names: Vec<Vec<u8>>,
    numbers: HashMap<Vec<u8>, usize>,
}

impl Drop for SymbolTable {
    fn drop(self) {
        let SymbolTable { names, numbers } = self;
        drop(names);
        drop(numbers);
    }
}

impl Model for SymbolTable {
    ghost use Rattle.std.specs.Prelude.{List, ℕ};
    ghost use Rattle.ysymbols.specs.NameTexts.{texts_of, IsNumbered};

    ghost Value = { List (List ℕ) };

    ghost view = { λ t. texts_of t.names.items };

    ghost invariant = { λ t. IsNumbered (texts_of t.names.items) t.numbers };
}

impl SymbolTable {
    /// No names.
    pub fn new(alloc: Global) -> SymbolTable
        ensures { result ≡ [] }
    {
        SymbolTable {
            names: Vec::new(alloc),
            numbers: HashMap::new(alloc),
        }
    }

    /// How many names there are.
    pub fn len(&self) -> usize
        ensures { result ≡ length self.now }
    {
        self.names.len()
    }

    /// The name of this number, or `None` where there are not so many.
    pub fn get(&self, number: usize) -> Option<&[u8]>
        ensures { text_view result ≡ slice_get self.now number }
    {
        match self.names.get(number) {
            Some(name) => Some(name.as_slice()),
            None => None,
        }
    }

    /// The number of the name, or `None` where it is not among them.
    pub fn find(&self, name: &[u8]) -> Option<usize>
        ensures { result ≡ find_in self.now name.now }
    {
        self.numbers.get(name).copied()
    }

    /// Adds a name that is not among them after the others. It fails only when memory runs out,
    /// and then adds nothing.
    pub fn push(&mut self, alloc: Global, name: &[u8]) -> Result<(), AllocError>
        requires { is_among self.old name.now ≡ false }
        ensures added { OnOk result (self.new ≡ self.old ++ name.now ∷ []) }
        ensures kept { OnErr result (self.new ≡ self.old) }
    {
        let number = self.names.len();
        let key = Vec::from_slice(alloc, name)?;
        self.names.push(Vec::from_slice(alloc, name)?)?;
        match self.numbers.insert(key, number) {
            Ok(_) => Ok(()),
            Err(_) => {
                self.names.pop();
                Err(AllocError)
            }
        }
    }
}

/// A literal as it is printed.
#[derive(Drop)]
pub struct Printed {
    bytes: [u8; 6],
    len: usize,
}

impl Model for Printed {
    ghost Value = { List ℕ };

    ghost view = { λ p. take p.len p.bytes };

    ghost invariant = { λ p. p.len ≤ 6 };
}

impl Printed {
    /// The literal of this value: its byte between quotes, or a backslash and three octal digits
    /// there.
    pub fn new(value: u8) -> Printed
        ensures { result ≡ printed_literal value }
    {
        if (32..=126).contains(&value) && value != b'\'' && value != b'\\' {
            Printed {
                bytes: [b'\'', value, b'\'', 0, 0, 0],
                len: 3,
            }
        } else {
            Printed {
                bytes: [
                    b'\'',
                    b'\\',
                    b'0' + value / 64,
                    b'0' + value / 8 % 8,
                    b'0' + value % 8,
                    b'\'',
                ],
                len: 6,
            }
        }
    }

    /// Its bytes, 3 or 6 of them, with both quotes.
    pub fn as_slice(&self) -> &[u8]
        ensures { result.now ≡ self.now }
    {
        &self.bytes[..self.len]
    }
}

/// Whether the name is among them.
pub fn is_among(names: &SymbolTable, name: &[u8]) -> bool
    ensures { result ≡ is_among names.now name.now }
{
    names.find(name).is_some()
}

/// The number of the name, or how many names there are where it is not among them.
pub fn number_in(names: &SymbolTable, name: &[u8]) -> usize
    ensures { result ≡ number_in names.now name.now }
{
    names.find(name).unwrap_or(names.len())
}

/// Adds a name after the others, unless it is among them. It fails only when memory runs out.
pub fn intern(alloc: Global, names: &mut SymbolTable, name: &[u8]) -> Result<(), AllocError>
    ensures { OnOk result (names.new ≡ with_name names.old name.now) }
{
    if is_among(names, name) {
        return Ok(());
    }
    names.push(alloc, name)
}
