//! The names and literals of a syntax tree among the symbols.

ghost use Rattle.std.specs.Prelude.{◌≡◌, OnOk};
ghost use Rattle.ysymbols.specs.Names.{is_among, number_in, with_name};
ghost use Rattle.ydeclarations.specs.Printed.{printed_name};
ghost use Rattle.ysyntax.specs.TreeViews.{identifier_view};

use std::alloc::{AllocError, Global};
use ysymbols::names::{Printed, SymbolTable, intern, is_among, number_in};
use ysyntax::tree::Identifier;

/// The number of a name or literal, or how many names there are where it is not among them.
pub fn number_of(names: &SymbolTable, who: Identifier) -> usize
    ensures { result ≡ number_in names.now (printed_name (identifier_view who.entry)) }
{
    match who {
        Identifier::Named(name) => number_in(names, name),
        Identifier::Quoted(value) => number_in(names, Printed::new(value).as_slice()),
    }
}

/// Whether a name or literal is among these names.
pub fn is_named(names: &SymbolTable, who: Identifier) -> bool
    ensures { result ≡ is_among names.now (printed_name (identifier_view who.entry)) }
{
    match who {
        Identifier::Named(name) => is_among(names, name),
        Identifier::Quoted(value) => is_among(names, Printed::new(value).as_slice()),
    }
}

/// Adds a name or literal after the others, unless it is among them. It fails only when memory
/// runs out.
pub fn intern_identifier(
    alloc: Global,
    names: &mut SymbolTable,
    who: Identifier,
) -> Result<(), AllocError>
    ensures { OnOk result (names.new
        ≡ with_name names.old (printed_name (identifier_view who.entry))) }
{
    match who {
        Identifier::Named(name) => intern(alloc, names, name),
        Identifier::Quoted(value) => intern(alloc, names, Printed::new(value).as_slice()),
    }
}
