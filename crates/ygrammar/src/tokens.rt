//! The tokens of a file by number.

ghost use Rattle.std.specs.Prelude.{◌≡◌, ◌++◌, ◌∷◌, [], filter, map, codes, IfOk, OnOk};
ghost use Rattle.ydeclarations.specs.Elaboration.{is_literal, listed_name, token_names_of};
ghost use Rattle.ydeclarations.specs.Elaboration.{tokens_of};
ghost use Rattle.ysymbols.specs.Names.{is_among, with_names};
ghost use Rattle.ydeclarations.specs.Printed.{printed_name};
ghost use Rattle.ydeclarations.specs.Outline.{listed_view};
ghost use Rattle.ysyntax.specs.TreeViews.{occurrence_view};

use std::alloc::{AllocError, Global};
use ydeclarations::identifiers::{intern_identifier, is_named};
use ydeclarations::outline::{Listed, Outline};
use ysymbols::names::{SymbolTable, intern};
use ysyntax::tree::{Identifier, Occurrence};

fn intern_first(alloc: Global, names: &mut SymbolTable) -> Result<(), AllocError>
    ensures { OnOk result (names.new
        ≡ with_names names.old (codes "$end" ∷ codes "error" ∷ [])) }
{
    intern(alloc, names, b"$end")?;
    intern(alloc, names, b"error")
}

/// The end and `error`, which every grammar has.
fn first_tokens(alloc: Global) -> Result<SymbolTable, AllocError>
    ensures { IfOk result (λ v. v ≡ codes "$end" ∷ codes "error" ∷ []) }
{
    let mut names = SymbolTable::new(alloc);
    match intern_first(alloc, &mut names) {
        Ok(()) => Ok(names),
        // A call, here and below, which keeps the proofs short.
        Err(error) => {
            drop(names);
            Err(error)
        }
    }
}

fn intern_listed(
    alloc: Global,
    names: &mut SymbolTable,
    listed: &[Listed],
) -> Result<(), AllocError>
    ensures { OnOk result (names.new
        ≡ with_names names.old (map listed_name (map listed_view listed.now))) }
{
    for one in listed {
        intern_identifier(alloc, names, one.who.who)?;
    }
    Ok(())
}

fn intern_literals(
    alloc: Global,
    names: &mut SymbolTable,
    occurrences: &[Occurrence],
) -> Result<(), AllocError>
    ensures { OnOk result (names.new
        ≡ with_names names.old
        (map printed_name (filter is_literal (map occurrence_view occurrences.now)))) }
{
    for occurrence in occurrences {
        if let Identifier::Quoted(_) = occurrence.who {
            intern_identifier(alloc, names, occurrence.who)?;
        }
    }
    Ok(())
}

/// Adds the names that are listed, and the literals.
fn intern_all(alloc: Global, names: &mut SymbolTable, outline: &Outline) -> Result<(), AllocError>
    ensures { OnOk result (names.new
        ≡ with_names names.old (map listed_name (map listed_view outline.now.listed.items)
        ++ map printed_name (filter is_literal (map occurrence_view outline.now.declared.items
        ++ map occurrence_view outline.now.used.items)))) }
{
    intern_listed(alloc, names, &outline.listed)?;
    intern_literals(alloc, names, &outline.declared)?;
    intern_literals(alloc, names, &outline.used)
}

/// The names of the tokens, in any order.
fn token_names(alloc: Global, outline: &Outline) -> Result<SymbolTable, AllocError>
    ensures { IfOk result (λ v. v
        ≡ with_names [] (token_names_of (map listed_view outline.now.listed.items)
        (map occurrence_view outline.now.declared.items
        ++ map occurrence_view outline.now.used.items))) }
{
    let mut names = first_tokens(alloc)?;
    match intern_all(alloc, &mut names, outline) {
        Ok(()) => Ok(names),
        Err(error) => {
            drop(names);
            Err(error)
        }
    }
}

/// Adds those of some names and literals that are among `names`.
fn intern_those(
    alloc: Global,
    tokens: &mut SymbolTable,
    names: &SymbolTable,
    occurrences: &[Occurrence],
) -> Result<(), AllocError>
    ensures { OnOk result (tokens.new
        ≡ with_names tokens.old
        (filter (is_among names.now) (map printed_name (map occurrence_view
        occurrences.now)))) }
{
    for occurrence in occurrences {
        if is_named(names, occurrence.who) {
            intern_identifier(alloc, tokens, occurrence.who)?;
        }
    }
    Ok(())
}

/// Adds those names and literals of the file that are among `names`.
fn intern_appearing(
    alloc: Global,
    tokens: &mut SymbolTable,
    names: &SymbolTable,
    outline: &Outline,
) -> Result<(), AllocError>
    ensures { OnOk result (tokens.new
        ≡ with_names tokens.old
        (filter (is_among names.now) (map printed_name (map occurrence_view
        outline.now.declared.items ++ map occurrence_view outline.now.used.items)))) }
{
    intern_those(alloc, tokens, names, &outline.declared)?;
    intern_those(alloc, tokens, names, &outline.used)
}

/// The tokens by number, where all that may appear are among `names`.
fn tokens_among(
    alloc: Global,
    names: &SymbolTable,
    outline: &Outline,
) -> Result<SymbolTable, AllocError>
    ensures { IfOk result (λ v. v
        ≡ with_names (codes "$end" ∷ codes "error" ∷ [])
        (filter (is_among names.now) (map printed_name (map occurrence_view
        outline.now.declared.items ++ map occurrence_view outline.now.used.items)))) }
{
    let mut tokens = first_tokens(alloc)?;
    match intern_appearing(alloc, &mut tokens, names, outline) {
        Ok(()) => Ok(tokens),
        Err(error) => {
            drop(tokens);
            Err(error)
        }
    }
}

/// The tokens by number: the end, `error`, and the others in the order of their first appearance.
/// It fails only when memory runs out.
pub fn tokens(alloc: Global, outline: &Outline) -> Result<SymbolTable, AllocError>
    ensures { IfOk result (λ v. v
        ≡ tokens_of (map listed_view outline.now.listed.items)
        (map occurrence_view outline.now.declared.items ++ map occurrence_view
        outline.now.used.items)) }
{
    let names = token_names(alloc, outline)?;
    let tokens = tokens_among(alloc, &names, outline);
    drop(names);
    tokens
}
