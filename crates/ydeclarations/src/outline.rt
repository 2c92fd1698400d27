//! What stands in a file, list by list: what is listed, started, typed, declared and used, and the
//! left sides.

ghost use Rattle.std.specs.Prelude.{◌≡◌, ◌++◌, ℕ, map, IfOk, OnOk, length};
ghost use Rattle.std.specs.List.{flat_map};
ghost use Rattle.ydeclarations.specs.Elaboration.{left_of_rule, identifiers_of, given_by};
ghost use Rattle.ydeclarations.specs.Elaboration.{body_part_identifier};
ghost use Rattle.ydeclarations.specs.Elaboration.{level_at, listing_of, listings_from, option_list};
ghost use Rattle.ydeclarations.specs.Elaboration.{prec_of, starts_of, type_names, uses_of, who_of};
ghost use Rattle.ydeclarations.specs.Outline.{Outlines, listed_view, start_view};
ghost use Rattle.ydeclarations.specs.OutlineSites.{OutlineSites, entries_in, lefts_in};
ghost use Rattle.ydeclarations.specs.OutlineSites.{listed_entry};
ghost use Rattle.ydeclarations.specs.OutlineSites.{precs_in, starts_in, symbol_in, typed_in};
ghost use Rattle.ydeclarations.specs.OutlineSites.{used_in};
ghost use Rattle.ysyntax.specs.SiteViews.{definition_sites, rule_text_sites};
ghost use Rattle.ysyntax.specs.TreeViews.{rule_text_view, definition_view, entry_view};
ghost use Rattle.ysyntax.specs.TreeViews.{body_part_view};
ghost use Rattle.ysyntax.specs.TreeViews.{occurrence_view, name_view, tree_view};
ghost use Rattle.ysymbols.specs.Sources.{option_view};
ghost use Rattle.ysyntax.specs.TreeViews.{word_view};

use std::alloc::{AllocError, Global};
use ysymbols::{Associativity, Precedence, let_go};
use ysyntax::tree::{
    BodyPart, Definition, Digits, Entry, NameAt, Occurrence, RuleText, Tree, Word,
};

/// A token that a line lists: the precedence that the line gives, and the digits after the token.
#[derive(Clone, Copy, Drop)]
pub struct Listed<'a> {
    /// The precedence that the line gives its tokens; `None` for a `%token` line.
    pub gives: Option<Precedence>,
    /// The token.
    pub who: Occurrence<'a>,
    /// The digits after it.
    pub digits: Option<Digits<'a>>,
}

/// The symbol that a `%start` names, and how many bytes stand before that `%start`.
#[derive(Clone, Copy, Drop)]
pub struct Started<'a> {
    /// The symbol.
    pub who: Occurrence<'a>,
    /// How many bytes stand before the `%start`.
    pub at: usize,
}

/// What stands in a file, list by list, each in the order of the file.
pub struct Outline<'a> {
    /// The tokens that are listed.
    pub listed: Vec<Listed<'a>>,
    /// The symbols that `%start` names.
    pub starts: Vec<Started<'a>>,
    /// The names that stand in `%type` lines.
    pub typed: Vec<NameAt<'a>>,
    /// The names and literals of the declarations.
    pub declared: Vec<Occurrence<'a>>,
    /// The left sides.
    pub lefts: Vec<NameAt<'a>>,
    /// The names and literals of the rules, also those after `%prec`.
    pub used: Vec<Occurrence<'a>>,
    /// The names and literals after `%prec`.
    pub precs: Vec<Occurrence<'a>>,
}

impl Drop for Outline<'_> {
    fn drop(self) {
        let_go!(self: Outline { listed, starts, typed, declared, lefts, used, precs });
    }
}

/// Adds the tokens of a line.
fn push_entries<'a>(
    found: &mut Vec<Occurrence<'a>>,
    entries: &[Entry<'a>],
) -> Result<(), AllocError>
    ensures { OnOk result (map occurrence_view found.new.items
        ≡ map occurrence_view found.old.items ++ map who_of (map entry_view entries.now)) }
{
    for entry in entries {
        found.push(entry.who)?;
    }
    Ok(())
}

/// Adds the names and literals of a declaration.
fn push_declared<'a>(
    found: &mut Vec<Occurrence<'a>>,
    definition: &Definition<'a>,
) -> Result<(), AllocError>
    ensures { OnOk result (map occurrence_view found.new.items
        ≡ map occurrence_view found.old.items ++ identifiers_of (definition_view definition.now)) }
{
    match definition {
        Definition::Start(who, _) => found.push(*who)?,
        Definition::Listing(line) => push_entries(found, &line.entries)?,
        Definition::Union(_) | Definition::Block | Definition::Types(_) => {}
    }
    Ok(())
}

fn all_declared<'a>(
    alloc: Global,
    definitions: &[Definition<'a>],
) -> Result<Vec<Occurrence<'a>>, AllocError>
    ensures { IfOk result (λ v. map occurrence_view v.items
        ≡ flat_map identifiers_of (map definition_view definitions.now)) }
{
    let mut found = Vec::new(alloc);
    for definition in definitions {
        push_declared(&mut found, definition)?;
    }
    Ok(found)
}

fn all_starts<'a>(
    alloc: Global,
    definitions: &[Definition<'a>],
) -> Result<Vec<Started<'a>>, AllocError>
    ensures names { IfOk result (λ v. map start_view v.items
        ≡ flat_map starts_of (map definition_view definitions.now)) }
    ensures all { IfOk result (λ v. v.items ≡ flat_map starts_in definitions.now) }
{
    let mut found = Vec::new(alloc);
    for definition in definitions {
        if let Definition::Start(who, at) = definition {
            found.push(Started { who: *who, at: *at })?;
        }
    }
    Ok(found)
}

/// Adds names.
fn push_names<'a>(found: &mut Vec<NameAt<'a>>, names: &[NameAt<'a>]) -> Result<(), AllocError>
    ensures all { OnOk result (found.new.items ≡ found.old.items ++ names.now) }
    ensures names { OnOk result (map name_view found.new.items
        ≡ map name_view found.old.items ++ map name_view names.now) }
{
    for name in names {
        found.push(*name)?;
    }
    Ok(())
}

fn all_typed<'a>(
    alloc: Global,
    definitions: &[Definition<'a>],
) -> Result<Vec<NameAt<'a>>, AllocError>
    ensures names { IfOk result (λ v. map name_view v.items
        ≡ flat_map type_names (map definition_view definitions.now)) }
    ensures all { IfOk result (λ v. v.items ≡ flat_map typed_in definitions.now) }
{
    let mut found = Vec::new(alloc);
    for definition in definitions {
        if let Definition::Types(line) = definition {
            push_names(&mut found, &line.names)?;
        }
    }
    Ok(found)
}

/// What the word of a line says of its tokens, where the line has this level.
fn given_by(word: Word, level: usize) -> Option<Precedence>
    ensures { result ≡ given_by (word_view word) level }
{
    let kind = match word {
        Word::Token => return None,
        Word::Left => Associativity::Left,
        Word::Right => Associativity::Right,
        Word::Nonassoc => Associativity::Nonassoc,
    };
    Some(Precedence { level, kind })
}

/// Adds the listings of a line.
fn push_listed<'a>(
    found: &mut Vec<Listed<'a>>,
    gives: Option<Precedence>,
    entries: &[Entry<'a>],
) -> Result<(), AllocError>
    ensures listings { OnOk result (map listed_view found.new.items
        ≡ map listed_view found.old.items ++ map (listing_of gives) (map entry_view entries.now)) }
    ensures all { OnOk result (map listed_entry found.new.items
        ≡ map listed_entry found.old.items ++ entries.now) }
{
    for entry in entries {
        found.push(Listed {
            gives,
            who: entry.who,
            digits: entry.digits,
        })?;
    }
    Ok(())
}

fn all_listed<'a>(
    alloc: Global,
    definitions: &[Definition<'a>],
) -> Result<Vec<Listed<'a>>, AllocError>
    ensures listings { IfOk result (λ v. map listed_view v.items
        ≡ listings_from 0 (map definition_view definitions.now)) }
    ensures all { IfOk result (λ v. map listed_entry v.items
        ≡ flat_map entries_in definitions.now) }
{
    let mut found = Vec::new(alloc);
    let mut level: usize = 0;
    for definition in definitions {
        if let Definition::Listing(line) = definition {
            if line.word != Word::Token {
                level += 1;
            }
            push_listed(&mut found, given_by(line.word, level), &line.entries)?;
        }
    }
    Ok(found)
}

fn all_lefts<'a>(alloc: Global, rule_texts: &[RuleText<'a>]) -> Result<Vec<NameAt<'a>>, AllocError>
    ensures names { IfOk result (λ v. map name_view v.items
        ≡ flat_map left_of_rule (map rule_text_view rule_texts.now)) }
    ensures all { IfOk result (λ v. v.items ≡ flat_map lefts_in rule_texts.now) }
{
    let mut found = Vec::new(alloc);
    for rule_text in rule_texts {
        if let Some(name) = rule_text.left {
            found.push(name)?;
        }
    }
    Ok(found)
}

/// Adds the names and literals of a body.
fn push_items<'a>(found: &mut Vec<Occurrence<'a>>, items: &[BodyPart<'a>]) -> Result<(), AllocError>
    ensures names { OnOk result (map occurrence_view found.new.items
        ≡ map occurrence_view found.old.items ++ flat_map body_part_identifier
        (map body_part_view items.now)) }
    ensures all { OnOk result (found.new.items
        ≡ found.old.items ++ flat_map symbol_in items.now) }
{
    for item in items {
        if let BodyPart::Symbol(who) = item {
            found.push(*who)?;
        }
    }
    Ok(())
}

/// Adds the name or literal after a `%prec`, where the rule has one.
fn push_prec<'a>(
    found: &mut Vec<Occurrence<'a>>,
    prec: Option<Occurrence<'a>>,
) -> Result<(), AllocError>
    ensures names { OnOk result (map occurrence_view found.new.items
        ≡ map occurrence_view found.old.items ++ option_list
        (option_view occurrence_view prec.entry)) }
    ensures all { OnOk result (found.new.items ≡ found.old.items ++ option_list prec.entry) }
{
    if let Some(who) = prec {
        found.push(who)?;
    }
    Ok(())
}

fn all_used<'a>(
    alloc: Global,
    rule_texts: &[RuleText<'a>],
) -> Result<Vec<Occurrence<'a>>, AllocError>
    ensures names { IfOk result (λ v. map occurrence_view v.items
        ≡ flat_map uses_of (map rule_text_view rule_texts.now)) }
    ensures all { IfOk result (λ v. v.items ≡ flat_map used_in rule_texts.now) }
{
    let mut found = Vec::new(alloc);
    for rule_text in rule_texts {
        push_items(&mut found, &rule_text.body)?;
        push_prec(&mut found, rule_text.prec)?;
    }
    Ok(found)
}

fn all_precs<'a>(
    alloc: Global,
    rule_texts: &[RuleText<'a>],
) -> Result<Vec<Occurrence<'a>>, AllocError>
    ensures names { IfOk result (λ v. map occurrence_view v.items
        ≡ flat_map prec_of (map rule_text_view rule_texts.now)) }
    ensures all { IfOk result (λ v. v.items ≡ flat_map precs_in rule_texts.now) }
{
    let mut found = Vec::new(alloc);
    for rule_text in rule_texts {
        push_prec(&mut found, rule_text.prec)?;
    }
    Ok(found)
}

impl<'a> Outline<'a> {
    /// The lists of a tree. It fails only when memory runs out.
    pub fn new(alloc: Global, tree: &Tree<'a>) -> Result<Outline<'a>, AllocError>
        ensures lists { IfOk result (λ o. Outlines o (tree_view tree.now)) }
        ensures sites { IfOk result (λ o. OutlineSites o
            (flat_map definition_sites tree.now.definitions.items)
            (flat_map rule_text_sites tree.now.rule_texts.items)) }
    {
        Ok(Outline {
            listed: all_listed(alloc, &tree.definitions)?,
            starts: all_starts(alloc, &tree.definitions)?,
            typed: all_typed(alloc, &tree.definitions)?,
            declared: all_declared(alloc, &tree.definitions)?,
            lefts: all_lefts(alloc, &tree.rule_texts)?,
            used: all_used(alloc, &tree.rule_texts)?,
            precs: all_precs(alloc, &tree.rule_texts)?,
        })
    }
}
