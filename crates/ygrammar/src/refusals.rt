//! The mistakes of a file: each call answers one kind of mistake, or `Ok` where the file has none
//! of it.

ghost use Rattle.std.specs.Prelude.{◌≡◌, ◌++◌, ◌∷◌, IfErr, List, length, map};
ghost use Rattle.ydeclarations.specs.Elaboration.{rules as rules_of_tree};
ghost use Rattle.ydeclarations.specs.Elaboration.{symbols as symbols_of_tree};
ghost use Rattle.ydeclarations.specs.Elaboration.{token_precedences, tokens as tokens_of_tree};
ghost use Rattle.ygrammar.specs.Numbered.{rule_numbers};
ghost use Rattle.ydeclarations.specs.Outline.{Outlines};
ghost use Rattle.ydeclarations.specs.OutlineSites.{IsPlaced, OutlineSites};
ghost use Rattle.ysyntax.specs.Sites.{Site};
ghost use Rattle.ydeclarations.specs.Owned.{Clears};
ghost use Rattle.ysyntax.specs.Tree.{Tree as TreeOf};
ghost use Rattle.ydeclarations.specs.declared.mistake.Mistake.TheVariants.{BadPrec, BadStart};
ghost use Rattle.ydeclarations.specs.declared.mistake.Mistake.TheVariants.{Limit};
ghost use Rattle.ydeclarations.specs.declared.mistake.Mistake.TheVariants.{TokenLeft, Undefined};

use crate::checks::{
    any_long, bad_start, first_nonterminal, first_token, first_undefined, first_unknown,
};
use ydeclarations::mistake::{Mistake, Refused};
use ydeclarations::outline::Outline;
use ysymbols::Rule;
use ysymbols::limits::{MOST_RULES, MOST_SYMBOLS};
use ysymbols::names::SymbolTable;

/// Refuses a token that is a left side, or is named by `%type`.
pub fn refuse_token_left(outline: &Outline, tokens: &SymbolTable) -> Result<(), Refused>
    ensures clears { (t : TreeOf) → Outlines outline.now t → tokens.now ≡ tokens_of_tree t →
        Clears t TokenLeft result }
    ensures place { (t : TreeOf) (ds rs : List Site) → OutlineSites outline.now ds rs →
        tokens.now ≡ tokens_of_tree t → IfErr result (IsPlaced t (ds ++ rs)) }
{
    let what = Mistake::TokenLeft;
    if let Some(at) = first_token(&outline.typed, tokens) {
        return Err(Refused::Mistake { what, at });
    }
    match first_token(&outline.lefts, tokens) {
        Some(at) => Err(Refused::Mistake { what, at }),
        None => Ok(()),
    }
}

/// Refuses a name in a body, a `%prec` or a `%type` that is not a symbol.
pub fn refuse_undefined(outline: &Outline, symbols: &SymbolTable) -> Result<(), Refused>
    ensures clears { (t : TreeOf) → Outlines outline.now t → symbols.now ≡ symbols_of_tree t →
        Clears t Undefined result }
    ensures place { (t : TreeOf) (ds rs : List Site) → OutlineSites outline.now ds rs →
        symbols.now ≡ symbols_of_tree t → IfErr result (IsPlaced t (ds ++ rs)) }
{
    let what = Mistake::Undefined;
    if let Some(at) = first_unknown(&outline.typed, symbols) {
        return Err(Refused::Mistake { what, at });
    }
    match first_undefined(&outline.used, symbols) {
        Some(at) => Err(Refused::Mistake { what, at }),
        None => Ok(()),
    }
}

/// Refuses a `%start` that stands twice or names no nonterminal.
pub fn refuse_start(outline: &Outline, symbols: &SymbolTable, tokens: usize) -> Result<(), Refused>
    ensures clears { (t : TreeOf) → Outlines outline.now t → symbols.now ≡ symbols_of_tree t →
        tokens ≡ length (tokens_of_tree t) → Clears t BadStart result }
    ensures place { (t : TreeOf) (ds rs : List Site) → OutlineSites outline.now ds rs →
        IfErr result (IsPlaced t (ds ++ rs)) }
{
    match bad_start(&outline.starts, symbols, tokens) {
        Some(at) => Err(Refused::Mistake {
            what: Mistake::BadStart,
            at,
        }),
        None => Ok(()),
    }
}

/// Refuses a `%prec` that names a nonterminal.
pub fn refuse_prec(outline: &Outline, symbols: &SymbolTable, tokens: usize) -> Result<(), Refused>
    ensures clears { (t : TreeOf) → Outlines outline.now t → symbols.now ≡ symbols_of_tree t →
        tokens ≡ length (tokens_of_tree t) → Clears t BadPrec result }
    ensures place { (t : TreeOf) (ds rs : List Site) → OutlineSites outline.now ds rs →
        symbols.now ≡ symbols_of_tree t → tokens ≡ length (tokens_of_tree t) →
        IfErr result (IsPlaced t (ds ++ rs)) }
{
    match first_nonterminal(&outline.precs, symbols, tokens) {
        Some(at) => Err(Refused::Mistake {
            what: Mistake::BadPrec,
            at,
        }),
        None => Ok(()),
    }
}

/// Refuses more symbols, rules or symbols in a body than the limits.
pub fn refuse_limit(symbols: &SymbolTable, rules: &[Rule]) -> Result<(), Refused>
    ensures place { (t : TreeOf) (ss : List Site) → IfErr result (IsPlaced t ss) }
    ensures clears { (t : TreeOf) → symbols.now ≡ symbols_of_tree t →
        rules.now
        ≡ map (rule_numbers (symbols_of_tree t) (token_precedences t)) (rules_of_tree t) →
        Clears t Limit result }
{
    let refused = Err(Refused::Mistake {
        what: Mistake::Limit,
        at: 0,
    });
    if symbols.len() > MOST_SYMBOLS {
        return refused;
    }
    if rules.len() > MOST_RULES {
        return refused;
    }
    if any_long(rules) {
        return refused;
    }
    Ok(())
}
