//! What the listings give to the tokens: precedences and numbers, by the number of the token.

ghost use Rattle.std.specs.Prelude.{◌≡◌, ◌<◌, ◌≤◌, ◌++◌, ◌∷◌, ℕ, List, Option, None, map};
ghost use Rattle.std.specs.Prelude.{[], ◌&&◌, ◌||◌, IfErr, IfOk, IfSome, MatchOption, Some};
ghost use Rattle.std.specs.Prelude.{is_some, not};
ghost use Rattle.std.specs.Prelude.{if◌then◌else◌, length, slice_index_or, unwrap_or};
ghost use Rattle.std.specs.Char.{digit_value};
ghost use Rattle.std.specs.Str.Parse.{digits_value};
ghost use Rattle.ydeclarations.specs.Elaboration.{literal_value, tokens as tokens_of_tree};
ghost use Rattle.ydeclarations.specs.Elaboration.{usual_of};
ghost use Rattle.ysymbols.specs.Grammar.{number_bound};
ghost use Rattle.ysymbols.specs.Names.{Name};
ghost use Rattle.ydeclarations.specs.Owned.{AllSmall, HasFirst, IsFirstWrong, IsFit, OwnSoFar};
ghost use Rattle.ydeclarations.specs.Owned.{Precedes, TellsNumbers, with_number};
ghost use Rattle.ysyntax.specs.Tree.{Identifier as IdentifierOf, Tree as TreeOf};
ghost use Rattle.ysyntax.specs.TreeViews.{identifier_view, occurrence_view};
ghost use Rattle.ydeclarations.specs.Outline.{Outlines, listed_view};
ghost use Rattle.ydeclarations.specs.OutlineSites.{IsPlaced, OutlineSites};
ghost use Rattle.ydeclarations.specs.Told.{AreAmong, IsSecond, TellsPrecedences};
ghost use Rattle.ysyntax.specs.Sites.{Site};

use crate::identifiers::number_of;
use crate::mistake::{Mistake, Refused};
use crate::outline::{Listed, Outline};
use std::alloc::{AllocError, Global};
use ysymbols::Precedence;
use ysymbols::limits::GREATEST_NUMBER;
use ysymbols::names::{SymbolTable, number_in};
use ysyntax::tree::{Identifier, Occurrence};

/// The precedences of the tokens by number, or the second one of a token as a mistake.
fn told_precedences(
    alloc: Global,
    tokens: &SymbolTable,
    listed: &[Listed],
) -> Result<Vec<Option<Precedence>>, Refused>
    ensures told { TellsPrecedences tokens.now (map listed_view listed.now) result }
    ensures place { AreAmong tokens.now (map listed_view listed.now) →
        IfErr result (IsSecond (map listed_view listed.now) (map (λ l. l.who.at) listed.now)) }
{
    let mut given = vec![in alloc; None; tokens.len()]?;
    for one in listed {
        let Some(precedence) = one.gives else {
            continue;
        };
        let token = number_of(tokens, one.who.who);
        if token >= given.len() {
            continue;
        }
        if given[token].is_some() {
            return Err(Refused::Mistake {
                what: Mistake::TwicePrecedence,
                at: one.who.at,
            });
        }
        given[token] = Some(precedence);
    }
    Ok(given)
}

/// The value of a digit, or 36 for any other byte but a letter.
fn digit(b: u8) -> u32
    ensures value { result ≡ digit_value b }
    ensures low { result ≤ 36 }
{
    char::from(b).to_digit(36).unwrap_or(36)
}

/// The number that digits write, where a token may have it: 1 to 32,767. `None` where it is out of
/// that range.
pub fn fit_number(digits: &[u8]) -> Option<u32>
    ensures { MatchOption result
        (IsFit (digits_value 10 digits.now) → ⊥)
        (λ v. (v ≡ digits_value 10 digits.now) × IsFit v) }
{
    let mut value: u32 = 0;
    for b in digits {
        value = value * 10 + digit(*b);
        if value > GREATEST_NUMBER {
            return None;
        }
    }
    if value == 0 { None } else { Some(value) }
}

/// Gives a number to a token that has none.
fn fill(table: &mut Vec<Option<u32>>, token: usize, number: u32)
    requires { number < number_bound }
    ensures exact { table.new.items ≡ with_number table.old.items token number }
    ensures small { AllSmall table.old.items → AllSmall table.new.items }
{
    if token < table.len() && table[token].is_none() {
        table[token] = Some(number);
    }
}

/// What the listings give: to each token its first number, or 0 where that is out of range; and
/// which listing is the first to give a number out of range or a second one.
#[derive(Drop)]
pub struct GivenNumbers {
    /// The first number given to each token, 0 for one out of range.
    pub first: Vec<Option<u32>>,
    /// How many listings stand before the first that is at fault.
    pub fault: Option<usize>,
}

impl GivenNumbers {
    /// Adds what a listing gives to a token; `None` is a number out of range.
    fn add(&mut self, listing: usize, token: usize, number: Option<u32>)
        requires { IfSome number (λ n. n < number_bound) }
        ensures small { AllSmall self.old.first.items → AllSmall self.new.first.items }
        ensures first { self.new.first.items
            ≡ with_number self.old.first.items token (unwrap_or number 0) }
        ensures fault { self.new.fault ≡ (if is_some self.old.fault
            || (is_some number && not (is_some (slice_index_or self.old.first.items token None)))
            then self.old.fault else Some listing) }
    {
        let has = token < self.first.len() && self.first[token].is_some();
        if self.fault.is_none() && (number.is_none() || has) {
            self.fault = Some(listing);
        }
        fill(&mut self.first, token, number.unwrap_or(0));
    }
}

/// The numbers that the listings give to the tokens. It fails only when memory runs out.
pub fn given_numbers(
    alloc: Global,
    tokens: &SymbolTable,
    listed: &[Listed],
) -> Result<GivenNumbers, AllocError>
    ensures small { IfOk result (λ g. AllSmall g.first.items) }
    ensures told { IfOk result (λ g. TellsNumbers tokens.now []
        (map listed_view listed.now) g.first.items g.fault) }
    ensures first { IfOk result (λ g. HasFirst tokens.now g.first.items
        (map listed_view listed.now)) }
    ensures fault { AreAmong tokens.now (map listed_view listed.now) →
        IfOk result (λ g. IsFirstWrong (map listed_view listed.now) (length listed.now) g.fault) }
{
    let mut given = GivenNumbers {
        first: vec![in alloc; None; tokens.len()]?,
        fault: None,
    };
    for i in 0..listed.len() {
        if let Some(digits) = listed[i].digits {
            let token = number_of(tokens, listed[i].who.who);
            given.add(i, token, fit_number(digits.digits));
        }
    }
    Ok(given)
}

/// Gives a literal that has no number its value.
fn fill_literal(table: &mut Vec<Option<u32>>, tokens: &SymbolTable, who: Identifier)
    ensures small { AllSmall table.old.items → AllSmall table.new.items }
    ensures told { (rest : List IdentifierOf) (own : Name → Option ℕ) →
        OwnSoFar tokens.now table.old.items (literal_value (identifier_view who.entry
        ∷ rest)) own → OwnSoFar tokens.now table.new.items (literal_value rest) own }
{
    if let Identifier::Quoted(value) = who {
        fill(table, number_of(tokens, who), u32::from(value));
    }
}

/// Gives literals that have no number their values.
fn fill_literals(table: &mut Vec<Option<u32>>, tokens: &SymbolTable, occurrences: &[Occurrence])
    ensures small { AllSmall table.old.items → AllSmall table.new.items }
    ensures told { (more : List IdentifierOf) (own : Name → Option ℕ) →
        OwnSoFar tokens.now table.old.items
        (literal_value (map occurrence_view occurrences.now
        ++ more)) own → OwnSoFar tokens.now table.new.items (literal_value more) own }
{
    for occurrence in occurrences {
        fill_literal(table, tokens, occurrence.who);
    }
}

/// The numbers that the tokens have by themselves: those given, that of the end, that of `error`,
/// and the values of literals. `None` for a token that has none.
pub fn own_numbers(
    tokens: &SymbolTable,
    given: Vec<Option<u32>>,
    declared: &[Occurrence],
    used: &[Occurrence],
) -> Vec<Option<u32>>
    ensures small { AllSmall given.items → AllSmall result.items }
    ensures told { (own : Name → Option ℕ) →
        OwnSoFar tokens.now given.items (usual_of (map occurrence_view declared.now
        ++ map occurrence_view used.now)) own →
        OwnSoFar tokens.now result.items (λ _. None) own }
{
    let mut own = given;
    fill(&mut own, number_in(tokens, b"$end"), 0);
    fill(&mut own, number_in(tokens, b"error"), 256);
    fill_literals(&mut own, tokens, declared);
    fill_literals(&mut own, tokens, used);
    own
}

/// The precedences of the tokens by number. An error is a second precedence of a token, or memory
/// ran out.
pub fn precedences(
    alloc: Global,
    tokens: &SymbolTable,
    outline: &Outline,
) -> Result<Vec<Option<Precedence>>, Refused>
    ensures told { (t : TreeOf) → Outlines outline.now t → tokens.now ≡ tokens_of_tree t →
        Precedes t result }
    ensures place { (t : TreeOf) (ds rs : List Site) → Outlines outline.now t →
        OutlineSites outline.now ds rs → tokens.now ≡ tokens_of_tree t →
        IfErr result (IsPlaced t (ds ++ rs)) }
{
    told_precedences(alloc, tokens, &outline.listed)
}
