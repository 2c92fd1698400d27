//! Which tokens hold each number, and the first number of the file that is at fault.

ghost use Rattle.std.specs.Prelude.{◌≡◌, ◌<◌, ◌≤◌, ℕ, IfOk, MatchBool, length, slice_index_or};
ghost use Rattle.std.specs.Prelude.{[], slice_set, ◌++◌, IfErr, List, Option, map};
ghost use Rattle.ydeclarations.specs.Elaboration.{tokens as tokens_of_tree};
ghost use Rattle.ysymbols.specs.Grammar.{number_bound};
ghost use Rattle.ygrammar.specs.Numbers.{AreHolders, FaultyAt, HasNumber, IsHolders, IsOwn};
ghost use Rattle.ygrammar.specs.Numbers.{is_held, with_holder};
ghost use Rattle.ydeclarations.specs.Outline.{Outlines, listed_view};
ghost use Rattle.ydeclarations.specs.OutlineSites.{IsPlaced, OutlineSites};
ghost use Rattle.ysyntax.specs.Sites.{Site};
ghost use Rattle.ygrammar.specs.OwnTable.{Owns};
ghost use Rattle.ydeclarations.specs.Owned.{AllSmall};
ghost use Rattle.ysyntax.specs.Tree.{Tree as TreeOf};
ghost use Rattle.ygrammar.specs.declared.holders.Holders.TheVariants.{Nobody, Several};

use std::alloc::{AllocError, Global};
use ydeclarations::given::{fit_number, given_numbers, own_numbers};
use ydeclarations::identifiers::number_of;
use ydeclarations::mistake::{Mistake, Refused};
use ydeclarations::outline::{Listed, Outline};
use ysymbols::let_go;
use ysymbols::limits::NUMBERS;
use ysymbols::names::SymbolTable;

/// The tokens that hold a number.
#[derive(Clone, Copy, Drop)]
pub enum Holders {
    /// No token.
    Nobody,
    /// Only the token of this number.
    One(usize),
    /// Two tokens or more.
    Several,
}

impl Holders {
    /// Whether some token holds it.
    pub fn is_held(self) -> bool
        ensures { result ≡ is_held self }
    {
        !matches!(self, Holders::Nobody)
    }

    /// Whether several tokens hold it.
    fn is_shared(self) -> bool
        ensures { MatchBool result (self ≡ Several) (self ≡ Several → ⊥) }
    {
        matches!(self, Holders::Several)
    }

    /// The same tokens, and this one.
    fn with(self, token: usize) -> Holders
        ensures { result ≡ with_holder self token }
    {
        match self {
            Holders::Nobody => Holders::One(token),
            Holders::One(other) => {
                if other == token {
                    Holders::One(other)
                } else {
                    Holders::Several
                }
            }
            Holders::Several => Holders::Several,
        }
    }
}

/// Adds a token to those that hold a number.
fn hold(holders: &mut Vec<Holders>, token: usize, number: u32)
    requires { number < length holders.old.items }
    ensures { holders.new.items ≡ slice_set holders.old.items number
        (with_holder (slice_index_or holders.old.items number Nobody) token) }
{
    let place = number as usize;
    holders[place] = holders[place].with(token);
}

/// One more than the greatest number that a token has by itself, 0 where no token has one.
fn bound_of(own: &[Option<u32>]) -> usize
    requires { AllSmall own.now }
    ensures few { result ≤ number_bound }
    ensures above { (m : ℕ) → IsOwn own.now m → m < result }
{
    let mut bound = 0;
    for one in own {
        if let Some(number) = one {
            bound = bound.max(*number as usize + 1);
        }
    }
    bound
}

/// For each number below `count`, the tokens that have it by themselves.
fn own_holders(alloc: Global, own: &[Option<u32>], count: usize) -> Result<Vec<Holders>, AllocError>
    requires { (m : ℕ) → IsOwn own.now m → m < count }
    ensures { IfOk result (λ v. AreHolders count own.now v.items) }
{
    let mut holders = vec![in alloc; Holders::Nobody; count]?;
    for token in 0..own.len() {
        if let Some(number) = own[token] {
            hold(&mut holders, token, number);
        }
    }
    Ok(holders)
}

/// Whether several tokens hold one number.
fn has_shared(holders: &[Holders]) -> bool
    ensures { MatchBool result
        ((m : ℕ) × (slice_index_or holders.now m Nobody ≡ Several))
        ((m : ℕ) → slice_index_or holders.now m Nobody ≡ Several → ⊥) }
{
    for one in holders {
        if one.is_shared() {
            return true;
        }
    }
    false
}

/// Adds the numbers that are given; a token that is given two holds both.
fn hold_given(holders: &mut Vec<Holders>, tokens: &SymbolTable, listed: &[Listed])
    requires { length holders.old.items ≡ number_bound }
    ensures each { length holders.new.items ≡ number_bound }
    ensures given { (own : List (Option ℕ)) → AreHolders number_bound own holders.old.items →
        (m : ℕ) → IsHolders (slice_index_or holders.new.items m Nobody)
        (HasNumber tokens.now own (map listed_view listed.now) (length listed.now) m) }
{
    for one in listed {
        if let Some(digits) = one.digits {
            if let Some(number) = fit_number(digits.digits) {
                hold(holders, number_of(tokens, one.who.who), number);
            }
        }
    }
}

/// How many bytes stand before the first number at fault: that of the listing after `fault`
/// others, or one before it that several tokens hold; 0 where no number is at fault.
fn first_at_fault(listed: &[Listed], fault: Option<usize>, holders: &[Holders]) -> usize
    requires { length holders.now ≡ number_bound }
    ensures { FaultyAt listed.now fault holders.now result }
{
    let end = fault.unwrap_or(listed.len());
    for i in 0..listed.len() {
        if let Some(digits) = listed[i].digits {
            if let Some(number) = fit_number(digits.digits) {
                if i < end && !holders[number as usize].is_shared() {
                    continue;
                }
            }
            return digits.at;
        }
    }
    0
}

/// The numbers that tokens have by themselves, and who holds each number.
pub struct OwnTable {
    /// For each token, the number that it has by itself.
    pub numbers: Vec<Option<u32>>,
    /// For each number, the tokens that have it by themselves.
    pub holders: Vec<Holders>,
}

impl OwnTable {
    /// A table of no tokens.
    pub fn new(alloc: Global) -> OwnTable
        ensures numbers { result.numbers.items ≡ [] }
        ensures holders { result.holders.items ≡ [] }
    {
        OwnTable {
            numbers: Vec::new(alloc),
            holders: Vec::new(alloc),
        }
    }
}

impl Drop for OwnTable {
    fn drop(self) {
        let_go!(self: OwnTable { numbers, holders });
    }
}

/// The numbers that the tokens have by themselves. The mistake in them is the first number that is
/// out of range, a second one for its token, or also held by another token; memory may run out
/// too.
pub fn own_table(
    alloc: Global,
    tokens: &SymbolTable,
    outline: &Outline,
) -> Result<OwnTable, Refused>
    ensures told { (t : TreeOf) → Outlines outline.now t → tokens.now ≡ tokens_of_tree t →
        Owns t result }
    ensures place { (t : TreeOf) (ds rs : List Site) → Outlines outline.now t →
        OutlineSites outline.now ds rs → tokens.now ≡ tokens_of_tree t →
        IfErr result (IsPlaced t (ds ++ rs)) }
{
    let given = given_numbers(alloc, tokens, &outline.listed)?;
    let fault = given.fault;
    let numbers = own_numbers(tokens, given.first, &outline.declared, &outline.used);
    let holders = own_holders(alloc, &numbers, bound_of(&numbers))?;
    if fault.is_none() && !has_shared(&holders) {
        return Ok(OwnTable { numbers, holders });
    }
    let mut holders = own_holders(alloc, &numbers, NUMBERS)?;
    hold_given(&mut holders, tokens, &outline.listed);
    Err(Refused::Mistake {
        what: Mistake::BadNumber,
        at: first_at_fault(&outline.listed, fault, &holders),
    })
}
