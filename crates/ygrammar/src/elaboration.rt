//! What a syntax tree means: the grammar, or the first mistake.

ghost use Rattle.std.specs.Prelude.{◌≡◌, ◌<◌, ◌≤◌, ◌^◌, ◌++◌, ℕ, List, length, map};
ghost use Rattle.std.specs.Prelude.{IfErr, IfOk, OnOk};
ghost use Rattle.std.specs.List.{AllByRecursion};
ghost use Rattle.ysyntax.specs.Lexer.{SpellsSyntax};
ghost use Rattle.ygrammar.specs.Elaborated.{AreNamed, AreNumbered, Decides, Elaborates, Fruitful};
ghost use Rattle.ygrammar.specs.Elaborated.{GivesNamed, IsFirstRefused, IsReady, ShowsBarren};
ghost use Rattle.ydeclarations.specs.declared.mistake.Mistake.TheVariants.{BadStart, Undefined};
ghost use Rattle.ydeclarations.specs.Mistakes.{Holds};
ghost use Rattle.ydeclarations.specs.Elaboration.{symbols as symbols_of_tree};
ghost use Rattle.ydeclarations.specs.Elaboration.{tokens as tokens_of_tree};
ghost use Rattle.ydeclarations.specs.Elaboration.{bare_of, tokens_of};
ghost use Rattle.ysymbols.specs.Marking.{AreIn, numbered_grammar};
ghost use Rattle.ygrammar.specs.Numbered.{inner_after};
ghost use Rattle.ysyntax.specs.TreeTexts.{RuleTextStands};
ghost use Rattle.ysyntax.specs.Tree.{IsTree, Tree as TreeOf, yield};
ghost use Rattle.ydeclarations.specs.Outline.{Outlines, listed_view};
ghost use Rattle.ydeclarations.specs.OutlineSites.{IsPlaced, OutlineSites, Places};
ghost use Rattle.ydeclarations.specs.Places.{AllAt, IsBarren};
ghost use Rattle.ydeclarations.specs.declared.mistake.Refused.TheVariants.{Memory};
ghost use Rattle.ysyntax.specs.Sites.{Site};
ghost use Rattle.ysyntax.specs.SiteViews.{tree_sites};
ghost use Rattle.ydeclarations.specs.Owned.{Clears};
ghost use Rattle.ysyntax.specs.TreeViews.{occurrence_view, tree_view};

use crate::holders::{OwnTable, own_table};
use crate::numbers::numbers;
use crate::refusals::{
    refuse_limit, refuse_prec, refuse_start, refuse_token_left, refuse_undefined,
};
use crate::rules::{intern_nonterminals, kept_texts, number_rules};
use crate::tokens::tokens;
use crate::unmarked::{unmarked_left, unmarked_lefts};
use std::alloc::{AllocError, Global};
use ydeclarations::given::precedences;
use ydeclarations::mistake::{Mistake, Refused};
use ydeclarations::outline::Outline;
use ysymbols::names::SymbolTable;
use ysymbols::productive::productive;
use ysymbols::reachable::reachable;
use ysymbols::texts::Texts;
use ysymbols::{Grammar, Precedence, Rule};
use ysyntax::tree::Tree;

/// The symbols by number, the tokens first, and what is given to the tokens.
pub struct Named {
    /// The names of all symbols, the tokens first.
    pub names: SymbolTable,
    /// How many of them are tokens.
    pub tokens: usize,
    /// The precedence of each token, where the file gives it one.
    pub given: Vec<Option<Precedence>>,
    /// The number that each token has by itself, and which tokens hold each number.
    pub own: OwnTable,
}

impl Drop for Named {
    // A call in each owner, which keeps their proofs short.
    fn drop(self) {
        let Named {
            names,
            tokens: _,
            given: _,
            own: _,
        } = self;
        drop(names);
    }
}

impl Named {
    /// The tokens of a file alone, with nothing given to them yet. It fails only when memory runs
    /// out.
    fn of_tokens(alloc: Global, outline: &Outline) -> Result<Named, AllocError>
        ensures names { IfOk result (λ n. n.names
            ≡ tokens_of (map listed_view outline.now.listed.items)
            (map occurrence_view outline.now.declared.items
            ++ map occurrence_view outline.now.used.items)) }
        ensures tokens { IfOk result (λ n. n.tokens ≡ length n.names) }
    {
        let names = tokens(alloc, outline)?;
        Ok(Named {
            tokens: names.len(),
            names,
            given: Vec::new(alloc),
            own: OwnTable::new(alloc),
        })
    }

    /// Adds the nonterminals and what is given to the tokens. An error is the first mistake in
    /// them, or memory ran out.
    fn fill(&mut self, alloc: Global, tree: &Tree, outline: &Outline) -> Result<(), Refused>
        requires outline { Outlines outline.now (tree_view tree.now) }
        requires counted { inner_after 1 (tree_view tree.now).rule_texts < 2 ^ 64 }
        requires names { self.old.names ≡ tokens_of_tree (tree_view tree.now) }
        requires tokens { self.old.tokens ≡ length (tokens_of_tree (tree_view tree.now)) }
        ensures filled { OnOk result (AreNamed (tree_view tree.now) self.new) }
        ensures refused { IfErr result (IsFirstRefused (tree_view tree.now)) }
        ensures place { Places outline.now (tree_view tree.now) result }
    {
        refuse_token_left(outline, &self.names)?;
        // What is given is a mistake only where every name is defined.
        let given = precedences(alloc, &self.names, outline);
        let own = own_table(alloc, &self.names, outline);
        add_nonterminals(alloc, &mut self.names, tree, outline)?;
        self.given = given?;
        self.own = own?;
        Ok(())
    }
}

/// Adds the nonterminals to the tokens. An error is a name that is not defined, or memory ran out.
fn add_nonterminals(
    alloc: Global,
    names: &mut SymbolTable,
    tree: &Tree,
    outline: &Outline,
) -> Result<(), Refused>
    requires outline { Outlines outline.now (tree_view tree.now) }
    requires counted { inner_after 1 (tree_view tree.now).rule_texts < 2 ^ 64 }
    requires tokens { names.old ≡ tokens_of_tree (tree_view tree.now) }
    ensures symbols { OnOk result (names.new ≡ symbols_of_tree (tree_view tree.now)) }
    ensures defined { Clears (tree_view tree.now) Undefined result }
    ensures place { Places outline.now (tree_view tree.now) result }
{
    intern_nonterminals(alloc, names, &tree.rule_texts)?;
    refuse_undefined(outline, names)
}

/// The symbols of a tree, or the first mistake that its names and its tokens' numbers and
/// precedences can have.
fn name_symbols(alloc: Global, tree: &Tree, outline: &Outline) -> Result<Named, Refused>
    requires outline { Outlines outline.now (tree_view tree.now) }
    requires counted { inner_after 1 (tree_view tree.now).rule_texts < 2 ^ 64 }
    ensures named { GivesNamed (tree_view tree.now) result }
    ensures place { Places outline.now (tree_view tree.now) result }
{
    let mut named = Named::of_tokens(alloc, outline)?;
    named.fill(alloc, tree, outline)?;
    Ok(named)
}

/// Refuses a nonterminal that derives no list of tokens; the first `tokens` symbols are tokens.
fn refuse_unproductive(
    alloc: Global,
    outline: &Outline,
    names: &SymbolTable,
    rules: &[Rule],
    tokens: usize,
    symbols: usize,
) -> Result<(), Refused>
    requires within { tokens ≤ symbols }
    requires in_range { AreIn symbols rules.now }
    ensures fruitful { Fruitful (numbered_grammar tokens symbols rules.now) result }
    ensures place { (t : TreeOf) → Outlines outline.now t → names.now ≡ symbols_of_tree t →
        numbered_grammar tokens symbols rules.now ≡ bare_of t → ShowsBarren t →
        Places outline.now t result }
{
    let marks = productive(alloc, rules, tokens, symbols)?;
    for s in tokens..symbols {
        if !marks[s] {
            return Err(Refused::Mistake {
                what: Mistake::Unproductive,
                at: unmarked_left(&outline.lefts, names, &marks),
            });
        }
    }
    Ok(())
}

impl Named {
    /// The grammar of these symbols and rules, where no mistake stands in them. It fails only when
    /// memory runs out.
    fn grammar_of(
        alloc: Global,
        named: Named,
        rules: Vec<Rule>,
        texts: Texts,
    ) -> Result<Grammar, Refused>
        requires { (t : TreeOf) × IsReady t named rules.items texts.texts }
        ensures means { (t : TreeOf) → IsReady t named rules.items texts.texts →
            Elaborates t result }
        ensures memory { IfErr result (λ e. e ≡ Memory) }
    {
        let numbers = numbers(alloc, &named.own.numbers, &named.own.holders)?;
        let reachable = reachable(alloc, &rules, named.names.len())?;
        let Named {
            names,
            tokens,
            given,
            own: _,
        } = named;
        Ok(Grammar::of(names, tokens, numbers, given, rules, texts, reachable))
    }
}

/// Refuses rules of a file where a mistake stands that comes after `BadStart`.
fn refuse_rules(
    alloc: Global,
    outline: &Outline,
    named: &Named,
    rules: &[Rule],
) -> Result<(), Refused>
    requires within { named.now.tokens ≤ length named.now.names }
    requires in_range { AreIn (length named.now.names) rules.now }
    ensures decides { (t : TreeOf) → Outlines outline.now t → AreNamed t named.now →
        AreNumbered t rules.now → (Holds t BadStart → ⊥) → Decides t result }
    ensures place { (t : TreeOf) → Outlines outline.now t → AreNamed t named.now →
        AreNumbered t rules.now → ShowsBarren t → Places outline.now t result }
{
    let symbols = named.names.len();
    refuse_unproductive(alloc, outline, &named.names, rules, named.tokens, symbols)?;
    refuse_prec(outline, &named.names, named.tokens)?;
    refuse_limit(&named.names, rules)
}

/// The rules of a tree by number, or its first mistake.
fn sound_rules(
    alloc: Global,
    tree: &Tree,
    outline: &Outline,
    named: &Named,
) -> Result<Vec<Rule>, Refused>
    requires spelled { (bytes : List ℕ) × SpellsSyntax bytes (yield (tree_view tree.now)) }
    requires shaped { IsTree (tree_view tree.now) }
    requires counted { inner_after 1 (tree_view tree.now).rule_texts < 2 ^ 64 }
    requires outline { Outlines outline.now (tree_view tree.now) }
    requires named { AreNamed (tree_view tree.now) named.now }
    ensures numbered { IfOk result (λ v. AreNumbered (tree_view tree.now) v.items) }
    ensures decides { Decides (tree_view tree.now) result }
    ensures place { Places outline.now (tree_view tree.now) result }
{
    refuse_start(outline, &named.names, named.tokens)?;
    let rules = number_rules(alloc, &named.names, &named.given, outline, &tree.rule_texts)?;
    refuse_rules(alloc, outline, named, &rules)?;
    Ok(rules)
}

/// What the tree of a source means: the grammar, or the first mistake.
pub fn elaborate(alloc: Global, source: &[u8], tree: &Tree) -> Result<Grammar, Refused>
    requires spelled { (bytes : List ℕ) × SpellsSyntax bytes (yield (tree_view tree.now)) }
    requires shaped { IsTree (tree_view tree.now) }
    requires stands { AllByRecursion (RuleTextStands source.now) tree.now.rule_texts.items }
    requires counted { inner_after 1 (tree_view tree.now).rule_texts < 2 ^ 64 }
    ensures means { Elaborates (tree_view tree.now) result }
    ensures place { IfErr result (IsPlaced (tree_view tree.now) (tree_sites tree.now)) }
{
    let outline = Outline::new(alloc, tree)?;
    let named = name_symbols(alloc, tree, &outline)?;
    let rules = sound_rules(alloc, tree, &outline, &named)?;
    let texts = kept_texts(alloc, source, tree)?;
    Named::grammar_of(alloc, named, rules, texts)
}

/// The places of the left sides that derive no list of tokens, by the symbols of their tree.
fn barren_among(
    alloc: Global,
    tree: &Tree,
    outline: &Outline,
    named: &Named,
) -> Result<Vec<usize>, AllocError>
    requires shaped { IsTree (tree_view tree.now) }
    requires counted { inner_after 1 (tree_view tree.now).rule_texts < 2 ^ 64 }
    requires defined { Holds (tree_view tree.now) Undefined → ⊥ }
    requires started { Holds (tree_view tree.now) BadStart → ⊥ }
    requires outline { Outlines outline.now (tree_view tree.now) }
    requires names { named.now.names ≡ symbols_of_tree (tree_view tree.now) }
    requires tokens { named.now.tokens ≡ length (tokens_of_tree (tree_view tree.now)) }
    ensures { (ds rs : List Site) → OutlineSites outline.now ds rs →
        IfOk result (λ v. AllAt (λ r. IsBarren (tree_view tree.now) r) (ds ++ rs) v.items) }
{
    let rules = number_rules(alloc, &named.names, &named.given, outline, &tree.rule_texts)?;
    let marks = productive(alloc, &rules, named.tokens, named.names.len())?;
    unmarked_lefts(alloc, &outline.lefts, &named.names, &marks)
}

/// The places of all left sides of a tree that derive no list of tokens, in their order, in near
/// linear time. It fails only when memory runs out.
pub fn barren_lefts(alloc: Global, tree: &Tree) -> Result<Vec<usize>, AllocError>
    requires shaped { IsTree (tree_view tree.now) }
    requires counted { inner_after 1 (tree_view tree.now).rule_texts < 2 ^ 64 }
    requires defined { Holds (tree_view tree.now) Undefined → ⊥ }
    requires started { Holds (tree_view tree.now) BadStart → ⊥ }
    ensures { IfOk result (λ v. AllAt (λ r. IsBarren (tree_view tree.now) r) (tree_sites tree.now)
        v.items) }
{
    let outline = Outline::new(alloc, tree)?;
    let mut named = Named::of_tokens(alloc, &outline)?;
    intern_nonterminals(alloc, &mut named.names, &tree.rule_texts)?;
    barren_among(alloc, tree, &outline, &named)
}
