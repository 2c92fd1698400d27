//! The automaton of a grammar: its states, their gotos, and the lookaheads of their items.

ghost use Rattle.std.specs.Prelude.{◌≡◌, ◌<◌, ◌≤◌, ◌↔◌, [], ◌∷◌, length, IsTrue, IfOk, IfErr};
ghost use Rattle.std.specs.Prelude.{slice_index_or};
ghost use Rattle.ysymbols.specs.Forms.{Nullable, First};
ghost use Rattle.ylalr.specs.Items.{Lookahead, IsNextLook};
ghost use Rattle.ylalr.specs.Collection.{Collection, HasStates, IsGoto, goto_in, Guide, IsGuide};
ghost use Rattle.ylalr.specs.Collection.{TooMany, bare_of, state_of};
ghost use Rattle.ybitsets.specs.Limits.{most_states};
ghost use Rattle.ylalr.specs.Lr0.{FitLr0};
ghost use Rattle.ylalr.specs.declared.fault.BuildFault.{BuildFault};

use crate::behind::behind_of;
use crate::collection::all_states;
use crate::fault::BuildFault;
use crate::first::{first_tokens, nullable_symbols};
use crate::item_rows::ItemRows;
use crate::items::Item;
use crate::looks::{Lr0, all_looks, has_look, next_in_row};
use std::alloc::Global;
use std::marker::Model;
use ybitsets::rows::Rows;
use ysymbols::{Grammar, Sym, let_go};

/// A grammar with its canonical collection of sets of items and their merged lookaheads.
pub struct Automaton {
    lr0: Lr0,
    looks: Rows,
}

impl Drop for Automaton {
    fn drop(self) {
        let_go!(self: Automaton { lr0, looks });
    }
}

impl Model for Automaton {
    ghost use Rattle.ylalr.specs.Collection.{Collection};
    ghost use Rattle.ylalr.specs.Lr0.{Whole, collection_of};

    ghost Value = { Collection };

    ghost view = { λ a. collection_of a.lr0 };

    ghost invariant = { λ a. Whole a.lr0 a.looks };
}

/// The LR(0) automaton of a grammar, with what its lookaheads are made from.
fn prepare(alloc: Global, grammar: Grammar) -> Result<Lr0, BuildFault>
    ensures grammar { IfOk result (λ p. p.grammar ≡ grammar) }
    ensures fit { IfOk result (λ p. FitLr0 p) }
    ensures too_many { IfErr result (λ e. e ≡ BuildFault.TooManySets → TooMany grammar.bare) }
{
    let _well_formed = grammar.symbols();
    let nullable = nullable_symbols(alloc, &grammar)?;
    let first = first_tokens(alloc, &grammar, &nullable)?;
    let behind = behind_of(alloc, &grammar, &nullable, &first)?;
    let (states, gotos) = all_states(alloc, &grammar)?;
    let item_rows = ItemRows::of(alloc, &grammar, &states)?;
    Ok(Lr0 {
        grammar,
        nullable,
        first,
        behind,
        states,
        gotos,
        item_rows,
    })
}

/// The automaton of a grammar: the canonical collection of its sets of LR(0) items with merged
/// LR(1) lookaheads (Aho, Sethi, Ullman, section 4.7). The fault B1 comes only where the grammar
/// has more than 16,384 states, and no automaton has more; B2 comes only when memory runs out.
pub fn build(alloc: Global, grammar: Grammar) -> Result<Automaton, BuildFault>
    ensures grammar { IfOk result (λ a. a.grammar ≡ grammar) }
    ensures states { IfOk result (λ a. HasStates a) }
    ensures few { IfOk result (λ a. length a.states ≤ most_states) }
    ensures too_many { IfErr result (λ e. e ≡ BuildFault.TooManySets → TooMany grammar.bare) }
{
    let lr0 = prepare(alloc, grammar)?;
    let looks = all_looks(alloc, &lr0)?;
    Ok(Automaton { lr0, looks })
}

impl Automaton {
    /// The grammar that was given to `build`, unchanged.
    pub fn grammar(&self) -> &Grammar
        ensures { result.now ≡ self.now.grammar }
    {
        &self.lr0.grammar
    }

    /// How many states there are, from 1 to 16,384. States are the numbers below this, and state 0
    /// is the core of the empty prefix. This call also says that states and gotos are right, and
    /// that a pair of functions has the gotos and the lookaheads (Aho, Sethi, Ullman, section 4.7,
    /// the canonical collection).
    pub fn states(&self) -> usize
        ensures count { result ≡ length self.now.states }
        ensures states { HasStates self.now }
        ensures guide { (u : Guide) × IsGuide self.now u }
    {
        self.lr0.states.count()
    }

    /// All items of state `q`, each once, by rule and then by dot; `q` is below the number of
    /// states (section 4.7, closure).
    pub fn items(&self, q: usize) -> &[Item]
        requires { q < length self.now.states }
        ensures { result.now ≡ state_of self.now q }
    {
        self.lr0.states.items(q)
    }

    /// The state of a prefix of state `q` followed by `x`, or `None` where no item moves over `x`;
    /// no item moves over `$end`. `q` is below the number of states, and `x` is any symbol of the
    /// grammar (section 4.7, goto).
    pub fn goto(&self, q: usize, x: Sym) -> Option<usize>
        requires state { q < length self.now.states }
        requires symbol { x < (bare_of self.now).symbols }
        ensures value { result ≡ goto_in self.now q x }
        ensures exact { IsGoto self.now q x result }
    {
        self.lr0.gotos.get(q, x)
    }

    /// Whether the symbol is a lookahead of the item in the state: a token for which the item is
    /// valid at some prefix of the state. False where the state doesn't have the item, and for a
    /// nonterminal. `q` is below the number of states, the item is any, and `t` is any symbol of
    /// the grammar (section 4.7, LALR(1) lookaheads).
    pub fn looks(&self, q: usize, item: Item, t: Sym) -> bool
        requires state { q < length self.now.states }
        requires symbol { t < (bare_of self.now).symbols }
        ensures { IsTrue result ↔ Lookahead (bare_of self.now) (state_of self.now q) item t }
    {
        has_look(&self.lr0, &self.looks, q, item, t)
    }

    /// The first token from `t` on that is a lookahead of the item at `index` among `items(q)`, or
    /// the number of tokens where no such token follows. `q` is below the number of states,
    /// `index` below the number of its items, and `t` at most the number of tokens (section 4.7,
    /// LALR(1) lookaheads).
    pub fn next_look(&self, q: usize, index: usize, t: Sym) -> Sym
        requires state { q < length self.now.states }
        requires index { index < length (state_of self.now q) }
        requires token { t ≤ (bare_of self.now).tokens }
        ensures { (d : Item) → IsNextLook (bare_of self.now) (state_of self.now q)
            (slice_index_or (state_of self.now q) index d) t result }
    {
        next_in_row(&self.lr0, &self.looks, q, index, t)
    }

    /// Whether the symbol `s` derives the empty form; a token never does. `s` is any symbol of the
    /// grammar (section 4.4).
    pub fn nullable(&self, s: Sym) -> bool
        requires { s < (bare_of self.now).symbols }
        ensures { IsTrue result ↔ Nullable (bare_of self.now) (s ∷ []) }
    {
        self.lr0.nullable.has(s)
    }

    /// Whether the symbol `s` derives a form that begins with the token `t`; false where `t` is a
    /// nonterminal. Both are any symbols of the grammar (section 4.4, FIRST).
    pub fn in_first(&self, s: Sym, t: Sym) -> bool
        requires symbol { s < (bare_of self.now).symbols }
        requires token { t < (bare_of self.now).symbols }
        ensures { IsTrue result ↔ First (bare_of self.now) (s ∷ []) t }
    {
        self.lr0.grammar.is_token(t) && self.lr0.first.has(s, t)
    }
}
