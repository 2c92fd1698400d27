//! The rows that the left sides of one state have: each is the row of all items of the left side
//! with the dot at 0.

ghost use Rattle.std.specs.Prelude.{ℕ, ◌≡◌, ◌<◌, ◌≤◌, Some, None, length, slice_index_or};
ghost use Rattle.std.specs.Prelude.{slice_set, IfOk};
ghost use Rattle.ysymbols.specs.Grammar.{left_of, most_symbols};
ghost use Rattle.ylalr.specs.ItemRows.{AreLefts, AreRows, TakesRow};
ghost use Rattle.ylalr.specs.Sets.{InRange};

use crate::items::Item;
use std::alloc::{AllocError, Global};
use std::marker::Model;
use ybitsets::rows::Rows;
use ysymbols::{Grammar, Sym, let_go};

/// For each symbol, the row of the items that it is the left side of; and a row of bits with the
/// symbols that have one, since a state has far fewer left sides than there are symbols.
pub struct Lefts {
    rows: Vec<Option<usize>>,
    used: Rows,
}

impl Drop for Lefts {
    fn drop(self) {
        let_go!(self: Lefts { rows, used });
    }
}

impl Model for Lefts {
    ghost use Rattle.std.specs.Prelude.{ℕ, List, Option};
    ghost use Rattle.ylalr.specs.ItemRows.{HasUsed};

    ghost Value = { List (Option ℕ) };

    ghost view = { λ l. l.rows.items };

    ghost invariant = { λ l. HasUsed l.rows.items l.used };
}

impl Lefts {
    /// No rows, for so many symbols. It fails only when memory runs out.
    pub fn new(alloc: Global, symbols: usize) -> Result<Lefts, AllocError>
        requires { symbols ≤ most_symbols }
        ensures { IfOk result (λ l. length l ≡ symbols) }
    {
        let rows = vec![in alloc; None; symbols]?;
        let used = Rows::new(alloc, 1, symbols)?;
        Ok(Lefts { rows, used })
    }

    /// A symbol after `s`, such that no symbol between has a row.
    fn after(&self, s: Sym) -> Sym
        requires { s < length self.now }
        ensures further { s < result }
        ensures within { result ≤ length self.now }
        ensures none { (k : ℕ) → s < k → k < result → slice_index_or self.now k None ≡ None }
    {
        if self.used.has(0, s) {
            s + 1
        } else {
            self.used.after(0, s)
        }
    }

    /// Forgets all rows.
    pub fn clear(&mut self)
        ensures sized { length self.new ≡ length self.old }
        ensures empty { (s : ℕ) → slice_index_or self.new s None ≡ None }
    {
        let mut s = 0;
        while s < self.rows.len() {
            self.rows[s] = None;
            s = self.after(s);
        }
        self.used.clear();
    }

    /// The row of the items with this left side, or `None` where it has no row.
    pub fn get(&self, s: Sym) -> Option<usize>
        requires { s < length self.now }
        ensures { result ≡ slice_index_or self.now s None }
    {
        self.rows[s]
    }

    /// Gives a row to a left side.
    fn set(&mut self, s: Sym, row: usize)
        requires { s < length self.old }
        ensures { self.new ≡ slice_set self.old s (Some row) }
    {
        self.used.mark(0, s);
        self.rows[s] = Some(row);
    }

    /// The row of an item: that of its left side, where the dot is at 0 and the left side has a
    /// row; or else `fresh`. The left side of an item with the dot at 0 then has that row.
    pub fn row_of(&mut self, grammar: &Grammar, item: Item, fresh: usize) -> usize
        requires sized { length self.old ≡ grammar.now.bare.symbols }
        requires rule { item.rule < length grammar.now.bare.rules }
        ensures { TakesRow grammar.now.bare item fresh self.old self.new result }
    {
        let _well_formed = grammar.symbols();
        if item.dot > 0 {
            return fresh;
        }
        let left = grammar.rule(item.rule).left();
        if let Some(row) = self.get(left) {
            return row;
        }
        self.set(left, fresh);
        fresh
    }

    /// Gives the left side of an item with the dot at 0 its row.
    fn note(&mut self, grammar: &Grammar, item: Item, row: usize)
        requires sized { length self.old ≡ grammar.now.bare.symbols }
        requires rule { item.rule < length grammar.now.bare.rules }
        ensures first { item.dot ≡ 0 →
            self.new ≡ slice_set self.old (left_of grammar.now.bare item.rule) (Some row) }
        ensures moved { 0 < item.dot → self.new ≡ self.old }
    {
        let _well_formed = grammar.symbols();
        if item.dot == 0 {
            self.set(grammar.rule(item.rule).left(), row);
        }
    }

    /// Gives each left side of a state the row of its items with the dot at 0.
    pub fn fill(&mut self, grammar: &Grammar, items: &[Item], rows: &[usize])
        requires sized { length self.old ≡ grammar.now.bare.symbols }
        requires range { InRange grammar.now.bare items.now }
        requires rows { AreRows grammar.now.bare items.now rows.now }
        ensures { AreLefts grammar.now.bare items.now rows.now self.new }
    {
        let _well_formed = grammar.symbols();
        self.clear();
        for k in 0..items.len() {
            self.note(grammar, items[k], rows[k]);
        }
    }
}
