//! The rows of the items of all states. In each state, the items of one left side with the dot at
//! 0 share a row; so do items of one left side with equal symbols before the dot, where they stand
//! near each other. Every other item has its own.

ghost use Rattle.std.specs.Prelude.{◌≡◌, ◌<◌, ◌≤◌, ◌+◌, ◌^◌, length, IfOk, OnOk, IsTrue, IfSome};
ghost use Rattle.ybitsets.specs.Limits.{most_states};
ghost use Rattle.ylalr.specs.ItemRows.{AreItemRows, FillRows, rows_at, IsItemRow, Shares, HasTwin};
ghost use Rattle.ylalr.specs.ItemRows.{TakesOne};
ghost use Rattle.ylalr.specs.Sets.{InRange, IsWithin, IsAscending};
ghost use Rattle.ylalr.specs.States.{AreStates, set_at};

use crate::items::{Item, find};
use crate::lefts::Lefts;
use crate::states::States;
use std::alloc::{AllocError, Global};
use std::marker::Model;
use ybitsets::list::Sequence;
use ysymbols::Grammar;

/// The rows of the items of each state, and how many rows there are.
#[derive(Drop)]
pub struct ItemRows {
    rows: Vec<Sequence<usize>>,
    total: usize,
}

impl Model for ItemRows {
    ghost use Rattle.ylalr.specs.ItemRows.{ItemRows as ItemRowLists};

    ghost Value = { ItemRowLists };

    ghost view = { λ o. record { rows = o.rows.items; total = o.total } };
}

/// How many of the items before an item may share their row with it. Between two items of one
/// left side with the dot at 1 there can be a complete one.
const NEAR: usize = 2;

/// Whether two items are of one left side and have equal symbols before the dot.
fn shares(grammar: &Grammar, twin: Item, item: Item) -> bool
    requires twin { IsWithin grammar.now.bare twin }
    requires item { IsWithin grammar.now.bare item }
    ensures { IsTrue result → Shares grammar.now.bare twin item }
{
    let _well_formed = grammar.symbols();
    let (one, other) = (grammar.rule(twin.rule), grammar.rule(item.rule));
    twin.dot == item.dot
        && one.left() == other.left()
        && one.body()[..twin.dot] == other.body()[..item.dot]
}

/// The row of one of the last items before an item, where the item may share it.
fn twin_row(grammar: &Grammar, items: &[Item], rows: &[usize], item: Item) -> Option<usize>
    requires sized { length rows.now ≡ length items.now }
    requires range { InRange grammar.now.bare items.now }
    requires item { IsWithin grammar.now.bare item }
    ensures { IfSome result (λ p. HasTwin grammar.now.bare items.now rows.now item p) }
{
    for k in rows.len().saturating_sub(NEAR)..rows.len() {
        if shares(grammar, items[k], item) {
            return Some(rows[k]);
        }
    }
    None
}

/// The row of an item after others: that of one of them, or else the one by its left side.
fn row_behind(
    grammar: &Grammar,
    items: &[Item],
    rows: &[usize],
    item: Item,
    lefts: &mut Lefts,
    fresh: usize,
) -> usize
    requires lefts { length lefts.old ≡ grammar.now.bare.symbols }
    requires sized { length rows.now ≡ length items.now }
    requires range { InRange grammar.now.bare items.now }
    requires item { IsWithin grammar.now.bare item }
    ensures { TakesOne grammar.now.bare items.now rows.now item fresh lefts.old lefts.new result }
{
    if item.dot > 0 {
        if let Some(row) = twin_row(grammar, items, rows, item) {
            return row;
        }
    }
    lefts.row_of(grammar, item, fresh)
}

/// The rows of the items of a state, from row `first` on, and the first row after them.
fn rows_of(
    alloc: Global,
    grammar: &Grammar,
    items: &[Item],
    lefts: &mut Lefts,
    first: usize,
) -> Result<(Sequence<usize>, usize), AllocError>
    requires sized { length lefts.old ≡ grammar.now.bare.symbols }
    requires range { InRange grammar.now.bare items.now }
    requires room { first + length items.now < 2 ^ 63 }
    ensures sized { OnOk result (length lefts.new ≡ grammar.now.bare.symbols) }
    ensures rows { IfOk result (λ r. FillRows grammar.now.bare items.now r.0 first r.1) }
{
    let _well_formed = grammar.symbols();
    lefts.clear();
    let mut rows = Sequence::new(alloc);
    let mut end = first;
    for k in 0..items.len() {
        let row = row_behind(grammar, &items[..k], rows.as_slice(), items[k], lefts, end);
        rows.push(row)?;
        if row == end {
            end += 1;
        }
    }
    Ok((rows, end))
}

impl ItemRows {
    /// The rows of the items of the states, each state's after those of the state before. It
    /// fails only when memory runs out.
    pub fn of(alloc: Global, grammar: &Grammar, states: &States) -> Result<ItemRows, AllocError>
        requires states { AreStates grammar.now.bare states.now }
        requires few { length states.now.closures ≤ most_states }
        ensures { IfOk result (λ l. AreItemRows grammar.now.bare states.now l) }
    {
        let mut lefts = Lefts::new(alloc, grammar.symbols())?;
        let mut rows = Vec::new(alloc);
        let mut total: usize = 0;
        for q in 0..states.count() {
            let (list, end) = rows_of(alloc, grammar, states.items(q), &mut lefts, total)?;
            rows.push(list)?;
            total = end;
        }
        Ok(ItemRows { rows, total })
    }

    /// How many rows there are.
    pub fn total(&self) -> usize
        ensures { result ≡ self.now.total }
    {
        self.total
    }

    /// The rows of the items of state `q`, in the order of the items.
    pub fn rows(&self, q: usize) -> &[usize]
        requires { q < length self.now.rows }
        ensures { result.now ≡ rows_at self.now q }
    {
        self.rows[q].as_slice()
    }
}

/// The row of an item of state `q`, or `None` where the state doesn't have the item.
pub fn item_row(states: &States, item_rows: &ItemRows, q: usize, item: Item) -> Option<usize>
    requires state { q < length states.now.closures }
    requires order { IsAscending (set_at states.now.closures q) }
    requires item_rows { length item_rows.now.rows ≡ length states.now.closures }
    requires rows { length (rows_at item_rows.now q) ≡ length (set_at states.now.closures q) }
    ensures { IsItemRow states.now item_rows.now q item result }
{
    let index = find(states.items(q), item)?;
    Some(item_rows.rows(q)[index])
}
