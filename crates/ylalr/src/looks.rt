//! The lookaheads of the items of all states: what their rows have from the start, and the links
//! along which they give.

ghost use Rattle.std.specs.Prelude.{ℕ, ◌≡◌, ◌<◌, ◌↔◌, length, All, IfOk, OnOk, IsTrue, MatchOption};
ghost use Rattle.ylalr.specs.Draft.{IsHere, LeftsIn, SoundDraft, Further, IsMoved, OpensAt};
ghost use Rattle.ylalr.specs.Draft.{ShiftsAt, ServesAt, ServesState, ServesAll, StartsDraft};
ghost use Rattle.ylalr.specs.Draft.{form_of};
ghost use Rattle.ylalr.specs.Behind.{AddsAtMost, HasForm};
ghost use Rattle.ysymbols.specs.Grammar.{body_of};
ghost use Rattle.std.specs.Prelude.{◌≤◌, slice_index_or};
ghost use Rattle.ylalr.specs.Items.{Lookahead, IsNextLook};
ghost use Rattle.ybitsets.specs.Marks.{Has};
ghost use Rattle.ylalr.specs.Lr0.{FitLr0, Whole};
ghost use Rattle.ybitsets.specs.Rows.{Grows, IsSized};
ghost use Rattle.ylalr.specs.States.{set_at};

use crate::behind::{Behind, add_form};
use crate::gotos::Gotos;
use crate::item_rows::{ItemRows, item_row};
use crate::items::{Item, form_after, moves_over, symbol_after};
use crate::lefts::Lefts;
use crate::states::States;
use crate::tokens::{END, token_count};
use std::alloc::{AllocError, Global};
use std::marker::Model;
use ybitsets::links::Links;
use ybitsets::marks::Marks;
use ybitsets::rows::Rows;
use ybitsets::spread::spread;
use ysymbols::{Grammar, Sym, let_go};

/// The LR(0) automaton of a grammar, and beside it what its lookaheads are made from.
pub struct Lr0 {
    /// The grammar.
    pub grammar: Grammar,
    /// Which symbols derive the empty form.
    pub nullable: Marks,
    /// The tokens that each symbol can begin with.
    pub first: Rows,
    /// What stands after the first symbol of each body.
    pub behind: Behind,
    /// The states.
    pub states: States,
    /// The gotos of each state.
    pub gotos: Gotos,
    /// The rows of the items of each state.
    pub item_rows: ItemRows,
}

impl Drop for Lr0 {
    fn drop(self) {
        let_go!(self: Lr0 { grammar, nullable, first, behind, states, gotos, item_rows });
    }
}

/// An item of a state, and its row.
#[derive(Clone, Copy, Drop)]
pub struct Here {
    /// The number of the state.
    pub state: usize,
    /// The item.
    pub item: Item,
    /// The number of its row among those of all states.
    pub row: usize,
}

/// Lookaheads that are not complete yet: what rows have from the start, and the links along which
/// they give.
#[derive(Drop)]
pub struct Draft {
    looks: Rows,
    links: Links,
}

impl Model for Draft {
    ghost use Rattle.ylalr.specs.Draft.{DraftValue};

    ghost Value = { DraftValue };

    ghost view = { λ d. record { looks = d.looks; links = d.links } };
}

/// Adds to row `to` what the form after the symbol after the dot begins with, and says whether
/// that form vanishes. Where the dot is at 0, a row for the whole form was made before.
fn add_rest(lr0: &Lr0, item: Item, looks: &mut Rows, to: usize) -> bool
    requires fit { FitLr0 lr0.now }
    requires rule { item.rule < length lr0.now.grammar.bare.rules }
    requires dot { item.dot < length (body_of lr0.now.grammar.bare item.rule) }
    requires columns { looks.old.width ≡ lr0.now.grammar.bare.tokens }
    requires to_in { to < looks.old.height }
    ensures sized { IsSized looks.old.height looks.old.width looks.new }
    ensures grows { Grows looks.old looks.new }
    ensures sound { AddsAtMost lr0.now.nullable lr0.now.first (form_of lr0.now item) to looks.old
        looks.new }
    ensures every { HasForm lr0.now.nullable lr0.now.first (form_of lr0.now item) to looks.new }
    ensures vanishes { IsTrue result ↔ All (Has lr0.now.nullable) (form_of lr0.now item) }
{
    let form = form_after(&lr0.grammar, item);
    if item.dot == 0 && form.len() > 1 {
        looks.add_from(to, &lr0.behind.rows, item.rule);
        return lr0.behind.vanishing.has(item.rule);
    }
    add_form(&lr0.nullable, &lr0.first, form, looks, to)
}

/// The closure rule from one item: the row of the left side after the dot gets what the form
/// after it begins with, and a link from the item's row where that form vanishes.
fn open(lr0: &Lr0, lefts: &Lefts, here: Here, draft: &mut Draft) -> Result<(), AllocError>
    requires fit { FitLr0 lr0.now }
    requires here { IsHere lr0.now here }
    requires lefts { LeftsIn lr0.now here.state lefts.now }
    requires sound { SoundDraft lr0.now draft.old }
    ensures sound { OnOk result (SoundDraft lr0.now draft.new) }
    ensures further { OnOk result (Further draft.old draft.new) }
    ensures opens { OnOk result (OpensAt lr0.now draft.new here.state here.item here.row) }
{
    let Some(next) = symbol_after(&lr0.grammar, here.item) else {
        return Ok(());
    };
    let Some(to) = lefts.get(next) else {
        return Ok(());
    };
    if add_rest(lr0, here.item, &mut draft.looks, to) {
        draft.links.push(here.row, to)?;
    }
    Ok(())
}

/// The row of the item with its dot moved, in the state to which the symbol after the dot leads.
fn moved(lr0: &Lr0, here: Here) -> Option<usize>
    requires fit { FitLr0 lr0.now }
    requires here { IsHere lr0.now here }
    ensures { MatchOption result ((t : ℕ) → IsMoved lr0.now here t → ⊥) (IsMoved lr0.now here) }
{
    let x = moves_over(&lr0.grammar, here.item)?;
    let n = lr0.gotos.get(here.state, x)?;
    let item = Item {
        rule: here.item.rule,
        dot: here.item.dot + 1,
    };
    item_row(&lr0.states, &lr0.item_rows, n, item)
}

/// The goto rule from one item: a link to the item with its dot moved.
fn shift(lr0: &Lr0, here: Here, draft: &mut Draft) -> Result<(), AllocError>
    requires fit { FitLr0 lr0.now }
    requires here { IsHere lr0.now here }
    requires sound { SoundDraft lr0.now draft.old }
    ensures sound { OnOk result (SoundDraft lr0.now draft.new) }
    ensures further { OnOk result (Further draft.old draft.new) }
    ensures shifts { OnOk result (ShiftsAt lr0.now draft.new here.state here.item here.row) }
{
    if let Some(to) = moved(lr0, here) {
        draft.links.push(here.row, to)?;
    }
    Ok(())
}

/// Both rules from one item.
fn visit(lr0: &Lr0, lefts: &Lefts, here: Here, draft: &mut Draft) -> Result<(), AllocError>
    requires fit { FitLr0 lr0.now }
    requires here { IsHere lr0.now here }
    requires lefts { LeftsIn lr0.now here.state lefts.now }
    requires sound { SoundDraft lr0.now draft.old }
    ensures sound { OnOk result (SoundDraft lr0.now draft.new) }
    ensures further { OnOk result (Further draft.old draft.new) }
    ensures serves { OnOk result (ServesAt lr0.now draft.new here.state here.item here.row) }
{
    open(lr0, lefts, here, draft)?;
    shift(lr0, here, draft)?;
    Ok(())
}

/// Both rules from each item of a state.
fn visit_state(lr0: &Lr0, lefts: &mut Lefts, q: usize, draft: &mut Draft) -> Result<(), AllocError>
    requires fit { FitLr0 lr0.now }
    requires state { q < length lr0.now.states.closures }
    requires lefts { length lefts.old ≡ lr0.now.grammar.bare.symbols }
    requires sound { SoundDraft lr0.now draft.old }
    ensures lefts { OnOk result (length lefts.new ≡ lr0.now.grammar.bare.symbols) }
    ensures sound { OnOk result (SoundDraft lr0.now draft.new) }
    ensures further { OnOk result (Further draft.old draft.new) }
    ensures serves { OnOk result (ServesState lr0.now draft.new q) }
{
    let items = lr0.states.items(q);
    let rows = lr0.item_rows.rows(q);
    lefts.fill(&lr0.grammar, items, rows);
    for k in 0..items.len() {
        let here = Here {
            state: q,
            item: items[k],
            row: rows[k],
        };
        visit(lr0, lefts, here, draft)?;
    }
    Ok(())
}

/// A draft without links, in which the first item alone has a lookahead, the end token.
fn start(alloc: Global, lr0: &Lr0) -> Result<Draft, AllocError>
    requires { FitLr0 lr0.now }
    ensures sound { IfOk result (λ d. SoundDraft lr0.now d) }
    ensures start { IfOk result (λ d. StartsDraft lr0.now d) }
{
    let mut looks = Rows::new(alloc, lr0.item_rows.total(), token_count(&lr0.grammar))?;
    if let Some(p) = item_row(&lr0.states, &lr0.item_rows, 0, Item { rule: 0, dot: 0 }) {
        looks.mark(p, END);
    }
    let links = Links::new(alloc, lr0.item_rows.total())?;
    Ok(Draft { looks, links })
}

/// Both rules from each item of each state.
fn draft_of(alloc: Global, lr0: &Lr0) -> Result<Draft, AllocError>
    requires { FitLr0 lr0.now }
    ensures sound { IfOk result (λ d. SoundDraft lr0.now d) }
    ensures start { IfOk result (λ d. StartsDraft lr0.now d) }
    ensures serves { IfOk result (λ d. ServesAll lr0.now d) }
{
    let mut draft = start(alloc, lr0)?;
    let mut lefts = Lefts::new(alloc, lr0.grammar.symbols())?;
    for q in 0..lr0.states.count() {
        visit_state(lr0, &mut lefts, q, &mut draft)?;
    }
    Ok(draft)
}

/// The lookaheads of all items of all states. It fails only when memory runs out.
pub fn all_looks(alloc: Global, lr0: &Lr0) -> Result<Rows, AllocError>
    requires { FitLr0 lr0.now }
    ensures { IfOk result (λ m. Whole lr0.now m) }
{
    let Draft { mut looks, links } = draft_of(alloc, lr0)?;
    spread(alloc, &links, &mut looks)?;
    Ok(looks)
}

/// Whether the symbol is a lookahead of the item in state `q`, by its row; false for a
/// nonterminal, and where the state doesn't have the item.
pub fn has_look(lr0: &Lr0, looks: &Rows, q: usize, item: Item, t: Sym) -> bool
    requires whole { Whole lr0.now looks.now }
    requires state { q < length lr0.now.states.closures }
    ensures { IsTrue result ↔
        Lookahead lr0.now.grammar.bare (set_at lr0.now.states.closures q) item t }
{
    if !lr0.grammar.is_token(t) {
        return false;
    }
    match item_row(&lr0.states, &lr0.item_rows, q, item) {
        Some(p) => looks.has(p, t),
        None => false,
    }
}

/// The first token from `t` on that is a lookahead of the item at `index` among those of state
/// `q`, or the number of tokens where no such token follows.
pub fn next_in_row(lr0: &Lr0, looks: &Rows, q: usize, index: usize, t: Sym) -> Sym
    requires whole { Whole lr0.now looks.now }
    requires state { q < length lr0.now.states.closures }
    requires index { index < length (set_at lr0.now.states.closures q) }
    requires token { t ≤ lr0.now.grammar.bare.tokens }
    ensures next { (d : Item) → IsNextLook lr0.now.grammar.bare
        (set_at lr0.now.states.closures q)
        (slice_index_or (set_at lr0.now.states.closures q) index d) t result }
{
    looks.next(lr0.item_rows.rows(q)[index], t)
}
