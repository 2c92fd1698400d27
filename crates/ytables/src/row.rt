//! The cells of one state.

ghost use Rattle.std.specs.Prelude.{ℕ, ◌≡◌, ◌<◌, ◌≤◌, ◌+◌, ◌&&◌, [], ◌∷◌, List, length, drop};
ghost use Rattle.std.specs.Prelude.{false, None, slice_index_or, IfOk, OnOk, MatchOption, ◌++◌};
ghost use Rattle.std.specs.Prelude.{if◌then◌else◌};
ghost use Rattle.std.specs.List.{filter, list_any};
ghost use Rattle.ysymbols.specs.Grammar.{body_of};
ghost use Rattle.ylalr.specs.Collection.{Guide, IsGuide, bare_of, state_of, goto_in};
ghost use Rattle.ytables.specs.Cell.{common, is_filled};
ghost use Rattle.ytables.specs.Rows.{InGrammar, IsRowTo, IsRow, most_in_row};
ghost use Rattle.ytables.specs.Tables.{has_before, shift_of, cell_in, conflict_at, conflicts_to};
ghost use Rattle.ytables.specs.Tables.{conflicts_in};
ghost use Rattle.ytables.specs.Tallies.{IsTallyAt};

use crate::cell::{Action, Cell, Conflict, Tally};
use crate::dots::next_symbol;
use crate::tallies::tallies_of;
use std::alloc::{AllocError, Global};
use ybitsets::list::Sequence;
use ylalr::{Automaton, END, Item};
use ysymbols::{Grammar, Sym};

/// For each token, whether an item of the list has its dot before it.
fn tokens_before(
    alloc: Global,
    grammar: &Grammar,
    tokens: usize,
    items: &[Item],
) -> Result<Vec<bool>, AllocError>
    requires { InGrammar grammar.now.bare items.now }
    ensures len { IfOk result (λ v. length v.items ≡ tokens) }
    ensures marks { IfOk result (λ v. (t : ℕ) → t < tokens
        → slice_index_or v.items t false ≡ has_before grammar.now.bare items.now t) }
{
    let mut marks = vec![in alloc; false; tokens]?;
    for item in items {
        if let Some(s) = next_symbol(grammar, *item) {
            if s < tokens {
                marks[s] = true;
            }
        }
    }
    Ok(marks)
}

/// The shift of a token before which a dot stands.
fn shift_at(automaton: &Automaton, q: usize, t: Sym) -> Action
    requires state { q < length automaton.now.states }
    requires token { t < automaton.now.grammar.bare.tokens }
    ensures { result ≡ shift_of (goto_in automaton.now q) t }
{
    let _well_formed = automaton.grammar().symbols();
    if t == END {
        return Action::Accept;
    }
    match automaton.goto(q, t) {
        Some(n) => Action::Shift(n),
        None => Action::Error,
    }
}

/// The one rule that all filled cells of a row reduce by, where there is such a rule.
fn common_rule(actions: &[Action]) -> Option<usize>
    ensures { result ≡ common (filter is_filled actions.now) }
{
    let mut found = None;
    for action in actions {
        match (*action, found) {
            (Action::Error, _) => {}
            (Action::Reduce(r), None) => found = Some(r),
            (Action::Reduce(r), Some(s)) if r == s => {}
            _ => return None,
        }
    }
    found
}

/// Keeps what a cell counts, where it counts something.
fn keep(conflicts: &mut Sequence<Conflict>, t: Sym, cell: Cell) -> Result<(), AllocError>
    ensures { OnOk result (conflicts.new ≡ conflicts.old ++ conflict_at t cell) }
{
    if cell.shift_reduce == 0 && cell.reduce_reduce == 0 {
        return Ok(());
    }
    conflicts.push(Conflict {
        token: t,
        shift_reduce: cell.shift_reduce,
        reduce_reduce: cell.reduce_reduce,
    })
}

/// The actions of one state's cells, and what the cells count.
#[derive(Drop)]
struct Cells {
    actions: Vec<Action>,
    conflicts: Sequence<Conflict>,
    shift_reduce: u64,
    reduce_reduce: u64,
    choice: bool,
}

/// The cell of a state and a token, by the tally of its rules; `shifts` says whether the token can
/// be shifted.
fn settled(automaton: &Automaton, q: usize, t: Sym, shifts: bool, tally: &Tally) -> Cell
    requires state { q < length automaton.now.states }
    requires token { t < automaton.now.grammar.bare.tokens }
    requires shifts { shifts ≡ has_before (bare_of automaton.now) (state_of automaton.now q) t }
    requires tally { (u : Guide) → IsGuide automaton.now u
        → IsTallyAt automaton.now u q shifts t tally.now }
    ensures cell { (u : Guide) → IsGuide automaton.now u → result ≡ cell_in automaton.now u q t }
    ensures shift_reduce { result.shift_reduce ≤ tally.now.rests }
    ensures reduce_reduce { result.reduce_reduce ≤ tally.now.kept }
{
    if shifts {
        return tally.settle(Some(shift_at(automaton, q, t)));
    }
    tally.settle(None)
}

/// The cells of one state; `before` says before which tokens a dot stands.
fn cells_of(
    alloc: Global,
    automaton: &Automaton,
    q: usize,
    before: &[bool],
) -> Result<Cells, AllocError>
    requires state { q < length automaton.now.states }
    requires tokens { length before.now ≡ automaton.now.grammar.bare.tokens }
    requires before { (t : ℕ) → t < length before.now
        → slice_index_or before.now t false ≡ has_before (bare_of automaton.now)
        (state_of automaton.now q) t }
    ensures cells { IfOk result (λ c. (u : Guide) → IsGuide automaton.now u
        → IsRowTo automaton.now u q
        (length before.now) c.actions.items c.shift_reduce c.reduce_reduce c.choice) }
    ensures conflicts { IfOk result (λ c. (u : Guide) → IsGuide automaton.now u
        → c.conflicts ≡ conflicts_to automaton.now u q (length before.now)) }
    ensures len { IfOk result (λ c. length c.actions.items ≡ length before.now) }
    ensures shift_reduce { IfOk result (λ c. c.shift_reduce ≤ most_in_row) }
    ensures reduce_reduce { IfOk result (λ c. c.reduce_reduce ≤ most_in_row) }
{
    let _well_formed = automaton.grammar().symbols();
    let tallies = tallies_of(alloc, automaton, q, before)?;
    let mut actions = Vec::with_capacity(alloc, before.len())?;
    let mut conflicts = Sequence::new(alloc);
    let mut shift_reduce = 0;
    let mut reduce_reduce = 0;
    let mut choice = false;
    for t in 0..before.len() {
        let cell = settled(automaton, q, t, before[t], &tallies[t]);
        actions.push(cell.action)?;
        keep(&mut conflicts, t, cell)?;
        shift_reduce += cell.shift_reduce as u64;
        reduce_reduce += cell.reduce_reduce as u64;
        choice |= cell.choice;
    }
    Ok(Cells {
        actions,
        conflicts,
        shift_reduce,
        reduce_reduce,
        choice,
    })
}

/// The default rule of a state, where the state is consistent: no dot stands before a token, and
/// all filled cells reduce by this rule.
fn default_of(before: &[bool], actions: &[Action]) -> Option<usize>
    ensures { result ≡ (if list_any (λ b. b) before.now then None else common
        (filter is_filled actions.now)) }
{
    if before.contains(&true) {
        return None;
    }
    common_rule(actions)
}

/// What the tables keep of one state, and what the state's cells count.
#[derive(Drop)]
pub struct Row {
    /// The action at each token, by number.
    pub actions: Vec<Action>,
    /// The conflicts, by rising tokens.
    pub conflicts: Sequence<Conflict>,
    /// The default rule, where the state is consistent.
    pub default: Option<usize>,
    /// How many shift/reduce conflicts the cells count.
    pub shift_reduce: u64,
    /// How many reduce/reduce conflicts the cells count.
    pub reduce_reduce: u64,
    /// Whether a cell was chosen among several candidates.
    pub choice: bool,
}

/// The row of state `q`, with `tokens` columns. It fails only when memory runs out.
pub fn row_of(
    alloc: Global,
    automaton: &Automaton,
    q: usize,
    tokens: usize,
) -> Result<Row, AllocError>
    requires state { q < length automaton.now.states }
    requires tokens { tokens ≡ automaton.now.grammar.bare.tokens }
    ensures row { IfOk result (λ r. (u : Guide) → IsGuide automaton.now u
        → IsRow automaton.now u q r.actions.items r.default r.shift_reduce r.reduce_reduce
        r.choice) }
    ensures conflicts { IfOk result (λ r. (u : Guide) → IsGuide automaton.now u
        → r.conflicts ≡ conflicts_in automaton.now u q) }
    ensures len { IfOk result (λ r. length r.actions.items ≡ tokens) }
    ensures shift_reduce { IfOk result (λ r. r.shift_reduce ≤ most_in_row) }
    ensures reduce_reduce { IfOk result (λ r. r.reduce_reduce ≤ most_in_row) }
{
    let _guide = automaton.states();
    let grammar = automaton.grammar();
    let items = automaton.items(q);
    let before = tokens_before(alloc, grammar, tokens, items)?;
    let cells = cells_of(alloc, automaton, q, &before)?;
    let default = default_of(&before, &cells.actions);
    let Cells {
        actions,
        conflicts,
        shift_reduce,
        reduce_reduce,
        choice,
    } = cells;
    Ok(Row {
        actions,
        conflicts,
        default,
        shift_reduce,
        reduce_reduce,
        choice,
    })
}
