//! The tables of an automaton.

ghost use Rattle.std.specs.Prelude.{ℕ, ◌≡◌, ◌<◌, ◌≤◌, ◌↔◌, length, false, slice_index_or, None};
ghost use Rattle.std.specs.Prelude.{IsTrue, IfOk, IfErr, unwrap_or};
ghost use Rattle.std.specs.List.{sum_by};
ghost use Rattle.ylalr.specs.Collection.{Guide, IsGuide, IsGoto, goto_in};
ghost use Rattle.ytables.specs.declared.cell.Action.TheVariants.{Error};
ghost use Rattle.ytables.specs.declared.fault.TableFault.{TableFault};
ghost use Rattle.ytables.specs.Allowed.{CellsAllow};
ghost use Rattle.ytables.specs.Cell.{by_default};
ghost use Rattle.ytables.specs.Had.{NoChoice, CellsHave};
ghost use Rattle.ytables.specs.Tables.{AreConflicts, AreGotos, AreRowsTo, AreSumsTo, AreTables};
ghost use Rattle.ytables.specs.Tables.{action_at, default_at};
ghost use Rattle.ytables.specs.Tables.{action_in, default_in, act_at, rule_at};
ghost use Rattle.ytables.specs.Tables.{row_shift_reduce, row_reduce_reduce, states_of};
ghost use Rattle.ytables.specs.Tables.{conflicts_in};

use crate::cell::{Action, Conflict};
use crate::fault::TableFault;
use crate::gotos::all_gotos;
use crate::row::row_of;
use std::alloc::{AllocError, Global};
use std::marker::Model;
use ybitsets::list::Sequence;
use ybitsets::packed::Packed;
use ylalr::{Automaton, token_count};
use ysymbols::{Grammar, Sym, let_go};

/// How many conflicts the cells of all states count.
#[derive(Clone, Copy, Debug, Drop, PartialEq, Eq)]
pub struct Counts {
    /// Shift/reduce conflicts: one for each rule that could be reduced beside a shift.
    pub shift_reduce: u64,
    /// Reduce/reduce conflicts: one for each rule that could be reduced beside the rule that is.
    pub reduce_reduce: u64,
}

/// The rows of all states, and what their cells count.
struct Found {
    actions: Packed<Action>,
    gotos: Packed<usize>,
    defaults: Vec<Option<usize>>,
    conflicts: Vec<Sequence<Conflict>>,
    counts: Counts,
    chosen: bool,
}

impl Drop for Found {
    fn drop(self) {
        let_go!(self: Found { actions, gotos, defaults, conflicts, counts, chosen });
    }
}

/// An automaton with its cells.
pub struct Tables {
    automaton: Automaton,
    found: Found,
}

impl Drop for Tables {
    fn drop(self) {
        let_go!(self: Tables { automaton, found });
    }
}

impl Model for Tables {
    ghost use Rattle.ytables.specs.Tables.{TablesValue, IsTables};

    ghost Value = { TablesValue };

    ghost view = { λ t. record {
      built = t.automaton;
      actions = t.found.actions.rows;
      defaults = t.found.defaults.items;
      shift_reduce = t.found.counts.shift_reduce;
      reduce_reduce = t.found.counts.reduce_reduce;
      choice = t.found.chosen;
    } };

    ghost invariant = { λ t. IsTables (record {
      built = t.automaton;
      actions = t.found.actions.rows;
      defaults = t.found.defaults.items;
      shift_reduce = t.found.counts.shift_reduce;
      reduce_reduce = t.found.counts.reduce_reduce;
      choice = t.found.chosen;
    }) t.found.actions.width t.found.gotos t.found.conflicts.items };
}

/// The entries of a row: its actions without errors; no entries at all where a default rule stands
/// for them.
fn entries_of(
    alloc: Global,
    actions: &[Action],
    default: Option<usize>,
) -> Result<Vec<Option<Action>>, AllocError>
    ensures len { IfOk result (λ v. length v.items ≡ length actions.now) }
    ensures entries { IfOk result (λ v. (t : ℕ) → t < length actions.now
        → by_default default (unwrap_or (slice_index_or v.items t None) Error)
        ≡ by_default default (slice_index_or actions.now t Error)) }
{
    let mut entries = vec![in alloc; None; actions.len()]?;
    if default.is_some() {
        return Ok(entries);
    }
    for t in 0..actions.len() {
        if actions[t] != Action::Error {
            entries[t] = Some(actions[t]);
        }
    }
    Ok(entries)
}

/// The rows of all states, and what their cells count.
fn all_rows(alloc: Global, automaton: &Automaton) -> Result<Found, AllocError>
    ensures actions { IfOk result (λ f. length f.actions.rows ≡ length automaton.now.states) }
    ensures width { IfOk result (λ f. f.actions.width ≡ automaton.now.grammar.bare.tokens) }
    ensures defaults { IfOk result (λ f. length f.defaults.items ≡ length automaton.now.states) }
    ensures conflicts { IfOk result (λ f. (u : Guide) → IsGuide automaton.now u
        → AreConflicts automaton.now u (length automaton.now.states) f.conflicts.items) }
    ensures listed { IfOk result (λ f. length f.conflicts.items
        ≡ length automaton.now.states) }
    ensures rows { IfOk result (λ f. (u : Guide) → IsGuide automaton.now u
        → AreRowsTo automaton.now u (length automaton.now.states)
        (act_at f.actions.rows f.defaults.items) (rule_at f.defaults.items)) }
    ensures gotos { IfOk result (λ f. AreGotos automaton.now f.gotos) }
    ensures sums { IfOk result (λ f. (u : Guide) → IsGuide automaton.now u
        → AreSumsTo automaton.now u
        (length automaton.now.states) f.counts.shift_reduce f.counts.reduce_reduce f.chosen) }
{
    let grammar = automaton.grammar();
    let _well_formed = grammar.symbols();
    let tokens = token_count(grammar);
    let states = automaton.states();
    let gotos = all_gotos(alloc, automaton)?;
    let mut actions = Packed::new(alloc, tokens);
    let mut defaults = Vec::with_capacity(alloc, states)?;
    let mut conflicts = Vec::with_capacity(alloc, states)?;
    let mut shift_reduce = 0;
    let mut reduce_reduce = 0;
    let mut chosen = false;
    for q in 0..states {
        let row = row_of(alloc, automaton, q, tokens)?;
        let entries = entries_of(alloc, &row.actions, row.default)?;
        actions.push(alloc, &entries)?;
        defaults.push(row.default)?;
        shift_reduce += row.shift_reduce;
        reduce_reduce += row.reduce_reduce;
        chosen |= row.choice;
        conflicts.push(row.conflicts)?;
    }
    let counts = Counts {
        shift_reduce,
        reduce_reduce,
    };
    Ok(Found {
        actions,
        gotos,
        defaults,
        conflicts,
        counts,
        chosen,
    })
}

/// The tables of an automaton. The only fault is T1: memory ran out.
pub fn resolve(alloc: Global, automaton: Automaton) -> Result<Tables, TableFault>
    ensures automaton { IfOk result (λ t. t.built ≡ automaton) }
    ensures tables { IfOk result (λ t. AreTables t) }
    ensures fault { IfErr result (λ e. e ≡ TableFault.Memory) }
{
    match all_rows(alloc, &automaton) {
        Ok(found) => Ok(Tables { automaton, found }),
        Err(_) => Err(TableFault::Memory),
    }
}

impl Tables {
    /// The automaton that was given to `resolve`, unchanged. This call also says that these are
    /// its tables, and that each action is one that the items of its state allow.
    pub fn automaton(&self) -> &Automaton
        ensures value { result.now ≡ self.now.built }
        ensures tables { AreTables self.now }
        ensures allowed { CellsAllow self.now }
    {
        let _guide = self.automaton.states();
        let _well_formed = self.automaton.grammar().symbols();
        &self.automaton
    }

    /// The grammar of the automaton.
    pub(crate) fn grammar(&self) -> &Grammar
        ensures { result.now ≡ self.now.built.grammar }
    {
        self.automaton.grammar()
    }

    /// What is done in state `q` at the token `t`: by the default rule of the state, where it is
    /// consistent, or else by the cell. `q` is below the number of states, and `t` is a token.
    pub fn action(&self, q: usize, t: Sym) -> Action
        requires state { q < length self.now.built.states }
        requires token { t < self.now.built.grammar.bare.tokens }
        ensures value { result ≡ action_at self.now q t }
        ensures exact { (u : Guide) → IsGuide self.now.built u → result
            ≡ action_in self.now.built u q t }
    {
        match self.found.defaults[q] {
            Some(rule) => Action::Reduce(rule),
            None => self.found.actions.get(q, t).unwrap_or(Action::Error),
        }
    }

    /// The state to which state `q` goes over `x`, or `None` where it has no such goto. `q` is
    /// below the number of states, and `x` is a nonterminal.
    pub fn goto(&self, q: usize, x: Sym) -> Option<usize>
        requires state { q < length self.now.built.states }
        requires nonterminal { self.now.built.grammar.bare.tokens ≤ x }
        requires symbol { x < self.now.built.grammar.bare.symbols }
        ensures value { result ≡ goto_in self.now.built q x }
        ensures exact { IsGoto self.now.built q x result }
    {
        let _guide = self.automaton.states();
        self.found.gotos.get(q, x - self.found.actions.width())
    }

    /// The rule that state `q` reduces by at every token, where the state is consistent: no item
    /// of the state has the dot before a token, and all its filled cells, at least one, reduce by
    /// this rule.
    pub fn default_rule(&self, q: usize) -> Option<usize>
        requires { q < length self.now.built.states }
        ensures value { result ≡ default_at self.now q }
        ensures exact { (u : Guide) → IsGuide self.now.built u → result
            ≡ default_in self.now.built u q }
    {
        self.found.defaults[q]
    }

    /// How many conflicts the cells of all states and tokens count.
    pub fn conflicts(&self) -> Counts
        ensures shift_reduce { result.shift_reduce ≡ self.now.shift_reduce }
        ensures reduce_reduce { result.reduce_reduce ≡ self.now.reduce_reduce }
        ensures exact { (u : Guide) → IsGuide self.now.built u
            → (result.shift_reduce
            ≡ sum_by (row_shift_reduce self.now.built u) (states_of self.now.built))
            × (result.reduce_reduce
            ≡ sum_by (row_reduce_reduce self.now.built u) (states_of self.now.built)) }
    {
        self.found.counts
    }

    /// What the cells of state `q` count, by rising tokens; cells that count nothing are left out.
    /// `q` is below the number of states.
    pub fn conflicts_in(&self, q: usize) -> &[Conflict]
        requires { q < length self.now.built.states }
        ensures { (u : Guide) → IsGuide self.now.built u
            → result.now ≡ conflicts_in self.now.built u q }
    {
        self.found.conflicts[q].as_slice()
    }

    /// Whether no cell has a choice between two candidates. Then each candidate that the items of
    /// a state and their lookaheads give is what the cell says, and default reductions take none
    /// away.
    pub fn choice_free(&self) -> bool
        ensures value { IsTrue result ↔ (self.now.choice ≡ false) }
        ensures exact { (u : Guide) → IsGuide self.now.built u
            → IsTrue result ↔ NoChoice self.now.built u }
        ensures have { IsTrue result → CellsHave self.now }
    {
        let _guide = self.automaton.states();
        let _well_formed = self.automaton.grammar().symbols();
        !self.found.chosen
    }
}
