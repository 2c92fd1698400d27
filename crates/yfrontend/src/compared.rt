//! The cells of tables beside bison's.

use crate::peer::{Left, Peer};
use std::alloc::Global;
use yexplain::reads::{Made, action_of, conflict_of, conflicts_of, goto_of, ready_of, set};
use ylalr::token_count;
use ysymbols::Sym;
use ytables::{Action, Tables};

/// Numbers of conflicts. As bison counts them, a shift that meets two reductions makes one of each
/// kind.
#[derive(Clone, Copy, Default, Drop, PartialEq, Eq)]
pub struct Counts {
    /// Shift/reduce conflicts.
    pub shift_reduce: usize,
    /// Reduce/reduce conflicts.
    pub reduce_reduce: usize,
}

impl Counts {
    /// Those that tables have.
    pub fn of(tables: &Tables) -> Counts {
        let counts = tables.conflicts();
        Counts {
            shift_reduce: usize::try_from(counts.shift_reduce).unwrap_or(usize::MAX),
            reduce_reduce: usize::try_from(counts.reduce_reduce).unwrap_or(usize::MAX),
        }
    }
}

/// A cell that isn't bison's.
#[derive(Clone, Copy, Drop)]
pub struct Other {
    /// The state.
    pub state: usize,
    /// The token.
    pub token: Sym,
    /// What bison leaves in it.
    pub left: Left,
}

/// What a comparison finds.
#[derive(Clone, Copy, Default, Drop)]
pub struct Compared {
    /// The conflicts of the states that bison keeps.
    pub counts: Counts,
    /// The first cell in which bison does something else.
    pub deed: Option<Other>,
    /// The first cell that has a conflict to bison and none here, or one of another kind.
    pub conflict: Option<Other>,
    /// How many such cells there are.
    pub conflicts: usize,
    /// How many cells have a conflict, but stand in a state that bison leaves out.
    pub cut: usize,
}

/// A walk over the states that can be reached by what bison leaves in the cells.
#[derive(Drop)]
struct Walk<'a> {
    peer: Peer<'a>,
    found: Compared,
    /// The states that were reached, in the order in which they were.
    reached: Vec<usize>,
    is_reached: Vec<bool>,
}

/// Whether bison does the same. It shifts the end in a body, and reduces by its rule then.
fn does(left: &Left, action: Action) -> bool {
    match action {
        Action::Reduce(rule) if left.ends > 0 => left.ended == Some(rule),
        Action::Reduce(rule) => {
            !left.shift && left.banning.is_none() && left.first == Some(rule)
        }
        Action::Shift(_) | Action::Accept => left.shift,
        Action::Error => left.banning.is_some(),
    }
}

impl Walk<'_> {
    /// Reaches a state.
    fn reach(&mut self, state: usize) -> Made<()> {
        if self.is_reached.get(state) == Some(&false) {
            set(&mut self.is_reached, state, true);
            self.reached.push(state)?;
        }
        Ok(())
    }

    /// Reaches the state to which a symbol leads.
    fn reach_by(&mut self, state: usize, symbol: Sym) -> Made<()> {
        match goto_of(self.peer.tables.automaton(), state, symbol) {
            Some(next) => self.reach(next),
            None => Ok(()),
        }
    }

    /// Compares a cell: what is done in it, and whether a conflict of bison has a counterpart here.
    fn compare(&mut self, state: usize, token: Sym, left: Left) {
        let action = action_of(self.peer.tables, state, token);
        let other = Other { state, token, left };
        if !does(&left, action) {
            self.found.deed = self.found.deed.or(Some(other));
            return;
        }
        let conflicts = left.shift_reduce().saturating_add(left.reduce_reduce());
        let is_other_kind = left.ends > 0 && left.reductions > 0;
        let has_one = conflict_of(self.peer.tables, state, token).is_some();
        if is_other_kind || (conflicts > 0) != has_one {
            self.found.conflict = self.found.conflict.or(Some(other));
            self.found.conflicts = self.found.conflicts.saturating_add(1);
        }
    }

    /// Looks at the cells of a state, and counts the conflicts that bison leaves in them.
    fn look_at(&mut self, alloc: Global, state: usize) -> Made<()> {
        let ready = ready_of(alloc, self.peer.tables.automaton(), state)?;
        for token in 0..token_count(self.peer.grammar()) {
            let left = self.peer.left_in(state, token, &ready);
            if left.is_filled() {
                let counts = &mut self.found.counts;
                counts.shift_reduce = counts.shift_reduce.saturating_add(left.shift_reduce());
                counts.reduce_reduce = counts.reduce_reduce.saturating_add(left.reduce_reduce());
                self.compare(state, token, left);
            }
            if left.shift {
                self.reach_by(state, token)?;
            }
        }
        Ok(())
    }

    /// Reaches the states to which nonterminals lead.
    fn pass(&mut self, state: usize) -> Made<()> {
        let grammar = self.peer.grammar();
        for symbol in token_count(grammar)..grammar.symbols() {
            self.reach_by(state, symbol)?;
        }
        Ok(())
    }

    /// Counts the cells with a conflict of the states that weren't reached.
    fn count_cut(&mut self) {
        for (state, is_reached) in self.is_reached.iter().enumerate() {
            if !*is_reached {
                let cells = conflicts_of(self.peer.tables, state).len();
                self.found.cut = self.found.cut.saturating_add(cells);
            }
        }
    }

    /// Looks at all states that can be reached.
    fn run(&mut self, alloc: Global) -> Made<()> {
        self.reach(0)?;
        for at in 0..self.peer.tables.automaton().states() {
            let Some(state) = self.reached.get(at).copied() else {
                break;
            };
            self.look_at(alloc, state)?;
            self.pass(state)?;
        }
        self.count_cut();
        Ok(())
    }
}

impl Compared {
    /// Compares the cells of tables with bison's, in the states that bison keeps: those that can
    /// be reached by what it leaves in the cells.
    pub fn new(alloc: Global, peer: Peer<'_>) -> Made<Compared> {
        let mut walk = Walk {
            peer,
            found: Compared::default(),
            reached: Vec::new(alloc),
            is_reached: vec![in alloc; false; peer.tables.automaton().states()]?,
        };
        walk.run(alloc)?;
        Ok(walk.found)
    }

    /// Whether the same cells have conflicts to bison.
    pub fn conflicts_stay(&self) -> bool {
        self.conflicts == 0 && self.cut == 0
    }
}
