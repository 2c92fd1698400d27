//! The gotos of states: for each state a list by symbol.

ghost use Rattle.std.specs.Prelude.{◌≡◌, ◌<◌, ◌++◌, [], ◌∷◌, length, slice_index_or, OnOk};
ghost use Rattle.ylalr.specs.Gotos.{lookup, goto_of, IsAscendingRow};

use std::alloc::{AllocError, Global};
use std::marker::Model;
use ybitsets::list::Sequence;
use ysymbols::Sym;

/// A goto of a state.
#[derive(Clone, Copy, Drop)]
pub struct Goto {
    /// The symbol over which it goes.
    pub symbol: Sym,
    /// The state to which it leads.
    pub state: usize,
}

/// The gotos of all states so far.
#[derive(Drop)]
pub struct Gotos {
    rows: Vec<Sequence<Goto>>,
}

impl Model for Gotos {
    ghost use Rattle.std.specs.Prelude.{List};
    ghost use Rattle.ylalr.specs.declared.gotos.Goto.{Goto};

    ghost Value = { List (List Goto) };

    ghost view = { λ l. l.rows.items };
}

impl Gotos {
    /// The gotos of no states.
    pub fn new(alloc: Global) -> Gotos
        ensures { result ≡ [] }
    {
        Gotos {
            rows: Vec::new(alloc),
        }
    }

    /// How many states have their gotos here.
    pub fn count(&self) -> usize
        ensures { result ≡ length self.now }
    {
        self.rows.len()
    }

    /// The state to which state `q` goes over `x`, or `None` where it has no such goto.
    pub fn get(&self, q: usize, x: Sym) -> Option<usize>
        requires state { q < length self.now }
        requires order { IsAscendingRow (slice_index_or self.now q []) }
        ensures { result ≡ goto_of self.now q x }
    {
        seek(self.rows[q].as_slice(), x)
    }

    /// Adds the gotos of the next state, by rising symbols. It fails only when memory runs out.
    pub fn push(&mut self, row: Sequence<Goto>) -> Result<(), AllocError>
        ensures { OnOk result (self.new ≡ self.old ++ row ∷ []) }
    {
        self.rows.push(row)?;
        Ok(())
    }
}

/// The goto over `x` of a row by symbol.
fn seek(row: &[Goto], x: Sym) -> Option<usize>
    requires { IsAscendingRow row.now }
    ensures { result ≡ lookup row.now x }
{
    match row.binary_search_by_key(&x, |goto| goto.symbol) {
        Ok(at) => Some(row[at].state),
        Err(_) => None,
    }
}
