//! The chains of an automaton.

ghost use Rattle.std.specs.Prelude.{◌≡◌, ◌<◌, length, MatchOption, IfOk};
ghost use Rattle.ylalr.specs.Collection.{bare_of, state_of};
ghost use Rattle.ylalr.specs.Items.{Lookahead};
ghost use Rattle.yprovenance.specs.Reasons.{IsChain};

use crate::before::before_of;
use crate::climb::climb;
use crate::reason::{Place, Reason};
use crate::search::search;
use crate::trail::Trail;
use std::alloc::{AllocError, Global};
use std::marker::Model;
use ybitsets::links::Links;
use ylalr::{Automaton, Item};
use ysymbols::Sym;

/// An automaton, and for each of its states those that lead to it.
#[derive(Drop)]
pub struct Reasons<'a> {
    automaton: &'a Automaton,
    before: Links,
}

impl<'a> Model for Reasons<'a> {
    ghost use Rattle.ylalr.specs.Collection.{Collection};
    ghost use Rattle.yprovenance.specs.Trail.{AreBefore};

    ghost Value = { Collection };

    ghost view = { λ r. r.automaton.now };

    ghost invariant = { λ r. AreBefore r.automaton.now r.before };
}

impl<'a> Reasons<'a> {
    /// What chains of this automaton are found with. It fails only when memory runs out.
    pub fn of(alloc: Global, automaton: &'a Automaton) -> Result<Reasons<'a>, AllocError>
        ensures { IfOk result (λ r. r ≡ automaton.now) }
    {
        let before = before_of(alloc, automaton)?;
        Ok(Reasons { automaton, before })
    }

    /// The automaton.
    pub fn automaton(&self) -> &'a Automaton
        ensures { result.now ≡ self.now }
    {
        self.automaton
    }

    /// Why the token `t` is a lookahead of the item in state `q`: a chain of reasons, from an item
    /// that has the token of itself to this one; `None` where it is no lookahead, and only there.
    /// `q` is below the number of states, the item is any, and `t` is any symbol of the grammar. It
    /// fails only when memory runs out (Aho, Sethi, Ullman, section 4.7, LALR(1) lookaheads).
    pub fn chain(
        &self,
        alloc: Global,
        q: usize,
        item: Item,
        t: Sym,
    ) -> Result<Option<Vec<Reason>>, AllocError>
        requires state { q < length self.now.states }
        requires symbol { t < (bare_of self.now).symbols }
        ensures { IfOk result (λ o. MatchOption o
            (Lookahead (bare_of self.now) (state_of self.now q) item t → ⊥)
            (λ c. Lookahead (bare_of self.now) (state_of self.now q) item t
            × IsChain self.now t (record { state = q; item = item }) c.items)) }
    {
        if !self.automaton.looks(q, item, t) {
            return Ok(None);
        }
        let mut trail = Trail::new(alloc, Place { state: q, item })?;
        match search(self.automaton, &self.before, t, &mut trail)? {
            Some(source) => Ok(Some(climb(alloc, &trail, source)?)),
            None => Ok(None),
        }
    }
}
