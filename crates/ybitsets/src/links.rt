//! Links between rows: each row has a list of those to which it gives what it has.

ghost use Rattle.std.specs.Prelude.{ℕ, ◌≡◌, ◌<◌, ◌++◌, [], ◌∷◌, length, slice_set, All, IfOk, OnOk};
ghost use Rattle.ybitsets.specs.Links.{links_of};

use crate::list::Sequence;
use std::alloc::{AllocError, Global};
use std::marker::Model;

/// For each row, the rows to which it gives what it has.
#[derive(Drop)]
pub struct Links {
    lists: Vec<Sequence<usize>>,
}

impl Model for Links {
    ghost use Rattle.std.specs.Prelude.{ℕ, List};

    ghost Value = { List (List ℕ) };

    ghost view = { λ l. l.lists.items };
}

impl Links {
    /// No links between `count` rows. It fails only when memory runs out.
    pub fn new(alloc: Global, count: usize) -> Result<Links, AllocError>
        ensures sized { IfOk result (λ l. length l ≡ count) }
        ensures empty { IfOk result (λ l. All (λ r. r ≡ []) l) }
    {
        let mut lists = Vec::new(alloc);
        for _ in 0..count {
            lists.push(Sequence::new(alloc))?;
        }
        Ok(Links { lists })
    }

    /// Adds a link from row `from`, below the count of rows, to row `to`. It fails only when
    /// memory runs out.
    pub fn push(&mut self, from: usize, to: usize) -> Result<(), AllocError>
        requires { from < length self.old }
        ensures { OnOk result
            (self.new ≡ slice_set self.old from (links_of self.old from ++ to ∷ [])) }
    {
        let list = &mut self.lists[from];
        list.push(to)?;
        Ok(())
    }

    /// The rows to which row `p` gives.
    pub fn of(&self, p: usize) -> &[usize]
        requires { p < length self.now }
        ensures { result.now ≡ links_of self.now p }
    {
        self.lists[p].as_slice()
    }
}
