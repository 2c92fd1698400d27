//! Trees of shortest sentences, for symbols that are leaves of a form.

use crate::trees::Trees;
use std::alloc::Global;
use std::collections::HashMap;
use yexplain::reads::{Made, body_of};
use ysearch::shortest::Shortest;
use ysymbols::{Grammar, Sym, let_go};

/// The most tokens of a sentence that is made.
pub const MOST_TOKENS: u64 = 200;

/// The most symbols that are taken for the trees of one symbol.
const MOST_TAKEN: usize = 100_000;

/// The trees that are known.
pub struct Leaves {
    alloc: Global,
    known: HashMap<Sym, usize>,
}

impl Drop for Leaves {
    // A call in each owner, which keeps their proofs short.
    fn drop(self) {
        let_go!(self: Leaves { alloc, known });
    }
}

impl Leaves {
    /// No trees.
    pub fn new(alloc: Global) -> Leaves {
        Leaves {
            alloc,
            known: HashMap::new(alloc),
        }
    }

    /// The trees of symbols, where none has a shortest sentence that is too long.
    pub fn all(
        &mut self,
        trees: &mut Trees,
        grammar: &Grammar,
        shortest: &Shortest,
        form: &[Sym],
    ) -> Made<Option<Vec<usize>>> {
        let mut leaves = Vec::new(self.alloc);
        for symbol in form {
            if shortest.length(*symbol) > MOST_TOKENS {
                return Ok(None);
            }
            self.settle(trees, grammar, shortest, *symbol)?;
            match self.known.get(symbol) {
                Some(leaf) => leaves.push(*leaf)?,
                None => return Ok(None),
            }
        }
        Ok(Some(leaves))
    }

    /// Makes the tree of a symbol, after those of the body by which its shortest sentence begins.
    fn settle(
        &mut self,
        trees: &mut Trees,
        grammar: &Grammar,
        shortest: &Shortest,
        symbol: Sym,
    ) -> Made<()> {
        let mut open = Vec::new(self.alloc);
        open.push(symbol)?;
        for _ in 0..MOST_TAKEN {
            let Some(symbol) = open.pop() else {
                break;
            };
            if self.known.get(&symbol).is_some() {
                continue;
            }
            let rule = shortest.first(symbol);
            let body = match rule {
                Some(rule) => body_of(grammar, rule),
                None => &[],
            };
            let mut parts = Vec::new(self.alloc);
            for part in body {
                if let Some(tree) = self.known.get(part) {
                    parts.push(*tree)?;
                }
            }
            if parts.len() == body.len() {
                let tree = trees.add(symbol, rule, &parts, true)?;
                self.known.insert(symbol, tree)?;
            } else {
                open.push(symbol)?;
                open.extend_from_slice(body)?;
            }
        }
        Ok(())
    }
}
