//! The shortest sentence with each rule: the shortest way from the start symbol to its left side,
//! and the shortest sentence of its body there.

use std::alloc::Global;
use yexplain::reads::{Made, body_of, left_of, set};
use ylalr::Item;
use ysearch::queue::{FAR, Nearest};
use ysearch::shortest::Shortest;
use ysymbols::{Grammar, Sym};

/// A rule, and the length of the shortest sentence with it.
#[derive(Clone, Copy, Drop)]
pub struct Place {
    /// The rule.
    pub rule: usize,
    /// The length, in which `error` counts for 10,000 and the end for one.
    pub length: u64,
}

/// The shortest way to each left side.
#[derive(Drop)]
pub struct Contexts {
    /// The length of what stands beside a symbol.
    around: Nearest,
    /// The item with its dot before a symbol by which it is reached.
    items: Vec<Item>,
}

impl Contexts {
    /// The shortest ways of a grammar.
    pub fn new(alloc: Global, grammar: &Grammar, shortest: &Shortest) -> Made<Contexts> {
        let first = Item { rule: 0, dot: 0 };
        let mut contexts = Contexts {
            around: Nearest::new(alloc, grammar.symbols())?,
            items: vec![in alloc; first; grammar.symbols()]?,
        };
        let root = left_of(grammar, 0).unwrap_or(0);
        contexts.around.shorten(root, 0)?;
        // ends: each place of a symbol makes it wait once at most
        for _ in 0..usize::MAX {
            let Some((length, left)) = contexts.around.take() else {
                break;
            };
            for rule in shortest.rules.of(left) {
                contexts.enter(grammar, shortest, *rule, length)?;
            }
        }
        Ok(contexts)
    }

    /// Goes on from a rule, with so much beside its left side, to the nonterminals in its body.
    fn enter(
        &mut self,
        grammar: &Grammar,
        shortest: &Shortest,
        rule: usize,
        around: u64,
    ) -> Made<()> {
        let body = body_of(grammar, rule);
        let all = around.saturating_add(shortest.length_of(body));
        for (dot, symbol) in body.iter().enumerate() {
            if !grammar.is_token(*symbol) {
                let length = all.saturating_sub(shortest.length(*symbol));
                if self.around.shorten(*symbol, length)? {
                    set(&mut self.items, *symbol, Item { rule, dot });
                }
            }
        }
        Ok(())
    }

    /// All rules that can be reached, the one with the longest sentence first.
    pub fn order(&self, alloc: Global, grammar: &Grammar, shortest: &Shortest) -> Made<Vec<Place>> {
        let mut places = Vec::new(alloc);
        for rule in 1..grammar.rules() {
            let around = self.around.length(left_of(grammar, rule).unwrap_or(0));
            let length = around.saturating_add(shortest.length_of(body_of(grammar, rule)));
            if length < FAR {
                places.push(Place { rule, length })?;
            }
        }
        places.sort_by_key(|place| FAR.saturating_sub(place.length))?;
        Ok(places)
    }

    /// The symbols of the shortest sentential form with the body of a rule, the end left out.
    pub fn form(&self, alloc: Global, grammar: &Grammar, rule: usize) -> Made<Vec<Sym>> {
        let root = left_of(grammar, 0).unwrap_or(0);
        // the items on the way to the left side, the nearest first
        let (mut way, mut at) = (Vec::new(alloc), left_of(grammar, rule).unwrap_or(root));
        for _ in 0..grammar.symbols() {
            if at == root {
                break;
            }
            let Some(item) = self.items.get(at).copied() else {
                break;
            };
            way.push(item)?;
            at = left_of(grammar, item.rule).unwrap_or(root);
        }
        let mut form = Vec::new(alloc);
        for item in way.iter().rev() {
            let body = body_of(grammar, item.rule);
            form.extend_from_slice(body.get(..item.dot).unwrap_or(&[]))?;
        }
        form.extend_from_slice(body_of(grammar, rule))?;
        for item in &way {
            let body = body_of(grammar, item.rule);
            form.extend_from_slice(body.get(item.dot.saturating_add(1)..).unwrap_or(&[]))?;
        }
        form.pop();
        Ok(form)
    }
}
