//! The shortest end of a sentence over a stack: the rests of items of its states, from the top down
//! to rule 0.

use crate::queue::Queue;
use crate::shortest::Shortest;
use std::alloc::Global;
use yexplain::distinct::Distinct;
use yexplain::reads::{Made, body_of, has_item, is_kernel, items_of, left_of};
use ylalr::{Automaton, Item};
use ysymbols::{Grammar, Sym, let_go};

/// The most rests that are taken for one end.
const MOST_TAKEN: usize = 100_000;

/// Which way is gone on of those that are equally short.
#[derive(Clone, Copy, Drop)]
pub enum Ties {
    /// The first one that leads to a spot.
    First,
    /// The last one.
    Last,
}

/// So many entries of a stack, above which a left side has been derived.
#[derive(Clone, Copy, Drop, PartialEq, Eq, Hash)]
struct Spot {
    below: usize,
    left: Sym,
}

/// A spot, the length of the way to it, the rest that comes last on it, by the item with its dot
/// before that, and the node before it.
#[derive(Clone, Copy, Drop)]
struct Node {
    spot: Spot,
    length: u64,
    rest: Item,
    before: Option<usize>,
}

/// A search for an end.
struct Search<'a> {
    shortest: &'a Shortest,
    automaton: &'a Automaton,
    /// The states of the stack.
    states: &'a [usize],
    ties: Ties,
    /// The most tokens of the end.
    most: u64,
    nodes: Vec<Node>,
    /// With `Ties::First` the spot of each node; else the spots that were left.
    spots: Distinct<Spot>,
    queue: Queue,
    /// How many items were looked at.
    looked: usize,
}

impl Drop for Search<'_> {
    // A call in each owner, which keeps their proofs short.
    fn drop(self) {
        let_go!(self: Search {
            shortest, automaton, states, ties, most, nodes, spots, queue, looked
        });
    }
}

/// An end over a stack, and how many items were looked at for it.
#[derive(Drop)]
pub struct End {
    /// The items whose rests it is, from their dots on; the last one is of rule 0. None where there
    /// is no end, or it takes too long.
    pub items: Option<Vec<Item>>,
    /// How many items were looked at.
    pub looked: usize,
}

/// The symbols of an item from its dot on.
pub fn rest_of(grammar: &Grammar, item: Item) -> &[Sym] {
    body_of(grammar, item.rule).get(item.dot..).unwrap_or(&[])
}

impl Search<'_> {
    /// Puts a rest, where its item, which may have its dot one symbol before it, fits so many
    /// entries.
    fn put(
        &mut self,
        entries: usize,
        (item, rest): (Item, Item),
        (length, before): (u64, Option<usize>),
    ) -> Made<()> {
        let (automaton, shortest) = (self.automaton, self.shortest);
        let grammar = automaton.grammar();
        let (Some(below), Some(left)) = (entries.checked_sub(item.dot), left_of(grammar, item.rule))
        else {
            return Ok(());
        };
        let spot = Spot { below, left };
        let length = length.saturating_add(shortest.length_of(rest_of(grammar, rest)));
        if length > self.most {
            return Ok(());
        }
        let number = match self.ties {
            Ties::First => self.spots.add(spot)?.0,
            Ties::Last => self.nodes.len(),
        };
        let node = Node {
            spot,
            length,
            rest,
            before,
        };
        if let Some(known) = self.nodes.get_mut(number) {
            if known.length <= length {
                return Ok(());
            }
            *known = node;
        } else {
            self.nodes.push(node)?;
        }
        self.queue.put(length, number)
    }

    /// Goes on to the items with their dot before the left side that has been derived.
    fn leave(&mut self, number: usize, node: Node) -> Made<()> {
        let Spot { below, left } = node.spot;
        let (automaton, shortest) = (self.automaton, self.shortest);
        let state = self.states.get(below).copied().unwrap_or(0);
        let places = shortest.places.of(left);
        self.looked = self.looked.saturating_add(places.len());
        for item in places {
            if has_item(automaton, state, *item) {
                let dot = item.dot.saturating_add(1);
                let rest = Item { dot, ..*item };
                self.put(below, (*item, rest), (node.length, Some(number)))?;
            }
        }
        Ok(())
    }

    /// Takes rests, from those of the kernel items on top, the shortest way first, up to one of
    /// rule 0, and gives its number.
    fn run(&mut self) -> Made<Option<usize>> {
        let (automaton, states) = (self.automaton, self.states);
        let items = items_of(automaton, states.last().copied().unwrap_or(0));
        self.looked = items.len();
        for item in items {
            if is_kernel(*item) {
                self.put(states.len().saturating_sub(1), (*item, *item), (0, None))?;
            }
        }
        for _ in 0..MOST_TAKEN {
            let Some((length, number)) = self.queue.take() else {
                break;
            };
            let Some(node) = self.nodes.get(number).copied() else {
                break;
            };
            if node.rest.rule == 0 {
                return Ok(Some(number));
            }
            let is_near = match self.ties {
                Ties::First => node.length == length,
                Ties::Last => self.spots.add(node.spot)?.1,
            };
            if is_near {
                self.leave(number, node)?;
            }
        }
        Ok(None)
    }

    /// The rests up to a node.
    fn items(&self, alloc: Global, number: usize) -> Made<Vec<Item>> {
        let (mut items, mut at) = (Vec::new(alloc), Some(number));
        for _ in 0..self.nodes.len() {
            let Some(node) = self.nodes.get(at.unwrap_or(usize::MAX)) else {
                break;
            };
            items.push(node.rest)?;
            at = node.before;
        }
        items.reverse();
        Ok(items)
    }
}

/// The shortest end over the states of a stack, the first state of all at the bottom, with so many
/// tokens at most, the end of the input among them: with its rests, what stands on the stack is a
/// sentential form.
pub fn end_over(
    alloc: Global,
    shortest: &Shortest,
    automaton: &Automaton,
    states: &[usize],
    ties: Ties,
    most: u64,
) -> Made<End> {
    let mut search = Search {
        shortest,
        automaton,
        states,
        ties,
        most,
        nodes: Vec::new(alloc),
        spots: Distinct::new(alloc),
        queue: Queue::new(alloc),
        looked: 0,
    };
    let items = match search.run()? {
        Some(number) => Some(search.items(alloc, number)?),
        None => None,
    };
    Ok(End {
        items,
        looked: search.looked,
    })
}
