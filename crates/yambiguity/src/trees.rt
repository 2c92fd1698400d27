//! Trees of rules, by their numbers.

use crate::stacks::Deed;
use std::alloc::Global;
use yexplain::reads::{Made, body_of, left_of};
use ysymbols::{Grammar, Sym, let_go};

/// The most nodes that are gone over for one answer.
pub const MOST_NODES: usize = 20_000;

/// The root of a tree.
#[derive(Clone, Copy, Drop)]
pub struct Node {
    /// Its symbol.
    pub symbol: Sym,
    /// The rule by which its children are below it; none for a token.
    pub rule: Option<usize>,
    /// Whether it stands for any tree of its symbol, of which it has a smallest one.
    pub stands: bool,
    start: usize,
    end: usize,
}

/// Trees, of which the larger ones share the smaller.
pub struct Trees {
    nodes: Vec<Node>,
    children: Vec<usize>,
}

impl Drop for Trees {
    // A call in each owner, which keeps their proofs short.
    fn drop(self) {
        let_go!(self: Trees { nodes, children });
    }
}

impl Trees {
    /// No trees.
    pub fn new(alloc: Global) -> Trees {
        Trees {
            nodes: Vec::new(alloc),
            children: Vec::new(alloc),
        }
    }

    /// The root of a tree.
    pub fn node(&self, tree: usize) -> Option<Node> {
        self.nodes.get(tree).copied()
    }

    /// The children of a tree.
    pub fn children(&self, tree: usize) -> &[usize] {
        match self.nodes.get(tree) {
            Some(node) => self.children.get(node.start..node.end).unwrap_or(&[]),
            None => &[],
        }
    }

    /// Adds a tree of a rule, or of a token, and says its number.
    pub fn add(
        &mut self,
        symbol: Sym,
        rule: Option<usize>,
        children: &[usize],
        stands: bool,
    ) -> Made<usize> {
        let number = self.nodes.len();
        let start = self.children.len();
        self.children.extend_from_slice(children)?;
        self.nodes.push(Node {
            symbol,
            rule,
            stands,
            start,
            end: self.children.len(),
        })?;
        Ok(number)
    }

    /// The tree that a parse makes, where it is one: the leaves stand for the symbols that it
    /// shifts.
    pub fn made(
        &mut self,
        alloc: Global,
        grammar: &Grammar,
        deeds: &[Deed],
        leaves: &[usize],
    ) -> Made<Option<usize>> {
        let (mut stack, mut rest) = (Vec::new(alloc), leaves.iter());
        for deed in deeds {
            let Deed::Reduce(rule) = deed else {
                match rest.next() {
                    Some(leaf) => stack.push(*leaf)?,
                    None => return Ok(None),
                }
                continue;
            };
            let start = stack.len().checked_sub(body_of(grammar, *rule).len());
            let (Some(start), Some(left)) = (start, left_of(grammar, *rule)) else {
                return Ok(None);
            };
            let children = stack.get(start..).unwrap_or(&[]);
            let tree = self.add(left, Some(*rule), children, false)?;
            stack.truncate(start);
            stack.push(tree)?;
        }
        if stack.len() == 1 {
            Ok(stack.pop())
        } else {
            Ok(None)
        }
    }

    /// Whether two trees are equal; trees with more than so many nodes never are.
    pub fn are_equal(&self, alloc: Global, one: usize, other: usize) -> Made<bool> {
        let mut open = Vec::new(alloc);
        open.push((one, other))?;
        for _ in 0..MOST_NODES {
            let Some((one, other)) = open.pop() else {
                return Ok(true);
            };
            if one != other {
                if !self.have_equal_roots(one, other) {
                    return Ok(false);
                }
                let theirs = self.children(other);
                for (place, child) in self.children(one).iter().enumerate() {
                    if let Some(their) = theirs.get(place).copied() {
                        open.push((*child, their))?;
                    }
                }
            }
        }
        Ok(false)
    }

    /// Whether the roots of two trees are equal, with as many children.
    fn have_equal_roots(&self, one: usize, other: usize) -> bool {
        match (self.node(one), self.node(other)) {
            (Some(ours), Some(theirs)) => {
                ours.symbol == theirs.symbol
                    && ours.rule == theirs.rule
                    && self.children(one).len() == self.children(other).len()
            }
            _ => false,
        }
    }

    /// How many leaves a tree has as it is drawn.
    fn width(&self, alloc: Global, tree: usize) -> Made<usize> {
        let mut open = Vec::new(alloc);
        open.push(tree)?;
        let mut width: usize = 0;
        for _ in 0..MOST_NODES {
            let Some(tree) = open.pop() else {
                break;
            };
            if self.node(tree).is_some_and(|node| node.stands) {
                width = width.saturating_add(1);
            } else {
                open.extend_from_slice(self.children(tree))?;
            }
        }
        Ok(width)
    }

    /// The least trees in which two trees of one sentence differ, and how many leaves stand before
    /// these: it goes down from two with equal roots to their children, where two of these differ.
    pub fn least(&self, alloc: Global, both: (usize, usize)) -> Made<(usize, usize, usize)> {
        let (mut least, mut leaves) = (both, 0usize);
        for _ in 0..MOST_NODES {
            if !self.have_equal_roots(least.0, least.1) {
                break;
            }
            let (mut found, mut count, mut before) = (least, 0usize, leaves);
            let mut at = leaves;
            let others = self.children(least.1);
            for (place, one) in self.children(least.0).iter().enumerate() {
                let other = others.get(place).copied().unwrap_or(*one);
                if !self.are_equal(alloc, *one, other)? {
                    found = (*one, other);
                    before = at;
                    count = count.saturating_add(1);
                }
                at = at.saturating_add(self.width(alloc, *one)?);
            }
            if count != 1 {
                break;
            }
            least = found;
            leaves = before;
        }
        Ok((least.0, least.1, leaves))
    }
}
