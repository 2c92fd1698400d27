//! What is drawn of a derivation: its symbols from left to right, each after the one above it, and
//! where the conflict is.

use std::alloc::Global;
use yambiguity::trees::Trees;
use yexplain::reads::Made;
use ysymbols::Sym;

/// The most items that are drawn.
const MOST_ITEMS: usize = 1_000;

/// A derivation: a tree, with a conflict after so many of its leaves.
#[derive(Clone, Copy, Drop)]
pub struct Derivation {
    /// The tree.
    pub tree: usize,
    /// How many leaves stand before the conflict.
    pub dot: usize,
    /// Whether the next leaf is shifted there; else a rule is reduced.
    pub is_shift: bool,
}

/// What an item shows.
#[derive(Clone, Copy, Drop, PartialEq, Eq)]
pub enum Shown {
    /// A symbol.
    Symbol(Sym),
    /// That a body has no symbols.
    Empty,
    /// The place of the conflict.
    Dot,
}

/// An item.
#[derive(Clone, Copy, Drop)]
pub struct Item {
    /// What it shows.
    pub shown: Shown,
    /// The item above it; the first one stands above itself.
    pub above: usize,
    /// How many items stand above it.
    pub level: usize,
    /// The rule by which others stand below it.
    pub rule: Option<usize>,
    /// Whether it is the first one below that above it.
    pub is_first: bool,
    /// How many stand right below it.
    count: usize,
}

/// What is still to be done.
#[derive(Clone, Copy, Drop)]
enum Visit {
    /// A tree comes below an item.
    Open(usize, usize),
    /// All below an item is there.
    Close(usize),
}

/// A walk over a tree from left to right.
#[derive(Drop)]
struct Walk<'a> {
    trees: &'a Trees,
    derivation: Derivation,
    items: Vec<Item>,
    open: Vec<Visit>,
    leaves: usize,
    has_dot: bool,
}

impl Walk<'_> {
    /// Adds an item below another.
    fn add(&mut self, shown: Shown, above: usize, rule: Option<usize>) -> Made<()> {
        let (mut level, mut is_first) = (0usize, true);
        if let Some(item) = self.items.get_mut(above) {
            level = item.level.saturating_add(1);
            is_first = item.count == 0;
            item.count = item.count.saturating_add(1);
        }
        self.items.push(Item {
            shown,
            above,
            level,
            rule,
            is_first,
            count: 0,
        })?;
        Ok(())
    }

    /// Adds the place of the conflict below an item.
    fn add_dot(&mut self, above: usize) -> Made<()> {
        self.has_dot = true;
        self.add(Shown::Dot, above, None)
    }

    /// Whether the walk stands at the conflict, and its place wasn't added.
    fn is_there(&self) -> bool {
        !self.has_dot && self.leaves == self.derivation.dot
    }

    /// Adds a tree below an item.
    fn enter(&mut self, tree: usize, above: usize) -> Made<()> {
        let trees = self.trees;
        let Some(node) = trees.node(tree) else {
            return Ok(());
        };
        let shown = Shown::Symbol(node.symbol);
        if node.stands {
            if self.derivation.is_shift && self.is_there() {
                self.add_dot(above)?;
            }
            self.leaves = self.leaves.saturating_add(1);
            return self.add(shown, above, None);
        }
        let item = self.items.len();
        self.add(shown, above, node.rule)?;
        self.open.push(Visit::Close(item))?;
        if trees.children(tree).is_empty() {
            return self.add(Shown::Empty, item, None);
        }
        for child in trees.children(tree).iter().rev() {
            self.open.push(Visit::Open(*child, item))?;
        }
        Ok(())
    }

    /// All below an item is there: the first rule that is complete at the conflict is reduced.
    fn leave(&mut self, item: usize) -> Made<()> {
        if self.is_there() && (item == 0 || !self.derivation.is_shift) {
            self.add_dot(item)?;
        }
        Ok(())
    }
}

/// The items of a derivation, from left to right, the upper ones first; of a large one only some.
pub fn items_of(alloc: Global, trees: &Trees, derivation: Derivation) -> Made<Vec<Item>> {
    let mut walk = Walk {
        trees,
        derivation,
        items: Vec::new(alloc),
        open: Vec::new(alloc),
        leaves: 0,
        has_dot: false,
    };
    walk.open.push(Visit::Open(derivation.tree, 0))?;
    for _ in 0..MOST_ITEMS {
        match walk.open.pop() {
            Some(Visit::Open(tree, above)) => walk.enter(tree, above)?,
            Some(Visit::Close(item)) => walk.leave(item)?,
            None => break,
        }
    }
    let Walk { items, .. } = walk;
    Ok(items)
}
