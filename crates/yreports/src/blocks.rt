//! Conflicts in blocks: those of one state between the same rivals, with what settled them.

use std::alloc::Global;
use yexplain::advice::Deed;
use yexplain::lines::Lines;
use yexplain::reads::Made;
use yexplain::why::{Question, Settled};
use yfiles::category::{Categories, Category};
use ysearch::groups::{Conflicts, Group, Kind};
use ysymbols::{Sym, let_go};
use ytables::Tables;

/// The most kinds that are put into blocks.
const MOST_KINDS: usize = 2_000;

/// With so many blocks no further state is begun.
const MOST_BLOCKS: usize = 200;

/// A kind of conflict, by its number among all kinds, from 0 on.
#[derive(Clone, Copy, Drop)]
pub struct Entry {
    /// The number.
    pub number: usize,
    /// What the conflict is.
    pub kind: Kind,
    /// Its cells.
    pub group: Group,
}

/// What came of a choice on sentences that are accepted without it.
#[derive(Drop)]
pub struct Loss {
    /// The choice.
    pub deed: Deed,
    /// What makes it: the word of lines of precedence, or this rule in front.
    pub word: &'static str,
    pub rule: Option<usize>,
    /// On how many sentences it was tried, which are all of up to so many tokens.
    pub short: usize,
    pub most: usize,
    /// On how many longer ones.
    pub longer: usize,
    /// How many of all these it refuses, and the first of them.
    pub lost: usize,
    pub first: Vec<Sym>,
}

/// Conflicts of a block that are settled in one way.
pub struct Class {
    /// The conflicts.
    pub entries: Vec<Entry>,
    /// How their cells are settled.
    pub settled: Settled,
    /// The conflicts, by their numbers, that the hint for the first of these settles beside it.
    pub also: Vec<usize>,
    /// What came of the choices that the hint offers, on sentences.
    pub losses: Vec<Loss>,
}

impl Drop for Class {
    // A call in each owner, which keeps their proofs short.
    fn drop(self) {
        let_go!(self: Class { entries, settled, also, losses });
    }
}

/// Conflicts of one state between the same rivals.
pub struct Block {
    /// The first of them.
    pub first: Entry,
    /// All of them, by their reasons; the first one stands first.
    pub classes: Vec<Class>,
}

impl Drop for Block {
    // A call in each owner, which keeps their proofs short.
    fn drop(self) {
        let_go!(self: Block { first, classes });
    }
}

/// The blocks of the first states.
pub struct Blocks {
    /// In the order of the states.
    pub list: Vec<Block>,
    /// How many kinds, from the first on, stand in them.
    pub kinds: usize,
}

impl Drop for Blocks {
    // A call in each owner, which keeps their proofs short.
    fn drop(self) {
        let_go!(self: Blocks { list, kinds });
    }
}

impl Entry {
    /// Its first cell.
    pub fn cell<'a>(&self, tables: &'a Tables, lines: &'a Lines) -> Question<'a> {
        self.kind.cell(self.group, tables, lines)
    }

    /// Whether another conflict stands in the same state.
    pub fn is_beside(&self, other: &Entry) -> bool {
        self.group.state == other.group.state
    }

    /// Whether another conflict stands in the same states between the same rivals.
    fn is_alike(&self, other: &Entry) -> bool {
        let (ours, theirs) = (self.group, other.group);
        self.is_beside(other)
            && ours.states == theirs.states
            && ours.last == theirs.last
            && self.kind.shift == other.kind.shift
            && self.kind.rivals == other.kind.rivals
            && self.kind.rules() == other.kind.rules()
    }
}

impl Block {
    /// Adds a conflict to the class that is settled as it is, which is begun where there is none.
    fn add(&mut self, alloc: Global, entry: Entry, settled: Settled) -> Made<()> {
        for class in self.classes.iter_mut() {
            if class.settled == settled {
                class.entries.push(entry)?;
                return Ok(());
            }
        }
        self.classes.push(Class {
            entries: Vec::from_slice(alloc, &[entry])?,
            settled,
            also: Vec::new(alloc),
            losses: Vec::new(alloc),
        })?;
        Ok(())
    }
}

impl Blocks {
    /// How many groups conflicts are shown in: the blocks, or the kinds where these are too many.
    pub fn groups(&self, found: &Conflicts) -> usize {
        if self.kinds < found.groups.len() {
            found.groups.len()
        } else {
            self.list.len()
        }
    }

    /// The place of the block of a conflict, which is begun where there is none.
    fn place(&mut self, alloc: Global, entry: Entry) -> Made<usize> {
        for (place, block) in self.list.iter().enumerate() {
            if block.first.is_alike(&entry) {
                return Ok(place);
            }
        }
        let place = self.list.len();
        self.list.push(Block {
            first: entry,
            classes: Vec::new(alloc),
        })?;
        Ok(place)
    }

    /// Adds a conflict.
    fn add(&mut self, alloc: Global, entry: Entry, settled: Settled) -> Made<()> {
        let place = self.place(alloc, entry)?;
        self.kinds = self.kinds.saturating_add(1);
        match self.list.get_mut(place) {
            Some(block) => block.add(alloc, entry, settled),
            None => Ok(()),
        }
    }
}

/// The category of a kind of conflict.
pub fn category_of(kind: &Kind) -> Category {
    if kind.shift {
        Category::ConflictsSr
    } else {
        Category::ConflictsRr
    }
}

/// Conflicts without the kinds that aren't of these categories.
pub fn shown_of(alloc: Global, found: Conflicts, shown: Categories) -> Made<Conflicts> {
    let mut found = found;
    let mut groups = Vec::new(alloc);
    for group in &found.groups {
        if shown.has(category_of(&group.0)) {
            groups.push(*group)?;
        }
    }
    found.groups = groups;
    Ok(found)
}

/// The blocks of the first states.
pub fn blocks_of(alloc: Global, tables: &Tables, lines: &Lines, found: &Conflicts) -> Made<Blocks> {
    let mut blocks = Blocks {
        list: Vec::new(alloc),
        kinds: 0,
    };
    for (kind, group) in found.groups.iter().take(MOST_KINDS) {
        let entry = Entry {
            number: blocks.kinds,
            kind: *kind,
            group: *group,
        };
        let is_begun = match blocks.list.last() {
            Some(block) => block.first.is_beside(&entry),
            None => false,
        };
        if blocks.list.len() >= MOST_BLOCKS && !is_begun {
            break;
        }
        blocks.add(alloc, entry, entry.cell(tables, lines).settled())?;
    }
    Ok(blocks)
}
