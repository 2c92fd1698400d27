//! Derivations drawn: the symbols of a rule on the line below its left side, after an arrow and the
//! number of the rule, each above what is derived from it.

use crate::items::{Item, Shown};
use crate::manner::Manner;
use std::alloc::Global;
use yexplain::reads::Made;
use yfiles::output::Output;

/// Where a drawing begins.
const INDENT: usize = 4;

/// Where an item stands.
#[derive(Clone, Copy, Drop)]
struct Spot {
    /// How many columns it takes with all below it.
    width: usize,
    /// How many those below it take.
    below: usize,
    /// Where it begins.
    column: usize,
    /// Where the next one below it begins.
    next: usize,
}

/// How many digits a number has.
fn digits_of(number: usize) -> usize {
    let (mut count, mut rest) = (1usize, number);
    for _ in 0..20 {
        if rest < 10 {
            break;
        }
        rest /= 10;
        count = count.saturating_add(1);
    }
    count
}

impl Manner<'_> {
    /// How many columns an item itself takes.
    fn own_width(self, item: Item) -> usize {
        match item.shown {
            Shown::Symbol(symbol) => self.width(symbol),
            Shown::Empty => self.signs.empty.1,
            Shown::Dot => 1,
        }
    }

    /// How many columns come before those below an item: the arrow, and the number of its rule.
    fn front_width(self, item: Item) -> usize {
        let digits = digits_of(item.rule.unwrap_or(0));
        self.signs.arrow.1.saturating_add(digits).saturating_add(2)
    }

    /// Where items stand: the widths from below, and then the columns from above.
    fn spots_of(self, alloc: Global, items: &[Item]) -> Made<Vec<Spot>> {
        let none = Spot {
            width: 0,
            below: 0,
            column: INDENT,
            next: 0,
        };
        let mut spots = vec![in alloc; none; items.len()]?;
        for (place, item) in items.iter().enumerate().rev() {
            let mut width = self.own_width(*item);
            if let Some(spot) = spots.get_mut(place) {
                if spot.below > 0 {
                    width = width.max(self.front_width(*item).saturating_add(spot.below));
                }
                spot.width = width;
            }
            if let (Some(above), true) = (spots.get_mut(item.above), place > 0) {
                let space = usize::from(above.below > 0);
                above.below = above.below.saturating_add(space).saturating_add(width);
            }
        }
        for (place, item) in items.iter().enumerate() {
            let width = spots.get(place).map_or(0, |spot| spot.width);
            let mut column = INDENT;
            if let (Some(above), true) = (spots.get_mut(item.above), place > 0) {
                column = above.next;
                above.next = column.saturating_add(width).saturating_add(1);
            }
            if let Some(spot) = spots.get_mut(place) {
                spot.column = column;
                spot.next = column.saturating_add(self.front_width(*item));
            }
        }
        Ok(spots)
    }

    /// Writes an item.
    fn put_item(self, out: &mut Output, item: Item) {
        match item.shown {
            Shown::Symbol(symbol) => self.put_name(out, symbol),
            Shown::Empty => out.put(self.signs.empty.0),
            Shown::Dot => out.put(self.signs.dot),
        }
    }

    /// Draws the items of a derivation, each level on a line.
    pub fn draw(self, alloc: Global, out: &mut Output, items: &[Item]) -> Made<()> {
        let spots = self.spots_of(alloc, items)?;
        for level in 0..items.len() {
            let mut column = 0usize;
            for (place, item) in items.iter().enumerate() {
                let Some(spot) = spots.get(place) else {
                    continue;
                };
                if item.level != level {
                    continue;
                }
                let above = items.get(item.above).copied().unwrap_or(*item);
                let is_begun = item.is_first && level > 0;
                let front = if is_begun { self.front_width(above) } else { 0 };
                for _ in column..spot.column.saturating_sub(front) {
                    out.put(" ");
                }
                if is_begun {
                    out.put(self.signs.arrow.0);
                    out.number(above.rule.unwrap_or(0));
                    out.put(": ");
                }
                self.put_item(out, *item);
                column = spot.column.saturating_add(self.own_width(*item));
            }
            if column == 0 {
                break;
            }
            out.put("\n");
        }
        Ok(())
    }

    /// Writes the leaves of a derivation, and where the conflict is among them.
    pub fn put_leaves(self, out: &mut Output, items: &[Item]) {
        for item in items {
            if item.rule.is_none() && item.shown != Shown::Empty {
                out.put(" ");
                self.put_item(out, *item);
            }
        }
        out.put("\n");
    }
}
