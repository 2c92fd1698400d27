//! The numbers of conflicts as they are written.

use std::io::Write;
use yview::page::Page;

/// The most ranges that are written.
const MOST_RANGES: usize = 20;

/// The numbers of conflicts on their way to a page: those that follow one another are a range.
#[derive(Drop)]
pub struct Ranges {
    /// What stands before the next range.
    front: &'static str,
    /// How many were written.
    count: usize,
    /// The first number of the range, 0 where none was begun.
    first: usize,
    /// Its last number.
    last: usize,
}

impl Ranges {
    /// Begins so many numbers, as in `conflicts 2 to 4, 7`.
    pub fn begin<W: Write>(page: &mut Page<W>, count: usize) -> Ranges {
        page.put(if count > 1 { "conflicts" } else { "conflict" });
        Ranges {
            front: " ",
            count: 0,
            first: 0,
            last: 0,
        }
    }

    /// Writes the range that was begun, where there is one.
    fn put<W: Write>(&mut self, page: &mut Page<W>) {
        let (front, first, last) = (self.front, self.first, self.last);
        if first > 0 && self.count < MOST_RANGES {
            page.put(front);
            page.number(first);
            if last > first {
                page.put(" to ");
                page.number(last);
            }
        }
        if first > 0 {
            self.front = ", ";
            self.count = self.count.saturating_add(1);
        }
        self.first = 0;
    }

    /// Takes the number of a conflict that is counted from 0; the report counts from 1.
    pub fn add<W: Write>(&mut self, page: &mut Page<W>, number: usize) {
        let number = number.saturating_add(1);
        if self.first == 0 || number != self.last.saturating_add(1) {
            self.put(page);
            self.first = number;
        }
        self.last = number;
    }

    /// Writes what is left, and dots where there were more ranges than are written.
    pub fn end<W: Write>(&mut self, page: &mut Page<W>) {
        self.put(page);
        if self.count > MOST_RANGES {
            page.put(", ..");
        }
    }
}
