//! What waits with a length: the shortest is taken first, and of those the latest.

use std::alloc::Global;
use std::cmp::Reverse;
use std::collections::BinaryHeap;
use yexplain::reads::{Made, set};

/// A length that stands for none.
pub const FAR: u64 = u64::MAX;

/// Numbers that wait with their lengths.
#[derive(Drop)]
pub struct Queue {
    heap: BinaryHeap<(Reverse<u64>, usize)>,
}

/// Numbers with the least length that was found for each: the nearest one is taken first.
#[derive(Drop)]
pub struct Nearest {
    lengths: Vec<u64>,
    queue: Queue,
}

impl Queue {
    /// Nothing waits.
    pub fn new(alloc: Global) -> Queue {
        Queue {
            heap: BinaryHeap::new(alloc),
        }
    }

    /// A number waits with a length.
    pub fn put(&mut self, length: u64, number: usize) -> Made<()> {
        self.heap.push((Reverse(length), number))?;
        Ok(())
    }

    /// The least length.
    pub fn least(&self) -> Option<u64> {
        let least = self.heap.peek()?;
        let length = &least.0;
        Some(length.0)
    }

    /// The number of the least length, with it.
    pub fn take(&mut self) -> Option<(u64, usize)> {
        let (length, number) = self.heap.pop()?;
        Some((length.0, number))
    }
}

impl Nearest {
    /// So many numbers, and no length is found for any.
    pub fn new(alloc: Global, count: usize) -> Made<Nearest> {
        Ok(Nearest {
            lengths: vec![in alloc; FAR; count]?,
            queue: Queue::new(alloc),
        })
    }

    /// The length that was found for a number; `FAR` where none was.
    pub fn length(&self, number: usize) -> u64 {
        self.lengths.get(number).copied().unwrap_or(FAR)
    }

    /// Notes a length for a number, where that is shorter than what was found, and says whether.
    pub fn shorten(&mut self, number: usize, length: u64) -> Made<bool> {
        let is_shorter = length < self.length(number);
        if is_shorter {
            set(&mut self.lengths, number, length);
            self.queue.put(length, number)?;
        }
        Ok(is_shorter)
    }

    /// The nearest number that wasn't taken yet, with its length.
    pub fn take(&mut self) -> Option<(u64, usize)> {
        // ends: a number waits once for each time that its length became shorter
        for _ in 0..usize::MAX {
            let (length, number) = self.queue.take()?;
            if self.length(number) == length {
                return Some((length, number));
            }
        }
        None
    }
}
