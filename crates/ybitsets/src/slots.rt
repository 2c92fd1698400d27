//! Where rows may go: the slots that are taken, 64 to a word. No contract says more of what is
//! found here than its bounds: whoever writes a row looks at the owners.

ghost use Rattle.std.specs.Prelude.{◌<◌, ◌≤◌, ◌+◌, ◌^◌, All, length};

use std::alloc::{AllocError, Global};
use std::collections::HashMap;
use ysymbols::let_go;

/// Bits in each word.
const BITS: usize = 64;

/// The slots that are taken.
pub(crate) struct Slots {
    words: Vec<u64>,
    /// How many words at the front are full.
    full: usize,
    /// The last displacement of each set of columns, by a hash of the set.
    last: HashMap<u64, usize>,
}

impl Drop for Slots {
    fn drop(self) {
        let_go!(self: Slots { words, full, last });
    }
}

/// The 64 bits from `at` on.
fn window(words: &[u64], at: usize) -> u64 {
    let word = at / BITS;
    let low = words.get(word).copied().unwrap_or(0) >> (at % BITS);
    let high = words.get(word + 1).copied().unwrap_or(0);
    low | (high << 1 << (BITS - 1 - at % BITS))
}

/// For each of the 64 displacements from `d` on a bit: set where some column meets a slot that is
/// taken.
pub(crate) fn blocked(words: &[u64], columns: &[usize], d: usize) -> u64
    requires near { d < 2 ^ 63 }
    requires columns { All (λ t. t < 2 ^ 63) columns.now }
{
    let mut blocked = 0;
    for t in columns {
        blocked |= window(words, d + *t);
        if blocked == u64::MAX {
            return blocked;
        }
    }
    blocked
}

/// A hash of a set of columns.
fn hash_of(columns: &[usize]) -> u64 {
    let mut hash: u64 = 0xcbf2_9ce4_8422_2325;
    for t in columns {
        hash = (hash ^ *t as u64).wrapping_mul(0x100_0000_01b3);
    }
    hash
}

impl Slots {
    /// No slot is taken.
    pub(crate) fn new(alloc: Global) -> Slots {
        Slots {
            words: Vec::new(alloc),
            full: 0,
            last: HashMap::new(alloc),
        }
    }

    /// The words of bits: slot `k` is bit `k % 64` of word `k / 64`.
    pub(crate) fn words(&self) -> &[u64] {
        self.words.as_slice()
    }

    /// A displacement below which these columns do not fit: that of the last row with the same
    /// columns, or the one that brings the first column to the first free slots.
    pub(crate) fn start(&self, columns: &[usize]) -> usize {
        let Some(first) = columns.first() else {
            return 0;
        };
        let last = self.last.get(&hash_of(columns)).copied().unwrap_or(0);
        let free = self.full.saturating_mul(BITS).saturating_sub(*first);
        last.max(free)
    }

    /// Marks one slot.
    fn mark(&mut self, at: usize) -> Result<(), AllocError> {
        while self.words.len() <= at / BITS {
            self.words.push(0)?;
        }
        self.words[at / BITS] |= 1 << (at % BITS);
        Ok(())
    }

    /// Marks the slots of these columns at a displacement. It fails only when memory runs out.
    pub(crate) fn take(&mut self, columns: &[usize], d: usize) -> Result<(), AllocError>
        requires near { d < 2 ^ 63 }
        requires columns { All (λ t. t < 2 ^ 63) columns.now }
    {
        for t in columns {
            self.mark(d + *t)?;
        }
        while self.full < self.words.len() && self.words[self.full] == u64::MAX {
            self.full += 1;
        }
        if !columns.is_empty() {
            self.last.insert(hash_of(columns), d)?;
        }
        Ok(())
    }
}
