//! Slots of which some are taken, 64 to a word, so that 64 displacements are looked at together.

ghost use Rattle.std.specs.Prelude.{ℕ, ◌≡◌, ◌<◌, ◌≤◌, ◌+◌, ◌^◌, ◌⊎◌, All, OnOk, slice_index};
ghost use Rattle.std.specs.Prelude.{vec_len};
ghost use Rattle.std.specs.Int.{bit_at};
ghost use Rattle.ycode.specs.Slots.{IsTaken, MeetsTaken, IsMoved};

use std::alloc::AllocError;

/// Bits in each word.
const BITS: usize = 64;

/// Word `k`, or 0 past the end.
fn word_at(words: &[u64], k: usize) -> u64
    ensures value { result ≡ slice_index words.now k }
    ensures small { result < 2 ^ 64 }
{
    if k < words.len() { words[k] } else { 0 }
}

/// The bits of the 64 slots from `at` on.
fn window(words: &[u64], at: usize) -> u64
    ensures { (i : ℕ) → i < 64 → bit_at result i ≡ 1 → IsTaken words.now (at + i) }
{
    let low = word_at(words, at / BITS) >> (at % BITS);
    let high = word_at(words, at / BITS + 1);
    low | (high << 1 << (BITS - 1 - at % BITS))
}

/// For each of the 64 displacements from `d` on a bit: set only where some column meets a slot that
/// is taken.
pub fn blocked(words: &[u64], columns: &[usize], d: usize) -> u64
    requires near { d < 2 ^ 63 }
    requires columns { All (λ t. t < 2 ^ 63) columns.now }
    ensures bits { (i : ℕ) → i < 64 → bit_at result i ≡ 1
        → MeetsTaken words.now columns.now (d + i) }
    ensures small { result < 2 ^ 64 }
{
    let mut blocked = 0;
    for t in columns {
        blocked |= window(words, d + *t);
        if blocked == u64::MAX {
            return blocked;
        }
    }
    blocked
}

/// Adds words without taken slots, so that there are at least `count`.
fn grow(words: &mut Vec<u64>, count: usize) -> Result<(), AllocError>
    ensures same { (k : ℕ) → slice_index words.new.items k ≡ slice_index words.old.items k }
    ensures count { OnOk result (count ≤ vec_len words.new) }
{
    while words.len() < count {
        words.push(0)?;
    }
    Ok(())
}

/// Marks one slot as taken. It fails only when memory runs out.
pub fn mark(words: &mut Vec<u64>, at: usize) -> Result<(), AllocError>
    ensures { OnOk result ((i : ℕ) → IsTaken words.new.items i
        → (i ≡ at) ⊎ IsTaken words.old.items i) }
{
    grow(words, at / BITS + 1)?;
    words[at / BITS] |= 1 << (at % BITS);
    Ok(())
}

/// Marks the slots of these columns at a displacement. It fails only when memory runs out.
pub fn mark_all(words: &mut Vec<u64>, columns: &[usize], d: usize) -> Result<(), AllocError>
    requires near { d < 2 ^ 63 }
    requires columns { All (λ t. t < 2 ^ 63) columns.now }
    ensures { OnOk result ((i : ℕ) → IsTaken words.new.items i
        → IsMoved columns.now d i ⊎ IsTaken words.old.items i) }
{
    for t in columns {
        mark(words, d + *t)?;
    }
    Ok(())
}
