//! The most usual of some values.

ghost use Rattle.std.specs.Prelude.{ℕ, ◌≡◌, ◌<◌, ◌≤◌, Some, None, IfOk, slice_index_or};
ghost use Rattle.ycode.specs.Usual.{commonest, counts_in, greatest_place, most_usual, where_some};

use std::alloc::{AllocError, Global};

/// The value that most places have: among equals the one that comes to so many places first; 0
/// where no place has one. Each is below `bound`.
pub fn most_usual(
    alloc: Global,
    values: &[Option<usize>],
    bound: usize,
) -> Result<usize, AllocError>
    requires { (i n : ℕ) → slice_index_or values.now i None ≡ Some n → n < bound }
    ensures value { IfOk result (λ n. n ≡ most_usual values.now) }
    ensures below { IfOk result (λ n. 0 < bound → n < bound) }
    ensures most { IfOk result (λ n. n ≤ bound) }
{
    let mut counts: Vec<usize> = vec![in alloc; 0; bound]?;
    let mut usual = 0;
    for i in 0..values.len() {
        if let Some(n) = values[i] {
            counts[n] += 1;
            if counts[usual] < counts[n] {
                usual = n;
            }
        }
    }
    Ok(usual)
}

/// How many places have each value below `bound`.
fn counts(alloc: Global, values: &[Option<usize>], bound: usize) -> Result<Vec<usize>, AllocError>
    requires { (i n : ℕ) → slice_index_or values.now i None ≡ Some n → n < bound }
    ensures { IfOk result (λ v. v.items ≡ counts_in bound values.now) }
{
    let mut counts: Vec<usize> = vec![in alloc; 0; bound]?;
    for i in 0..values.len() {
        if let Some(n) = values[i] {
            counts[n] += 1;
        }
    }
    Ok(counts)
}

/// The place of the greatest number, the first of equals.
fn greatest_place(numbers: &[usize]) -> usize
    ensures { result ≡ greatest_place numbers.now }
{
    let mut best = 0;
    for i in 0..numbers.len() {
        if numbers[best] < numbers[i] {
            best = i;
        }
    }
    best
}

/// The place, where a number other than 0 stands there.
fn where_some(numbers: &[usize], k: usize) -> Option<usize>
    ensures { result ≡ where_some numbers.now k }
{
    if k < numbers.len() && 0 < numbers[k] {
        Some(k)
    } else {
        None
    }
}

/// The value that most places have, the least of equals, where one has any. Each is below `bound`.
pub fn commonest(
    alloc: Global,
    values: &[Option<usize>],
    bound: usize,
) -> Result<Option<usize>, AllocError>
    requires { (i n : ℕ) → slice_index_or values.now i None ≡ Some n → n < bound }
    ensures { IfOk result (λ o. o ≡ commonest bound values.now) }
{
    let found = counts(alloc, values, bound)?;
    Ok(where_some(&found, greatest_place(&found)))
}
