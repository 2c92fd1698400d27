//! The numbers of the tokens: their own, and for the others the least unused from 257 on.

ghost use Rattle.std.specs.Prelude.{◌≡◌, ◌<◌, ◌≤◌, ◌+◌, ℕ, IfOk, length, false, max};
ghost use Rattle.std.specs.Prelude.{slice_index_or, true};
ghost use Rattle.ysymbols.specs.Grammar.{most_symbols, number_bound};
ghost use Rattle.ygrammar.specs.Numbers.{AreNumbers, AreHolders, is_held};
ghost use Rattle.ygrammar.specs.declared.holders.Holders.TheVariants.{Nobody};

use crate::holders::Holders;
use std::alloc::{AllocError, Global};

/// The least number from `from` on that no token holds.
fn next_free(holders: &[Holders], from: u32) -> u32
    requires low { from ≤ number_bound + most_symbols }
    requires few { length holders.now ≤ number_bound }
    ensures from { from ≤ result }
    ensures bound { result ≤ max from (length holders.now) }
    ensures free { is_held (slice_index_or holders.now result Nobody) ≡ false }
    ensures least { (u : ℕ) → from ≤ u → u < result →
        is_held (slice_index_or holders.now u Nobody) ≡ true }
{
    let mut number = from;
    while (number as usize) < holders.len() && holders[number as usize].is_held() {
        number += 1;
    }
    number
}

/// The numbers of the tokens: their own, or else the least that is free from 257 on. It fails only
/// when memory runs out.
pub fn numbers(
    alloc: Global,
    own: &[Option<u32>],
    holders: &[Holders],
) -> Result<Vec<u32>, AllocError>
    requires held { AreHolders (length holders.now) own.now holders.now }
    requires bound { length holders.now ≤ number_bound }
    requires few { length own.now ≤ most_symbols }
    ensures { IfOk result (λ v. AreNumbers own.now v.items) }
{
    let mut given = Vec::new(alloc);
    let mut cursor: u32 = 257;
    for one in own {
        match one {
            Some(number) => given.push(*number)?,
            None => {
                let number = next_free(holders, cursor);
                given.push(number)?;
                cursor = number + 1;
            }
        }
    }
    Ok(given)
}
