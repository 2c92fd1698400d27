//! The tokens that can come over the states of a stack, each tried within a number of reductions.

use std::alloc::Global;
use yexplain::reads::{Made, grammar_of};
use ylalr::token_count;
use yparse::expected::{Outlook, Trial, outlook_over};
use ysymbols::{Sym, let_go};
use ytables::Tables;

/// The most reductions after which a trial of one token tells whether it can come.
const MOST_REDUCTIONS: usize = 100_000;
/// The most reductions that the trials of all tokens make together.
const MOST_OF_ALL: usize = 10_000_000;

/// The tokens that can come, and those of which it takes too many reductions to tell: more than
/// 100,000 for one token, or 10,000,000 for all that were tried up to it.
pub struct Wanted {
    /// The tokens that can come, by number.
    pub can: Vec<Sym>,
    /// The tokens that take too many reductions, by number.
    pub unknown: Vec<Sym>,
}

impl Drop for Wanted {
    // A call in each owner, which keeps their proofs short.
    fn drop(self) {
        let_go!(self: Wanted { can, unknown });
    }
}

/// The tokens that can come over these states, the first state of all at the bottom, `error` not
/// among them. The trials make so many reductions at most, and those that they make are taken from
/// that number.
pub fn expected_within(
    alloc: Global,
    tables: &Tables,
    states: &[usize],
    left: &mut usize,
) -> Made<Wanted> {
    let (mut can, mut unknown) = (Vec::new(alloc), Vec::new(alloc));
    for token in 0..token_count(grammar_of(tables)) {
        // one reduction more shows that there are too many
        let most = MOST_REDUCTIONS.min(*left).saturating_add(1);
        let tried = outlook_over(alloc, tables, states, token, most)?;
        let Trial {
            outlook,
            reductions,
        } = tried;
        *left = left.saturating_sub(reductions);
        match outlook {
            Outlook::Expected => can.push(token)?,
            Outlook::Unexpected => {}
            Outlook::Untold => unknown.push(token)?,
        }
    }
    Ok(Wanted { can, unknown })
}

/// The same, with at most 10,000,000 reductions.
pub fn expected(alloc: Global, tables: &Tables, states: &[usize]) -> Made<Wanted> {
    let mut left = MOST_OF_ALL;
    expected_within(alloc, tables, states, &mut left)
}
