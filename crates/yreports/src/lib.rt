//! The report on the conflicts of a grammar, with what else deserves a warning.
//!
//! `blocks` has the conflicts of one state between the same rivals together (written by
//! `block_text`), `ambiguity` whole sentences for their rivals (written by `ambiguity_text`),
//! `offer` whether hints are offered, `also` what else a hint settles, `lost` which sentences a
//! choice loses (of few tokens: `short`), `leading` the items of a
//! state that lead to a shift, `numbers` the numbers of conflicts, `causes` what many have in
//! common, found by changes that are tried on all cells (`tried`) and by tables without a rule that
//! others cover (`covered`), and `splitting` what mends a conflict of merged states. Changed grammars
//! are those of `ymends`, as are idioms. Lists of tokens are written and kept by `ylists`. `brief`
//! has the blocks in short.
#![tactic(auto)]

pub mod also;
pub mod ambiguity;
mod ambiguity_text;
mod block_text;
pub mod blocks;
pub mod brief;
mod cause_text;
pub mod causes;
pub mod covered;
mod leading;
pub mod lost;
mod numbers;
pub mod offer;
pub mod report;
mod short;
pub mod splitting;
mod tried;
mod unused;
pub mod warnings;
