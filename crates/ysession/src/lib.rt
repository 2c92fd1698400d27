//! Sessions: a parse that goes forward and backward, what it shows, and its unwinding; and the
//! verdict on a list of tokens: whether it is a sentence, and how many steps its parse takes; and
//! which tokens could come next.
#![tactic(auto)]

pub mod expected;
pub mod session;
mod shown;
pub mod states;
mod unwind;
mod verdict;

pub use session::Session;
pub use verdict::{JudgeFault, Verdict, judge};
