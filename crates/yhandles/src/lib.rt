//! Sessions behind handles that C can hold: each call goes on from where the last one left.
#![tactic(auto)]

// What is made of the session behind a handle, which is put back; `None` where there is none.
macro_rules! of_held {
    ($alloc:ident, $handle:ident, |$held:ident| $answer:expr) => {
        match $handle.take($alloc) {
            Some(mut $held) => {
                let answer = $answer;
                $handle.put($alloc, $held);
                Some(answer)
            }
            None => None,
        }
    };
}

pub mod expected;
pub mod handle;
pub mod moves;
pub mod stands;
pub mod texts;
pub mod travel;

pub use handle::Handle;
pub use moves::{Move, Refusal};
