//! Grammars: symbols by number, rules, and what every grammar keeps; marks and worklists over
//! rules.
#![tactic(auto)]

pub mod grammar;
pub mod limits;
pub mod names;
pub mod occurrences;
pub mod precedence;
pub mod productive;
pub mod reachable;
pub mod rule;
pub mod texts;
pub mod worklist;

/// Lets a value go field by field, in a `drop` of its own. Such a type costs each owner a call
/// alone, which keeps their proofs short.
#[macro_export]
macro_rules! let_go {
    ($value:ident: $kind:ident { $($field:ident),* }) => {
        let $kind { $($field: _),* } = $value;
    };
}

pub use grammar::Grammar;
pub use precedence::{Associativity, Precedence};
pub use rule::{Rule, Sym};
