//! The reader of grammar files: from bytes it makes the grammar that they mean, or finds their
//! first fault. What the declarations of a file say is that of `ydeclarations`, and the value of a
//! grammar that of `ysymbols`.
#![tactic(auto)]

mod checks;
mod elaboration;
mod holders;
mod lines;
mod numbers;
mod parsed;
mod reader;
mod refusals;
mod rules;
mod tokens;
mod unmarked;

pub use reader::{Mapped, read_grammar, read_mapped, read_placed};
pub use ysymbols::limits::LONGEST_FILE;
pub use ysymbols::{Associativity, Grammar, Precedence, Rule, Sym};
pub use ysyntax::fault::{GrammarFault, PlacedFault};
pub use ysyntax::{Mark, Role};
