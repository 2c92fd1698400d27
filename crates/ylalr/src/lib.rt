//! The item sets of a grammar and their lookaheads: the merged canonical LR(1) items (Aho, Sethi,
//! Ullman, section 4.7).
//!
//! `build` goes one way. From the rules it finds which symbols vanish, what each begins with
//! (`first`), and which rules it leads to after a dot (`first_rules`). From these it makes the
//! states (`collection`), numbered as gotos find them. A state is its kernel, which a map numbers,
//! and the closure of that: a list of items by rule and dot. The items of a state, sorted by the
//! symbol after the dot (`buckets`), are the kernels of its gotos, and each state has a list of its
//! gotos by symbol (`gotos`).
//!
//! What one row passes on to another stands in rows of bits with links between them (`ybitsets`):
//! rows give along their links until none grows. A row that grew waits, at most once, until its
//! turn in a round; at first all wait, most in front of those to which they lead. So left sides
//! get the first tokens and the first rules of what their bodies can begin with (`fronts`).
//!
//! Lookaheads go the same way, one bit for each token. In each state, the items of one left side
//! with the dot at 0 share a row, since their lookaheads are the same; items of one left side with
//! equal symbols before the dot can share one too, and every other item has its own (`item_rows`,
//! `lefts`). What stands after the first symbol of a body is looked at once for its rule
//! (`behind`), since each state that has the rule with the dot at 0 needs it. One pass over the
//! items (`looks`) puts into the row of the left side after a dot what the form after it begins
//! with. It links an item's row to that of the item with its dot moved, in the state that the goto
//! leads to; and where the form after vanishes, to the row of the left side after its dot.
//!
//! A call whose result is named `_well_formed` is made only for its clause: the grammar is well
//! formed.
//!
//! Of the definitions in specs/, public clauses rest on `Collection`, `Gotos`, `Items` and `Sets`;
//! the others serve between modules.
#![tactic(auto)]

mod automaton;
mod behind;
mod buckets;
mod closure;
mod collection;
mod fault;
mod first;
mod first_rules;
mod fronts;
mod gotos;
mod item_rows;
mod items;
mod lefts;
mod looks;
mod states;
mod tokens;

pub use automaton::{Automaton, build};
pub use fault::BuildFault;
pub use items::Item;
pub use tokens::{END, ERROR, token_count};
