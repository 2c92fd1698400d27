//! What a grammar file says of its parser beside its tables: code, tags, actions, the names of
//! their values, and the wishes of directives.
//!
//! `parts` has the forms. `native` finds them in a file that `yacc` reads, by its source map, and
//! `foreign` in one of byacc or bison, by the lexemes of its import (`gather`): `words` knows the
//! directives, `defines` the variables of `%define`, `params` what stands in a list of parameters,
//! and `bodies` the names of values, which it lends.
#![tactic(auto)]

pub mod bodies;
mod declared;
pub mod defines;
pub mod foreign;
mod gather;
pub mod native;
pub mod options;
pub mod params;
pub mod parts;
pub mod refusal;
mod versions;
mod words;
