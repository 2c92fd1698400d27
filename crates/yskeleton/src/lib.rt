//! The texts of a parser in C and of its header, and what those of one in C++ have in common with
//! them.
//!
//! `words`, `begin`, `machine`, `errors` and `traces` have the fixed texts, which read the arrays
//! of `ycode` as its definitions say, with conditions that `template` knows; `tables` writes the
//! arrays, `numbering` has the numbers of tokens, and `lists` what is needed for lists as bison has
//! them; `spoken` has messages for errors, and `strings` writes texts within strings of C. `style`
//! says how the parser looks; `references` finds the values and places that actions name, `scene` says where they
//! stand, `misuse` finds those that are misused, `actions` writes them, and `code` what the file
//! has; `dialect` tells files of bison by what these name; `declared` has tokens and types, `calls`
//! functions with their parameters, `push` those of a parser into which tokens are pushed, `cares`
//! what is done with values. `parser` puts all together for a `skeleton`.
#![tactic(auto)]

mod actions;
mod arrays;
mod begin;
mod calls;
mod cares;
mod code;
mod declared;
mod dialect;
mod errors;
mod lists;
mod machine;
mod misuse;
mod numbering;
mod parser;
mod push;
mod references;
mod scene;
mod skeleton;
mod spoken;
mod strings;
mod style;
mod tables;
mod template;
mod traces;
mod words;

pub use arrays::type_of;
pub use calls::put_flat;
pub use declared::{CToken, MEMBERS, in_c, is_c_name};
pub use dialect::is_of_bison;
pub use errors::{EXPECTED, WAYS};
pub use lists::default_rules;
pub use misuse::{Meant, Misused, has_signs};
pub use numbering::Numbering;
pub use references::{Dialect, Piece, Reference, Whose, names_one, piece_at};
pub use scene::{Misuse, meant_in};
pub use skeleton::Skeleton;
pub use spoken::{Speech, Spoken};
pub use style::{Mode, Style, Wishes, style_of};
pub use tables::{READING, Spelled};
