//! `ydebug page`: one HTML file that shows a parse step by step, forward and back.
//!
//! `walk` makes the steps that are shown and `record` keeps them; `table`, `input`, `cells` and
//! `cards` have what else the page says of the grammar and the parse, `data` all of it. `frame`,
//! `style` and the script, in `script`, `shown`, `trees` and `moves`, are the page itself, and
//! `page` writes it.
#![tactic(auto)]

mod cards;
mod cells;
mod data;
mod frame;
mod input;
mod moves;
pub mod page;
mod record;
mod script;
mod shown;
mod style;
mod table;
mod trees;
pub mod walk;
