//! Tests of sessions and programs that need code: forms and trees that are refused, after which the
//! session goes on; a journal over snapshots; tokens that fit other tables; sessions over a writer
//! in memory that has no buffer, and refuses a call; programs over texts in memory; the folder of
//! the file system over files of which a call refuses.
#![tactic(auto)]

#[cfg(test)]
mod closed;
#[cfg(test)]
mod drive;
#[cfg(test)]
mod flushed;
#[cfg(test)]
mod forms;
#[cfg(test)]
mod in_memory;
#[cfg(test)]
mod made;
#[cfg(test)]
mod snapshots;
#[cfg(test)]
mod tokens;
