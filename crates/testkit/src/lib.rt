//! What tests share: a writer that fails where a test says, worked sessions, and long texts.
#![tactic(auto)]

pub mod devices;
pub mod texts;
pub mod worked;
