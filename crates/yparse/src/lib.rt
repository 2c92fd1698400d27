//! Parses: sessions, verdicts, and what callers need of the machine and of tokens.
#![tactic(auto)]

pub use ymachine::{
    Journal, PlaceChange, PlaceParser, Reversible, SnapshotChange, SnapshotParser, TreeNode,
    TreeView, View, machine,
};
pub use ysession::{JudgeFault, Session, Verdict, expected, judge, session, states};
pub use ytokens::{TokenFault, Tokens, read_tokens};
