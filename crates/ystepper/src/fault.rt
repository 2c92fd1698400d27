//! What can go wrong with the links of a session.

use thiserror::Error;

/// Why a session ended before the end of its input.
#[derive(Clone, Copy, Debug, PartialEq, Eq, Error)]
pub enum SessionFault {
    /// X1: the reader's link failed.
    #[error("read fault")]
    Read,
    /// X2: the writer's link failed.
    #[error("write fault")]
    Write,
}
