//! The faults of tables.

use std::alloc::AllocError;
use thiserror::Error;

/// Why there are no tables, or why a text of them was cut off.
#[derive(Clone, Copy, Debug, PartialEq, Eq, Drop, Error)]
pub enum TableFault {
    /// T1: memory ran out.
    #[error("no memory")]
    Memory,
    /// T2: the link failed, after a beginning of the text.
    #[error("write fault")]
    Write,
}

impl From<AllocError> for TableFault {
    ghost use Rattle.std.specs.Prelude.{◌≡◌};
    ghost use Rattle.ytables.specs.declared.fault.TableFault.{TableFault};

    ghost from_gives = { λ _ f. f ≡ TableFault.Memory };

    fn from(_: AllocError) -> TableFault {
        TableFault::Memory
    }
}
