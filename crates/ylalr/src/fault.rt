//! The faults of `build`.

use std::alloc::AllocError;
use thiserror::Error;

/// Why there is no automaton.
#[derive(Debug, Drop, Error)]
pub enum BuildFault {
    /// B1: the grammar has more than 16,384 states.
    #[error("too many item sets")]
    TooManySets,
    /// B2: memory ran out.
    #[error("no memory")]
    Memory,
}

impl From<AllocError> for BuildFault {
    ghost use Rattle.std.specs.Prelude.{◌≡◌};
    ghost use Rattle.ylalr.specs.declared.fault.BuildFault.{BuildFault};

    ghost from_gives = { λ _ f. f ≡ BuildFault.Memory };

    fn from(_: AllocError) -> BuildFault {
        BuildFault::Memory
    }
}
