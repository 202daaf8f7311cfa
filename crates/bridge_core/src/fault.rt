//! Why lanes and cores refuse.

use std::alloc::{AllocError, AllocFailed};
use thiserror::Error;

/// Why an item is refused.
#[derive(Clone, Copy, Debug, PartialEq, Eq, Error)]
pub enum LaneFault {
    /// 2^64 - 1 items were handled.
    #[error("2^64 - 1 items were handled")]
    Spent,
    #[error("out of memory")]
    OutOfMemory,
}

impl From<AllocError> for LaneFault {
    ghost use Rattle.std.specs.Prelude.{◌≡◌};
    ghost use Rattle.bridge_core.specs.declared.fault.LaneFault.TheVariants.{OutOfMemory};

    ghost from_gives = { λ _ e. e ≡ OutOfMemory };

    fn from(_error: AllocError) -> LaneFault {
        LaneFault::OutOfMemory
    }
}

impl<T: Drop> From<AllocFailed<T>> for LaneFault {
    ghost use Rattle.std.specs.Prelude.{◌≡◌};
    ghost use Rattle.bridge_core.specs.declared.fault.LaneFault.TheVariants.{OutOfMemory};

    ghost from_gives = { λ _ e. e ≡ OutOfMemory };

    fn from(_error: AllocFailed<T>) -> LaneFault {
        LaneFault::OutOfMemory
    }
}

/// Why a core is not made. The first that holds is reported.
#[derive(Clone, Copy, Debug, PartialEq, Eq, Error)]
pub enum CoreFault {
    /// The number of lanes is not 1 to 16.
    #[error("the number of lanes is not 1 to 16")]
    BadLanes,
    /// The canonical name does not have 1 to 255 octets.
    #[error("the canonical name does not have 1 to 255 octets")]
    BadSettings,
    #[error("out of memory")]
    OutOfMemory,
}
