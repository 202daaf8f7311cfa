//! Why a case can't be tried.

use hex::FromHexError;
use std::alloc::{AllocError, AllocFailed};
use std::num::ParseIntError;

/// Why a case can't be tried.
#[derive(Clone, Copy, Drop)]
pub enum Untried {
    /// It isn't written as a case of its kind.
    Malformed,
    OutOfMemory,
}

impl From<AllocError> for Untried {
    fn from(_error: AllocError) -> Untried {
        Untried::OutOfMemory
    }
}

impl<T: Drop> From<AllocFailed<T>> for Untried {
    fn from(_error: AllocFailed<T>) -> Untried {
        Untried::OutOfMemory
    }
}

impl From<ParseIntError> for Untried {
    fn from(_error: ParseIntError) -> Untried {
        Untried::Malformed
    }
}

impl From<FromHexError> for Untried {
    fn from(error: FromHexError) -> Untried {
        match error {
            FromHexError::OutOfMemory => Untried::OutOfMemory,
            _ => Untried::Malformed,
        }
    }
}
