//! How a bridge differs from the model.

use std::alloc::{AllocError, AllocFailed};
use udp_wire::FrontFault;

/// The first that a bridge does otherwise than the model. A number is a lane's.
#[derive(Clone, Copy, Debug)]
pub enum Difference {
    /// The program ran out of memory.
    Memory,
    /// The line of a script can't be read.
    Line,
    /// The bridge didn't begin.
    Begin,
    /// A round of the front had a fault, or looked at its watch too seldom.
    Round,
    /// The front tried other datagrams.
    Front,
    /// A lane sent fewer datagrams.
    Stuck(usize),
    /// A lane sent other datagrams, or tried them otherwise.
    Lane(usize),
    /// A lane counted otherwise what it sent, or what was dropped for it.
    Counts(usize),
    /// The front leaves other lists behind of what it read, was told and tried.
    Left,
    /// A lane had a fault.
    Fault(usize),
    /// An operator was told something else.
    Told,
    /// An operator got a seat, or was refused one.
    Seat,
    /// A connection was closed early, or not at all.
    Closed,
    /// The front was woken more or less often.
    Wakes,
    /// The log has more or fewer calls.
    Log,
}

impl From<AllocError> for Difference {
    fn from(_error: AllocError) -> Difference {
        Difference::Memory
    }
}

impl<T: Drop> From<AllocFailed<T>> for Difference {
    fn from(_error: AllocFailed<T>) -> Difference {
        Difference::Memory
    }
}

impl From<FrontFault> for Difference {
    fn from(_fault: FrontFault) -> Difference {
        Difference::Round
    }
}
