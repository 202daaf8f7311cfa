//! Why a desk is not made, why a call has no answer, and why a log is not handed out.

use crate::entry::LogEntry;
use std::sync::OnceToken;
use thiserror::Error;

/// What shows that the cell behind a log is written. It has no bytes.
pub type Behind<'a> = OnceToken<'a, LogEntry>;

/// Why a desk is not made. The first that holds is reported.
#[derive(Clone, Copy, Debug, PartialEq, Eq, Error)]
pub enum DeskFault {
    #[error("the number of operators is not 1 to 16")]
    Count,
    #[error("the number of readers is not 1 to 17")]
    Places,
    #[error("out of memory")]
    OutOfMemory,
}

/// Why a call has no answer. The first that holds is reported. No program with one desk meets either.
#[derive(Clone, Copy, Debug, PartialEq, Eq, Error)]
pub enum CallFault {
    /// The seat has seen more than this desk's log, or the log has calls of its operator that it didn't make.
    #[error("the seat is of another desk")]
    SeatForeign,
    /// This call, or one before it, stands in the log and could not be published. Readers come back from `enter` from
    /// then on.
    #[error("the desk has ended, since a call could not be published")]
    Ended,
}

/// Why a log is not handed out. The first that holds is reported.
#[derive(Clone, Copy, Debug, PartialEq, Eq, Error)]
pub enum GatherFault {
    /// The seat of this operator was not handed in. It is the least such operator.
    #[error("the seat of operator {op} is missing")]
    SeatMissing { op: u32 },
    /// The seat of this operator has seen more than this desk's log.
    #[error("the seat of operator {op} is of another desk")]
    SeatForeign { op: u32 },
    /// The log has an entry that this desk didn't write: another desk uses the same log.
    #[error("the log has entries of another desk")]
    LogTaken,
    /// A call stands in the log and could not be published.
    #[error("the desk has ended, since a call could not be published")]
    Ended,
    #[error("out of memory")]
    OutOfMemory,
}
