//! What is counted of a source.

use crate::drops::DropNumbers;

/// What is counted of a source. Each number ends at 2^64 - 1.
#[derive(Clone, Copy)]
pub struct SourceNumbers {
    /// How many packets counted for it.
    pub packets: u64,
    /// How many octets these had.
    pub octets: u64,
    /// How many of these came too late.
    pub late: u64,
    /// How many of these had a number that had come.
    pub duplicates: u64,
    /// How many packets were dropped: on probation, with a number too far off, or with a bad payload.
    pub dropped: u64,
    /// How many were expected since it was initialised (RFC 3550 A.3): the greatest number less the first, and one
    /// more.
    pub expected: u64,
    /// How many have counted since.
    pub received: u64,
    /// When the last datagram came, in nanoseconds since 1970.
    pub last: u64,
    /// How many samples of sound its accepted packets had.
    pub samples: u64,
    /// The energy of these samples: packet by packet the sum of their squares in units of 1,024, rounded down.
    pub energy: u64,
    /// For how many samples it has been silent: those of its packets behind the last one over -60 dBov.
    pub silent: u64,
    /// Why packets were dropped.
    pub drops: DropNumbers,
}
