//! Why a compound is refused.

ghost use Rattle.std.specs.Prelude.{◌≡◌};
ghost use Rattle.rtcp_codec.specs.declared.fault.RtcpFault.TheVariants as faults;
ghost use Rattle.rtcp_codec.specs.declared.fault.WriteFault.TheVariants as write_faults;

use std::alloc::AllocError;
use thiserror::Error;

/// Why a datagram is no RTCP compound (RFC 3550 section 6.1). The variants stand in the order of the checks.
/// The first fault of the first faulty packet is reported.
#[derive(Clone, Copy, Debug, PartialEq, Eq, Error)]
pub enum RtcpFault {
    #[error("under 4 octets")]
    Short,
    #[error("the version isn't 2")]
    Version,
    #[error("the first packet is no report")]
    First,
    #[error("a packet passes the end")]
    Length,
    /// Only the last packet may have padding: 4 octets or a multiple, not more than follows the common header.
    #[error("padding that may not be")]
    Padding,
    /// The count of the common header asks for more than the body has.
    #[error("a body lacks some of its parts")]
    Body,
    #[error("out of memory")]
    OutOfMemory,
}

impl From<AllocError> for RtcpFault {
    ghost from_gives = { λ _ e. e ≡ faults.OutOfMemory };

    fn from(_error: AllocError) -> RtcpFault {
        RtcpFault::OutOfMemory
    }
}

/// Why packets can't be written as a compound. The first fault of the first faulty packet is reported.
#[derive(Clone, Copy, Debug, PartialEq, Eq, Error)]
pub enum WriteFault {
    /// There is no packet, or the first is no report.
    #[error("the first packet is no report")]
    First,
    /// Over 31 blocks, chunks or sources; a subtype or count over 31; a NACK without words.
    #[error("a count that doesn't fit")]
    Count,
    /// A text or reason over 255 octets; a content or body that isn't whole words; a packet over 65,536 words.
    #[error("a part that doesn't fit")]
    TooLong,
    /// An item of type 0; a loss outside 24 bits; an `Other` with the packet type and count of another variant.
    #[error("a value that has another meaning")]
    Kind,
    #[error("out of memory")]
    OutOfMemory,
}

impl From<AllocError> for WriteFault {
    ghost from_gives = { λ _ e. e ≡ write_faults.OutOfMemory };

    fn from(_error: AllocError) -> WriteFault {
        WriteFault::OutOfMemory
    }
}
