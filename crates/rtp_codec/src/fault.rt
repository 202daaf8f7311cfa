//! Why a datagram is no RTP packet.

use thiserror::Error;

/// Why a datagram is no RTP packet (RFC 3550 section 5.1). The variants stand in the order of the checks.
/// The first fault is reported.
#[derive(Clone, Copy, Debug, PartialEq, Eq, Error)]
pub enum RtpFault {
    #[error("under 12 octets")]
    Short,
    #[error("the version isn't 2")]
    Version,
    #[error("the contributing sources pass the end")]
    Csrc,
    #[error("the header extension passes the end")]
    Extension,
    #[error("the padding's count is 0 or passes what is left")]
    Padding,
}
