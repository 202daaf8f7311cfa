//! Receivers of packets.

use rtp_codec::Address;

/// The receiver that a packet went to.
#[derive(Clone, Copy, PartialEq, Eq)]
pub struct Owner {
    /// The member's number.
    pub member: u32,
    /// The member's address when the packet was sent.
    pub address: Address,
}
