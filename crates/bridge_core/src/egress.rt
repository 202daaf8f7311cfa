//! What a lane sends.

use receiver_feedback::LossNote;
use retransmit::PacketBytes;
use rtp_codec::Address;
use std::alloc::{Allocator, Global};

/// What a lane sends for an item.
// A compound has no field for the stream that it is about. Each egress names that stream besides its octets, so that
// one sentence holds of all that a lane sends: it is of the lane's own streams.
#[derive(Drop)]
pub enum Egress<A: Allocator + Copy = Global> {
    /// An RTP packet of an outgoing stream.
    Media {
        /// The desk version by which it was sent first, 0 to 1,048,576.
        version: u64,
        /// The number, from 1, of the item that it was sent for first. Each lane counts its own items.
        item: u64,
        /// The receiver's address.
        to: Address,
        /// The SSRC of the outgoing stream.
        ssrc: u32,
        /// The packet's sequence number on that stream.
        number: u16,
        /// The octets of the whole RTP packet.
        bytes: PacketBytes<A>,
        /// The desk version by which it is sent again, 0 to 1,048,576. `None` if it is sent for the first time.
        resent_by: Option<u64>,
    },
    /// An RTCP compound (RFC 3550 section 6.1).
    Control {
        /// The desk version by which it is sent, 0 to 1,048,576.
        version: u64,
        /// The number, from 1, of its lane's item that it is sent for.
        item: u64,
        /// The address that it goes to.
        to: Address,
        /// The SSRC of the outgoing stream that it concerns.
        ssrc: u32,
        /// The octets of the whole compound.
        bytes: Vec<u8, A>,
    },
    /// What a receiver reports of an outgoing stream. It is no datagram: the caller shows it or drops it.
    Note {
        /// The desk version by which the item was handled, 0 to 1,048,576.
        version: u64,
        /// The number, from 1, of its lane's item that brought it.
        item: u64,
        /// The receiver's address.
        from: Address,
        /// What the report block says.
        note: LossNote,
    },
}
