//! Outgoing streams. A video [`Stream`] forwards frames of changing sources as one stream: numbered in a row, with
//! timestamps of its own. It keeps its last 512 packets for receivers that ask again. A [`MixStream`] sends one packet
//! of a mix or none in each tick of 20 ms.
//!
//! Begin with [`Stream::new`] and [`MixStream::new`]. Both prepare first, which takes the memory, and then commit,
//! which can't fail; `send` does both. A contract speaks of the list of frames or ticks so far.
//!
//! ```rust
//! let mut packets = Vec::with_capacity(alloc, 1)?;
//! packets.push(FramePacket { ext: 100, marker: true, pt: 96, payload: Bytes::from_static(b"\xab") })?;
//! let address = Address { ip: [127, 0, 0, 1], port: 8 };
//! let frame = Frame::new(9_000, packets)?;
//! let frame = MediaFrame { source: 5, address, epoch: 1, moment: 0, frame };
//! let receiver = Owner { member: 1, address: Address { ip: [127, 0, 0, 1], port: 7 } };
//!
//! let mut stream = Stream::new(alloc, 500, 65_535, 1_000)?; // SSRC, first number, first timestamp
//! let out = stream.send(alloc, &frame, Stamp { version: 3, item: 1 }, receiver)?; // packet 65535 at timestamp 1000
//! ```
//!
//! `the_other_source_goes_on` of worked_media makes this call, and a second one with a frame of another source. Its
//! answer is proved.
#![tactic(auto)]

mod counts;
mod formats;
mod last_sent;
mod laws;
mod mix_packets;
mod mix_stream;
mod packets;
mod prepared;
mod prepared_mix;
mod sending;
mod stream;
mod tick_time;

pub use self::counts::Counts;
pub use self::formats::format_of;
pub use self::laws::{
    each_frame_goes_whole, found_is_what_was_sent, mix_numbers_in_a_row, mix_time_goes_on,
    numbers_in_a_row, time_goes_on,
};
pub use self::mix_packets::Named;
pub use self::mix_stream::MixStream;
pub use self::prepared::PreparedFrame;
pub use self::prepared_mix::PreparedMix;
pub use self::sending::OutPacket;
pub use self::stream::Stream;
pub use retransmit::{Entry, Owner};
