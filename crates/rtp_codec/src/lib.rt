//! RTP packets and sequence numbers (RFC 3550), and the addresses that packets come from.
//!
//! Begin with [`classify`] for a datagram, then [`read`]. [`write`] appends a packet to a buffer. Whoever prints an
//! address prints its [`text`](Address::text).
//! A contract sees an [`RtpView`] as a packet (specs/Packet.antt) of header, contributing sources, extension, payload
//! and padding. What is written reads back as the same packet.
//!
//! ```rust
//! // Sequence number 65535, SSRC 501, one contributing source (101), two octets of payload.
//! let datagram = [
//!     0x81, 0x64, 0xff, 0xff, 0, 0, 3, 0xe8, 0, 0, 1, 0xf5, 0, 0, 0, 101, 0xaa, 0xbb,
//! ];
//! let packet = read(&datagram)?;
//! let next = seq_next(packet.seq); // 0
//! ```
//!
//! `a_source_and_a_payload` and `behind_65535` of worked_codecs are these calls, with their answers proved.
#![tactic(auto)]

mod address;
mod address_text;
mod class;
mod fault;
mod laws;
mod reading;
mod sequence;
mod view;
mod writing;

pub use self::address::{Address, IpOctets};
pub use self::address_text::AddressText;
pub use self::class::{Class, classify};
pub use self::fault::RtpFault;
pub use self::laws::faultless_is_packet;
pub use self::reading::read;
pub use self::sequence::{seq_distance, seq_next};
pub use self::view::RtpView;
pub use self::writing::{Header, fixed_header, write, written_is_packet};
