//! What goes up to the senders of sources: NACKs and PLIs (RFC 4585), and receiver reports (RFC 3550 section 6.4.2).
//!
//! Begin with [`upstream`], which writes the bridge's NACK and PLI for a source. [`numbers_of`] lists the sequence
//! numbers of a NACK. [`receiver_report`] tells a sender of the sources that were heard. A contract sees packets as
//! values, and each compound by its packets and its octets.
//!
//! ```rust
//! // The bridge, SSRC 1, asks source 101 for packet 102.
//! let compound = upstream(alloc, 1, b"bridge", 101, &[102], false)?;
//! ```
//!
//! `a_lost_packet_is_asked_for` of worked_media is this call, with its octets proved.
#![tactic(auto)]

mod asking;
mod laws;
mod numbers;
mod receiving;

pub use asking::upstream;
pub use laws::blocks_are_told_once;
pub use numbers::numbers_of;
pub use receiving::receiver_report;
