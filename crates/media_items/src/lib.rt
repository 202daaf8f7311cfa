//! What lanes (media workers) are given, and the formats of audio: the types that the receive side and the send side
//! share.
//!
//! Begin with [`Item`], which is one input event of a lane, and with [`Format`]. A [`LanePlace`] tells a lane which
//! outgoing streams are its own, and a [`Stamp`] says by which version and for which item a packet was sent. A contract
//! sees an item as an input event (specs/Inputs.antt), without its place in memory.
//!
//! ```rust
//! let format = Format::L16At44100;
//! let samples = format.tick(); // 882: 20 ms at 44100 Hz
//! let octets = format.octets() * samples; // 1,764
//! ```
//!
//! `a_tick_of_music_has_882_samples` of worked_media is these calls, with their answer proved.
#![tactic(auto)]

mod format;
mod frame;
mod item;
mod lane_place;
mod stamp;

pub use self::format::{Format, format_of_packet};
pub use self::frame::MediaFrame;
pub use self::item::Item;
pub use self::lane_place::LanePlace;
pub use self::stamp::Stamp;
