//! The audio half of a lane (media worker): what the members of a room hear, tick by tick (a media-mixing mixer, RFC
//! 7667 section 3.6.1).
//!
//! Begin with [`Mixer::new`]. Give each source's samples to [`Mixer::put`], and call [`Mixer::tick`] every 20 ms. A
//! contract speaks of the list of samples and ticks so far.
//!
//! ```rust
//! let place = LanePlace { lane: 0, lanes: 1 };
//! let mut mixer = Mixer::new(alloc)?;
//! mixer.put(alloc, 21, &address, TimedSamples { rate: 8_000, ts: 1_000, samples: &samples })?;
//! let packets = mixer.tick(alloc, &place, &rows, 0)?; // none: samples wait 60 ms, which are three ticks
//! ```
//!
//! `nobody_is_heard_before_60_ms` and `each_hears_the_other_two` of worked_media are such ticks, with their packets
//! proved.
#![tactic(auto)]

mod apart;
mod encoding;
mod hearing;
mod laws;
mod mixer;
mod preparing;
mod rates;
mod rooms;
mod streams;
mod voices;

pub use self::laws::{mixes_are_in_a_row, mixes_go_to_their_members, ticks_add_what_is_heard};
pub use self::mixer::Mixer;
pub use self::streams::MixPacket;
pub use playout::TimedSamples;
