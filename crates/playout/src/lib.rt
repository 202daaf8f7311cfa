//! Jitter buffers of samples. Samples are put by timestamp as they come, and taken in order, 60 ms later.
//!
//! Begin with [`Playout::new`] for one source, or with [`Playouts::new`] for many. A contract of many speaks of
//! the list of puts and takes so far.
//!
//! ```rust
//! let mut playout = Playout::new(alloc, 50)?; // 50 samples a second: 60 ms are 3 samples
//! playout.put(1000, &[5, 6]); // both are kept
//! let mut out = [0; 4];
//! let count = playout.take(&mut out); // 1: out is 0, 0, 0, 5
//! ```
//!
//! `the_first_samples_are_kept` and `they_come_60_ms_later` of worked_media are these calls, with their answers proved.
#![tactic(auto)]

mod jitter_buffer;
mod laws;
mod many;
mod offset;
mod placed;
mod places;
mod putting;
mod ring;
mod source_playout;
mod tally;
mod timed_samples;

pub use jitter_buffer::Playout;
pub use laws::nothing_is_renewed_unasked;
pub use many::Playouts;
pub use placed::PlacedSamples;
pub use timed_samples::TimedSamples;
