//! The mix that one member of a room hears (mix-minus, RFC 7667 section 3.6.1): the sum of all others, each at this
//! listener's gain, clamped once.
//!
//! [`mix`] sums for one listener. For a whole room, call [`room_total`] once. Then call [`mix_by_total`] for each
//! listener, or [`mix_of_others`] where all its gains are 256: the mixes are the same. A contract states each sample as
//! a clamped sum over the inputs.
//!
//! ```rust
//! let inputs = [
//!     Input { ssrc: 21, member: 1, samples: &[1000], filled: 1 },
//!     Input { ssrc: 22, member: 2, samples: &[2000], filled: 1 },
//!     Input { ssrc: 23, member: 3, samples: &[-500], filled: 1 },
//! ];
//! let mut out = [0; 1];
//! let named = mix(&inputs, &[256, 256, 256], 1, &mut out); // out is 1500; SSRCs 22 and 23 are named
//! ```
//!
//! `the_first_hears_the_other_two` of worked_media is this call, with its answer proved.
#![tactic(auto)]

mod contributors;
mod input;
mod laws;
mod mixing;
mod parts;
mod places;
mod ranges;
mod sums;

pub use contributors::Contributors;
pub use input::Input;
pub use laws::{is_the_mix, others_contribute};
pub use mixing::{mix, mix_by_total, mix_of_others, room_total};
