//! The scripts of a trace, as its speakers' deeds come off their rings.
//!
//! Begin each speaker by [`Speaking::begin`], over the end of the ring to which its thread hands its deeds. Whoever
//! follows the calls of the desk then calls [`Speaking::take`] again and again: it appends the lines of the deeds that
//! have come, each behind the calls that lead to its version.
//!
//! Contracts see a text as octets. What a speaker says is a function of its deeds and of the desk's calls alone: of
//! those of any log that goes on from what the follower has seen.
//!
//! ```rust
//! // ring: what lane 0 handled comes out of it; follower: of the operators' desk; text: what is to be written
//! let mut voice = Speaking::begin(Speaker::Lane(0), 1, b"bridge", ring, &mut text)?;
//! let any = voice.take(&rt, alloc, &mut follower, &mut text)?;
//! ```
#![tactic(auto)]

mod deed;
mod speaking;

pub use self::deed::Deed;
pub use self::speaking::Speaking;
