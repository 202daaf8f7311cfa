//! The text of a trace: what a bridge did, as scripts that lead to the same packets.
//!
//! A trace has a [`Speaker`] for the receive side and one for each lane. Begin each by [`Told::begin`]. Before a
//! speaker tells what it did at a version of the desk, [`Told::reach`] tells the calls that lead there. Then
//! [`Told::tell_item`] and its neighbours append the line. The lines of a lane, without the words `lane N` before each,
//! are a script: its replay sends what the lane sent. Contracts see texts as octets.
//!
//! ```rust
//! // calls: a desk's accepted calls from the first one on; item: what lane 0 handled at version 7
//! let mut told = Told::begin(Speaker::Lane(0), 1, b"bridge", &mut out)?;
//! told.reach(&calls, 7, &mut out)?;
//! told.tell_item(&item, &mut out)?;
//! ```
#![tactic(auto)]

mod appending;
mod speaker;
mod told;

pub use self::speaker::Speaker;
pub use self::told::Told;
