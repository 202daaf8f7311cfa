//! Validates the sequence numbers of one RTP source, and counts for its report blocks (RFC 3550 A.1, A.3, A.8).
//!
//! Begin with [`SourceState::first`], then give each packet's number to [`SourceState::update`]. A contract speaks of
//! the list of what the source was given so far: numbers, arrivals, sender reports and blocks.
//!
//! ```rust
//! let mut source = SourceState::first(65_534); // on probation
//! source.update(65_535); // Accepted { ext: 65535 }: two numbers in a row end probation
//! source.update(0); // Accepted { ext: 65536 }
//! ```
//!
//! `two_in_a_row_end_probation` and `goes_on_over_the_wrap` of worked_media are these calls, with their answers proved.
#![tactic(auto)]

mod counters;
mod heard;
mod laws;
mod numbers;
mod phase;
mod source;
mod timing;
mod verdict;

pub use laws::{delays, intervals, losses, probations, restarts, steady, true_numbers};
pub use source::SourceState;
pub use verdict::Verdict;
