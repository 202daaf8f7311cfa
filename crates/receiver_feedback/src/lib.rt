//! RTCP about outgoing streams: what the bridge does about NACKs and PLIs of receivers (RFC 4585), the sender reports
//! that it sends, and what a receiver's report says (RFC 3550 section 6.4).
//!
//! Begin with [`resend`], which finds the packets of a NACK's numbers in a stream's retransmission buffer. [`pli_up`]
//! leads a receiver's PLI to the source that its slot chose. [`sender_report`] is for a stream that was sent, and
//! [`note`] reads a block of a receiver's report. A contract sees packets and desk as values, and gives a report's
//! octets.
//!
//! ```rust
//! // A receiver at this address lost a picture of stream 501.
//! let asked = pli_up(&rows, &from, 501); // the address that a PLI goes to, and the source that it names
//! // Half a second after the last frame, at 90000 Hz: RTP timestamp 1000 + 45000.
//! let counts = Counts { ssrc: 501, packets: 2, octets: 3, ts: 1_000, moment: 1_000_000_000, rate: 90_000 };
//! let compound = sender_report(alloc, &counts, 1_500_000_000, b"bridge")?;
//! ```
//!
//! `a_picture_loss_reaches_a_sender` and `time_goes_on_behind_the_last_frame` of worked_media make these calls, with a
//! law of the first and the octets of the second proved.
#![tactic(auto)]

mod laws;
mod noting;
mod numbers;
mod picture_loss;
mod reporting;
mod resending;
mod timing;

pub use laws::{each_number_once, picture_losses_reach_a_sender, times_of_reports};
pub use noting::{LossNote, note};
pub use picture_loss::pli_up;
pub use reporting::sender_report;
pub use resending::resend;
