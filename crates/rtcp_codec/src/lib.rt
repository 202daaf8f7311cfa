//! RTCP compounds and generic NACKs (RFC 3550 section 6, RFC 4585 section 6).
//!
//! Begin with [`read_compound`] and [`write_compound`]. [`nack_words`] packs sequence numbers into the words of a NACK,
//! and [`nack_numbers`] unpacks a word. A contract sees an [`Rtcp`] as a packet of the grammar (specs/Packet.antt), and
//! a compound as the list of its packets. What is written reads back as the same packets.
//!
//! ```rust
//! // A receiver report of source 9 without blocks.
//! let packets = read_compound(alloc, &[0x80, 201, 0, 1, 0, 0, 0, 9])?;
//! // 65535, 0 and 15 fit one word; 16 begins another.
//! let words = nack_words(alloc, &[65_535, 0, 15, 16])?;
//! ```
//!
//! `reads_report_alone` and `over_the_wrap` of worked_codecs are these calls, with their answers proved.
#![tactic(auto)]

mod appending;
mod bodies;
mod checking;
mod description;
mod fault;
mod fields;
mod judging;
mod judging_descriptions;
mod kind;
mod laws;
mod nack;
mod naming;
mod packet;
mod reading;
mod reading_descriptions;
mod reading_reports;
mod report;
mod writing;
mod writing_descriptions;
mod writing_reports;

pub use self::description::{SdesChunk, SdesItem};
pub use self::fault::{RtcpFault, WriteFault};
pub use self::laws::{compound_or_fault, numbers_have_words};
pub use self::nack::{Nack, NackWord, nack_numbers, nack_words};
pub use self::naming::named;
pub use self::packet::{App, Bye, Other, Pli, Rtcp};
pub use self::reading::read_compound;
pub use self::report::{ReceiverReport, ReportBlock, SenderReport};
pub use self::writing::{compound_of, write_compound, written_is_compound};
