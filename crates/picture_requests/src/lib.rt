//! Which sources of video to ask for a picture, and when. A receiver that is switched to a source shows nothing of it
//! before a whole picture (a key frame) comes.
//!
//! Begin with [`PictureRequests::new`]. [`see`](PictureRequests::see) compares the rows of a version of the desk with
//! those that were seen before. Where a slot's choice changed to a source, the source waits to be asked.
//! [`due`](PictureRequests::due) lists the sources that may be asked at a moment. After each request, call
//! [`asked`](PictureRequests::asked). A source that isn't asked goes on waiting. The request itself is a PLI (RFC 4585
//! section 6.3.1), and others write and send it.
//!
//! A contract sees the choices of the last rows, the sources that wait, and when sources were asked lately.
//!
//! ```rust
//! let source = VideoSource { ssrc: 101, ip: [127, 0, 0, 1], port: 5010 };
//! let mut requests = PictureRequests::new(alloc);
//! requests.see(alloc, &rows, 1_000_000_000)?; // a slot of these rows chose the source, so it waits
//! let first = requests.due(alloc, 1_000_000_000)?; // the source
//! requests.asked(&source, 1_000_000_000); // it no longer waits
//! requests.want(alloc, &source, 1_100_000_000)?; // it waits again
//! let early = requests.due(alloc, 1_499_999_999)?; // nothing: it was asked less than half a second ago
//! let late = requests.due(alloc, 1_500_000_000)?; // the source
//! ```
//!
//! `a_wanted_source_is_asked_once` and `requests_are_half_a_second_apart` of worked_media make the calls after `see`,
//! with their answers proved.
#![tactic(auto)]

mod changing;
mod choosing;
mod collecting;
mod laws;
mod requests;
mod sending;
mod source;

pub use self::laws::{
    changed_slots_are_all, nothing_is_asked_unasked, requests_are_spaced,
    requests_between_wants_are_spaced, what_waits_becomes_due,
};
pub use self::requests::PictureRequests;
pub use self::source::VideoSource;
