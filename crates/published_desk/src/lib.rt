//! Published versions of the desk, for readers that wait for nobody.
//!
//! Begin with [`start`], which returns one publisher and its readers. The publisher stages a list of edits that fits,
//! and publishes it: version n is the first desk after the first n lists. A reader enters the version that was
//! published last, looks at its rows, and leaves. A [`Notice`] tells of a version. A reader that learnt it enters that
//! version or a later one.
//!
//! Contracts see a publisher, a reader, an entry and a notice as the lists that each knows, with the name of the
//! publisher. All such lists of one publisher are beginnings of one list.
//!
//! ```rust
//! // rows: those of a desk; edits: a list of edits of it
//! let (mut publisher, mut readers) = start(alloc, &rt, Opened::new(), rows, 1)?;
//! let Some(mut reader) = readers.pop() else {
//!     return Ok(publisher.end(&rt));
//! };
//! if publisher.fits(&rt, &edits) == Some(true) && publisher.stage(edits).is_ok() {
//!     publisher.publish(&rt); // Some(1): version 1
//! }
//! reader.learn(publisher.tell());
//! if let Ok(entered) = reader.enter() {
//!     let members = entered.rows().count(Kind::Member);
//!     let reader = entered.leave();
//! }
//! publisher.end(&rt);
//! ```
//!
//! `publishes_version_1`, `learns_of_a_later_version` and `enters_what_it_was_told` of worked_desk are such calls,
//! with their answers proved.
#![tactic(auto)]

mod edition;
mod notice;
mod publisher;
mod reader;
mod rule;
mod showing;
mod starting;

pub use self::notice::{Notice, Opened};
pub use self::publisher::Publisher;
pub use self::reader::{Entered, LaneReader};
pub use self::starting::{MAX_READERS, VersionFault, start};
