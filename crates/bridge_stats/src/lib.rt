//! What a bridge counts of the datagrams that it takes in, and the lines that tell it.
//!
//! Begin with [`BridgeStats::new`]. [`BridgeStats::note`] notes a datagram that was received. Where somebody asks,
//! [`BridgeStats::show`] writes rows into a [`StatsShown`], with how the receive side receives the sources, and
//! [`print_stats`] appends their lines, and those of what others count; [`print_levels`] appends how loud the sources
//! of sound are. A contract sees the list of all datagrams that
//! were noted, the datagrams of each source that is kept, what was reported of the way of each stream that is kept, and
//! a text as its octets.
//!
//! ```rust
//! let mut stats = BridgeStats::new(alloc)?;
//! stats.note(&rows, &ingest.received, passed); // for each datagram, by the rows of the desk
//! let mut shown = StatsShown::new(alloc)?;
//! stats.show(now, &ingress, &mut shown)?; // now: nanoseconds since 1970
//! print_stats(&shown, &others, &mut out)?; // datagrams 0 octets 0 dropped TooLong, and so on
//! ```
#![tactic(auto)]

mod appending;
mod drops;
mod kind;
mod laws;
mod levels;
mod lines;
mod numbers;
mod others;
mod path;
mod path_table;
mod received;
mod rows;
mod sender;
mod showing;
mod shown;
mod silence;
mod source_count;
mod source_table;
mod stats;
mod stranger;
mod stretch;
mod taken;
mod taken_log;
mod tally;
mod why;

pub use self::drops::DropNumbers;
pub use self::laws::{all_are_counted, causes_add_up};
pub use self::levels::print_levels;
pub use self::numbers::SourceNumbers;
pub use self::others::{LaneRow, Limited, OthersShown, Seats, SocketRow, StreamReport, StreamRow};
pub use self::path::PathReport;
pub use self::rows::{KindRow, SourceRow, StrangerRow};
pub use self::sender::Sender;
pub use self::shown::{StatsShown, print_stats};
pub use self::stats::BridgeStats;
pub use self::stranger::StrangerNumbers;
pub use self::taken::TakenIn;
pub use self::taken_log::TakenLog;
pub use self::tally::OutcomeTally;
