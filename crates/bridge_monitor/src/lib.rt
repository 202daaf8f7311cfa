//! What a bridge that runs lets others know of itself: what it counts, where operators ask; what happens to it, line by
//! line; and the connection that its trace goes over.
//!
//! Threads of operators share a [`StatsDesk`] with the front. One [asks](StatsDesk::ask) and [waits](StatsDesk::wait),
//! the front [answers](StatsDesk::answer) behind its round, and the thread [prints](StatsDesk::print) the lines, or the
//! [levels](StatsDesk::print_levels) alone. What
//! lanes send is counted where [`fresh_counts`] says. Any thread tells a [`Teller`] what happens, and one of its own
//! writes the lines of [`EventLines::next`]. A [`TraceStream`] takes a trace's text, and writes what the system takes
//! at once.
//!
//! Contracts say that what is printed are lines of rows that show what was counted at a moment, and that an answer
//! leaves the front's media as they were. They say nothing of sockets, and not when a thread is answered.
//!
//! ```rust
//! let desk = StatsDesk::new(alloc)?;
//! let (mut lanes, stats) = fresh_counts(alloc, 4)?; // four lanes, which count into `lanes.counts`
//! let answers = desk.ask(&rt); // an operator's thread
//! desk.answer(&rt, now, &stats, &mut media, &mut lanes); // the front's; now: nanoseconds since 1970
//! desk.wait(&rt, answers);
//! desk.print(&rt, socket, Seats { used: 1, all: 16 }, &mut out)?; // datagrams 0 octets 0 dropped TooLong, and so on
//! ```
//!
//! x_cases_front asks bridges on sockets so.
#![tactic(auto)]

mod lane_counts;
mod stats_desk;
mod stats_rows;
mod telling;
mod trace_stream;

pub use self::lane_counts::{LaneCounts, fresh_counts};
pub use self::stats_desk::StatsDesk;
pub use self::telling::{EventLines, Teller};
pub use self::trace_stream::TraceStream;
