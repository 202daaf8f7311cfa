//! What a bridge tells of itself while it runs, line by line, and when. No function here writes a line.
//!
//! Begin with [`WhyFailed::of`] an error of the system, and the [`Cause`] that it is of: they print why a bridge didn't
//! start, or ended. An [`Event`] prints as the line of something that happened. It waits in an [`EventQueue`], which
//! many threads may share under a lock, for the one that writes lines. That thread asks a [`LineBudget`] about each: at
//! most ten lines are written in any second, and the others are counted and told. [`LaneDrops`] finds a lane's first
//! dropped item of a second.
//!
//! Contracts see a budget as the list of what it answered, a queue as what waits in it, and each text octet by octet.
//!
//! ```rust
//! let mut budget = LineBudget::new(alloc)?;
//! let event = Event::Dropped { lane: 2, items: 18 };
//! if budget.take(now) { // now: nanoseconds since 1970
//!     eprintln!(rt; "confbridge: {event}")?; // confbridge: lane 2: 18 items dropped so far
//! }
//! ```
#![tactic(auto)]

mod answered;
mod budget;
mod cause;
mod drops;
mod event;
mod queue;
mod why;

pub use self::answered::Answered;
pub use self::budget::LineBudget;
pub use self::cause::{Cause, Causes, ServerPart};
pub use self::drops::LaneDrops;
pub use self::event::Event;
pub use self::queue::EventQueue;
pub use self::why::WhyFailed;
