//! One desk for up to sixteen operators, each on a thread of its own.
//!
//! Begin with [`Log::new`], then [`SharedDesk::new`], which returns a [`Seat`] for each operator and the readers of
//! the published rows. An operator calls by [`SharedDesk::call`], and sees what others called by
//! [`SharedDesk::catch_up`] and [`SharedDesk::calls_after`]. The log keeps with each call when it was given and under
//! which name, which no row and no version has: [`SharedDesk::stamped_after`]. In the end [`SharedDesk::gather`] takes
//! all seats back and returns the whole log, or [`SharedDesk::end`] gives it up.
//!
//! Contracts see a seat as what its operator knows: the log that it has seen, and how many of its own calls were
//! accepted. All seats see beginnings of one log. Contracts say nothing of time: a call may wait for calls of others.
//!
//! ```rust
//! // H: a brand of these names
//! let log = Log::new(alloc)?;
//! let (desk, mut seats, readers) = SharedDesk::<H>::new(&rt, alloc, &log, names, 1, 2, 1)?; // two seats
//! let call = Call::Apply(Command::AddRoom(Room { room: 1, rate: 8_000 }));
//! let stamp = CallStamp::new(alloc, 1_764_360_000_123, b"bob")?;
//! let answer = desk.call(&rt, alloc, &mut seats[0], call, stamp)?; // its number and notice, or why it is refused
//! match desk.gather(&rt, alloc, seats) {
//!     Ok((all, _notice)) => println!(rt; "{} calls", all.len())?, // the whole log, since all seats are back
//!     Err((desk, _seats, _fault, _behind)) => desk.end(&rt),
//! }
//! ```
//!
//! `two_in_turn` of x_tests_desk makes these calls, and compares the answers.
#![tactic(auto)]

mod answer;
mod catching_up;
mod copying;
mod desk_brand;
mod desk_inner;
mod entry;
mod fault;
mod gathering;
mod log;
mod past;
mod seat;
mod shared;
mod tokens;

pub use self::answer::{Answer, Why};
pub use self::desk_brand::{DeskBrand, DeskNames};
pub use self::entry::LogEntry;
pub use self::fault::{Behind, CallFault, DeskFault, GatherFault};
pub use self::log::Log;
pub use self::past::Past;
pub use self::seat::Seat;
pub use self::shared::{MAX_OPERATORS, SharedDesk};
