//! The operators of a bridge, each connection on a thread of its own, at one shared desk.
//!
//! Begin with [`Operators::new`]. Where a seat is free ([`Operators::has_seat`]), a connection enters the [`Lobby`],
//! which has no threads. Else [`turn_away`] the caller. Once a connection's first line has come and is good
//! ([`Lobby::next_good`]), ask for a thread ([`Operators::begin_thread`]) and open the [`CallerSocket`]. In the thread
//! make a [`Caller`](operator_connection::Caller) over it, and run [`Operators::talk`]. The first line takes a seat.
//! `operator_lines::answer` over an [`AtDesk`] answers a line, and its contract says how.
//!
//! `talk` repeats [`Operators::greet`] until the connection has a seat, and then [`Operators::serve`]: one round each.
//! Their contracts say what a round does, and [`a_watch_tells_each_call_once`] what a watch tells in any number of
//! them.
//!
//! [`Operators::follow`] takes a seat for one that gives no call, and follows those of all others.
//!
//! ```rust
//! // desk and seats: of a shared desk; stream: a connection; front: what is woken after each accepted call
//! // moments: the clock of all connections
//! let operators = Operators::new(&rt, alloc, desk, seats);
//! let mut lobby = Lobby::new(alloc)?;
//! lobby.enter(alloc, stream, from, now)?; // now: a moment in nanoseconds
//! if operators.begin_thread(&rt) {
//!     if let Some(guest) = lobby.next_good(alloc, now) {
//!         let line = CallerSocket::open(&rt, alloc, guest, moments)?.into_line();
//!         let mut caller = Caller::new(alloc, line)?;
//!         operators.talk(&rt, alloc, &mut caller, &front); // in a thread of its own
//!     }
//!     operators.end_thread(&rt);
//! }
//! let (desk, seats) = operators.end(); // once all threads have ended, for `gather`
//! ```
//!
//! x_cases_front runs these calls on sockets.
#![tactic(auto)]

mod at_desk;
mod follower;
mod latest;
mod laws;
mod learning;
mod lease;
mod leases;
mod leasing;
mod lobby;
mod making;
mod noting;
mod operators;
mod printed;
mod printed_past;
mod printing;
mod seats;
mod socket_line;
mod steps;
mod threads;
mod wake;
mod watching;

pub use self::at_desk::AtDesk;
pub use self::follower::Follower;
pub use self::laws::{a_watch_tells_each_call_once, without_a_lease_each_call_is_taken};
pub use self::lobby::{Guest, Lobby, turn_away};
pub use self::operators::Operators;
pub use self::printing::print_answer;
pub use self::socket_line::{CallerSocket, SocketLine};
pub use self::steps::Seating;
pub use self::wake::Wake;
