//! The rounds of a front: what it does each time that it is woken, over anything that datagrams come from, any wire and
//! any watch.
//!
//! Call [`Rounds::begin_round`] and [`Rounds::end_round`] in turn, until one of them has a fault. A round waits, takes
//! in what has come at the rows of one version of the desk, and then does what is due. What lanes send, they send
//! themselves.
//!
//! Contracts see all that a front does as a list of turns: what each changes in the front, in what was read, in the
//! moments that its watch told, in what was tried on its wire, in what is counted, and in what is kept for the next
//! round. They say it after a fault, too.
//! [`all_that_is_tried_is_meant`] says of any number of rounds why each datagram was tried,
//! [`all_that_came_is_in_turns`] that each datagram that was read is in one turn, in order,
//! [`all_that_is_taken_in_is_counted`] that each datagram that was taken in is counted once, and
//! [`moments_never_go_back`] that the moments rise.
//!
//! A front tells its deeds to a [`FrontTrace`], if it has one.
//!
//! ```rust
//! // rounds: a `Rounds` over an `Inlet`, a `Wire` and a `Watch`
//! let begun = rounds.begin_round()?; // begun.may_wait: connections may wait
//! rounds.end_round(rt, begun, publisher.tell())?; // what had come is taken in
//! ```
#![tactic(auto)]

mod inlet;
mod kept;
mod laws;
mod logs;
mod noting;
mod on_socket;
mod reading;
mod rounds;
mod running;
mod state;
mod switching;
mod trace;
mod wakes;
mod watch;

pub use self::inlet::{Inlet, Read};
pub use self::kept::FrontKept;
pub use self::laws::{
    all_that_came_is_in_turns, all_that_is_taken_in_is_counted, all_that_is_tried_is_meant,
    lanes_stay_the_same, moments_never_go_back, pictures_are_half_a_second_apart,
    requests_are_those_of_turns,
};
pub use self::logs::{ReadLog, TryLog, WatchLog};
pub use self::on_socket::read_datagram;
pub use self::rounds::Rounds;
pub use self::running::BegunRound;
pub use self::state::FrontState;
pub use self::trace::{FrontDeed, FrontTold, FrontTrace};
pub use self::wakes::{Wakes, awake_lanes_run_out_of_samples, sleeping_lanes_have_places};
pub use self::watch::Watch;
