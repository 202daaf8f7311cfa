//! A bridge that runs: a thread for each operator's connection, a thread for each lane, which sends what it makes, and
//! a front that reads the sockets.
//!
//! Begin with [`Front::bind`], then [`Front::run`]. It returns once an operator stops the bridge, with the log, how
//! many calls of each operator were accepted, how many items were dropped for each lane, and how much each lane sent
//! and could not send. What lines and datagrams lead to is decided in operator_threads and media_front, and the loop
//! that joins them is that of event_loop. What it counts and tells is shown by bridge_monitor. Here are the sockets,
//! the clock and the threads that it runs over.
//!
//! Contracts say that there are as many lanes as the settings have, and that what these sent is what one list of the
//! log's calls and of items sends, signed by the SSRC and the CNAME of the settings. They say nothing of sockets.
//!
//! ```rust
//! let front = Front::bind(&rt, settings(alloc, text)?)?; // text: the settings' file
//! println!(rt; "{}", front.listening()?)?;
//! let teller = Teller::new(alloc)?; // of bridge_monitor: a thread writes what `EventLines::next` answers
//! let stopped = front.run(&rt, &teller)?; // until an operator stops it
//! println!(rt; "{} calls of operator 0", stopped.accepted[0])?;
//! ```
//!
//! x_cases_front runs these calls on sockets.
#![tactic(auto)]

mod buffers;
mod calls;
mod causes;
mod drops;
mod ending;
mod front;
mod listener;
mod opening;
mod parts;
mod rest;
mod rounds;
mod serving;
mod setup;
mod sinks;
mod sockets;
mod stopped;
mod system_socket;
mod tracing;
mod waking;
mod watching;

pub use self::calls::calls_of;
pub use self::causes::BindFault;
pub use self::front::Front;
pub use self::stopped::{FrontLeft, Stopped};
