//! The connection of an operator: what comes on it, what is answered, and what is written, round by round. No function
//! here has a socket of the system or a thread.
//!
//! Begin with [`Caller::new`], over a [`CallerLine`]: what a socket gives, and a clock. Until the first good line has
//! come, repeat [`Caller::round_without_seat`]; then [`Caller::round`], over the [`LineDesk`](operator_lines::LineDesk)
//! of its seat. Both wait 50 ms at most.
//!
//! Contracts see a connection as all that was done on its line, what is kept of its stream, what waits to be written,
//! and its state. They say what a round does as a list of deeds, and [`what_is_said_goes_on`] what that makes of any
//! number of rounds. Who implements a `CallerLine` notes what was done in a [`LineLog`], which takes no memory.
//!
//! ```rust
//! let mut caller = Caller::new(alloc, line)?; // line: a `CallerLine`
//! // desk: a `LineDesk`; stopped: whether the bridge is to end
//! while !caller.is_over() {
//!     caller.round(alloc, &mut desk, &stopped);
//! }
//! ```
//!
//! `serve` of operator_threads runs these rounds, in a thread for each connection.
#![tactic(auto)]

mod answering;
mod caller;
mod greeting;
mod hearing;
mod laws;
mod line;
mod line_log;
mod readiness;
mod talking;

pub use caller::{Caller, Heed};
pub use laws::{nothing_is_said_after_the_end, what_is_said_goes_on};
pub use line::CallerLine;
pub use line_log::LineLog;
pub use talking::{Came, meaning};
