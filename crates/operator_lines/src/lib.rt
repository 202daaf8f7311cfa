//! Operators' lines: how a stream of octets is cut into lines, what a line asks, how it is answered, and what waits to
//! be written.
//!
//! Begin with [`Lines::feed`], which cuts what an operator sends into lines. [`greet`] judges the first one, which
//! takes a seat if it is good, and [`answer`] asks a [`LineDesk`], which notes what is wrong with a line as a
//! [`Trouble`] and tells it by [`print_why`]. [`Incoming`] keeps what has come and isn't heard
//! yet, and [`Outgoing`] what the socket hasn't taken yet.
//!
//! Contracts see a stream as its lines, and what waits for an operator as octets. No function here has a socket.
//!
//! ```rust
//! let mut lines = Lines::new(alloc);
//! let mut told = Vec::new(alloc); // what the operator is told
//! let fed = lines.feed(alloc, &octets)?; // octets: what has come from the operator
//! for line in &fed.lines {
//!     let next = answer(alloc, &mut desk, moment, line, &mut told)?; // desk: a `LineDesk`
//!     if next == Next::Stop {
//!         break; // the operator stops the bridge
//!     }
//! }
//! ```
//!
//! `hears_show` of worked_front feeds a stream so, with its lines proved.
#![tactic(auto)]

mod advice;
mod answering;
mod asking;
mod blames;
mod blaming;
mod explaining;
mod feeding;
mod form_word;
mod forms;
mod greeting;
mod helping;
mod incoming;
mod laws;
mod line_desk;
mod outgoing;
mod own;
mod topic;
mod trouble;

pub use answering::{Next, answer, busy, print_too_long};
pub use explaining::print_why;
pub use feeding::{Fed, Lines};
pub use greeting::{Beginning, Opening, greet, greet_octets};
pub use incoming::Incoming;
pub use laws::{
    cuts_are_whole, groups_fit_on_lines, help_tells_each_line, help_tells_what_is_read,
    too_long_for_good,
};
pub use line_desk::{LeaseAsk, LineDesk, View};
pub use outgoing::Outgoing;
pub use trouble::{Trouble, Wrong};
