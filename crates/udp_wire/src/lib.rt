//! Datagrams on a wire, the system's addresses and moments, and when ticks and reports are due.
//!
//! Begin with [`Wire`], on which [`send_all`] sends egresses. [`Ticks`] and [`ReportTimer`] tell what is due at a
//! moment, which [`Moments`] takes from the system's clocks. [`FrontFault`] is why a bridge on sockets ends.
//!
//! Contracts see a wire as the datagrams that were tried, and a socket ([`Datagrams`]) as the calls that were made on
//! it. They say nothing of the system's sockets and clocks.
//!
//! ```rust
//! let mut ticks = Ticks { start: 1_000_000_000, had: 0 }; // moments are nanoseconds since 1970
//! let due = ticks.due(1_020_000_000); // the first tick, 20 ms after the start
//! let failed = send_all(&egresses, &mut wire); // how many datagrams the wire refused
//! ```
//!
//! `a_tick_is_due_at_20_ms` of worked_front asks for a tick so, with its moment proved.
#![tactic(auto)]

mod datagrams;
mod ending;
mod moments;
mod pacing;
mod socket;
mod wire;

pub use datagrams::{Datagrams, send_octets, send_parts};
pub use ending::{FrontFault, front_status};
pub use moments::Moments;
pub use pacing::{ReportTimer, Ticks};
pub use socket::{address_of, socket_address};
pub use wire::{Wire, send_all};
