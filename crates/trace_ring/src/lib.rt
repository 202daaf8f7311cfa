//! A ring over which a thread hands items to a tracer without waiting for it.
//!
//! Begin with [`trace_ring`], which gives both ends. The thread calls [`TraceSender::send`]; the tracer, on another
//! thread, calls [`TraceReceiver::next`]. Where the ring is full, the sender gives the trace up for good, and
//! [`TraceReceiver::is_lost`] tells so. A sender that is [off](TraceSender::off) drops what it is given at once.
//!
//! Contracts see a sender as the list of what it was given while the trace is whole, and a receiver as the list of what
//! it has taken.
//!
//! ```rust
//! let (mut sender, mut receiver) = trace_ring::<u32>(alloc, 1_024)?;
//! sender.send(7);
//! let item = receiver.next(); // Some(7)
//! ```
#![tactic(auto)]

mod receiver;
mod sender;

pub use self::receiver::TraceReceiver;
pub use self::sender::{TraceSender, trace_ring};
