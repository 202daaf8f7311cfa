//! A lane's sink that sends over a wire, and waits where the wire isn't ready.
//!
//! Begin with [`WireSink::new`], of a [`LaneWire`] such as a socket, and hand it to `Bridge::start` of media_workers.
//! When the lane has ended, [`WireSink::into_sent`] tells what it took, how much of that was sent, and what was done on
//! the wire: just what sends each datagram that it took once, in order. Of many lanes [`sent_of`] tells it. Meanwhile
//! [`SharedCounts::read`] tells the counts. [`SharedCounts::copy_streams`] tells how much was sent of each stream, and
//! what its receiver reported last.
//!
//! Contracts see a sink as the list of what it took, and a wire as the list of what was done on it: each try to send a
//! datagram, with its answer, and each pause. Of a socket both lists exist in proofs alone: [`Taken`] and [`WireLog`]
//! keep them without memory. So does [`HandledLog`] with what the sink was told that its lane handled. A sink from
//! [`WireSink::traced`] hands that on over the ring of a [`LaneTrace`].
//!
//! ```rust
//! // wire: a `LaneWire`; egress: what a lane sends
//! let counts = Arc::new(alloc, SharedCounts::new(alloc)?)?;
//! let mut sink = WireSink::new(wire, Arc::try_clone(&counts)?);
//! sink.put(&rt, egress);
//! let packets = counts.read().packets; // 1, if the datagram was sent
//! let sent = sink.into_sent();
//! ```
#![tactic(auto)]

mod counts;
mod ended;
mod fault;
mod handled;
mod kept_streams;
mod lane_trace;
mod on_socket;
mod sending;
mod shared_counts;
mod stream_counts;
mod stream_numbers;
mod taken;
mod wire_log;
mod wire_sink;

pub use self::counts::SendCounts;
pub use self::ended::sent_of;
pub use self::fault::SendFault;
pub use self::handled::{Handled, HandledLog};
pub use self::lane_trace::{LaneHandled, LaneTrace};
pub use self::on_socket::send_egress;
pub use self::sending::LaneWire;
pub use self::shared_counts::SharedCounts;
pub use self::stream_counts::StreamCounts;
pub use self::stream_numbers::{KeptStream, Reported, StreamNews, StreamNumbers};
pub use self::taken::Taken;
pub use self::wire_log::WireLog;
pub use self::wire_sink::{LaneSent, WireSink};
