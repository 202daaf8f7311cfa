//! What happens while a bridge runs.

ghost use Rattle.std.specs.Prelude.{Some};
ghost use Rattle.event_lines.specs.Told.{event_text};

use crate::why::WhyFailed;
use rtp_codec::Address;
use std::fmt;

/// Something that happened while a bridge ran, or how many such things have no line.
#[derive(Clone, Copy, PartialEq, Eq)]
pub enum Event {
    /// A connection came.
    Connection {
        /// Where from.
        from: Address,
    },
    /// A connection was refused, and closed.
    Refused {
        /// Where it came from.
        from: Address,
        /// Why it was refused.
        why: WhyFailed,
    },
    /// Items of a lane were dropped, since its ring had too few free places.
    Dropped {
        /// The lane, from 0 on.
        lane: u32,
        /// How many were dropped for it since the start.
        items: u64,
    },
    /// The trace ended before the bridge: its reader fell behind, or closed the connection, or memory ran out.
    TraceLost {
        /// Where it went to.
        to: Address,
    },
    /// This many events have no line of their own.
    LeftOut {
        /// How many.
        events: u64,
    },
}

impl fmt::Display for Event {
    ghost output = { λ event. Some (event_text event) };

    fn fmt<W: fmt::Write>(&self, f: &mut fmt::Formatter<W>) -> fmt::Result {
        match self {
            Event::Connection { from } => write!(f, "connection from {from}"),
            Event::Refused { from, why } => write!(f, "connection from {from} refused: {why}"),
            Event::Dropped { lane, items } => write!(
                f,
                "lane {lane}: {items} items dropped so far"
            ),
            Event::TraceLost { to } => write!(f, "trace {to} lost"),
            Event::LeftOut { events } => write!(f, "{events} events left out"),
        }
    }
}
