//! Why a bridge did not start, or ended without `stop`.

ghost use Rattle.std.specs.Prelude.{◌≡◌, [], ◌∷◌, ◌++◌, take, Some, IfOk};
ghost use Rattle.event_lines.specs.Told.{part_text, cause_text, most_causes};

use crate::why::WhyFailed;
use rtp_codec::Address;
use std::alloc::{AllocError, Global};
use std::fmt;
use std::marker::Model;

/// How many causes are kept at most: one of each lane, and some of the other parts.
const MOST_CAUSES: usize = 24;

/// A part of a bridge on sockets.
#[derive(Clone, Copy, PartialEq, Eq)]
pub enum ServerPart {
    /// The socket for datagrams at this address.
    Udp(Address),
    /// The socket at this address where operators connect.
    Tcp(Address),
    /// The connection to this address, to which the trace goes.
    Trace(Address),
    /// What waits for the sockets.
    Poll,
    /// The system's clock.
    Clock,
    /// The start of the bridge: its desk, its lanes and its buffers.
    Start,
    /// The front, which takes datagrams in.
    Front,
    /// The desk and its log of calls.
    Desk,
    /// The end of the bridge: what it counted.
    End,
}

/// What failed, and why.
#[derive(Clone, Copy, PartialEq, Eq)]
pub enum Cause {
    /// A part of the bridge failed.
    Failed {
        /// What failed.
        part: ServerPart,
        /// Why it did.
        why: WhyFailed,
    },
    /// A lane refused an item since memory ran out.
    LaneMemory {
        /// The lane, from 0 on.
        lane: u32,
        /// The item's number, from 1 on.
        item: u64,
    },
    /// A lane refused an item since it had handled 2^64 - 1.
    LaneSpent {
        /// The lane, from 0 on.
        lane: u32,
    },
}

impl fmt::Display for ServerPart {
    ghost output = { λ part. Some (part_text part) };

    fn fmt<W: fmt::Write>(&self, f: &mut fmt::Formatter<W>) -> fmt::Result {
        match self {
            ServerPart::Udp(at) => write!(f, "udp {at}"),
            ServerPart::Tcp(at) => write!(f, "tcp {at}"),
            ServerPart::Trace(at) => write!(f, "trace {at}"),
            ServerPart::Poll => write!(f, "poll"),
            ServerPart::Clock => write!(f, "clock"),
            ServerPart::Start => write!(f, "start"),
            ServerPart::Front => write!(f, "front"),
            ServerPart::Desk => write!(f, "desk"),
            ServerPart::End => write!(f, "end"),
        }
    }
}

impl fmt::Display for Cause {
    ghost output = { λ cause. Some (cause_text cause) };

    fn fmt<W: fmt::Write>(&self, f: &mut fmt::Formatter<W>) -> fmt::Result {
        match self {
            Cause::Failed { part, why } => write!(f, "{part}: {why}"),
            Cause::LaneMemory { lane, item } => write!(
                f,
                "lane {lane}: out of memory at item {item}"
            ),
            Cause::LaneSpent { lane } => write!(f, "lane {lane}: 2^64 - 1 items were handled"),
        }
    }
}

/// The causes of an end, oldest first: the first 24 of them. Only [`new`](Self::new) takes memory.
///
/// Contracts see them as a list.
#[derive(Drop)]
pub struct Causes {
    list: Vec<Cause>,
}

impl Model for Causes {
    ghost use Rattle.std.specs.Prelude.{◌≤◌, List, vec_len, vec_capacity};
    ghost use Rattle.event_lines.specs.declared.cause.Cause.{Cause as ACause};
    ghost use Rattle.event_lines.specs.Told.{most_causes};

    ghost Value = { List ACause };

    ghost view = { λ c. c.list.items };

    ghost invariant = { λ c. (vec_len c.list ≤ most_causes) × (most_causes ≤ vec_capacity c.list) };
}

impl Causes {
    /// No cause. The only error is out of memory.
    pub fn new(alloc: Global) -> Result<Self, AllocError>
        ensures { IfOk result (λ causes. causes ≡ []) }
    {
        let list = Vec::with_capacity(alloc, MOST_CAUSES)?;
        Ok(Self { list })
    }

    /// Notes one more cause, if fewer than 24 are there.
    pub fn note(&mut self, cause: Cause)
        ensures { self.new ≡ take most_causes (self.old ++ cause ∷ []) }
    {
        if self.list.len() < MOST_CAUSES {
            self.list.push_reserved(cause);
        }
    }

    /// All of them.
    pub fn all(&self) -> &[Cause]
        ensures { result.now ≡ self.now }
    {
        &self.list
    }
}
