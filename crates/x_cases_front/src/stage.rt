//! The bridge of a case, with its members and operators.

use crate::member::Members;
use crate::operator::Operator;
use crate::pace::Pace;
use crate::running::{Running, Start};
use crate::text::{numbered, spoken};
use std::alloc::{AllocGlobal, Global};
use std::net::{Net, SocketAddr, TcpStream};
use std::sync::Wait;
use std::thread;
use std::time::{Clock, Duration};
use udp_wire::socket_address;

/// How many turns an answer or a datagram may take: 15 s, where a report is due every 5 s. On a busy machine a turn is
/// longer, so that the bridge has more time, too.
pub const TURNS: u32 = 3_000;
/// How many milliseconds a turn takes.
const TURN: u64 = 5;
/// How many packets of sound are sent in a turn at most.
const OPENING: u32 = 4;
/// How many operators there are at most.
const OPERATORS: usize = 20;

/// A bridge on ports of the system's choice, and the sockets around it, by number.
#[derive(Drop)]
pub struct Stage {
    /// The memory of all of it.
    pub alloc: Global,
    /// How many lanes a bridge has where its line does not say.
    lanes: usize,
    bridge: Option<Running>,
    /// The connections of operators.
    pub operators: [Option<Operator>; OPERATORS],
    /// Connections that say nothing.
    pub silent: Vec<Operator>,
    /// The sockets of members, once there is one.
    pub members: Option<Members>,
}

/// Lets the bridge go on for so many turns.
pub fn turns(rt: &impl Clock, count: usize) {
    for _ in 0..count {
        thread::sleep(rt, Duration::from_millis(TURN));
    }
}

impl Stage {
    /// A stage without a bridge.
    pub fn new(alloc: Global, lanes: usize) -> Self {
        Self {
            alloc,
            lanes,
            bridge: None,
            operators: [const { None }; OPERATORS],
            silent: Vec::new(alloc),
            members: None,
        }
    }

    /// Where datagrams are taken.
    pub fn udp(&self) -> Option<SocketAddr> {
        Some(socket_address(self.bridge.as_ref()?.listening.udp))
    }

    /// Where operators connect.
    pub fn tcp(&self) -> Option<SocketAddr> {
        Some(socket_address(self.bridge.as_ref()?.listening.tcp))
    }

    /// Closes all sockets and stops the bridge, if there is one that runs.
    pub fn ends<R: Net<Stream = TcpStream> + Clock + Wait>(&mut self, rt: &R) -> Option<()> {
        let alloc = self.alloc;
        let bridge = self.bridge.take();
        *self = Self::new(alloc, self.lanes);
        let bridge = bridge?;
        let to = socket_address(bridge.listening.tcp);
        for _ in 0..TURNS {
            if bridge.left.is_there(rt) {
                return Some(());
            }
            // A seat may not be free at once.
            if let Some(mut operator) = Operator::connect(rt, alloc, to) {
                let _ = operator.say(b"stop\n");
                turns(rt, 2);
            }
        }
        None
    }

    /// A new bridge with the seats, lanes and further settings of a text, and what its thread runs. All sockets of the
    /// one before are closed.
    pub fn begins<R>(&mut self, rt: &R, text: &str) -> Option<Start>
    where
        R: Clock + Net<Stream = TcpStream> + AllocGlobal + Wait,
    {
        let (seats, rest) = numbered(text)?;
        let (lanes, more) = if rest.is_empty() {
            (self.lanes, "")
        } else {
            numbered(rest)?
        };
        let more = spoken(self.alloc, more).ok()?;
        self.ends(rt);
        self.members = Some(Members::new(self.alloc, lanes > 1)?);
        let (running, start) = Running::bind(rt, seats, lanes, str::from_utf8(&more).ok()?)?;
        self.bridge = Some(running);
        Some(start)
    }

    /// Whether the next datagram that comes to a member has these digits.
    pub fn gets(&mut self, rt: &impl Clock, at: usize, wanted: &str) -> Option<bool> {
        for _ in 0..TURNS {
            if let Some(is) = self.members.as_mut()?.gets(at, wanted) {
                return Some(is);
            }
            turns(rt, 1);
        }
        Some(false)
    }

    /// Whether sound that one member sends comes to another in time.
    pub fn paces<R: Net + Clock>(
        &mut self,
        rt: &R,
        from: usize,
        to: usize,
        ssrc: u32,
    ) -> Option<bool> {
        let bridge = self.udp()?;
        let mut pace = Pace::begin(rt, self.alloc, ssrc)?;
        for _ in 0..TURNS.saturating_mul(2) {
            let members = self.members.as_mut()?;
            for _ in 0..OPENING {
                let Some(octets) = pace.next() else {
                    break;
                };
                members.sends(from, &octets, bridge)?;
            }
            let came = members.takes(to)?;
            if pace.hears(rt, &came)? {
                return Some(true);
            }
            turns(rt, 1);
        }
        Some(false)
    }

    /// Whether an operator stops the bridge.
    pub fn stopped<R: Clock + Wait>(&mut self, rt: &R) -> Option<bool> {
        for _ in 0..TURNS {
            if self.bridge.as_ref()?.left.is_there(rt) {
                return Some(true);
            }
            turns(rt, 1);
        }
        Some(false)
    }

    /// Whether the bridge that was stopped had so many lanes, and accepted so many calls of each operator.
    pub fn left(&self, rt: &impl Wait, counts: &str) -> Option<bool> {
        let left = self.bridge.as_ref()?.left.counts(rt, self.alloc)?;
        Some(left.as_str() == counts)
    }
}
