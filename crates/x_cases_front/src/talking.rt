//! What operators do, and what they are told.

use crate::operator::Operator;
use crate::stage::{Stage, TURNS, turns};
use std::net::{Net, TcpStream};
use std::time::Clock;

/// How many turns the bridge may take to close a connection that is idle when the bridge is stopped: 2 s. It looks 20
/// times a second, and takes a second at most where answers wait.
const STOP_TURNS: u32 = 400;
/// How many turns a connection that takes no more is waited for.
const FULL_TURNS: u32 = 100;

impl Stage {
    /// A new connection to the bridge.
    pub fn opens<R: Net<Stream = TcpStream>>(&mut self, rt: &R, at: usize) -> Option<bool> {
        let to = self.tcp()?;
        *self.operators.get_mut(at)? = Some(Operator::connect(rt, self.alloc, to)?);
        Some(true)
    }

    /// So many new connections that say nothing, while the bridge runs.
    pub fn crowds<R: Net<Stream = TcpStream>>(&mut self, rt: &R, count: usize) -> Option<bool> {
        let to = self.tcp()?;
        for _ in 0..count {
            self.silent
                .push(Operator::connect(rt, self.alloc, to)?)
                .ok()?;
        }
        Some(true)
    }

    /// An operator connects and sends octets, anew as long as all seats are taken.
    pub fn seats<R>(&mut self, rt: &R, at: usize, octets: &[u8]) -> Option<bool>
    where
        R: Net<Stream = TcpStream> + Clock,
    {
        for _ in 0..TURNS {
            self.opens(rt, at)?;
            self.says(rt, at, octets)?;
            if self.is_answered(rt, at)? {
                return Some(true);
            }
            turns(rt, 1);
        }
        Some(false)
    }

    /// Whether an operator is told a line in time that doesn't say that all seats are taken.
    fn is_answered(&mut self, rt: &impl Clock, at: usize) -> Option<bool> {
        for _ in 0..TURNS {
            let operator = self.operators.get_mut(at)?.as_mut()?;
            operator.listen()?;
            if operator.has_line() {
                return Some(!operator.is_busy());
            }
            if operator.is_closed() {
                return Some(false);
            }
            turns(rt, 1);
        }
        Some(false)
    }

    /// An operator leaves.
    pub fn closes(&mut self, at: usize) -> Option<bool> {
        *self.operators.get_mut(at)? = None;
        Some(true)
    }

    /// An operator sends nothing more.
    pub fn shuts(&mut self, at: usize) -> Option<bool> {
        self.operators.get_mut(at)?.as_mut()?.shut()?;
        Some(true)
    }

    /// An operator sends octets, which the bridge takes meanwhile, or doesn't.
    pub fn says(&mut self, rt: &impl Clock, at: usize, octets: &[u8]) -> Option<bool> {
        let mut left = octets;
        for _ in 0..FULL_TURNS {
            let Some(taken) = self.operators.get_mut(at)?.as_mut()?.say(left) else {
                return Some(false);
            };
            left = left.get(taken..)?;
            if left.is_empty() {
                return Some(true);
            }
            turns(rt, 1);
        }
        Some(false)
    }

    /// An operator sends octets, one a turn.
    pub fn drips(&mut self, rt: &impl Clock, at: usize, octets: &[u8]) -> Option<bool> {
        for octet in octets {
            let octet = [*octet];
            self.says(rt, at, &octet)?;
            turns(rt, 1);
        }
        Some(true)
    }

    /// An operator sends octets so many times, or until its connection ends or takes no more.
    pub fn repeats(
        &mut self,
        rt: &impl Clock,
        at: usize,
        times: usize,
        octets: &[u8],
    ) -> Option<bool> {
        for _ in 0..times {
            if !self.says(rt, at, octets)? {
                return Some(true);
            }
        }
        Some(true)
    }

    /// An operator sends so many times 8,192 octets without an LF, and reads what it is told.
    pub fn floods(&mut self, rt: &impl Clock, at: usize, times: usize) -> Option<bool> {
        for _ in 0..times {
            let operator = self.operators.get_mut(at)?.as_mut()?;
            let _ = operator.say(&[b'a'; 8_192]);
            operator.listen()?;
            turns(rt, 1);
        }
        Some(true)
    }

    /// Whether the bridge closes a connection that goes on sending and reads nothing.
    pub fn cut(&mut self, rt: &impl Clock, at: usize) -> Option<bool> {
        for _ in 0..TURNS {
            if self.operators.get_mut(at)?.as_mut()?.say(b"\n").is_none() {
                return Some(true);
            }
            turns(rt, 1);
        }
        Some(false)
    }

    /// Whether the next line that an operator is told has these words, where `#` stands for any number or address.
    pub fn told(&mut self, rt: &impl Clock, at: usize, line: &str) -> Option<bool> {
        let alloc = self.alloc;
        for _ in 0..TURNS {
            let operator = self.operators.get_mut(at)?.as_mut()?;
            operator.listen()?;
            if operator.has_line() {
                return operator.takes_line(alloc, line);
            }
            turns(rt, 1);
        }
        Some(false)
    }

    /// Whether the bridge closes a connection and tells nothing more.
    pub fn closed(&mut self, rt: &impl Clock, at: usize) -> Option<bool> {
        self.closed_within(rt, at, TURNS)
    }

    /// Whether the bridge, which is stopped, closes an idle connection soon.
    pub fn let_go(&mut self, rt: &impl Clock, at: usize) -> Option<bool> {
        self.closed_within(rt, at, STOP_TURNS)
    }

    /// Whether the bridge closes a connection in so many turns and tells nothing more.
    fn closed_within(&mut self, rt: &impl Clock, at: usize, most: u32) -> Option<bool> {
        for _ in 0..most {
            let operator = self.operators.get_mut(at)?.as_mut()?;
            operator.listen()?;
            if operator.has_ended() {
                return Some(true);
            }
            turns(rt, 1);
        }
        Some(false)
    }

    /// Whether an operator is told so many lines, and then its connection is closed.
    pub fn hears(&mut self, rt: &impl Clock, at: usize, lines: usize) -> Option<bool> {
        for _ in 0..TURNS {
            let operator = self.operators.get_mut(at)?.as_mut()?;
            operator.listen()?;
            if operator.is_closed() {
                return Some(operator.lines() == lines);
            }
            turns(rt, 1);
        }
        Some(false)
    }
}
