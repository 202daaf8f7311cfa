//! An operator's connection: its state after each read, answer and write. No function here has a socket.

ghost use Rattle.std.specs.Prelude.{◌≡◌, ◌≤◌, ◌-◌, [], OnOk, OnErr};
ghost use Rattle.operator_connection.specs.Acts.{octet_count};
ghost use Rattle.operator_lines.specs.Fed.{StandsFor};
ghost use Rattle.operator_connection.specs.Talking.{is_open, is_over, after_line, after_stop, since_stop, came_of};
ghost use Rattle.operator_connection.specs.Talking.{after_read, after_write, left_after, since_read, since_write};

use operator_lines::{Lines, Next, Outgoing};
use std::alloc::{AllocError, Global};
use std::io;
use std::io::ErrorKind;

/// How many nanoseconds a connection without a seat may be silent.
const LONGEST_SILENCE: u64 = 30_000_000_000;
/// How many nanoseconds a connection that ends has to take what waits for it, anew with each octet that it takes.
// A seat has to come back from an operator who reads nothing, and a bridge has to end.
const ENDING_TIME: u64 = 5_000_000_000;
/// How many nanoseconds it has when the bridge is stopped.
const STOPPING_TIME: u64 = 1_000_000_000;

/// The state of a connection.
#[derive(Clone, Copy, Debug, PartialEq, Eq)]
pub(crate) enum LinkState {
    /// Its lines are read and answered.
    Open,
    /// Nothing more is read, and it is closed once all is written, or after 5 s in which nothing was.
    Ending,
    /// It is closed at once.
    Lost,
    /// The bridge is stopped. Nothing more is read, and it is closed once all is written, or after a second.
    Stopping,
}

/// What a read or a write gave.
#[derive(Clone, Copy, Debug, PartialEq, Eq)]
pub enum Came {
    /// This many octets, at least one.
    Octets(usize),
    /// The end of the stream, or a socket that takes nothing more.
    End,
    /// Nothing until the system reports more.
    Later,
    /// Nothing this time.
    Again,
    /// The connection has failed.
    Failed,
}

impl Came {
    /// How many octets came or were taken.
    pub(crate) fn count(&self) -> usize
        ensures { result ≡ octet_count self.now }
    {
        match self {
            Came::Octets(count) => *count,
            Came::End | Came::Later | Came::Again | Came::Failed => 0,
        }
    }

    /// The same, with no more than so many octets.
    pub fn at_most(self, most: usize) -> Self
        ensures { octet_count result ≤ most }
    {
        match self {
            Came::Octets(count) => Came::Octets(count.min(most)),
            Came::End | Came::Later | Came::Again | Came::Failed => self,
        }
    }
}

/// What a socket's answer means.
pub fn meaning(answer: &io::Result<usize>) -> Came
    ensures { result ≡ came_of answer.now }
{
    match answer {
        Ok(0) => Came::End,
        Ok(count) => Came::Octets(*count),
        Err(error) => match error.kind() {
            ErrorKind::WouldBlock => Came::Later,
            ErrorKind::Interrupted => Came::Again,
            _ => Came::Failed,
        },
    }
}

/// What is said on a connection: the part of its next line that has come, what waits to be written, its state, and the
/// moment of its last change. Moments are nanoseconds of a clock of its own.
#[derive(Drop)]
pub(crate) struct Talk {
    pub lines: Lines,
    pub outgoing: Outgoing,
    pub standing: LinkState,
    /// When octets came last, or its state changed. Of one that ends: when it took octets last.
    pub since: u64,
}

impl Talk {
    /// A connection from which nothing has come.
    pub fn new(alloc: Global, now: u64) -> Self
        ensures lines { StandsFor result.lines [] }
        ensures outgoing { result.outgoing ≡ [] }
        ensures standing { result.standing ≡ LinkState.Open }
        ensures since { result.since ≡ now }
    {
        Self {
            lines: Lines::new(alloc),
            outgoing: Outgoing::new(alloc),
            standing: LinkState::Open,
            since: now,
        }
    }

    /// Whether lines are read and answered.
    pub fn is_open(&self) -> bool
        ensures { result ≡ is_open self.now.standing }
    {
        match self.standing {
            LinkState::Open => true,
            LinkState::Ending | LinkState::Lost | LinkState::Stopping => false,
        }
    }

    /// Whether it is to be closed now.
    pub fn is_over(&self, seated: bool, now: u64) -> bool
        ensures { result ≡ is_over self.now.standing seated self.now.outgoing (now - self.now.since) }
    {
        let passed = now.saturating_sub(self.since);
        match self.standing {
            LinkState::Open => !seated && passed >= LONGEST_SILENCE,
            LinkState::Ending => self.outgoing.is_empty() || passed >= ENDING_TIME,
            LinkState::Lost => true,
            LinkState::Stopping => self.outgoing.is_empty() || passed >= STOPPING_TIME,
        }
    }

    /// Notes that the bridge is stopped: what waits is still written, for a second at most.
    pub fn note_stop(&mut self, now: u64)
        ensures standing { self.new.standing ≡ after_stop self.old.standing }
        ensures since { self.new.since ≡ since_stop self.old.standing now self.old.since }
        ensures outgoing { self.new.outgoing ≡ self.old.outgoing }
        ensures lines { self.new.lines ≡ self.old.lines }
    {
        match self.standing {
            LinkState::Open | LinkState::Ending => {
                self.standing = LinkState::Stopping;
                self.since = now;
            }
            LinkState::Lost | LinkState::Stopping => {}
        }
    }

    /// Its state after an answered line.
    pub fn after(&self, next: Next) -> LinkState
        ensures { result ≡ after_line next self.now.outgoing }
    {
        match next {
            Next::Stop => LinkState::Stopping,
            Next::Quit if !self.outgoing.is_over() => LinkState::Ending,
            Next::Stay if !self.outgoing.is_over() => LinkState::Open,
            Next::Stay | Next::Quit => LinkState::Lost,
        }
    }

    /// Keeps what was said, or loses the connection where memory ran out.
    pub fn or_lost<T: Drop>(&mut self, said: Result<T, AllocError>) -> Result<T, AllocError>
        ensures same { result ≡ said }
        ensures ok { OnOk result (self.new ≡ self.old) }
        ensures lost { OnErr result (self.new.standing ≡ LinkState.Lost) }
        ensures lines { self.new.lines ≡ self.old.lines }
        ensures outgoing { self.new.outgoing ≡ self.old.outgoing }
        ensures since { self.new.since ≡ self.old.since }
    {
        if said.is_err() {
            self.standing = LinkState::Lost;
        }
        said
    }

    /// Notes what a read gave, of an open connection.
    pub fn note_read(&mut self, came: Came, now: u64)
        ensures standing { self.new.standing ≡ after_read came self.old.standing }
        ensures since { self.new.since ≡ since_read came now self.old.since }
        ensures outgoing { self.new.outgoing ≡ self.old.outgoing }
        ensures lines { self.new.lines ≡ self.old.lines }
    {
        match came {
            Came::Octets(_) | Came::Later | Came::Again => {}
            Came::End => {
                self.standing = LinkState::Ending;
                self.since = now;
            }
            Came::Failed => self.standing = LinkState::Lost,
        }
    }

    /// Notes what a write gave.
    pub fn note_write(&mut self, came: Came, now: u64)
        ensures standing { self.new.standing ≡ after_write came self.old.standing }
        ensures since { self.new.since ≡ since_write came self.old.standing now self.old.since }
        ensures outgoing { self.new.outgoing ≡ left_after came self.old.outgoing }
        ensures lines { self.new.lines ≡ self.old.lines }
    {
        match came {
            Came::Octets(count) => {
                // One that ends has its time anew.
                if self.standing == LinkState::Ending {
                    self.since = now;
                }
                self.outgoing.took(count);
            }
            Came::Later | Came::Again => {}
            Came::End | Came::Failed => self.standing = LinkState::Lost,
        }
    }
}
