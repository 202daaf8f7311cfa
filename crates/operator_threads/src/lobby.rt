//! The connections whose first line has not come.

ghost use Rattle.std.specs.Prelude.{◌≡◌, ◌+◌, ◌≤◌, ◌<◌, ◌++◌, IfOk, OnOk, IfSome};
ghost use Rattle.operator_threads.specs.Lobby.{most_guests, has_been_silent, IsBegunBy, fate_of, begun_by};

use mio::net::TcpStream;
use operator_connection::{Came, meaning};
use operator_lines::{Beginning, Incoming, busy, greet_octets};
use rtp_codec::Address;
use std::alloc::{AllocError, Global};
use std::io::{Read, Write};
use std::marker::Model;

/// How many connections wait for their first line at most.
const MOST_GUESTS: usize = 16;

/// For how many nanoseconds nothing may come from one: 30 s.
const LONGEST_SILENCE: u64 = 30_000_000_000;

/// How many nanoseconds lie between two looks at connections of which none is new: 5 ms.
const LOOK_GAP: u64 = 5_000_000;

/// How many octets are read at a time.
const CHUNK: usize = 9_000;

/// A connection without a seat, and what has come from it.
#[derive(Drop)]
pub struct Guest {
    pub(crate) stream: TcpStream,
    /// Where it comes from.
    pub from: Address,
    pub(crate) incoming: Incoming,
    /// When octets came last, or the connection.
    since: u64,
}

/// What becomes of a connection that waits for its first line.
#[derive(Clone, Copy, Debug, PartialEq, Eq)]
pub(crate) enum Fate {
    /// It waits on.
    Waits,
    /// It is to be closed.
    Over,
    /// Its first line is a good one.
    Good,
}

/// Whether nothing has come for too long, since a moment in nanoseconds.
fn has_been_silent(since: u64, now: u64) -> bool
    ensures { result ≡ has_been_silent since now }
{
    now.saturating_sub(since) >= LONGEST_SILENCE
}

impl Guest {
    /// Keeps what has come, and looks how it begins. What a first line is answered that is no good one is `text` then.
    fn hear(
        &mut self,
        alloc: Global,
        octets: &[u8],
        text: &mut Vec<u8>,
    ) -> Result<Beginning, AllocError>
        ensures kept { OnOk result (self.new.incoming ≡ self.old.incoming ++ octets.now) }
        ensures begins { IfOk result (λ begins. IsBegunBy self.new.incoming begins text.new.items) }
    {
        self.incoming.append(octets)?;
        text.clear();
        greet_octets(alloc, self.incoming.next(), text)
    }

    /// Looks what becomes of it, now that these octets have come. A first line that is no good one is answered.
    fn judge(
        &mut self,
        alloc: Global,
        octets: &[u8],
        text: &mut Vec<u8>,
    ) -> Result<Fate, AllocError>
        ensures { IfOk result (λ fate. fate ≡ fate_of (begun_by self.new.incoming)) }
    {
        Ok(match self.hear(alloc, octets, text)? {
            Beginning::Waits => Fate::Waits,
            Beginning::Good => Fate::Good,
            Beginning::Faulty => {
                // A socket on which nothing was written takes the whole line.
                let _ = self.stream.write(text);
                Fate::Over
            }
        })
    }

    /// Reads what has come, and looks what becomes of the connection.
    fn look(&mut self, alloc: Global, chunk: &mut Vec<u8>, text: &mut Vec<u8>, now: u64) -> Fate {
        match meaning(&self.stream.read(chunk)).at_most(chunk.len()) {
            Came::Octets(count) => {
                self.since = now;
                match self.judge(alloc, &chunk[..count], text) {
                    Ok(fate) => fate,
                    Err(_) => Fate::Over,
                }
            }
            Came::End | Came::Failed => Fate::Over,
            Came::Later | Came::Again => {
                if has_been_silent(self.since, now) {
                    Fate::Over
                } else {
                    Fate::Waits
                }
            }
        }
    }

    /// Tells it that no seat is free, and closes it.
    pub fn turn_away(self) {
        turn_away(self.stream);
    }
}

/// Tells a caller that no seat is free, and closes the connection.
pub fn turn_away(mut stream: TcpStream) {
    let _ = stream.write(busy());
}

/// The connections whose first line has not come, the oldest first. They have neither a thread nor a seat. Contracts
/// see how many there are: at most 16.
#[derive(Drop)]
pub struct Lobby {
    guests: Vec<Guest>,
    /// What was read last.
    chunk: Vec<u8>,
    /// The answer to a first line.
    text: Vec<u8>,
    /// Whether one came since they were looked at last.
    has_new: bool,
    /// When they were looked at last.
    looked: u64,
}

impl Model for Lobby {
    ghost use Rattle.std.specs.Prelude.{◌≤◌, ℕ, length};
    ghost use Rattle.operator_threads.specs.Lobby.{most_guests};

    ghost Value = { ℕ };

    ghost view = { λ l. length l.guests.items };

    ghost invariant = { λ l. length l.guests.items ≤ most_guests };
}

impl Lobby {
    /// Nobody waits. The only error is out of memory.
    pub fn new(alloc: Global) -> Result<Self, AllocError>
        ensures { IfOk result (λ lobby. lobby ≡ 0) }
    {
        let mut chunk = Vec::new(alloc);
        chunk.resize(CHUNK, 0)?;
        Ok(Self {
            guests: Vec::with_capacity(alloc, MOST_GUESTS)?,
            chunk,
            text: Vec::new(alloc),
            has_new: false,
            looked: 0,
        })
    }

    /// Whether the connections are to be looked at: one is new, or 5 ms have passed since the last look.
    // A round of the front with a single datagram takes no longer than a look at sixteen connections.
    pub fn is_due(&mut self, now: u64) -> bool
        ensures { self.new ≡ self.old }
    {
        let is_due = self.has_new || now.saturating_sub(self.looked) >= LOOK_GAP;
        if is_due {
            self.has_new = false;
            self.looked = now;
        }
        is_due
    }

    /// Closes the oldest connection, if as many wait as may.
    fn make_space(&mut self)
        ensures few { self.new + 1 ≤ most_guests }
        ensures left { self.new ≤ self.old }
    {
        if self.guests.len() >= MOST_GUESTS {
            self.guests.remove(0);
        }
    }

    /// A connection comes, at a moment in nanoseconds. Of more than 16 the oldest is closed. On out of memory, the only
    /// error, the new one is closed.
    pub fn enter(
        &mut self,
        alloc: Global,
        stream: TcpStream,
        from: Address,
        now: u64,
    ) -> Result<(), AllocError>
        ensures few { self.new ≤ most_guests }
    {
        self.make_space();
        self.has_new = true;
        self.guests.push(Guest {
            stream,
            from,
            incoming: Incoming::new(alloc),
            since: now,
        })?;
        Ok(())
    }

    /// Looks what becomes of the connection at this place.
    fn look_at(&mut self, alloc: Global, at: usize, now: u64) -> Fate
        requires { at < self.old }
        ensures { self.new ≡ self.old }
    {
        self.guests[at].look(alloc, &mut self.chunk, &mut self.text, now)
    }

    /// Where the first connection is that waits no longer, and what becomes of it.
    fn first_decided(&mut self, alloc: Global, now: u64) -> Option<(usize, Fate)>
        ensures place { IfSome result (λ decided. decided.0 < self.new) }
        ensures same { self.new ≡ self.old }
    {
        for at in 0..self.guests.len() {
            let fate = self.look_at(alloc, at, now);
            if fate != Fate::Waits {
                return Some((at, fate));
            }
        }
        None
    }

    /// Takes the connection at this place out.
    fn take(&mut self, at: usize) -> Guest
        requires { at < self.old }
        ensures { self.new + 1 ≡ self.old }
    {
        self.guests.remove(at)
    }

    /// The next connection whose first line is a good one, if any is. It waits no longer. Others are closed whose first
    /// line isn't good, which is answered, or that have ended, or said nothing for 30 s.
    pub fn next_good(&mut self, alloc: Global, now: u64) -> Option<Guest> {
        for _ in 0..MOST_GUESTS {
            let (at, fate) = self.first_decided(alloc, now)?;
            let guest = self.take(at);
            if fate == Fate::Good {
                return Some(guest);
            }
        }
        None
    }
}
