//! The socket of an operator's connection.

ghost use Rattle.std.specs.Prelude.{◌≡◌, ◌≤◌, [], length, IfSome};
ghost use Rattle.operator_connection.specs.Acts.{octet_count};
ghost use Rattle.operator_connection.specs.LineLogs.{act_list};

use crate::lobby::Guest;
use mio::net::TcpStream;
use mio::{Events, Interest, Poll, Token};
use operator_connection::{CallerLine, Came, LineLog, meaning};
use operator_lines::Incoming;
use std::alloc::Global;
use std::io;
use std::io::{Read, Write};
use std::net::Net;
use std::time::{Clock, Duration};
use udp_wire::Moments;

/// How many of the system's events are taken at a time.
const EVENTS: usize = 4;

/// How many octets are read from the system at a time.
const CHUNK: usize = 9_000;

/// The socket of an operator's connection, with a poll of its own. Nothing was done on it yet, so it may go
/// to another thread: the prover doesn't find that a [`SocketLine`] may.
#[derive(Drop)]
pub struct CallerSocket<R: Clock + Drop> {
    rt: R,
    poll: Poll,
    events: Events,
    stream: TcpStream,
    moments: Moments,
    /// What was read and isn't handed on yet.
    incoming: Incoming,
    /// What was read last.
    chunk: Vec<u8>,
}

/// The socket of an operator's connection as a line. It hands on one line at a time, so that each is answered, and its
/// answer written, before the next one is heard.
// A line may wait for a round of the front, and a read may bring 1,500 of them.
#[derive(Drop)]
pub struct SocketLine<R: Clock + Drop> {
    socket: CallerSocket<R>,
    /// What was done on it, in proofs alone.
    log: LineLog,
}

impl<R: Net + Clock + Copy + Drop> CallerSocket<R> {
    /// The socket of a connection whose first line has come, with the clock of all connections: the lease of the desk
    /// is judged by it. An `Err` is the system's or out of memory, and closes the connection.
    pub fn open(rt: &R, alloc: Global, guest: Guest, moments: Moments) -> io::Result<Self> {
        let Guest {
            mut stream,
            incoming,
            ..
        } = guest;
        let poll = Poll::new(rt)?;
        let events = Events::with_capacity(alloc, EVENTS)?;
        let interest = Interest::READABLE | Interest::WRITABLE;
        poll.registry().register(&mut stream, Token(0), interest)?;
        // An answer's last octets don't wait until what went before them is acknowledged, which may take 40 ms.
        stream.set_nodelay(true)?;
        let mut chunk = Vec::new(alloc);
        chunk.resize(CHUNK, 0)?;
        Ok(Self {
            rt: *rt,
            poll,
            events,
            stream,
            moments,
            incoming,
            chunk,
        })
    }
}

impl<R: Clock + Drop> CallerSocket<R> {
    /// Reads from the system. `None`: octets have come.
    fn fill(&mut self) -> Option<Came>
        ensures { IfSome result (λ came. octet_count came ≡ 0) }
    {
        let came = meaning(&self.stream.read(&mut self.chunk)).at_most(self.chunk.len());
        match came {
            Came::Octets(count) => match self.incoming.append(&self.chunk[..count]) {
                Ok(()) => None,
                Err(_) => Some(Came::Failed),
            },
            Came::End | Came::Later | Came::Again | Came::Failed => Some(came),
        }
    }

    /// Hands on the next line of what was read, or as much of it as the chunk takes. Returns how many octets it has.
    fn hand_on(&mut self, chunk: &mut [u8]) -> usize
        ensures { result ≤ length chunk.new }
    {
        let piece = self.incoming.next();
        let count = piece.len().min(chunk.len());
        chunk[..count].copy_from_slice(&piece[..count]);
        self.incoming.took(count);
        count
    }

    /// Reads the next line, or a part of it.
    fn read_line(&mut self, chunk: &mut Vec<u8>) -> Came
        ensures { octet_count result ≤ length chunk.new.items }
    {
        if self.incoming.is_empty() {
            if let Some(came) = self.fill() {
                return came;
            }
        }
        Came::Octets(self.hand_on(chunk))
    }

    /// The socket as a line, on which nothing was done.
    pub fn into_line(self) -> SocketLine<R>
        ensures { act_list result.log ≡ [] }
    {
        SocketLine {
            socket: self,
            log: LineLog::new(),
        }
    }
}

impl<R: Clock + Drop> CallerLine for SocketLine<R> {
    ghost use Rattle.operator_connection.specs.LineLogs.{act_list};

    ghost acts = { λ line. act_list line.log };

    fn wait(&mut self, longest: u64) -> io::Result<bool> {
        let longest_wait = Some(Duration::from_millis(longest));
        self.socket
            .poll
            .poll(&mut self.socket.events, longest_wait)?;
        let any = !self.socket.events.is_empty();
        self.log.note_wait(longest, any);
        Ok(any)
    }

    fn now(&mut self) -> io::Result<u64> {
        let now = self.socket.moments.now(&self.socket.rt)?;
        self.log.note_look(now);
        Ok(now)
    }

    fn read(&mut self, chunk: &mut Vec<u8>) -> Came {
        let came = self.socket.read_line(chunk);
        self.log.note_read(came, chunk);
        came
    }

    fn write(&mut self, octets: &[u8]) -> Came {
        let came = meaning(&self.socket.stream.write(octets)).at_most(octets.len());
        self.log.note_write(came, octets);
        came
    }
}
