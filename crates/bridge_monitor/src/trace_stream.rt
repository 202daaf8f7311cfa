//! The connection that a trace goes over.

use mio::net::TcpStream;
use mio::{Events, Interest, Poll, Token};
use rtp_codec::Address;
use std::alloc::{AllocError, Global};
use std::io;
use std::io::{ErrorKind, Write};
use std::net::Net;
use std::time::Duration;
use udp_wire::socket_address;

/// How many of the system's events are taken at a time.
const EVENTS: usize = 4;
/// How many seconds the other side has to accept the connection.
const PATIENCE: u64 = 5;
/// The system's number for a connection that nobody accepts in time (ETIMEDOUT).
const TIMED_OUT: i32 = 110;
/// How many octets wait for the reader at most.
const MOST_WAITING: usize = 16_777_216;
/// How many octets that were written are kept at most while others wait.
const MOST_WRITTEN: usize = 1_048_576;
/// How many octets are written at once at most.
const CHUNK: usize = 65_536;

/// The connection that a trace goes over, and what waits to be written.
#[derive(Drop)]
pub struct TraceStream {
    /// Where it goes to.
    pub to: Address,
    stream: TcpStream,
    /// What is to be written.
    pub text: Vec<u8>,
    /// How much of the text was written.
    written: usize,
}

/// A connection to an address, once the other side has accepted it.
fn connected<R: Net>(rt: &R, alloc: Global, to: Address) -> io::Result<TcpStream> {
    let mut stream = TcpStream::connect(rt, socket_address(to))?;
    let mut poll = Poll::new(rt)?;
    let mut events = Events::with_capacity(alloc, EVENTS)?;
    poll.registry()
        .register(&mut stream, Token(0), Interest::WRITABLE)?;
    poll.poll(&mut events, Some(Duration::from_secs(PATIENCE)))?;
    if let Some(error) = stream.take_error()? {
        return Err(error);
    }
    if events.is_empty() {
        return Err(io::Error::from_raw_os_error(TIMED_OUT));
    }
    poll.registry().deregister(&mut stream)?;
    Ok(stream)
}

impl TraceStream {
    /// A connection to an address. An `Err` is the system's, or out of memory.
    pub fn connect<R: Net>(rt: &R, alloc: Global, to: Address) -> io::Result<Self> {
        Ok(Self {
            to,
            stream: connected(rt, alloc, to)?,
            text: Vec::new(alloc),
            written: 0,
        })
    }

    /// Whether all was written.
    pub fn is_clear(&self) -> bool {
        self.written >= self.text.len()
    }

    /// Whether the reader keeps up: less than 16 MiB wait for it.
    pub fn has_room(&self) -> bool {
        self.text.len() < MOST_WAITING
    }

    /// Forgets what was written, once that is all of the text or a MiB.
    fn shift(&mut self) {
        if self.written >= self.text.len() {
            self.text.clear();
            self.written = 0;
        } else if self.written >= MOST_WRITTEN {
            self.text.drain(..self.written);
            self.written = 0;
        }
    }

    /// Writes the next octets. Returns whether the system took any, or `Err` where the connection is over.
    fn write_once(&mut self) -> io::Result<bool> {
        let waiting = self.text.get(self.written..).unwrap_or(&[]);
        let some = waiting.get(..CHUNK).unwrap_or(waiting);
        if some.is_empty() {
            return Ok(false);
        }
        match self.stream.write(some) {
            Ok(octets) => {
                self.written = self.written.saturating_add(octets);
                Ok(octets > 0)
            }
            Err(error) => match error.kind() {
                ErrorKind::WouldBlock | ErrorKind::Interrupted => Ok(false),
                _ => Err(error),
            },
        }
    }

    /// Writes what the system takes at once. `Err`: the connection is over.
    pub fn write(&mut self) -> io::Result<()> {
        for _ in 0..=self.text.len() / CHUNK {
            if !self.write_once()? {
                break;
            }
        }
        self.shift();
        Ok(())
    }

    /// Appends the line that ends a whole trace.
    pub fn end(&mut self) -> Result<(), AllocError> {
        self.text.extend_from_slice(b"# end\n")
    }

    /// Appends the line that ends a trace which lacks what follows. Out of memory leaves it out.
    pub fn lose(&mut self) -> Result<(), AllocError> {
        self.text.extend_from_slice(b"lost\n")
    }
}
