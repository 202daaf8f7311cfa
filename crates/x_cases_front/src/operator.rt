//! A connection of an operator.

use crate::text::is_line;
use std::alloc::Global;
use std::io::{ErrorKind, Read, Write};
use std::net::{Net, Shutdown, SocketAddr, TcpStream};

/// How many octets are read at a time.
const CHUNK: usize = 65_536;

/// A connection that never waits, and what it was told that no line of the case has asked for yet.
#[derive(Drop)]
pub struct Operator {
    stream: TcpStream,
    got: Vec<u8>,
    /// What was read last.
    chunk: Vec<u8>,
    is_closed: bool,
}

impl Operator {
    /// A new connection to this address.
    pub fn connect<R: Net<Stream = TcpStream>>(
        rt: &R,
        alloc: Global,
        to: SocketAddr,
    ) -> Option<Self> {
        let stream = TcpStream::connect(rt, to).ok()?;
        stream.set_nonblocking(true).ok()?;
        let mut chunk = Vec::new(alloc);
        chunk.resize(CHUNK, 0).ok()?;
        Some(Self {
            stream,
            got: Vec::new(alloc),
            chunk,
            is_closed: false,
        })
    }

    /// Sends octets, and tells how many were taken: none where the connection is full. `None`: it has ended.
    pub fn say(&mut self, octets: &[u8]) -> Option<usize> {
        match (&self.stream).write(octets) {
            Ok(taken) => Some(taken),
            Err(error) if error.kind() == ErrorKind::WouldBlock => Some(0),
            Err(_) => None,
        }
    }

    /// Sends nothing more.
    pub fn shut(&self) -> Option<()> {
        self.stream.shutdown(Shutdown::Write).ok()
    }

    /// Takes what has come.
    pub fn listen(&mut self) -> Option<()> {
        if let Ok(count) = (&self.stream).read(&mut self.chunk) {
            self.is_closed = self.is_closed || count == 0;
            self.got.extend_from_slice(self.chunk.get(..count)?).ok()?;
        }
        Some(())
    }

    /// Whether a whole line has come.
    pub fn has_line(&self) -> bool {
        self.got.contains(&b'\n')
    }

    /// Whether the bridge has told that all seats are taken.
    pub fn is_busy(&self) -> bool {
        self.got.starts_with(b"busy\n")
    }

    /// Whether the next line that has come has these words, where `#` stands for any number or address. It is taken
    /// off.
    pub fn takes_line(&mut self, alloc: Global, line: &str) -> Option<bool> {
        let mut parts = self.got.splitn(2, |octet| *octet == b'\n');
        let first = parts.next()?;
        let rest = Vec::from_slice(alloc, parts.next()?).ok()?;
        let is = is_line(first, line);
        self.got = rest;
        Some(is)
    }

    /// How many whole lines have come that no line of the case has asked for.
    pub fn lines(&self) -> usize {
        self.got.iter().filter(|octet| **octet == b'\n').count()
    }

    /// Whether the bridge has closed the connection.
    pub fn is_closed(&self) -> bool {
        self.is_closed
    }

    /// Whether the bridge has closed the connection, and all that it told before was asked for.
    pub fn has_ended(&self) -> bool {
        self.is_closed && self.got.is_empty()
    }
}
