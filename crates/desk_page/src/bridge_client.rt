//! The page as a client of the bridge: a socket for a [`BridgeConnection`], which knows what to send and when a reply
//! is whole.

use desk_http::{BridgeConnection, BridgeReply};
use mio::net::TcpStream;
use mio::{Interest, Registry, Token};
use std::alloc::{AllocError, Global};
use std::io;
use std::io::{ErrorKind, Read, Write};
use std::net::{Net, SocketAddr};

/// How many writes are tried in a row.
const MAX_WRITES: u32 = 64;

/// Reads until nothing more has come or is wanted: the system reports a readable socket only once.
fn read_reply(
    stream: &mut TcpStream,
    connection: &mut BridgeConnection,
    chunk: &mut [u8],
) -> Result<(), AllocError> {
    for _ in 0..u64::MAX {
        if !connection.wants_read() {
            return Ok(());
        }
        match stream.read(chunk) {
            Ok(count) => connection.receive(&chunk[..count])?,
            Err(error) => match error.kind() {
                ErrorKind::WouldBlock | ErrorKind::NotConnected => return Ok(()),
                ErrorKind::Interrupted => {}
                _ => connection.is_open = false,
            },
        }
    }
    Ok(())
}

/// Writes what the socket takes of the line. Returns whether the connection still takes octets.
fn write_line(stream: &mut TcpStream, connection: &mut BridgeConnection) -> bool {
    for _ in 0..MAX_WRITES {
        if connection.unsent().is_empty() {
            return true;
        }
        match stream.write(connection.unsent()) {
            Ok(count) => connection.mark_sent(count),
            Err(error) => match error.kind() {
                ErrorKind::WouldBlock | ErrorKind::NotConnected => return true,
                ErrorKind::Interrupted => {}
                _ => return false,
            },
        }
    }
    true
}

/// Reads, and sends what is left of the line. Where no more can be sent, what came before is still read.
fn transfer(
    stream: &mut TcpStream,
    connection: &mut BridgeConnection,
    chunk: &mut [u8],
) -> Result<(), AllocError> {
    read_reply(stream, connection, chunk)?;
    if connection.wants_read() && !write_line(stream, connection) {
        read_reply(stream, connection, chunk)?;
        connection.is_open = false;
    }
    Ok(())
}

/// Begins to connect, without waiting for it.
fn connect_to<N: Net>(
    rt: &N,
    registry: &Registry,
    token: Token,
    address: SocketAddr,
) -> io::Result<TcpStream> {
    let mut stream = TcpStream::connect(rt, address)?;
    registry.register(&mut stream, token, Interest::READABLE | Interest::WRITABLE)?;
    Ok(stream)
}

/// A client of the bridge. It connects where a line has no connection, and has one request at a time.
// Replies have no numbers: only their order joins them to lines, so the next line waits for the reply to this one.
#[derive(Drop)]
pub(crate) struct BridgeClient {
    stream: Option<TcpStream>,
    connection: BridgeConnection,
    /// The socket may be readable or writable.
    ready: bool,
    /// How often it connected.
    pub(crate) connects: u64,
}

impl BridgeClient {
    pub(crate) fn new(alloc: Global) -> Self {
        Self {
            stream: None,
            connection: BridgeConnection::new(alloc),
            ready: false,
            connects: 0,
        }
    }

    pub(crate) fn is_idle(&self) -> bool {
        self.connection.is_idle()
    }

    /// Notes that the socket may be readable or writable.
    pub(crate) fn set_ready(&mut self) {
        self.ready = true;
    }

    fn connect<N: Net>(
        &mut self,
        rt: &N,
        registry: &Registry,
        token: Token,
        address: SocketAddr,
    ) -> io::Result<()> {
        if self.stream.is_none() {
            self.stream = Some(connect_to(rt, registry, token, address)?);
            self.connection.open();
            self.connects = self.connects.saturating_add(1);
        }
        Ok(())
    }

    /// Whether the bridge knows the connection by this name.
    pub(crate) fn has_name(&self, name: &[u8]) -> bool {
        self.connection.has_name(name)
    }

    /// Whether the bridge has given the name that was asked for last.
    pub(crate) fn is_named(&self) -> bool {
        self.connection.is_named
    }

    /// Begins the request that gives the connection this name, as `begin` does one with a line.
    pub(crate) fn begin_naming<N: Net>(
        &mut self,
        rt: &N,
        alloc: Global,
        registry: &Registry,
        token: Token,
        address: SocketAddr,
        name: &[u8],
        now: u64,
    ) -> io::Result<()> {
        self.connection.begin_naming(alloc, name, now)?;
        self.ready = true;
        let _ = self.connect(rt, registry, token, address);
        Ok(())
    }

    /// Begins a request with this line. Where no connection can be opened, the next `poll` gives a reply that says so.
    pub(crate) fn begin<N: Net>(
        &mut self,
        rt: &N,
        alloc: Global,
        registry: &Registry,
        token: Token,
        address: SocketAddr,
        line: Vec<u8>,
        now: u64,
    ) -> io::Result<()> {
        self.connection.begin(alloc, line, now)?;
        self.ready = true;
        let _ = self.connect(rt, registry, token, address);
        Ok(())
    }

    /// Does what the socket allows now. Returns the line and the reply of a request that has ended.
    pub(crate) fn poll(
        &mut self,
        chunk: &mut [u8],
        now: u64,
    ) -> Result<Option<(Vec<u8>, BridgeReply)>, AllocError> {
        if self.ready {
            self.ready = false;
            if let Some(stream) = &mut self.stream {
                transfer(stream, &mut self.connection, chunk)?;
            }
        }
        let reply = self.connection.poll_reply(now);
        if !self.connection.is_open {
            self.stream = None;
        }
        Ok(reply)
    }
}
