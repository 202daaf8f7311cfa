//! The socket that browsers connect to, and the events of all sockets.

use mio::net::{TcpListener, TcpStream};
use mio::{Events, Interest, Poll, Registry, Token};
use std::alloc::Global;
use std::io;
use std::io::ErrorKind;
use std::net::{Net, SocketAddr, SocketAddrV4};
use std::time::Duration;

/// The token of the socket for browsers.
pub(crate) const LISTENER: Token = Token(0);
/// How many milliseconds a round waits at most.
const MAX_WAIT: u64 = 25;
/// How many of the system's events are taken at a time.
const MAX_EVENTS: usize = 32;

/// The socket that browsers connect to, and the events of all sockets.
#[derive(Drop)]
pub(crate) struct PageSockets {
    pub(crate) poll: Poll,
    pub(crate) events: Events,
    pub(crate) listener: TcpListener,
    /// Connections may be waiting, which the system reports only once.
    pub(crate) may_accept: bool,
}

/// Opens the socket for browsers.
fn listener_at<R: Net>(
    rt: &R,
    registry: &Registry,
    address: SocketAddrV4,
) -> io::Result<TcpListener> {
    let mut listener = TcpListener::bind(rt, SocketAddr::V4(address))?;
    registry.register(&mut listener, LISTENER, Interest::READABLE)?;
    Ok(listener)
}

impl PageSockets {
    /// Opens the socket for browsers at this address.
    pub(crate) fn open<R: Net>(rt: &R, alloc: Global, address: SocketAddrV4) -> io::Result<Self> {
        let poll = Poll::new(rt)?;
        let events = Events::with_capacity(alloc, MAX_EVENTS)?;
        let listener = listener_at(rt, poll.registry(), address)?;
        Ok(Self {
            poll,
            events,
            listener,
            may_accept: true,
        })
    }

    /// Waits until a socket is ready, for a round at most.
    pub(crate) fn wait(&mut self) -> io::Result<()> {
        self.poll
            .poll(&mut self.events, Some(Duration::from_millis(MAX_WAIT)))
    }

    /// Accepts a connection, if one is waiting. Where the system has no descriptor for it, the next round tries again.
    pub(crate) fn next_connection(&mut self) -> Option<TcpStream> {
        if !self.may_accept {
            return None;
        }
        match self.listener.accept() {
            Ok((stream, _)) => Some(stream),
            Err(error) => {
                self.may_accept = error.kind() != ErrorKind::WouldBlock;
                None
            }
        }
    }
}
