//! A browser's connection. It has one request.

use crate::client_state::ClientState;
use crate::server_config::ServerConfig;
use desk_http::{ClientActivity, ClientStage, PendingLine, Query, Responder, Router};
use http_server::Connection;
use mio::net::TcpStream;
use std::alloc::{AllocError, Global};
use std::io::{ErrorKind, Read};
use std::{io, mem};

/// How many milliseconds a browser has to send its request, or to take the response. One that has the stream of events
/// has to take some of what is unread in this time.
pub(crate) const TIMEOUT: u64 = 10_000;
/// How many milliseconds a browser has to close after the response.
pub(crate) const DRAIN_TIMEOUT: u64 = 1_000;
/// How many octets a request has at most, its head and its body.
const MAX_REQUEST: usize = 278_529;
/// How many reads or writes are tried in a row.
pub(crate) const MAX_TRANSFERS: u32 = 16;

/// A browser's connection.
#[derive(Drop)]
pub(crate) struct Client {
    pub(crate) stream: TcpStream,
    pub(crate) connection: Connection,
    /// All octets of the request.
    request: Vec<u8>,
    pub(crate) pending: PendingLine,
    /// Who gave the line.
    pub(crate) person: Vec<u8>,
    /// The version of the desk that this person saw, if the request says it.
    pub(crate) seen: Option<u64>,
    /// Its line was handed to the bridge and has no reply yet.
    awaits_reply: bool,
    /// What the stream of events has for the browser, and how much of it was sent.
    pub(crate) events: Vec<u8>,
    pub(crate) sent: usize,
    pub(crate) state: ClientState,
    /// Connections are numbered in the order in which they were accepted.
    id: usize,
    /// When it was accepted.
    accepted: u64,
    /// When the connection is closed if its state hasn't changed.
    pub(crate) deadline: u64,
    /// When octets last came or were sent, or its state began.
    pub(crate) active: u64,
    pub(crate) ready: bool,
}

/// Gives octets to a connection. No octets are the end of the stream.
fn feed(connection: &mut Connection, octets: &[u8]) -> io::Result<()> {
    let mut rest = octets;
    for _ in 0..=MAX_REQUEST {
        connection.read_from(&mut rest)?;
        if rest.is_empty() {
            break;
        }
    }
    Ok(())
}

impl Client {
    pub(crate) fn new(config: ServerConfig, stream: TcpStream, id: usize, now: u64) -> Self {
        Self {
            stream,
            connection: config.new_connection(),
            request: Vec::new(config.alloc),
            pending: PendingLine::Reading,
            person: Vec::new(config.alloc),
            seen: None,
            awaits_reply: false,
            events: Vec::new(config.alloc),
            sent: 0,
            state: ClientState::Reading,
            id,
            accepted: now,
            deadline: now.saturating_add(TIMEOUT),
            active: now,
            ready: true,
        }
    }

    /// Notes that the socket may be readable or writable.
    pub(crate) fn set_ready(&mut self) {
        self.ready = true;
    }

    /// Whether to close it now.
    pub(crate) fn is_finished(&self, now: u64) -> bool {
        self.state == ClientState::Closed
            || (self.state != ClientState::Waiting && now >= self.deadline)
    }

    /// What decides whether it keeps its place.
    pub(crate) fn activity(&self) -> ClientActivity {
        let stage = match self.state {
            ClientState::Reading if self.request.is_empty() => ClientStage::Idle,
            ClientState::Reading => ClientStage::Sending,
            ClientState::Waiting => ClientStage::Waiting,
            ClientState::Streaming => ClientStage::Streaming,
            ClientState::Writing | ClientState::Draining | ClientState::Closed =>
                ClientStage::Responding,
        };
        ClientActivity {
            stage,
            accepted: self.accepted,
            active: self.active,
        }
    }

    pub(crate) fn id(&self) -> usize {
        self.id
    }

    /// Notes that a reply is awaited, if there is a line.
    fn dispatch(&mut self, line: Option<Vec<u8>>) -> Option<Vec<u8>> {
        self.awaits_reply = self.awaits_reply || line.is_some();
        line
    }

    /// Takes the line for the bridge if it is that of this query.
    pub(crate) fn dispatch_query(&mut self, query: Query) -> Option<Vec<u8>> {
        let line = self.pending.take_query(query);
        self.dispatch(line)
    }

    /// Who gave the line, if it is a call that is queued.
    pub(crate) fn caller(&self) -> Option<&[u8]> {
        if self.pending.has_call() {
            Some(&self.person)
        } else {
            None
        }
    }

    /// Takes the line for the bridge if it is a call.
    pub(crate) fn dispatch_call(&mut self) -> Option<Vec<u8>> {
        let line = self.pending.take_call();
        self.dispatch(line)
    }

    /// Takes the line if it is about names.
    pub(crate) fn take_names(&mut self) -> Option<Vec<u8>> {
        self.pending.take_names()
    }

    /// Takes the queued line, if there is one. It isn't for the bridge any more.
    pub(crate) fn take_line(&mut self) -> Option<Vec<u8>> {
        self.pending.take()
    }

    pub(crate) fn awaits_reply(&self) -> bool {
        self.awaits_reply
    }

    /// Begins a state, which has to change within so many milliseconds.
    pub(crate) fn enter(&mut self, state: ClientState, now: u64, timeout: u64) {
        self.state = state;
        self.deadline = now.saturating_add(timeout);
        self.active = now;
        self.ready = true;
    }

    /// Parses the request once more, by a connection of which nothing has come.
    fn parse_again(&mut self, config: ServerConfig) -> io::Result<()> {
        drop(mem::replace(&mut self.connection, config.new_connection()));
        feed(&mut self.connection, &self.request)
    }

    /// Has the request responded to.
    fn respond(&mut self, config: ServerConfig, responder: &mut Responder<'_>) -> io::Result<()> {
        self.parse_again(config)?;
        self.connection.advance(responder);
        Ok(())
    }

    /// Responds to the request, or closes the connection on out of memory. A request with another line than the
    /// responder's gets status 500.
    pub(crate) fn complete(
        &mut self,
        config: ServerConfig,
        mut responder: Responder<'_>,
        now: u64,
    ) {
        if self.respond(config, &mut responder).is_ok() {
            self.enter(ClientState::Writing, now, TIMEOUT);
        } else {
            self.state = ClientState::Closed;
        }
        self.awaits_reply = false;
    }

    /// Does what the socket allows now.
    pub(crate) fn poll(&mut self, router: &mut Router, chunk: &mut [u8], now: u64) {
        if self.state == ClientState::Reading
            && self.ready
            && self.read(router, chunk, now).is_err()
        {
            self.state = ClientState::Closed;
        }
        if self.state == ClientState::Streaming && self.ready {
            self.stream(chunk, now);
        }
        if self.state == ClientState::Writing && self.ready {
            self.write(now);
        }
        if self.state == ClientState::Draining && self.ready {
            self.drain(chunk);
        }
    }

    fn read(&mut self, router: &mut Router, chunk: &mut [u8], now: u64) -> io::Result<()> {
        for _ in 0..MAX_TRANSFERS {
            if self.state != ClientState::Reading {
                return Ok(());
            }
            match self.stream.read(chunk) {
                Ok(count) => self.receive(router, &chunk[..count], now)?,
                Err(error) => match error.kind() {
                    ErrorKind::WouldBlock => {
                        self.ready = false;
                        return Ok(());
                    }
                    ErrorKind::Interrupted => {}
                    _ => return Err(error),
                },
            }
        }
        Ok(())
    }

    /// Takes in a piece of the request, and routes the request once it is whole.
    fn receive(&mut self, router: &mut Router, octets: &[u8], now: u64) -> io::Result<()> {
        if self.request.len().saturating_add(octets.len()) > MAX_REQUEST {
            self.state = ClientState::Closed;
            return Ok(());
        }
        self.active = now;
        self.request.extend_from_slice(octets)?;
        feed(&mut self.connection, octets)?;
        self.connection.advance(router);
        self.person = Vec::from_slice(router.alloc, &router.person)?;
        self.seen = router.seen;
        self.proceed(router.line.take(), now);
        Ok(())
    }

    /// Goes on after a piece of the request: queues its line, or writes the response where no more of it may come.
    fn proceed(&mut self, line: Option<Vec<u8>>, now: u64) {
        match line {
            Some(line) => {
                self.pending.queue(line);
                self.state = ClientState::Waiting;
            }
            None if self.connection.wants_read() => {
                self.write_some(now);
            }
            None => self.enter(ClientState::Writing, now, TIMEOUT),
        }
    }

    /// Writes what the socket takes of what is pending. Returns whether the connection still takes octets.
    pub(crate) fn write_some(&mut self, now: u64) -> bool {
        for _ in 0..MAX_TRANSFERS {
            if !self.connection.wants_write() {
                return true;
            }
            match self.connection.write_to(&mut self.stream) {
                Ok(_) => self.active = now,
                Err(error) => match error.kind() {
                    ErrorKind::WouldBlock => {
                        self.ready = false;
                        return true;
                    }
                    ErrorKind::Interrupted => {}
                    _ => return false,
                },
            }
        }
        true
    }
}
