//! The browsers' connections.

use crate::client::Client;
use crate::names_store::NamesStore;
use crate::query_timer::QueryTimer;
use crate::server_config::ServerConfig;
use desk_http::{
    BridgeReply, ClientActivity, Placement, Query, Responder, Router, Site, admit, admits_stream,
};
use mio::net::TcpStream;
use std::alloc::{AllocError, Global};
use std::fs::Files;
use std::io;

/// The browsers' connections.
#[derive(Drop)]
pub(crate) struct Clients {
    /// The oldest is the first.
    pub(crate) connected: Vec<Client>,
    /// The number of the next connection.
    next_id: usize,
}

impl Clients {
    /// No connections. The first one gets this number.
    pub(crate) fn new(alloc: Global, first: usize) -> Self {
        Self {
            connected: Vec::new(alloc),
            next_id: first,
        }
    }

    pub(crate) fn next_id(&self) -> usize {
        self.next_id
    }

    /// Notes that the socket of the connection with this number may be readable or writable.
    pub(crate) fn set_ready(&mut self, id: usize) {
        for client in &mut self.connected {
            if client.id() == id {
                client.set_ready();
            }
        }
    }

    /// What decides which connection keeps its place, the oldest first.
    fn activities(&self, alloc: Global) -> Result<Vec<ClientActivity>, AllocError> {
        let mut activities = Vec::new(alloc);
        for client in &self.connected {
            activities.push(client.activity())?;
        }
        Ok(activities)
    }

    /// Makes sure of a place for a new connection, if one can be had. Returns whether there is one.
    fn ensure_place(&mut self, alloc: Global, now: u64) -> Result<bool, AllocError> {
        let activities = self.activities(alloc)?;
        Ok(match admit(&activities, now) {
            Placement::Free => true,
            Placement::Evict(at) if at < self.connected.len() => {
                drop(self.connected.remove(at));
                true
            }
            Placement::Evict(_) | Placement::Refused => false,
        })
    }

    /// Adds a connection, or closes it where there is no place.
    pub(crate) fn accept(&mut self, config: ServerConfig, stream: TcpStream, now: u64) {
        if self.ensure_place(config.alloc, now).unwrap_or(false) {
            let client = Client::new(config, stream, self.next_id, now);
            self.next_id = self.next_id.saturating_add(1);
            drop(self.connected.push(client));
        }
    }

    /// Lets each connection do what its socket allows.
    pub(crate) fn poll(&mut self, router: &mut Router, chunk: &mut [u8], now: u64) {
        for client in &mut self.connected {
            client.poll(router, chunk, now);
        }
    }

    /// Who gave the oldest connection's call, if there is one.
    pub(crate) fn next_caller(&self) -> Option<&[u8]> {
        for client in &self.connected {
            if let Some(person) = client.caller() {
                return Some(person);
            }
        }
        None
    }

    /// Takes the oldest connection's call, for the bridge.
    pub(crate) fn next_call(&mut self) -> Option<Vec<u8>> {
        for client in &mut self.connected {
            if let Some(line) = client.dispatch_call() {
                return Some(line);
            }
        }
        None
    }

    /// Takes one line of this query, for the bridge. All who ask it get the reply.
    pub(crate) fn next_query(&mut self, query: Query) -> Option<Vec<u8>> {
        let mut next = None;
        for client in &mut self.connected {
            if let Some(line) = client.dispatch_query(query) {
                next = Some(line);
            }
        }
        next
    }

    /// The line of a query that some browser asks, if it may be asked now.
    pub(crate) fn due_query(&mut self, timer: &mut QueryTimer, now: u64) -> Option<Vec<u8>> {
        if !timer.is_due(now) {
            return None;
        }
        let line = self.next_query(timer.query)?;
        timer.note_asked(now);
        Some(line)
    }

    /// Responds to all who await a reply, by the reply to this line.
    pub(crate) fn complete(
        &mut self,
        config: ServerConfig,
        site: &Site,
        line: &[u8],
        reply: &BridgeReply,
        now: u64,
    ) {
        for client in &mut self.connected {
            if client.awaits_reply() {
                let (alloc, tables) = (config.alloc, &config.tables);
                let responder = Responder {
                    alloc,
                    tables,
                    site,
                    line,
                    reply,
                };
                client.complete(config, responder, now);
            }
        }
    }

    /// Responds to lines about names, the oldest connection's first.
    pub(crate) fn serve_names<R: Files>(
        &mut self,
        rt: &R,
        config: ServerConfig,
        site: &Site,
        store: &mut NamesStore,
        now: u64,
    ) -> io::Result<()> {
        for client in &mut self.connected {
            if let Some(line) = client.take_names() {
                let reply = &store.reply_to(rt, config.alloc, &line)?;
                let (alloc, tables, line) = (config.alloc, &config.tables, line.as_slice());
                let responder = Responder {
                    alloc,
                    tables,
                    site,
                    line,
                    reply,
                };
                client.complete(config, responder, now);
            }
        }
        Ok(())
    }

    /// How many have the stream of events.
    pub(crate) fn streams(&self) -> usize {
        self.connected
            .iter()
            .filter(|client| client.is_streaming())
            .count()
    }

    /// Begins the streams that are asked for by a first event, or says that there are too many.
    pub(crate) fn serve_events(
        &mut self,
        config: ServerConfig,
        site: &Site,
        hello: &[u8],
        now: u64,
    ) {
        let mut count = self.streams();
        for client in &mut self.connected {
            if let Some(line) = client.take_events() {
                if admits_stream(count) {
                    count = count.saturating_add(1);
                    client.begin_stream(hello, now);
                } else {
                    let (alloc, tables, line) = (config.alloc, &config.tables, line.as_slice());
                    let responder = Responder {
                        alloc,
                        tables,
                        site,
                        line,
                        reply: &BridgeReply::Full,
                    };
                    client.complete(config, responder, now);
                }
            }
        }
    }

    /// Gives events to all who have the stream of them.
    pub(crate) fn publish(&mut self, events: &[u8], now: u64) {
        for client in &mut self.connected {
            client.publish(events, now);
        }
    }

    /// Responds to all who ask this query by an answer that is still right.
    pub(crate) fn complete_query(
        &mut self,
        config: ServerConfig,
        site: &Site,
        query: Query,
        reply: &BridgeReply,
        now: u64,
    ) {
        for client in &mut self.connected {
            if let Some(line) = client.dispatch_query(query) {
                let (alloc, tables, line) = (config.alloc, &config.tables, line.as_slice());
                let responder = Responder {
                    alloc,
                    tables,
                    site,
                    line,
                    reply,
                };
                client.complete(config, responder, now);
            }
        }
    }

    /// Responds by this reply to all whose lines are still queued. The bridge doesn't get the lines.
    pub(crate) fn complete_queued(
        &mut self,
        config: ServerConfig,
        site: &Site,
        reply: &BridgeReply,
        now: u64,
    ) {
        for client in &mut self.connected {
            if let Some(line) = client.take_line() {
                let (alloc, tables, line) = (config.alloc, &config.tables, line.as_slice());
                let responder = Responder {
                    alloc,
                    tables,
                    site,
                    line,
                    reply,
                };
                client.complete(config, responder, now);
            }
        }
    }

    /// Closes the connections that have ended.
    pub(crate) fn remove_closed(&mut self, now: u64) {
        self.connected.retain(|client| !client.is_finished(now));
    }
}
