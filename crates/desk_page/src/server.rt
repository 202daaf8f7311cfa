//! The event loop: browsers' connections, their streams of events, and the answers that are kept.

use crate::bridge_client::BridgeClient;
use crate::clients::Clients;
use crate::follow::Follow;
use crate::kept::Kept;
use crate::names_store::NamesStore;
use crate::page_sockets::{LISTENER, PageSockets};
use crate::query_timer::{QueryTimer, millis_since};
use crate::server_config::ServerConfig;
use crate::setup::{router_at, run_name, run_text, server_config};
use desk_http::{Addresses, DeskTexts, Query, Router};
use mio::net::TcpStream;
use mio::{Interest, Token};
use std::alloc::{AllocGlobal, Global};
use std::fs::Files;
use std::io;
use std::io::Eprint;
use std::net::{Net, SocketAddr};
use std::random::RandomSource;
use std::rt::Runtime;
use std::sync::Wait;
use std::time::{Clock, Instant};

/// The token of the bridge's connection.
pub(crate) const BRIDGE: Token = Token(1);
/// The token of the first browser's connection.
const FIRST_CLIENT: usize = 2;
/// How many connections are accepted in a round at most.
const MAX_ACCEPTS: u32 = 1_024;
/// How many milliseconds are between two requests with the same query at least, and between two counts.
const QUERY_INTERVAL: u64 = 100;

const COUNT_INTERVAL: u64 = 1_000;
/// How many octets are read at a time.
const CHUNK_SIZE: usize = 16_384;

/// The page's server.
#[derive(Drop)]
pub(crate) struct Server {
    pub(crate) config: ServerConfig,
    pub(crate) sockets: PageSockets,
    pub(crate) bridge_address: SocketAddr,
    begun: Instant,
    pub(crate) router: Router,
    pub(crate) store: NamesStore,
    pub(crate) texts: DeskTexts,
    /// The folder with the page's files, if it isn't the built-in ones that are served.
    folder: Option<String>,
    /// What this run of the program is called.
    pub(crate) run_name: Vec<u8>,
    pub(crate) clients: Clients,
    pub(crate) bridge: BridgeClient,
    pub(crate) desk: QueryTimer,
    pub(crate) history: QueryTimer,
    pub(crate) calls: QueryTimer,
    pub(crate) stats: QueryTimer,
    /// What the browsers with the stream of events are told.
    pub(crate) follow: Follow,
    /// The answers that are right while nothing changes.
    pub(crate) kept: Kept,
    /// How often the bridge was connected to when the desk was looked at.
    pub(crate) connects: u64,
    /// The buffer of all reads.
    pub(crate) chunk: Vec<u8>,
}

impl Server {
    /// Opens the page's sockets, and serves until a socket, the clock or memory fails. Where the port is 0 the system
    /// chooses one.
    pub(crate) fn serve<R: Runtime + AllocGlobal + Net + RandomSource + Wait>(
        rt: &R,
        addresses: Addresses,
        store: NamesStore,
        folder: Option<String>,
    ) -> io::Result<()> {
        let alloc = rt.alloc();
        let config = server_config(rt, alloc)?;
        let begun = Instant::now(rt)?;
        let sockets = PageSockets::open(rt, alloc, addresses.listen)?;
        let address = sockets.listener.local_addr()?;
        let router = router_at(rt, alloc, address, folder.is_some())?;
        let mut server = Self {
            config,
            sockets,
            bridge_address: SocketAddr::V4(addresses.bridge),
            begun,
            router,
            store,
            texts: DeskTexts::new(alloc),
            folder,
            run_name: run_name(rt, alloc)?,
            clients: Clients::new(alloc, FIRST_CLIENT),
            bridge: BridgeClient::new(alloc),
            desk: QueryTimer::new(Query::Desk, QUERY_INTERVAL),
            history: QueryTimer::new(Query::History, QUERY_INTERVAL),
            calls: QueryTimer::new(Query::Calls, QUERY_INTERVAL),
            stats: QueryTimer::new(Query::Stats, COUNT_INTERVAL),
            follow: Follow::new(alloc),
            kept: Kept::new(),
            connects: 0,
            chunk: Vec::new(alloc),
        };
        let served = server.run(rt, address);
        drop(server);
        served
    }

    /// Prints where it listens, and serves.
    fn run<R: Runtime + AllocGlobal + Net + Wait>(
        &mut self,
        rt: &R,
        address: SocketAddr,
    ) -> io::Result<()> {
        self.chunk.resize(CHUNK_SIZE, 0)?;
        let _ = eprintln!(rt; "desk_page: http://{address}/");
        for _ in rt.forever() {
            self.round(rt)?;
        }
        Ok(())
    }

    /// One round: waits 25 ms at most, and does what the sockets allow.
    fn round<R: AllocGlobal + Net + Clock + Files>(&mut self, rt: &R) -> io::Result<()> {
        self.sockets.wait()?;
        let now = millis_since(rt, self.begun)?;
        self.note_events();
        self.accept(now);
        self.poll_clients(now);
        self.serve_names(rt, now)?;
        self.serve_files(rt, now)?;
        self.serve_events(now)?;
        self.serve_kept(now);
        // The second time sends the line of the request that the first time began.
        self.poll_bridge(rt, now)?;
        self.poll_bridge(rt, now)?;
        self.publish(now)?;
        self.poll_clients(now);
        self.clients.remove_closed(now);
        Ok(())
    }

    /// Notes which sockets are ready.
    fn note_events(&mut self) {
        for event in &self.sockets.events {
            match event.token() {
                LISTENER => self.sockets.may_accept = true,
                BRIDGE => self.bridge.set_ready(),
                Token(id) => self.clients.set_ready(id),
            }
        }
    }

    /// Lets the browsers' connections do what their sockets allow.
    fn poll_clients(&mut self, now: u64) {
        self.clients.poll(&mut self.router, &mut self.chunk, now);
    }

    fn serve_names<R: Files>(&mut self, rt: &R, now: u64) -> io::Result<()> {
        let version = self.store.names.version;
        self.clients
            .serve_names(rt, self.config, &self.router.site, &mut self.store, now)?;
        if self.store.names.version != version {
            self.note_change();
        }
        Ok(())
    }

    /// Responds by the files of the folder.
    fn serve_files<R: AllocGlobal + Files>(&mut self, rt: &R, now: u64) -> io::Result<()> {
        if let Some(folder) = &self.folder {
            self.clients
                .serve_files(rt, self.config, &self.router.site, folder, now)?;
        }
        Ok(())
    }

    /// Begins the streams of events that browsers ask for.
    fn serve_events(&mut self, now: u64) -> io::Result<()> {
        let first = self.follow.hello(
            self.config.alloc,
            run_text(&self.run_name),
            self.texts.number,
        )?;
        self.clients
            .serve_events(self.config, &self.router.site, &first, now);
        Ok(())
    }

    /// Responds by answers that are still right.
    fn serve_kept(&mut self, now: u64) {
        if !self.is_followed() {
            self.kept.clear();
        }
        if !self.follow.is_settled() {
            return;
        }
        self.serve_query(Query::Desk, now);
        self.serve_query(Query::History, now);
        self.serve_query(Query::Calls, now);
    }

    /// Responds to all who ask a query, if its answer is kept.
    fn serve_query(&mut self, query: Query, now: u64) {
        if let Some(reply) = self.kept.reply(query) {
            self.clients
                .complete_query(self.config, &self.router.site, query, reply, now);
        }
    }

    /// Whether a browser has the stream of events.
    pub(crate) fn is_followed(&self) -> bool {
        self.clients.streams() > 0
    }

    /// Gives browsers the events that have come.
    fn publish(&mut self, now: u64) -> io::Result<()> {
        self.follow.note_beat(self.config.alloc, now)?;
        self.clients.publish(&self.follow.events, now);
        self.follow.events.clear();
        if !self.is_followed() {
            self.follow.clear();
        }
        Ok(())
    }

    /// Notes that the desk, its history and its log may have changed: they are asked for at once.
    pub(crate) fn note_change(&mut self) {
        self.desk.reset();
        self.history.reset();
        self.calls.reset();
        self.follow.note_change();
        self.kept.clear();
    }

    /// Accepts the connections that are waiting.
    fn accept(&mut self, now: u64) {
        for _ in 0..MAX_ACCEPTS {
            match self.sockets.next_connection() {
                Some(stream) => self.register_client(stream, now),
                None => return,
            }
        }
    }

    /// Gives a connection a place and a token, or closes it.
    fn register_client(&mut self, mut stream: TcpStream, now: u64) {
        let token = Token(self.clients.next_id());
        let interest = Interest::READABLE | Interest::WRITABLE;
        let registry = self.sockets.poll.registry();
        if registry.register(&mut stream, token, interest).is_ok() {
            self.clients.accept(self.config, stream, now);
        }
    }
}
