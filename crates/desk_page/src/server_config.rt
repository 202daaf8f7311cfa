//! What each connection to the page begins with.

use desk_http::Tables;
use http_server::{Config, Connection};
use std::alloc::Global;
use std::hash::RandomState;

/// What each connection to the page begins with.
#[derive(Clone, Copy)]
pub(crate) struct ServerConfig {
    /// Where its octets are allocated.
    pub(crate) alloc: Global,
    /// The secret keys of its maps: browsers choose the names of headers.
    pub(crate) keys: RandomState,
    /// The limits of its request.
    pub(crate) config: Config,
    /// How answers are handed on to machines.
    pub(crate) tables: Tables,
}

impl ServerConfig {
    pub(crate) fn new_connection(&self) -> Connection {
        Connection::new(self.alloc, self.keys, self.config)
    }
}
