//! How a browser's connection ends: the response is written, and the browser closes.

use crate::client::{Client, DRAIN_TIMEOUT, MAX_TRANSFERS};
use crate::client_state::ClientState;
use std::io::{ErrorKind, Read};
use std::net::Shutdown;

impl Client {
    /// Writes the response, and then ends the stream.
    pub(crate) fn write(&mut self, now: u64) {
        if !self.write_some(now) {
            self.state = ClientState::Closed;
        } else if !self.connection.wants_write() {
            let _ = self.stream.shutdown(Shutdown::Write);
            self.enter(ClientState::Draining, now, DRAIN_TIMEOUT);
        }
    }

    /// Drops what still comes, until the browser closes: unread octets would reset the connection.
    pub(crate) fn drain(&mut self, chunk: &mut [u8]) {
        for _ in 0..MAX_TRANSFERS {
            match self.stream.read(chunk) {
                Ok(0) => {
                    self.state = ClientState::Closed;
                    return;
                }
                Ok(_) => {}
                Err(error) => {
                    match error.kind() {
                        ErrorKind::WouldBlock => self.ready = false,
                        ErrorKind::Interrupted => {}
                        _ => self.state = ClientState::Closed,
                    }
                    return;
                }
            }
        }
    }
}
