//! A browser's stream of events.

use crate::client::{Client, MAX_TRANSFERS, TIMEOUT};
use crate::client_state::ClientState;
use desk_http::{keeps_up, stream_head};
use std::io::{ErrorKind, Read, Write};

impl Client {
    /// Takes the line if it asks for the stream of events.
    pub(crate) fn take_events(&mut self) -> Option<Vec<u8>> {
        self.pending.take_events()
    }

    /// Whether it has the stream of events.
    pub(crate) fn is_streaming(&self) -> bool {
        self.state == ClientState::Streaming
    }

    /// Begins the stream of events by a first one.
    pub(crate) fn begin_stream(&mut self, hello: &[u8], now: u64) {
        self.enter(ClientState::Streaming, now, TIMEOUT);
        self.publish(stream_head(), now);
        self.publish(hello, now);
    }

    /// Gives a stream more events. A browser that doesn't keep up loses its connection, and loads the desk again.
    pub(crate) fn publish(&mut self, events: &[u8], now: u64) {
        if self.state != ClientState::Streaming {
            return;
        }
        let unread = self.events.len().saturating_sub(self.sent);
        if unread == 0 {
            self.events.clear();
            self.sent = 0;
            self.deadline = now.saturating_add(TIMEOUT);
        }
        if !keeps_up(unread.saturating_add(events.len()))
            || self.events.extend_from_slice(events).is_err()
        {
            self.state = ClientState::Closed;
        }
        self.ready = true;
    }

    /// Sends events, and looks whether the browser has closed.
    pub(crate) fn stream(&mut self, chunk: &mut [u8], now: u64) {
        self.ready = false;
        if !self.send_events(now) || !self.is_connected(chunk) {
            self.state = ClientState::Closed;
        }
    }

    /// Writes what the socket takes of the events. Returns whether the connection still takes octets.
    fn send_events(&mut self, now: u64) -> bool {
        for _ in 0..MAX_TRANSFERS {
            let unread = match self.events.get(self.sent..) {
                Some(unread) if !unread.is_empty() => unread,
                _ => {
                    self.deadline = u64::MAX;
                    return true;
                }
            };
            match self.stream.write(unread) {
                Ok(count) => {
                    self.sent = self.sent.saturating_add(count);
                    self.active = now;
                    self.deadline = now.saturating_add(TIMEOUT);
                }
                Err(error) => match error.kind() {
                    ErrorKind::WouldBlock => return true,
                    ErrorKind::Interrupted => {}
                    _ => return false,
                },
            }
        }
        self.ready = true;
        true
    }

    /// Drops what a browser sends behind its request. Returns whether the browser is still there.
    fn is_connected(&mut self, chunk: &mut [u8]) -> bool {
        match self.stream.read(chunk) {
            Ok(0) => false,
            Ok(_) => {
                self.ready = true;
                true
            }
            Err(error) => matches!(error.kind(), ErrorKind::WouldBlock | ErrorKind::Interrupted),
        }
    }
}
