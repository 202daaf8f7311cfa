//! What the page's server asks the bridge, and what it does with the answers.

use crate::follow::BridgeState;
use crate::server::{BRIDGE, Server};
use crate::setup::run_text;
use desk_http::{BridgeReply, Query, is_naming, latest_line, lease_line};
use std::alloc::AllocError;
use std::io;
use std::net::Net;

/// Whether a line only asks the bridge.
fn is_question(line: &[u8]) -> bool {
    line == Query::Desk.line()
        || line == Query::History.line()
        || line == Query::Calls.line()
        || line == Query::Stats.line()
        || line == latest_line()
        || line == lease_line()
}

impl Server {
    /// Finishes the request that has ended, and begins the next one.
    pub(crate) fn poll_bridge<R: Net>(&mut self, rt: &R, now: u64) -> io::Result<()> {
        if let Some((line, reply)) = self.bridge.poll(&mut self.chunk, now)? {
            self.finish_request(line, reply, now)?;
        }
        if self.bridge.is_idle() {
            self.begin_request(rt, now)?;
        }
        self.follow.has_log = false;
        Ok(())
    }

    /// The line that asks for the log, where the next call is judged by it.
    fn judging_line(&mut self) -> Result<Option<Vec<u8>>, AllocError> {
        if self.follow.has_log || !self.clients.wants_log() {
            return Ok(None);
        }
        let line = Query::Calls.line();
        self.join(line);
        Ok(Some(Vec::from_slice(self.config.alloc, line)?))
    }

    /// The next line for the bridge: the oldest connection's call, or else a query.
    fn next_line(&mut self, now: u64) -> Result<Option<Vec<u8>>, AllocError> {
        if let Some(line) = self.judging_line()? {
            return Ok(Some(line));
        }
        if let Some(line) = self.clients.next_call() {
            return Ok(Some(line));
        }
        if let Some(line) = self.followed_line(now)? {
            return Ok(Some(line));
        }
        Ok(self.due_query(now))
    }

    /// The line that follows the desk, if one is due. Who asks the same gets its answer.
    fn followed_line(&mut self, now: u64) -> Result<Option<Vec<u8>>, AllocError> {
        if !self.is_followed() {
            return Ok(None);
        }
        match self.follow.due_line(now) {
            Some(line) => {
                self.join(line);
                Ok(Some(Vec::from_slice(self.config.alloc, line)?))
            }
            None => Ok(None),
        }
    }

    /// Lets those who ask the same as this line have its answer.
    fn join(&mut self, line: &[u8]) {
        if line == Query::Desk.line() {
            drop(self.clients.next_query(Query::Desk));
        } else if line == Query::Calls.line() {
            drop(self.clients.next_query(Query::Calls));
        }
    }

    fn due_query(&mut self, now: u64) -> Option<Vec<u8>> {
        if let Some(line) = self.clients.due_query(&mut self.desk, now) {
            return Some(line);
        }
        if let Some(line) = self.clients.due_query(&mut self.history, now) {
            return Some(line);
        }
        if let Some(line) = self.clients.due_query(&mut self.calls, now) {
            return Some(line);
        }
        self.clients.due_query(&mut self.stats, now)
    }

    /// Gives the connection the name of whom the next call is of, unless it has that name. Returns whether it does.
    fn begin_naming<R: Net>(&mut self, rt: &R, now: u64) -> io::Result<bool> {
        let (alloc, address) = (self.config.alloc, self.bridge_address);
        let registry = self.sockets.poll.registry();
        match self.clients.next_caller() {
            Some(name) if !self.bridge.has_name(name) => {
                self.bridge
                    .begin_naming(rt, alloc, registry, BRIDGE, address, name, now)?;
                Ok(true)
            }
            Some(_) | None => Ok(false),
        }
    }

    /// Refuses the next call where another person's call came first. Returns whether it did.
    fn refuse_newer(&mut self, now: u64) -> Result<bool, AllocError> {
        if !self.follow.has_log {
            return Ok(false);
        }
        let (config, site, log) = (self.config, &self.router.site, self.follow.log());
        self.clients.refuse_newer(config, site, log, now)
    }

    fn begin_request<R: Net>(&mut self, rt: &R, now: u64) -> io::Result<()> {
        if self.begin_naming(rt, now)? || self.refuse_newer(now)? {
            return Ok(());
        }
        if let Some(line) = self.next_line(now)? {
            let registry = self.sockets.poll.registry();
            let (alloc, address) = (self.config.alloc, self.bridge_address);
            self.bridge
                .begin(rt, alloc, registry, BRIDGE, address, line, now)?;
        }
        Ok(())
    }

    fn complete(&mut self, line: &[u8], reply: &BridgeReply, now: u64) {
        let site = &self.router.site;
        self.clients.complete(self.config, site, line, reply, now);
    }

    fn complete_queued(&mut self, reply: &BridgeReply, now: u64) {
        self.clients
            .complete_queued(self.config, &self.router.site, reply, now);
    }

    /// Responds by a reply to those who await it. Where the bridge gave none, those whose lines are queued get a
    /// response at once, too.
    fn finish_request(&mut self, line: Vec<u8>, reply: BridgeReply, now: u64) -> io::Result<()> {
        let mut reply = reply;
        self.note_bridge(&reply)?;
        self.note_reply(&line, &mut reply)?;
        self.complete(&line, &reply, now);
        match reply {
            BridgeReply::Text(_)
            | BridgeReply::Full
            | BridgeReply::Newer(_)
            | BridgeReply::Missing => {
                self.refuse_unnamed(&line, &reply, now);
            }
            BridgeReply::Busy => self.complete_queued(&BridgeReply::Busy, now),
            BridgeReply::Gone | BridgeReply::Lost => self.complete_queued(&BridgeReply::Gone, now),
        }
        self.kept.keep(&line, reply);
        Ok(())
    }

    /// Notes what a reply says of the bridge. Over a new connection another bridge may answer.
    fn note_bridge(&mut self, reply: &BridgeReply) -> Result<(), AllocError> {
        if self.connects != self.bridge.connects {
            self.connects = self.bridge.connects;
            self.follow.note_change();
            self.kept.clear();
        }
        self.follow.note_bridge(BridgeState::by(reply))
    }

    /// Responds to the next call by the answer to a name that the bridge doesn't give: without it the call isn't sent.
    fn refuse_unnamed(&mut self, line: &[u8], reply: &BridgeReply, now: u64) {
        if !is_naming(line) || self.bridge.is_named() {
            return;
        }
        if let Some(call) = self.clients.next_call() {
            self.complete(&call, reply, now);
        }
    }

    fn note_desk(&mut self, text: &mut Vec<u8>) -> Result<(), AllocError> {
        let alloc = self.config.alloc;
        self.store.names.append_heading(alloc, text)?;
        let run = run_text(&self.run_name);
        self.follow.note_desk(alloc, &self.texts, run, text)?;
        self.texts.note(alloc, text)?;
        self.texts.append_state(alloc, &self.run_name, text)
    }

    /// Takes what the bridge answered to a question. Adds the version of the names to the desk, and the state that
    /// names its text.
    fn note_text(&mut self, line: &[u8], text: &mut Vec<u8>) -> Result<(), AllocError> {
        if line == Query::Desk.line() {
            self.note_desk(text)
        } else if line == Query::Calls.line() {
            self.follow.note_log(self.config.alloc, text)
        } else if line == lease_line() {
            self.follow.note_lease(self.config.alloc, text)
        } else if line == latest_line() && self.follow.note_newest(self.config.alloc, text)? {
            self.note_change();
            Ok(())
        } else {
            Ok(())
        }
    }

    /// Takes a reply. After a call the desk, the history and the log are asked for at once.
    fn note_reply(&mut self, line: &[u8], reply: &mut BridgeReply) -> Result<(), AllocError> {
        if let BridgeReply::Text(text) = reply {
            self.note_text(line, text)?;
        }
        if !is_question(line) && !is_naming(line) {
            self.note_change();
        }
        Ok(())
    }
}
