//! Calls whose persons say which desk they saw. One that comes behind another person's change of its row isn't sent.

use crate::client::Client;
use crate::clients::Clients;
use crate::server_config::ServerConfig;
use desk_http::{BridgeReply, Responder, SeenCall, Site, answer_lines, newer_call};
use std::alloc::{AllocError, Global};

impl Client {
    /// The call that is queued, if its person says which desk it is for.
    fn seen_call(&self) -> Option<SeenCall<'_>> {
        let line = str::from_utf8(self.pending.call()?).ok()?;
        Some(SeenCall {
            line,
            person: &self.person,
            seen: self.seen?,
        })
    }
}

impl Clients {
    /// The oldest connection's call, if its person says which desk it is for.
    fn seen_call(&self) -> Option<SeenCall<'_>> {
        for client in &self.connected {
            if client.caller().is_some() {
                return client.seen_call();
            }
        }
        None
    }

    /// Whether the next call is judged by the log before it is sent.
    pub(crate) fn wants_log(&self) -> bool {
        self.seen_call().is_some()
    }

    /// The call of the log that came before the next call, if one did.
    fn newer_call(&self, alloc: Global, log: &[u8]) -> Result<Option<Vec<u8>>, AllocError> {
        let (call, text) = match (self.seen_call(), str::from_utf8(log)) {
            (Some(call), Ok(text)) => (call, text),
            _ => return Ok(None),
        };
        let lines = answer_lines(alloc, text)?;
        match newer_call(alloc, call, &lines)? {
            Some(line) => Ok(Some(Vec::from_slice(alloc, line.as_bytes())?)),
            None => Ok(None),
        }
    }

    /// Responds to the oldest connection's call, which isn't sent.
    fn complete_call(&mut self, config: ServerConfig, site: &Site, reply: &BridgeReply, now: u64) {
        for client in &mut self.connected {
            if let Some(line) = client.dispatch_call() {
                let (alloc, tables, line) = (config.alloc, &config.tables, line.as_slice());
                let responder = Responder {
                    alloc,
                    tables,
                    site,
                    line,
                    reply,
                };
                client.complete(config, responder, now);
                return;
            }
        }
    }

    /// Refuses the next call where a call of this log came first. Returns whether it did.
    pub(crate) fn refuse_newer(
        &mut self,
        config: ServerConfig,
        site: &Site,
        log: &[u8],
        now: u64,
    ) -> Result<bool, AllocError> {
        match self.newer_call(config.alloc, log)? {
            Some(call) => {
                self.complete_call(config, site, &BridgeReply::Newer(call), now);
                Ok(true)
            }
            None => Ok(false),
        }
    }
}
