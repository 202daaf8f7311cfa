//! Answers of the bridge that are right while nothing changes, so that all browsers share them.

use desk_http::{BridgeReply, Query};

/// The last answers to queries since something changed.
#[derive(Drop)]
pub(crate) struct Kept {
    desk: Option<BridgeReply>,
    history: Option<BridgeReply>,
    calls: Option<BridgeReply>,
}

impl Kept {
    /// No answers.
    pub(crate) fn new() -> Self {
        Self {
            desk: None,
            history: None,
            calls: None,
        }
    }

    /// Drops the answers: something changed.
    pub(crate) fn clear(&mut self) {
        self.desk = None;
        self.history = None;
        self.calls = None;
    }

    /// The answer to a query, if it is kept.
    pub(crate) fn reply(&self, query: Query) -> Option<&BridgeReply> {
        match query {
            Query::Desk => self.desk.as_ref(),
            Query::History => self.history.as_ref(),
            Query::Calls => self.calls.as_ref(),
            Query::Stats => None,
        }
    }

    /// Keeps the answer to a line, if that is a query whose answers are kept.
    pub(crate) fn keep(&mut self, line: &[u8], reply: BridgeReply) {
        if !matches!(reply, BridgeReply::Text(_)) {
            return;
        }
        if line == Query::Desk.line() {
            self.desk = Some(reply);
        } else if line == Query::History.line() {
            self.history = Some(reply);
        } else if line == Query::Calls.line() {
            self.calls = Some(reply);
        }
    }
}
