//! When the bridge may be asked a query.

use desk_http::Query;
use std::io;
use std::time::{Clock, Instant};

/// When the bridge may be asked a query.
#[derive(Clone, Copy)]
pub(crate) struct QueryTimer {
    pub(crate) query: Query,
    /// How many milliseconds are between two requests at least. All browsers share a reply.
    interval: u64,
    /// The next moment, in milliseconds.
    next: u64,
}

impl QueryTimer {
    /// A query that may be asked at once.
    pub(crate) fn new(query: Query, interval: u64) -> Self {
        Self {
            query,
            interval,
            next: 0,
        }
    }

    pub(crate) fn is_due(self, now: u64) -> bool {
        now >= self.next
    }

    /// Notes that it is asked at this moment.
    pub(crate) fn note_asked(&mut self, now: u64) {
        self.next = now.saturating_add(self.interval);
    }

    /// Lets it be asked at once.
    pub(crate) fn reset(&mut self) {
        self.next = 0;
    }
}

/// How many milliseconds have gone by since a moment.
pub(crate) fn millis_since<R: Clock>(rt: &R, begun: Instant) -> io::Result<u64> {
    Ok(u64::try_from(begun.elapsed(rt)?.as_millis()).unwrap_or(u64::MAX))
}
