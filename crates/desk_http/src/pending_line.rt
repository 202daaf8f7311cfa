//! A request's line until it is handed to the bridge.

ghost use Rattle.std.specs.Prelude.{◌≡◌, option_map};
ghost use Rattle.desk_http.specs.PendingLines.{
  stage_of,
  after_queue,
  after_take,
  after_take_if,
  has_query,
  has_call,
  has_names_line,
  has_events_line,
  has_file_line,
  line_at,
  line_if,
};

use crate::Query;
use crate::lines::{is_events_line, is_file_line, is_names_line};
use crate::query::is_query;
use std::mem;

/// The line of a connection, on its way to the bridge. A connection has one request, and so at most one line.
///
/// Call [`queue`](Self::queue) once a request is whole. Then [`take_query`](Self::take_query) or
/// [`take_call`](Self::take_call) hands the line to the bridge.
#[derive(Drop)]
pub enum PendingLine {
    /// No request is whole yet.
    Reading,
    /// This line is to be handed to the bridge, to the store of names, to the stream of events, or to the folder.
    Queued(Vec<u8>),
    /// The line was handed over, which happens once.
    Dispatched,
}

impl PendingLine {
    /// The request has this line. A second one is ignored.
    pub fn queue(&mut self, line: Vec<u8>)
        ensures { stage_of self.new ≡ after_queue line.items (stage_of self.old) }
    {
        if let PendingLine::Reading = self {
            *self = PendingLine::Queued(line);
        }
    }

    fn has_query(&self, query: Query) -> bool
        ensures { result ≡ has_query query (stage_of self.now) }
    {
        match self {
            PendingLine::Queued(line) => line.as_slice() == query.line(),
            PendingLine::Reading | PendingLine::Dispatched => false,
        }
    }

    fn has_names_line(&self) -> bool
        ensures { result ≡ has_names_line (stage_of self.now) }
    {
        match self {
            PendingLine::Queued(line) => is_names_line(line),
            PendingLine::Reading | PendingLine::Dispatched => false,
        }
    }

    fn has_events_line(&self) -> bool
        ensures { result ≡ has_events_line (stage_of self.now) }
    {
        match self {
            PendingLine::Queued(line) => is_events_line(line),
            PendingLine::Reading | PendingLine::Dispatched => false,
        }
    }

    fn has_file_line(&self) -> bool
        ensures { result ≡ has_file_line (stage_of self.now) }
    {
        match self {
            PendingLine::Queued(line) => is_file_line(line),
            PendingLine::Reading | PendingLine::Dispatched => false,
        }
    }

    /// Whether a line is queued that is no query, not about names, and asks neither for events nor for a file.
    pub fn has_call(&self) -> bool
        ensures { result ≡ has_call (stage_of self.now) }
    {
        match self {
            PendingLine::Queued(line) => {
                !is_query(line)
                    && !is_names_line(line)
                    && !is_events_line(line)
                    && !is_file_line(line)
            }
            PendingLine::Reading | PendingLine::Dispatched => false,
        }
    }

    /// The line, if it is a call that is queued.
    pub fn call(&self) -> Option<&[u8]>
        ensures { option_map (λ x. x.now) result ≡ line_if (has_call (stage_of self.now)) (stage_of self.now) }
    {
        match self {
            PendingLine::Queued(line) if self.has_call() => Some(line),
            PendingLine::Queued(_) | PendingLine::Reading | PendingLine::Dispatched => None,
        }
    }

    /// Takes the queued line, whatever it is.
    pub fn take(&mut self) -> Option<Vec<u8>>
        ensures line { option_map (λ v. v.items) result ≡ line_at (stage_of self.old) }
        ensures stage { stage_of self.new ≡ after_take (stage_of self.old) }
    {
        match mem::replace(self, PendingLine::Dispatched) {
            PendingLine::Queued(line) => Some(line),
            PendingLine::Reading => {
                *self = PendingLine::Reading;
                None
            }
            PendingLine::Dispatched => None,
        }
    }

    /// Takes the line if it is that of this query. A call stays queued.
    pub fn take_query(&mut self, query: Query) -> Option<Vec<u8>>
        ensures line { option_map (λ v. v.items) result
            ≡ line_if (has_query query (stage_of self.old)) (stage_of self.old) }
        ensures stage { stage_of self.new ≡ after_take_if (has_query query (stage_of self.old)) (stage_of self.old) }
    {
        if self.has_query(query) {
            self.take()
        } else {
            None
        }
    }

    /// Takes the line if it is a call. A query stays queued.
    pub fn take_call(&mut self) -> Option<Vec<u8>>
        ensures line { option_map (λ v. v.items) result ≡ line_if (has_call (stage_of self.old)) (stage_of self.old) }
        ensures stage { stage_of self.new ≡ after_take_if (has_call (stage_of self.old)) (stage_of self.old) }
    {
        if self.has_call() { self.take() } else { None }
    }

    /// Takes the line if it is about names, which the page keeps: the bridge never gets it.
    pub fn take_names(&mut self) -> Option<Vec<u8>>
        ensures line { option_map (λ v. v.items) result
            ≡ line_if (has_names_line (stage_of self.old)) (stage_of self.old) }
        ensures stage { stage_of self.new ≡ after_take_if (has_names_line (stage_of self.old)) (stage_of self.old) }
    {
        if self.has_names_line() {
            self.take()
        } else {
            None
        }
    }

    /// Takes the line if it asks for the stream of events, which the page has: the bridge never gets it.
    pub fn take_events(&mut self) -> Option<Vec<u8>>
        ensures line { option_map (λ v. v.items) result
            ≡ line_if (has_events_line (stage_of self.old)) (stage_of self.old) }
        ensures stage { stage_of self.new ≡ after_take_if (has_events_line (stage_of self.old)) (stage_of self.old) }
    {
        if self.has_events_line() {
            self.take()
        } else {
            None
        }
    }

    /// Takes the line if it asks for a file, which the page's folder has: the bridge never gets it.
    pub fn take_file(&mut self) -> Option<Vec<u8>>
        ensures line { option_map (λ v. v.items) result
            ≡ line_if (has_file_line (stage_of self.old)) (stage_of self.old) }
        ensures stage { stage_of self.new ≡ after_take_if (has_file_line (stage_of self.old)) (stage_of self.old) }
    {
        if self.has_file_line() {
            self.take()
        } else {
            None
        }
    }
}
