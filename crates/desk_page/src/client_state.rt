//! How far a browser's connection has come.

/// The state of a connection. It goes from each to a later one; from waiting it goes to streaming or to writing.
#[derive(Clone, Copy, PartialEq, Eq)]
pub(crate) enum ClientState {
    /// The request is read.
    Reading,
    /// The request waits for the bridge's reply.
    Waiting,
    /// It has the stream of events, until the browser closes.
    Streaming,
    /// The response is written.
    Writing,
    /// All was written, and the browser has to close.
    Draining,
    Closed,
}
