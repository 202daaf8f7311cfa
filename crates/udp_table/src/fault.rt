//! Why the table tells no drops of a socket.

use thiserror::Error;

/// Why the table tells no drops of a socket.
#[derive(Clone, Copy, Debug, PartialEq, Eq, Error)]
pub enum TableFault {
    /// Or the socket's line hasn't ended yet.
    #[error("no line is the socket's")]
    NoLine,
    #[error("the socket's line doesn't have 13 words of which the last is a number, or is over 255 octets long")]
    OtherForm,
}
