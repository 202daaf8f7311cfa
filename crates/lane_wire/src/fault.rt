//! Why a datagram is not sent.

ghost use Rattle.std.specs.Prelude.{◌≡◌};
ghost use Rattle.std.specs.IoError.{error_kind, raw_os_error};
ghost use Rattle.lane_wire.specs.OnSocket.{fault_by, fault_of_kind, fault_of_number};

use std::io;
use std::io::ErrorKind;
use thiserror::Error;

/// The system's number for a message that is too long (EMSGSIZE).
const TOO_LONG: u32 = 90;
/// The system's number for a queue that is full (ENOBUFS).
const NO_BUFFERS: u32 = 105;

/// Why a try to send a datagram failed.
#[derive(Clone, Copy, Debug, PartialEq, Eq, Error)]
pub enum SendFault {
    /// The socket's buffer or the device's queue is full (EAGAIN, ENOBUFS). Another try may do.
    #[error("the socket was not ready")]
    NotReady,
    /// A firewall of this machine refuses it, or the address may not be sent to (EPERM, EACCES).
    #[error("not permitted")]
    Denied,
    /// Nobody listens at the address (ECONNREFUSED).
    #[error("connection refused")]
    Refused,
    /// There is no way to the address (EHOSTUNREACH, ENETUNREACH, ENETDOWN).
    #[error("unreachable")]
    Unreachable,
    /// It is longer than the system sends (EMSGSIZE).
    #[error("too long")]
    TooLong,
    #[error("another fault of the system, or out of memory")]
    Other,
}

/// Why a datagram isn't sent, by the kind of the system's error, where that tells it.
fn by_kind(kind: ErrorKind) -> Option<SendFault>
    ensures { result ≡ fault_of_kind kind }
{
    match kind {
        ErrorKind::WouldBlock => Some(SendFault::NotReady),
        ErrorKind::PermissionDenied => Some(SendFault::Denied),
        ErrorKind::ConnectionRefused => Some(SendFault::Refused),
        ErrorKind::HostUnreachable | ErrorKind::NetworkUnreachable | ErrorKind::NetworkDown => {
            Some(SendFault::Unreachable)
        }
        _ => None,
    }
}

/// Why it isn't sent, by the system's number.
fn by_number(number: u32) -> SendFault
    ensures { result ≡ fault_of_number number }
{
    match number {
        NO_BUFFERS => SendFault::NotReady,
        TOO_LONG => SendFault::TooLong,
        _ => SendFault::Other,
    }
}

impl SendFault {
    /// Why the system didn't send a datagram.
    pub(crate) fn of(error: &io::Error) -> Self
        ensures { result ≡ fault_by (fault_of_kind (error_kind error.now)) (raw_os_error error.now) }
    {
        match by_kind(error.kind()) {
            Some(fault) => fault,
            None => match error.raw_os_error() {
                Some(number) if number >= 0 => by_number(number as u32),
                _ => SendFault::Other,
            },
        }
    }
}
