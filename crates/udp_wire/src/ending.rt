//! How a bridge on sockets ends.

ghost use Rattle.std.specs.Prelude.{◌≡◌, Some};
ghost use Rattle.std.specs.IoError.{error_kind};
ghost use Rattle.udp_wire.specs.Ended.{front_text, front_status_of, ended_by_io, ended_by_clock};
ghost use Rattle.udp_wire.specs.Ended.{IsOfIo, IsOfClock};

use std::alloc::{AllocError, AllocFailed};
use std::error::Error;
use std::io::ErrorKind;
use std::{fmt, io};

/// Why a bridge on sockets did not start, or ended without `stop`.
#[derive(Clone, Copy, Debug)]
pub enum FrontFault {
    /// 1: a file or a socket could not be opened, read or written.
    Io,
    /// 2: memory ran out.
    OutOfMemory,
    /// 3: the clock could not be read.
    Clock,
    /// 4: the system started no thread.
    NoThread,
    /// 5: a lane has handled 2^64 - 1 items.
    ItemsSpent,
    /// 6: a lane ended while the bridge ran.
    LaneEnded,
    /// 7: the desk ended while the bridge ran: a call stands in its log that could not be published.
    DeskEnded,
    /// 8: what the bridge relies on did not hold. No run of it should say so.
    Internal,
}

impl fmt::Display for FrontFault {
    ghost output = { λ fault. Some (front_text fault) };

    fn fmt<W: fmt::Write>(&self, f: &mut fmt::Formatter<W>) -> fmt::Result {
        match self {
            FrontFault::Io => write!(f, "input or output failed"),
            FrontFault::OutOfMemory => write!(f, "out of memory"),
            FrontFault::Clock => write!(f, "the clock failed"),
            FrontFault::NoThread => write!(f, "no thread could be started"),
            FrontFault::ItemsSpent => write!(f, "a lane has no number left for an item"),
            FrontFault::LaneEnded => write!(f, "a lane ended"),
            FrontFault::DeskEnded => write!(f, "the desk ended"),
            FrontFault::Internal => write!(f, "internal error"),
        }
    }
}

impl Error for FrontFault {}

/// The exit status of a bridge on sockets: 0 after `stop`, 2 when memory ran out, 3 after any other fault.
pub fn front_status(answer: &Result<(), FrontFault>) -> u8
    ensures { result ≡ front_status_of answer.now }
{
    match answer {
        Ok(()) => 0,
        Err(fault) => match fault {
            FrontFault::OutOfMemory => 2,
            FrontFault::Io
            | FrontFault::Clock
            | FrontFault::NoThread
            | FrontFault::ItemsSpent
            | FrontFault::LaneEnded
            | FrontFault::DeskEnded
            | FrontFault::Internal => 3,
        },
    }
}

impl FrontFault {
    /// Why a bridge ends whose file or socket failed.
    pub fn of_io(error: &io::Error) -> Self
        ensures fault { result ≡ ended_by_io (error_kind error.now) }
        ensures io { IsOfIo result }
    {
        match error.kind() {
            ErrorKind::OutOfMemory => FrontFault::OutOfMemory,
            _ => FrontFault::Io,
        }
    }

    /// Why a bridge ends whose clock failed.
    pub fn of_clock(error: &io::Error) -> Self
        ensures fault { result ≡ ended_by_clock (error_kind error.now) }
        ensures clock { IsOfClock result }
    {
        match error.kind() {
            ErrorKind::OutOfMemory => FrontFault::OutOfMemory,
            _ => FrontFault::Clock,
        }
    }
}

impl From<io::Error> for FrontFault {
    ghost from_gives = { λ error e. e ≡ ended_by_io (error_kind error) };

    fn from(error: io::Error) -> FrontFault {
        FrontFault::of_io(&error)
    }
}

impl From<AllocError> for FrontFault {
    ghost use Rattle.udp_wire.specs.declared.ending.FrontFault.TheVariants.{OutOfMemory};

    ghost from_gives = { λ _ e. e ≡ OutOfMemory };

    fn from(_error: AllocError) -> FrontFault {
        FrontFault::OutOfMemory
    }
}

impl<T: Drop> From<AllocFailed<T>> for FrontFault {
    ghost use Rattle.udp_wire.specs.declared.ending.FrontFault.TheVariants.{OutOfMemory};

    ghost from_gives = { λ _ e. e ≡ OutOfMemory };

    fn from(_error: AllocFailed<T>) -> FrontFault {
        FrontFault::OutOfMemory
    }
}
