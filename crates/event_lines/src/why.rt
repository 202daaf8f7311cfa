//! Why something failed, in the system's words.

ghost use Rattle.std.specs.Prelude.{◌≡◌, Some};
ghost use Rattle.std.specs.IoError.{raw_os_error, error_kind};
ghost use Rattle.std.specs.Option.{option_map};
ghost use Rattle.event_lines.specs.Words.{system_words, why_text, why_of};

use std::alloc::AllocError;
use std::io::ErrorKind;
use std::{fmt, io};

/// Why something failed.
#[derive(Clone, Copy, Debug, PartialEq, Eq)]
pub enum WhyFailed {
    /// The system refused it, with this number (errno).
    System(u32),
    /// Memory ran out.
    OutOfMemory,
    /// The system started no thread.
    NoThread,
    /// No seat was free.
    Busy,
    /// It failed, and the system gave no number.
    Unnumbered,
}

/// The system's words for a number that is met often: those of errno(3), in small letters.
fn system_words(number: u32) -> Option<&'static str>
    ensures { option_map (λ x. x.now) result ≡ system_words number }
{
    match number {
        1 => Some("operation not permitted"),
        2 => Some("no such file"),
        5 => Some("input/output error"),
        11 => Some("resource temporarily unavailable"),
        12 => Some("cannot allocate memory"),
        13 => Some("permission denied"),
        20 => Some("not a directory"),
        21 => Some("is a directory"),
        23 => Some("too many open files in system"),
        24 => Some("too many open files"),
        36 => Some("file name too long"),
        40 => Some("too many levels of symbolic links"),
        97 => Some("address family not supported"),
        98 => Some("address in use"),
        99 => Some("cannot assign requested address"),
        100 => Some("network is down"),
        105 => Some("no buffer space available"),
        110 => Some("connection timed out"),
        111 => Some("connection refused"),
        _ => None,
    }
}

impl WhyFailed {
    /// Why the system's call failed.
    pub fn of(error: &io::Error) -> Self
        ensures { result ≡ why_of (raw_os_error error.now) (error_kind error.now) }
    {
        match error.raw_os_error() {
            Some(number) if number >= 0 => WhyFailed::System(number as u32),
            Some(_) => WhyFailed::Unnumbered,
            None => match error.kind() {
                ErrorKind::OutOfMemory => WhyFailed::OutOfMemory,
                _ => WhyFailed::Unnumbered,
            },
        }
    }
}

impl From<io::Error> for WhyFailed {
    ghost use Rattle.std.specs.IoError.{raw_os_error, error_kind};
    ghost use Rattle.event_lines.specs.Words.{why_of};

    ghost from_gives = { λ error w. w ≡ why_of (raw_os_error error) (error_kind error) };

    fn from(error: io::Error) -> WhyFailed {
        WhyFailed::of(&error)
    }
}

impl From<AllocError> for WhyFailed {
    ghost use Rattle.event_lines.specs.declared.why.WhyFailed.TheVariants.{OutOfMemory};

    ghost from_gives = { λ _ w. w ≡ OutOfMemory };

    fn from(_error: AllocError) -> WhyFailed {
        WhyFailed::OutOfMemory
    }
}

impl fmt::Display for WhyFailed {
    ghost output = { λ why. Some (why_text why) };

    fn fmt<W: fmt::Write>(&self, f: &mut fmt::Formatter<W>) -> fmt::Result {
        match self {
            WhyFailed::System(number) => match system_words(*number) {
                Some(words) => write!(f, "{words}"),
                None => write!(f, "error {number}"),
            },
            WhyFailed::OutOfMemory => write!(f, "out of memory"),
            WhyFailed::NoThread => write!(f, "no thread could be started"),
            WhyFailed::Busy => write!(f, "busy"),
            WhyFailed::Unnumbered => write!(f, "failed"),
        }
    }
}
