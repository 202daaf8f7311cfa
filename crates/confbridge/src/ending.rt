//! How `confbridge serve` ends.

ghost use Rattle.std.specs.Prelude.{◌≡◌, Some};
ghost use Rattle.confbridge.specs.Served.{serve_text, serve_status_of, by_settings, by_front, by_io};

use front_settings::SettingsFault;
use std::{fmt, io};
use udp_wire::{FrontFault, front_status};

/// Why `confbridge serve` ended without `stop`.
#[derive(Drop)]
pub enum ServeFault {
    /// The settings are not good.
    Settings(SettingsFault),
    /// The file of the settings could not be read, or the bridge did not start or run to its end.
    Front(FrontFault),
}

impl fmt::Display for ServeFault {
    ghost output = { λ fault. Some (serve_text fault) };

    fn fmt<W: fmt::Write>(&self, f: &mut fmt::Formatter<W>) -> fmt::Result {
        match self {
            ServeFault::Settings(fault) => write!(f, "settings: {fault}"),
            ServeFault::Front(fault) => write!(f, "{fault}"),
        }
    }
}

/// The exit status: 0 after `stop`, 1 for a fault of the settings, 2 when memory ran out, 3 after any other fault.
pub fn serve_status<T>(answer: &Result<T, ServeFault>) -> u8
    ensures { result ≡ serve_status_of answer.now }
{
    match answer {
        Ok(_) => 0,
        Err(ServeFault::Settings(_)) => 1,
        Err(ServeFault::Front(fault)) => front_status(&Err(*fault)),
    }
}

impl From<SettingsFault> for ServeFault {
    ghost from_gives = { λ fault e. e ≡ by_settings fault };

    fn from(fault: SettingsFault) -> ServeFault {
        match fault {
            SettingsFault::OutOfMemory => ServeFault::Front(FrontFault::OutOfMemory),
            fault => ServeFault::Settings(fault),
        }
    }
}

impl From<FrontFault> for ServeFault {
    ghost from_gives = { λ fault e. e ≡ by_front fault };

    fn from(fault: FrontFault) -> ServeFault {
        ServeFault::Front(fault)
    }
}

impl From<io::Error> for ServeFault {
    ghost use Rattle.std.specs.IoError.{error_kind};

    ghost from_gives = { λ error e. e ≡ by_io (error_kind error) };

    fn from(error: io::Error) -> ServeFault {
        ServeFault::Front(FrontFault::from(error))
    }
}
