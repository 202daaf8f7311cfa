//! Why there are no settings.

ghost use Rattle.std.specs.Prelude.{◌≡◌, Some};
ghost use Rattle.front_settings.specs.SettingsTold.{settings_text};

use crate::setup::SettingKey;
use std::alloc::AllocError;
use std::error::Error;
use std::fmt;

/// Why a text gives no settings. The first that holds is reported, by its number and name.
#[derive(Debug, Drop)]
pub enum SettingsFault {
    /// 1: the text is no TOML.
    BadToml,
    /// 2: a required key is missing.
    MissingKey { key: SettingKey },
    /// 3: a value of another type, or out of its range.
    BadValue { key: SettingKey },
    /// 4: an unknown key, the least of them by its octets.
    UnknownKey { key: String },
    /// 5: memory ran out, before anything was checked or as a text was copied.
    OutOfMemory,
}

impl fmt::Display for SettingsFault {
    ghost output = { λ fault. Some (settings_text fault) };

    fn fmt<W: fmt::Write>(&self, f: &mut fmt::Formatter<W>) -> fmt::Result {
        match self {
            SettingsFault::BadToml => write!(f, "1 BadToml"),
            SettingsFault::MissingKey { key } => write!(f, "2 MissingKey {key}"),
            SettingsFault::BadValue { key } => write!(f, "3 BadValue {key}"),
            SettingsFault::UnknownKey { key } => write!(f, "4 UnknownKey {key}"),
            SettingsFault::OutOfMemory => write!(f, "out of memory"),
        }
    }
}

impl Error for SettingsFault {}

impl From<AllocError> for SettingsFault {
    ghost use Rattle.front_settings.specs.declared.fault.SettingsFault.TheVariants.{OutOfMemory};

    ghost from_gives = { λ _ e. e ≡ OutOfMemory };

    fn from(_error: AllocError) -> SettingsFault {
        SettingsFault::OutOfMemory
    }
}
