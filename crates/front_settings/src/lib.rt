//! What a bridge on sockets is set to by its settings' file, and how it tells where it listens.
//!
//! Begin with [`settings`], which reads the file's text (TOML). [`Listening`] is printed once the bridge listens. Where
//! the text has a fault, [`faulty_part`] tells what it has there.
//!
//! ```rust
//! let settings = settings(alloc, text)?; // text: the settings' file
//! let lanes = settings.lanes; // 1 to 16
//! ```
#![tactic(auto)]

mod fault;
mod faulty;
mod listening;
mod reading;
mod setup;
mod values;

pub use fault::SettingsFault;
pub use faulty::faulty_part;
pub use listening::Listening;
pub use reading::settings;
pub use setup::{FrontSettings, SettingKey};
