//! The rows of a desk, and edits of them.
//!
//! Begin with [`Rows::new`] and the kinds of [`Row`]. Rows change by absorbing an [`Edit`] that fits, and in no other
//! way ([`Rows::absorb_fitting`]); the crate reversible_rows judges whether an edit fits. A contract sees [`Rows`] as a
//! desk, which is always a good one: keys are distinct, what a row names is there, and all rules and limits hold
//! (specs/Desk.antt).
//!
//! ```rust
//! let mut rows = Rows::new(alloc, 1)?; // for a bridge of SSRC 1
//! let mut others = Vec::with_capacity(alloc, 1)?;
//! others.push(Row::Room(Room { room: 1, rate: 8_000 }))?;
//! let put = Part::new(Vec::new(alloc), others);
//! let edit = Edit { taken: Part::none(alloc), put, replaced: Replaced::none(alloc) };
//! rows.absorb_fitting(&edit); // the desk has room 1
//! let room = rows.find(&Key::Room(1)); // Some(Row::Room(Room { room: 1, rate: 8_000 }))
//! ```
//!
//! `part`, `edit` and `find` of worked_desk are these calls, with their answers proved.
#![tactic(auto)]

// What a row is: its key, its values, and what it shares with no other row.
mod claim;
mod comparing;
mod few;
mod key;
mod limits;
mod row;
mod values;

// Lists of rows in order, and edits of them.
mod borrowed;
mod edit;
mod ordering;

// The desk: its rows, look-ups of them, and edits that it absorbs.
mod absorbing;
mod getters;
mod looking;
mod rows;

// How it keeps its rows.
mod tables;

pub use self::claim::Claim;
pub use self::edit::{Edit, Part, Placed, Replaced};
pub use self::few::Few;
pub use self::key::{Key, Kind};
pub use self::limits::{
    MAX_GAIN, MAX_GAINS, MAX_INDEX, MAX_MEMBERS, MAX_ROOM_AUDIO, MAX_ROOMS, MAX_SLOTS, MAX_SOURCES,
};
pub use self::looking::{
    Look, all_suit, are_together, count_audio, has_audio, rate_of_room, room_at, room_of,
};
pub use self::ordering::{are_in_order, contains, find_row};
pub use self::row::{
    Codec, DEFAULT_RATE, Floor, Gain, MUSIC_RATE, Media, Member, Mute, Pin, Room, Row, Slot,
    Source, Sub,
};
pub use self::rows::Rows;
pub use self::values::{MOST_VALUES, RowValue, RowValues};
