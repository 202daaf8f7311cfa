//! The desk as operators call it: its rows, the edits that are done and undone, and how many calls were accepted.
//!
//! Begin with [`Desk::new`]. [`Desk::prepare`] judges a call and takes all its memory. [`Desk::commit`] then carries it
//! out without memory. In between, a shared desk publishes what [`Desk::edit_of`] returns. What an operator is answered
//! is a [`Reply`]. A contract sees a desk as its version, its rows, and its lists of edits done and undone.
//!
//! ```rust
//! let mut desk = Desk::new(alloc, Rows::new(alloc, 1)?); // for a bridge of SSRC 1
//! let call = Call::Apply(Command::AddRoom(Room { room: 1, rate: 8_000 }));
//! let prepared = desk.prepare(alloc, &call)?; // or the first refusal
//! let no = desk.commit(&call, prepared); // 1: version 1 has room 1
//! ```
//!
//! `carries_out_the_first_call` of worked_bridge makes these calls, with the desk afterwards proved.
#![tactic(auto)]

mod carrying;
mod desk;
mod entries;
mod entry;
mod judging;
mod laws;
mod prepared;
mod reply;
mod reverting;
mod striking;
mod touching;
mod walking;

pub use self::desk::Desk;
pub use self::entry::DeskEntry;
pub use self::laws::{accepted_calls_are_legal, edits_lead_back};
pub use self::prepared::Prepared;
pub use self::reply::Reply;
pub use self::walking::MAX_REVERTED;
