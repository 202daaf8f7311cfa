//! Rows of a desk that judge edits, absorb them and take them back.
//!
//! Begin with [`ReversibleRows::new`]: it makes the rows of a desk a [`Reversible`](undo_log::Reversible) state, for a
//! history of edits. An edit fits if the desk stays a good one. A contract sees the desk.
//!
//! ```rust
//! let mut rows = ReversibleRows::new(Rows::new(alloc, 1)?); // for a bridge of SSRC 1
//! let mut others = Vec::with_capacity(alloc, 1)?;
//! others.push(Row::Room(Room { room: 1, rate: 8_000 }))?;
//! let put = Part::new(Vec::new(alloc), others);
//! let edit = Edit { taken: Part::none(alloc), put, replaced: Replaced::none(alloc) };
//! rows.absorb(&edit); // the desk has room 1
//! rows.absorb(&ReversibleRows::invert(edit)); // the desk has no rows
//! ```
//!
//! `absorb` and `there_and_back` of worked_desk make these calls, and their answers are proved.
#![tactic(auto)]

mod absorbing;
mod judging;

pub use self::absorbing::ReversibleRows;
