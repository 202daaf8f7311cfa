//! The commands of a desk, their refusals, and the edits of its rows that carry them out.
//!
//! Begin with [`plan`] for a command and [`plan_group`] for a group of them. Neither changes anything: the caller
//! absorbs the edit. A contract states the desk after a command as an equation, and the first refusal by the order of
//! its number.
//!
//! ```rust
//! let command = Command::AddRoom(Room { room: 1, rate: 8_000 });
//! let edit = plan(alloc, &rows, &command)?; // or the first refusal, as Exists
//! rows.absorb_fitting(&edit); // the desk with room 1
//! ```
//!
//! `carry_out` of worked_desk is this pair of calls, with the desk afterwards proved.
#![tactic(auto)]

mod asking;
mod command;
mod editing;
mod going;
mod grouping;
mod laws;
mod listing;
mod moving;
mod picking;
mod planning;
mod refusal;
mod refusing;
mod removing;

pub use self::command::{Call, Command, Form};
pub use self::grouping::{MAX_GROUP, plan_group, size_refused};
pub use self::laws::{dependent_rows_go, good_desks_stay_good};
pub use self::planning::plan;
pub use self::refusal::{Carried, GroupRefusal, Reason, Refusal, RefusalRow, Standing, Table};
