//! The rows of a desk as groups of commands that make them again.
//!
//! Begin with [`groups_of`]. A desk without rows accepts these groups one after another, and then is the same desk, its
//! members in their order. So does any desk that can have these rows beside its own: they come behind, as where a room
//! moves to a bridge that has others. A contract sees a group as a list of commands.
//!
//! ```rust
//! let groups = groups_of(alloc, &rows)?; // of room 1 with member 10: one group of two commands
//! for group in groups {
//!     let call = Call::Group(group); // add-room 1 8000 / add-member 10 1 10.0.0.1:5000 pcmu 9001 0 0
//!     let prepared = desk.prepare(alloc, &call)?;
//!     desk.commit(&call, prepared);
//! }
//! ```
#![tactic(auto)]

mod grouping;
mod laws;
mod making;
mod rooms;

pub use self::grouping::{groups_of, groups_of_room};
pub use self::laws::groups_are_legal_calls;
