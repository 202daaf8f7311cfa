//! Which accepted calls are in force, and which can be redone.
//!
//! Begin with [`CallLists::new`], and [`CallLists::note`] each accepted call with what stands for it, such as an
//! [`AcceptedCall`]. Contracts see two lists. [`lists_are_the_desks`] says that they are those of the desk, entry by
//! entry. A [`StampedCall`] has the moment, too, and the name of its operator's connection.
//!
//! ```rust
//! let mut lists = CallLists::new(alloc);
//! lists.reserve()?;
//! lists.note(&call, AcceptedCall::new(1, 0, &call)); // call 1, a command of operator 0: it is in force
//! lists.reserve()?;
//! lists.note(&undo, AcceptedCall::new(2, 1, &undo)); // operator 1 undoes it: it can be redone
//! ```
#![tactic(auto)]

mod accepted_call;
mod laws;
mod lists;
mod stamp;

pub use self::accepted_call::AcceptedCall;
pub use self::laws::lists_are_the_desks;
pub use self::lists::CallLists;
pub use self::stamp::{CallStamp, StampedCall};
