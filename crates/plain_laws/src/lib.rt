//! What a bridge promises, said of what its calls answered: laws that rest on few definitions.
//!
//! `bridge_core` says what is sent as a function of all items and of the desk. Here the same is said of the calls of a
//! `Core`: what was asked, and what it answered. Each law follows from those of `bridge_core`.
//!
//! Begin with [`streams_go_on`]: no outgoing stream has a gap. A law is a function that does nothing. Its conditions
//! are clauses of `Core`, which whoever calls a core has.
//!
//! ```rust
//! let mut core = Core::new(alloc, 4, settings)?; // `fresh` and `begins`: the first conditions
//! let reply = core.desk(alloc, 0, call); // `takes` and `good`: a step, and its desk
//! let sent = core.item(alloc, 2, &item)?; // `takes`: one more step, and what is sent for it
//! streams_go_on(); // what all these lists send first on a stream is numbered in a row
//! ```
#![tactic(auto)]

mod laws;

pub use self::laws::{
    first_sendings_are_the_same, frames_go_by_the_desk, reverts_leave_the_others,
    sent_again_was_sent_before, streams_go_on,
};
