//! From the datagrams that a bridge read to those that it sent: laws of its front and of its lanes together.
//!
//! The crates below say what each turn of a front changes, and what lanes send for the items that they handle. Here the
//! two meet: [`lanes_keep_what_turns_gave`] says which items the turns gave each lane, [`lanes_handle_a_beginning`]
//! that a lane handles a beginning of what it accepted, and [`lanes_handle_what_turns_gave`] both at once.
//! [`fronts_that_ran`] and [`lanes_that_ran`] say the same of a bridge from its beginning to its end: `IsWhole` in
//! [Whole](../specs/Whole.antt) is made of just these two. The functions do nothing when they run.
//!
//! ```rust
//! // behind the last round, and `let ends = media.close(rt);`:
//! fronts_that_ran::<P, S>(); // what the inlet read is what the turns read
//! lanes_that_ran::<N, P, S>(); // what the lanes sent is explained by what the turns gave them
//! ```
//!
//! `Front::run` of bridge_server says this of a bridge that was stopped.
#![tactic(auto)]

mod laws;

pub use self::laws::{
    fronts_that_ran, lanes_handle_a_beginning, lanes_handle_what_turns_gave,
    lanes_keep_what_turns_gave, lanes_that_ran,
};
