//! Worked calls of the desk: single answers, each proved from the contract of the call that gives it.
//!
//! Each function makes one call, most of them over a desk of `specs/`. Its clauses are the examples, or the cases of a
//! table of `specs/`: they show what the contract of that call fixes, and of no body that answers otherwise are they
//! proved.
#![tactic(auto)]

// Rows, and edits of them.
pub mod clock_rates;
pub mod comparing;
pub mod exchanging;
pub mod finding;
pub mod fitting;
pub mod undoing;

// Commands.
pub mod grouping;
pub mod making;
pub mod refusing;

// Who gets what.
pub mod choosing;
pub mod showing;

// Versions, and readers that enter them.
pub mod crossing;
pub mod entering;
pub mod lane;
pub mod learning;
pub mod publishing;
pub mod starting;
pub mod waiting;

// Operators at one desk.
pub mod telling;
pub mod together;
