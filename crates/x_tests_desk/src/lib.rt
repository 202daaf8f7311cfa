//! Tests of the desk's crates, of what no contract says.
//!
//! Of edits and versions: histories of a state that is no desk, an edit as large as there may be, rows that are made
//! again where memory is ample, and that readers enter and see what was published while threads run. Of operators: how
//! many a desk has, how two of them call in turn and at once, that each call is answered while sixteen threads call and
//! until the log is full, and that a desk with one operator answers the same.
#![tactic(auto)]

// Edits, and rows that are made again.
#[cfg(test)]
mod lamp;
#[cfg(test)]
mod making;
#[cfg(test)]
mod rows;

// Versions.
#[cfg(test)]
mod plain;
#[cfg(test)]
mod readers;
#[cfg(test)]
mod running;
#[cfg(test)]
mod telling;

// Operators.
#[cfg(test)]
mod calls;
#[cfg(test)]
mod crowd;
#[cfg(test)]
mod full_log;
#[cfg(test)]
mod replay;
#[cfg(test)]
mod seats;
#[cfg(test)]
mod told;
#[cfg(test)]
mod turns;
