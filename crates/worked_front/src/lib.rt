//! Worked calls of the front and of lanes: single answers, each proved from the contract of the call that gives it.
#![tactic(auto)]

// Operators' lines.
pub mod feeding;
pub mod unread;

// The wire, and what an address is granted.
pub mod attempts;
pub mod flooding;
pub mod refilling;

// Time.
pub mod pacing;
pub mod waits;

// Lanes: the places of a ring, how they end, and from the contract of `Bridge::close` to a sentence of the headline.
pub mod closing;
pub mod lane_ends;
pub mod leaving;
pub mod taking;
