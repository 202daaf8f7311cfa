//! What was played.

use crate::difference::Difference;

/// What was played on a bridge, and the first that it did otherwise than the model.
#[derive(Clone, Copy)]
pub struct Tally {
    /// How many lines of the script were begun.
    pub line: u64,
    pub rounds: u64,
    /// How many datagrams were tried.
    pub packets: u64,
    /// How many items were dropped for lanes.
    pub dropped: u64,
    /// Whether all seats were given back.
    pub has_seats: bool,
    pub difference: Option<Difference>,
}

impl Tally {
    /// Nothing was played.
    pub fn new() -> Self {
        Self {
            line: 0,
            rounds: 0,
            packets: 0,
            dropped: 0,
            has_seats: true,
            difference: None,
        }
    }

    /// Notes a difference, unless there was one before.
    pub fn note(&mut self, done: Result<(), Difference>) {
        if let (None, Err(found)) = (self.difference, done) {
            self.difference = Some(found);
        }
    }
}
