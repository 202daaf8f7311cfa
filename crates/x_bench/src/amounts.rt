//! How much is done on threads.

use crate::rooms::{FEW, FULL, Plan};

/// How much is done, and whether its time is told.
#[derive(Clone, Copy)]
pub struct Amounts {
    /// How often each part is measured. The least time counts.
    pub rounds: u64,
    /// The calls of one operator, an even number.
    pub calls: u64,
    /// The desk that is called as a full one.
    pub full: Plan,
    /// How often the full desk is measured.
    pub full_rounds: u64,
    /// The calls of each of sixteen operators, an even number.
    pub crowd: u64,
    /// The entries of a reader.
    pub entries: u64,
    /// The batches of frames that a lane is given.
    pub batches: u64,
    /// The ticks, with the sound before each.
    pub ticks: u64,
    /// Whether times are told.
    pub is_timed: bool,
}

/// Little, and no times.
pub const CHECK: Amounts = Amounts {
    rounds: 1,
    calls: 10,
    full: FEW,
    full_rounds: 1,
    crowd: 4,
    entries: 100,
    batches: 2,
    ticks: 24,
    is_timed: false,
};

/// Enough for figures.
pub const RUN: Amounts = Amounts {
    rounds: 5,
    calls: 20_000,
    full: FULL,
    full_rounds: 2,
    crowd: 2_000,
    entries: 1_000_000,
    batches: 100,
    ticks: 500,
    is_timed: true,
};
