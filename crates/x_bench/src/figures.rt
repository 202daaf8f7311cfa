//! Lines for figures.

use crate::timing::Took;
use std::io;

/// What a figure is.
#[derive(Clone, Copy)]
pub enum Measure {
    /// How many times the floor's processor time one takes.
    Processor,
    /// How many times the floor's time one takes.
    Time,
    /// How many times as many as of the floor are done in a time.
    Throughput,
}

/// What was done, and its floor.
#[derive(Clone, Copy)]
pub struct Compared {
    /// What the bridge did.
    pub mine: Took,
    /// What its floor did.
    pub floor: Took,
}

/// Picoseconds for one.
fn cost(nanos: u64, done: u64) -> u64 {
    nanos.saturating_mul(1_000) / done.max(1)
}

/// Hundredths of so many times the floor.
fn hundredths(cost: u64, floor: u64) -> u64 {
    cost.saturating_mul(100) / floor.max(1)
}

/// The costs of one, and of one of the floor, in picoseconds, and their ratio in hundredths.
fn ratio(measure: Measure, compared: &Compared) -> (u64, u64, u64) {
    let Compared { mine, floor } = *compared;
    match measure {
        Measure::Processor => {
            let (mine, floor) = (
                cost(mine.processor, mine.done),
                cost(floor.processor, floor.done),
            );
            (mine, floor, hundredths(mine, floor))
        }
        Measure::Time => {
            let (mine, floor) = (cost(mine.wall, mine.done), cost(floor.wall, floor.done));
            (mine, floor, hundredths(mine, floor))
        }
        Measure::Throughput => {
            let (mine, floor) = (cost(mine.wall, mine.done), cost(floor.wall, floor.done));
            (mine, floor, hundredths(floor, mine))
        }
    }
}

/// Prints a figure: its name, the ratio, and the nanoseconds of one and of one of the floor; or, where no times are
/// told, its name and what was done.
pub fn tell<R: Print>(
    rt: &R,
    is_timed: bool,
    name: &str,
    measure: Measure,
    compared: &Compared,
) -> io::Result<()> {
    if !is_timed {
        return println!(rt;
            "{name}: {} done, {} by the floor",
            compared.mine.done, compared.floor.done
        );
    }
    let (mine, floor, ratio) = ratio(measure, compared);
    let (whole, part) = (ratio / 100, ratio % 100);
    println!(rt;
        "{name}: {whole}.{part:02} ({}.{:03} ns, floor {}.{:03} ns)",
        mine / 1_000,
        mine % 1_000,
        floor / 1_000,
        floor % 1_000
    )
}
