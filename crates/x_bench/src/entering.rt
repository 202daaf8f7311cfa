//! Entries into the published desk, and a lock.

use crate::asking::Order;
use crate::room::core_of_slots;
use crate::rooms::{Plan, core_with};
use crate::tally::Tally;
use crate::timing::{Took, Watch};
use desk_rows::Rows;
use published_desk::{LaneReader, Opened, start};
use std::alloc::Global;
use std::io;
use std::sync::{Mutex, MutexGuard, Wait};
use std::time::{Clock, CpuClock};

/// Enters and leaves so often. It answers how often it could.
pub fn enter_all(reader: LaneReader, times: u64) -> u64 {
    let mut reader = reader;
    let mut entered = 0u64;
    for _ in 0..times {
        reader = match reader.enter() {
            Ok(entry) => {
                entered = entered.saturating_add(1);
                entry.leave()
            }
            Err(reader) => reader,
        };
    }
    entered
}

/// So many entries into a desk with this room.
pub fn entries<R: Wait + Clock + CpuClock>(
    rt: &R,
    alloc: Global,
    plan: &Plan,
    times: u64,
) -> io::Result<Took> {
    let core = core_with(alloc, plan)?;
    let rows = core.rows().copy(alloc)?;
    entries_to(rt, alloc, rows, times)
}

/// The entries that are ordered, into a desk with so many slots. It counts each.
pub fn entered<R: Wait + Clock + CpuClock>(
    rt: &R,
    alloc: Global,
    order: &Order,
) -> io::Result<Tally> {
    let core = core_of_slots(alloc, order.slots)?;
    let rows = core.rows().copy(alloc)?;
    let took = entries_to(rt, alloc, rows, order.times)?;
    Ok(Tally {
        packets: took.done,
        octets: 0,
    })
}

/// So many entries into a desk with these rows.
fn entries_to<R: Wait + Clock + CpuClock>(
    rt: &R,
    alloc: Global,
    rows: Rows,
    times: u64,
) -> io::Result<Took> {
    let Ok((publisher, mut readers)) = start(alloc, rt, Opened::new(), rows, 1) else {
        return Err(io::Error::other("there is no publisher"));
    };
    let took = match readers.pop() {
        Some(reader) => {
            let watch = Watch::begin(rt);
            let entered = enter_all(reader, times);
            Ok(watch.took(rt, entered))
        }
        None => Err(io::Error::other("there is no reader")),
    };
    publisher.end(rt);
    took
}

/// Takes the lock and gives it back so often. It answers how often it did.
fn lock_all<R: Wait>(rt: &R, lock: &Mutex<u64>, times: u64) -> u64 {
    for _ in 0..times {
        let mut count = lock.lock(rt);
        *count = count.saturating_add(1);
        MutexGuard::unlock(count);
    }
    let count = lock.lock(rt);
    let done = *count;
    MutexGuard::unlock(count);
    done
}

/// So many times a lock that nobody else wants.
pub fn locks<R: Wait + Clock + CpuClock>(rt: &R, times: u64) -> Took {
    let lock = Mutex::new(0u64);
    let watch = Watch::begin(rt);
    let done = lock_all(rt, &lock, times);
    watch.took(rt, done)
}
