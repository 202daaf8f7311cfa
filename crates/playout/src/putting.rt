//! Finds the places of samples that are put.

ghost use Rattle.std.specs.Prelude.{◌≡◌, ℕ, ◌+◌, ◌-◌, ◌<◌, ◌≤◌, ◌^◌, ◌%◌, length, List};
ghost use Rattle.playout.specs.Playout.{Pair, placed_of, pairs_after};
ghost use Rattle.playout.specs.Renewal.{offset_of};
ghost use Rattle.playout.specs.inner.Agrees.{Agrees};

use crate::offset::Offset;
use crate::placed::PlacedSamples;
use crate::ring::Ring;
use std::alloc::Allocator;

/// Half the number of timestamps.
const HALF_A_TURN: u32 = 1 << 31;

/// How far the timestamp is ahead of the position, plus half a turn.
fn distance(position: u32, ts: u32) -> u32
    ensures { result ≡ (ts + 2 ^ 31 + 2 ^ 32 - position) % 2 ^ 32 }
{
    ts.wrapping_sub(position).wrapping_add(HALF_A_TURN)
}

/// How far the place of a timestamp is from the position.
pub(crate) fn offset_from(position: u32, ts: u32) -> Offset
    ensures { (p : ℕ) → p % 2 ^ 32 ≡ position → 2 ^ 31 ≤ p → result ≡ offset_of p ts }
{
    let far = distance(position, ts);
    Offset {
        ahead: far.saturating_sub(HALF_A_TURN),
        behind: HALF_A_TURN.saturating_sub(far),
    }
}

/// Puts samples after the first put. On `Reset` the caller begins anew.
pub fn put_begun<A: Allocator>(
    ring: &mut Ring<A>,
    position: u32,
    ts: u32,
    samples: &[i16],
) -> PlacedSamples
    requires rate { length ring.old ≤ 48000 }
    requires few { (0 < length samples.now) × (length samples.now ≤ length ring.old) }
    ensures placed { (p : ℕ) (pairs : List Pair) → Agrees ring.old pairs p → p % 2 ^ 32 ≡ position → 2 ^ 31 ≤ p
        → result ≡ placed_of (length ring.old) p pairs ts samples.now }
    ensures agrees { (p : ℕ) (pairs : List Pair) → Agrees ring.old pairs p → p % 2 ^ 32 ≡ position → 2 ^ 31 ≤ p
        → Agrees ring.new (pairs_after (length ring.old) p pairs ts samples.now) p }
    ensures long { length ring.new ≡ length ring.old }
{
    let rate = ring.len();
    let far = distance(position, ts) as usize;
    if far >= HALF_A_TURN as usize {
        let offset = far - HALF_A_TURN as usize;
        if offset + samples.len() > rate {
            return PlacedSamples::Reset;
        }
        PlacedSamples::Kept {
            count: ring.keep(offset, samples),
        }
    } else {
        let behind = HALF_A_TURN as usize - far;
        if behind > rate {
            return PlacedSamples::Reset;
        }
        if samples.len() <= behind {
            return PlacedSamples::Late;
        }
        PlacedSamples::Kept {
            count: ring.keep(0, &samples[behind..]),
        }
    }
}
