//! A ring of places for one second.

ghost use Rattle.std.specs.Prelude.{◌≡◌, IfOk, ℕ, ◌+◌, ◌<◌, ◌≤◌, length, is_some, map, take, count_by, List};
ghost use Rattle.playout.specs.Playout.{Pair, offers};
ghost use Rattle.playout.specs.inner.Agrees.{Agrees, IsBlank};
ghost use Rattle.playout.specs.inner.Cells.{heard, fills, news};

use crate::places::{clear_from, fill_from, read_from};
use std::alloc::{AllocError, Allocator, Global};
use std::marker::Model;

/// A ring of places. Contracts see its places, from the first one on.
#[derive(Drop)]
pub struct Ring<A: Allocator = Global> {
    /// The index of the first place.
    start: usize,
    present: Vec<bool, A>,
    samples: Vec<i16, A>,
}

impl<A: Allocator> Model for Ring<A> {
    ghost use Rattle.std.specs.Prelude.{ℤ, List, Option};
    ghost use Rattle.playout.specs.inner.Cells.{cells_of, turned, IsRing};

    ghost Value = { List (Option ℤ) };

    ghost view = { λ ring. turned ring.start (cells_of ring.present.items ring.samples.items) };

    ghost invariant = { λ ring. IsRing ring.start ring.present.items ring.samples.items };
}

impl<A: Allocator + Copy> Ring<A> {
    /// So many empty places. The only error is out of memory.
    pub fn new(alloc: A, places: usize) -> Result<Self, AllocError>
        requires most { places ≤ 48000 }
        ensures blank { IfOk result (λ ring. IsBlank ring) }
        ensures long { IfOk result (λ ring. length ring ≡ places) }
    {
        let present = vec![in alloc; false; places]?;
        let samples = vec![in alloc; 0; places]?;
        Ok(Self {
            start: 0,
            present,
            samples,
        })
    }
}

impl<A: Allocator> Ring<A> {
    /// The number of places.
    pub fn len(&self) -> usize
        ensures { result ≡ length self.now }
    {
        self.present.len()
    }

    /// Empties all places.
    pub fn clear(&mut self)
        ensures blank { IsBlank self.new }
        ensures long { length self.new ≡ length self.old }
    {
        let len = self.present.len();
        clear_from(&mut self.present, &self.samples, 0, len);
    }

    /// Puts samples from an offset on. Returns the number of those kept.
    fn write(&mut self, offset: usize, samples: &[i16]) -> u32
        requires within { offset + length samples.now ≤ length self.old }
        ensures cells { self.new ≡ fills self.old offset samples.now }
        ensures count { result ≡ news self.old offset samples.now }
    {
        let ahead = self.present.len() - self.start;
        if offset + samples.len() <= ahead {
            return fill_from(
                &mut self.present,
                &mut self.samples,
                self.start + offset,
                samples,
            );
        }
        if offset >= ahead {
            return fill_from(
                &mut self.present,
                &mut self.samples,
                offset - ahead,
                samples,
            );
        }
        let split = ahead - offset;
        let front = fill_from(
            &mut self.present,
            &mut self.samples,
            self.start + offset,
            &samples[..split],
        );
        front + fill_from(&mut self.present, &mut self.samples, 0, &samples[split..])
    }

    /// Keeps samples from an offset on. Returns the number that was kept.
    pub fn keep(&mut self, offset: usize, samples: &[i16]) -> u32
        requires within { offset + length samples.now ≤ length self.old }
        ensures agrees { (p : ℕ) (pairs : List Pair) → Agrees self.old pairs p
            → Agrees self.new (offers p pairs (p + offset) samples.now) p }
        ensures count { (p : ℕ) (pairs : List Pair) → Agrees self.old pairs p
            → length (offers p pairs (p + offset) samples.now) ≡ length pairs + result }
        ensures long { length self.new ≡ length self.old }
    {
        self.write(offset, samples)
    }

    /// Moves on by `count` places.
    pub fn skip(&mut self, count: usize)
        requires { count ≤ length self.old }
        ensures agrees { (p : ℕ) (pairs : List Pair) → Agrees self.old pairs p → Agrees self.new pairs (p + count) }
        ensures long { length self.new ≡ length self.old }
    {
        let ahead = self.present.len() - self.start;
        if count <= ahead {
            clear_from(&mut self.present, &self.samples, self.start, count);
            self.start += count;
        } else {
            clear_from(&mut self.present, &self.samples, self.start, ahead);
            clear_from(&mut self.present, &self.samples, 0, count - ahead);
            self.start = count - ahead;
        }
    }

    /// Copies the samples of the first places, and counts those present. A missing sample is 0.
    pub fn read_first(&self, out: &mut [i16]) -> u32
        requires within { length out.old ≤ length self.now }
        ensures samples { out.new ≡ map heard (take (length out.old) self.now) }
        ensures count { result ≡ count_by is_some (take (length out.old) self.now) }
    {
        let split = (self.present.len() - self.start).min(out.len());
        let (first, second) = out.split_at_mut(split);
        read_from(&self.present, &self.samples, self.start, first)
            + read_from(&self.present, &self.samples, 0, second)
    }
}
