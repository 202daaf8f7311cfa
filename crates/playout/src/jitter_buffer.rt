//! A jitter buffer for one source.

ghost use Rattle.std.specs.Prelude.{◌≡◌, ◌≤◌, ◌<◌, ◌*◌, ◌+◌, ◌-◌, ◌%◌, ◌^◌, ℕ, true, IfOk, None, Some, length};
ghost use Rattle.playout.specs.Playout.{Play, delay, begun_by};
ghost use Rattle.playout.specs.Renewal.{offset_of};
ghost use Rattle.playout.specs.inner.Agrees.{Agrees, IsBlank};
ghost use Rattle.playout.specs.inner.Holds.{Holds, Puts, Shows, HasTaken};

use crate::offset::Offset;
use crate::placed::PlacedSamples;
use crate::putting::{offset_from, put_begun};
use crate::ring::Ring;
use std::alloc::{AllocError, Allocator, Global};
use std::marker::Model;

/// The time that samples wait before they are taken, in milliseconds.
const DELAY: usize = 60;

/// A jitter buffer of samples for one source. Contracts know it by the playout that it holds: its rate, its position
/// and its samples.
///
/// Only [`new`](Self::new) takes memory.
#[derive(Drop)]
pub struct Playout<A: Allocator = Global> {
    begun: bool,
    position: u32,
    ring: Ring<A>,
}

impl<A: Allocator> Model for Playout<A> {
    ghost use Rattle.playout.specs.inner.Holds.{PlayoutOf, IsSound};

    ghost Value = { PlayoutOf };

    ghost view = { λ playout. record {
      begun = playout.begun;
      position = playout.position;
      cells = playout.ring;
    } };

    ghost invariant = { λ playout. IsSound playout.begun playout.ring };
}

impl<A: Allocator + Copy> Playout<A> {
    /// An empty buffer of one second. `rate` is in samples a second, 50 to 48,000. The only error is out of memory.
    pub fn new(alloc: A, rate: u32) -> Result<Self, AllocError>
        requires least { 50 ≤ rate }
        requires most { rate ≤ 48000 }
        ensures blank { IfOk result (λ playout. Holds playout None) }
        ensures rate { IfOk result (λ playout. length playout.cells ≡ rate) }
    {
        let ring = Ring::new(alloc, rate as usize)?;
        Ok(Self {
            begun: false,
            position: 0,
            ring,
        })
    }
}

impl<A: Allocator> Playout<A> {
    /// The samples a second.
    pub fn rate(&self) -> u32
        ensures { result ≡ length self.now.cells }
    {
        self.ring.len() as u32
    }

    /// Begins 60 ms before this timestamp.
    fn begin(&mut self, ts: u32, samples: &[i16]) -> u32
        requires few { length samples.now * 5 ≤ length self.old.cells }
        requires blank { IsBlank self.old.cells }
        ensures rate { length self.new.cells ≡ length self.old.cells }
        ensures begun { self.new.begun ≡ true }
        ensures position { self.new.position ≡ (ts + 2 ^ 32 - delay (length self.old.cells)) % 2 ^ 32 }
        ensures agrees { Agrees self.new.cells (begun_by (length self.old.cells) ts samples.now).pairs
            (begun_by (length self.old.cells) ts samples.now).position }
        ensures count { result ≡ length samples.now }
    {
        let delay = self.ring.len() * DELAY / 1000;
        self.begun = true;
        self.position = ts.wrapping_sub(delay as u32);
        self.ring.keep(delay, samples)
    }

    /// Empties the buffer. It begins anew with these samples, as with the first ones.
    pub(crate) fn restart(&mut self, ts: u32, samples: &[i16])
        requires few { length samples.now * 5 ≤ length self.old.cells }
        ensures begun { Holds self.new (Some (begun_by (length self.old.cells) ts samples.now)) }
        ensures rate { length self.new.cells ≡ length self.old.cells }
    {
        self.ring.clear();
        self.begin(ts, samples);
    }

    /// How far the place of this RTP timestamp is from the position.
    pub(crate) fn offset(&self, ts: u32) -> Offset
        ensures { (play : Play) → Holds self.now (Some play) → result ≡ offset_of play.position ts }
    {
        offset_from(self.position, ts)
    }

    /// Puts samples at the places from this RTP timestamp on: 1 sample to a fifth of a second.
    pub fn put(&mut self, ts: u32, samples: &[i16]) -> PlacedSamples
        requires some { 0 < length samples.now }
        requires few { length samples.now * 5 ≤ length self.old.cells }
        ensures puts { Puts self.old self.new ts samples.now result }
        ensures rate { length self.new.cells ≡ length self.old.cells }
    {
        if !self.begun {
            let count = self.begin(ts, samples);
            return PlacedSamples::Kept { count };
        }
        match put_begun(&mut self.ring, self.position, ts, samples) {
            PlacedSamples::Kept { count } => PlacedSamples::Kept { count },
            PlacedSamples::Late => PlacedSamples::Late,
            PlacedSamples::Reset => {
                self.restart(ts, samples);
                PlacedSamples::Reset
            }
        }
    }

    /// Takes the next samples, at most a second of them. A missing sample is 0. Returns the number of those present.
    pub fn take(&mut self, out: &mut [i16]) -> u32
        requires { length out.old ≤ length self.old.cells }
        ensures shows { Shows self.old out.new result }
        ensures taken { HasTaken self.old self.new (length out.old) }
        ensures rate { length self.new.cells ≡ length self.old.cells }
    {
        let count = self.peek(out);
        self.skip(out.len());
        count
    }

    /// Takes the next `count` samples without reading them; at most a second of them.
    pub fn skip(&mut self, count: usize)
        requires { count ≤ length self.old.cells }
        ensures taken { HasTaken self.old self.new count }
        ensures rate { length self.new.cells ≡ length self.old.cells }
    {
        self.ring.skip(count);
        self.position = self.position.wrapping_add(count as u32);
    }

    /// Reads the samples that [`take`](Self::take) would take, and leaves them.
    pub fn peek(&self, out: &mut [i16]) -> u32
        requires { length out.old ≤ length self.now.cells }
        ensures { Shows self.now out.new result }
    {
        self.ring.read_first(out)
    }
}
