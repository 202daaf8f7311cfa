//! Jitter buffers for many sources.

ghost use Rattle.std.specs.Prelude.{◌≡◌, ◌≤◌, ◌<◌, ◌*◌, [], length, None, Some, IfOk, OnOk, OnErr};
ghost use Rattle.playout.specs.Playout.{begun_by};
ghost use Rattle.playout.specs.Renewal.{no_tally};
ghost use Rattle.playout.specs.Playouts.{PutOf, TakeAll, Renewing, playout_at, Has, HasAlso, ShowsOf};
ghost use Rattle.playout.specs.inner.Counts.{PutsInto};
ghost use Rattle.playout.specs.inner.Holds.{Holds, ShowsAt};

use crate::jitter_buffer::Playout;
use crate::source_playout::SourcePlayout;
use crate::timed_samples::TimedSamples;
use indexmap::IndexMap;
use rtp_codec::{Address, IpOctets};
use std::alloc::{AllocError, Allocator, Global};
use std::hash::{BuildHasherDefault, FoldHasher};
use std::marker::Model;

/// The number of sources to allocate for at first.
const FIRST_SOURCES: usize = 16;

/// The key of a source: an SSRC, and the parts of an address.
#[derive(Clone, Copy, PartialEq, Eq, Hash)]
pub(crate) struct SourceKey {
    source: u32,
    ip: IpOctets,
    port: u16,
}

/// The key of a source.
fn key_of(source: u32, address: &Address) -> SourceKey
    ensures { result ≡ record { source = source; ip = address.now.ip; port = address.now.port } }
{
    SourceKey {
        source,
        ip: address.octets(),
        port: address.port,
    }
}

/// The jitter buffer that these samples begin.
fn begun<A: Allocator + Copy>(
    alloc: A,
    block: TimedSamples<'_>,
) -> Result<SourcePlayout<A>, AllocError>
    requires least { 50 ≤ block.rate }
    requires most { block.rate ≤ 48000 }
    requires some { 0 < length block.samples.now }
    requires few { length block.samples.now * 5 ≤ block.rate }
    ensures begun { IfOk result (λ source.
        Holds source.playout (Some (begun_by block.entry.rate block.entry.ts block.entry.samples.now))) }
    ensures none { IfOk result (λ source. source.tally ≡ no_tally) }
{
    let mut playout = Playout::new(alloc, block.rate)?;
    playout.put(block.ts, block.samples);
    Ok(SourcePlayout::new(playout))
}

/// Puts samples into the jitter buffer of their source. At another rate than its own it begins anew.
fn put_into<A: Allocator + Copy>(
    source: &mut SourcePlayout<A>,
    renews: bool,
    alloc: A,
    block: TimedSamples<'_>,
) -> Result<(), AllocError>
    requires least { 50 ≤ block.rate }
    requires most { block.rate ≤ 48000 }
    requires some { 0 < length block.samples.now }
    requires few { length block.samples.now * 5 ≤ block.rate }
    ensures put { OnOk result
        (PutsInto renews source.old source.new block.entry.rate block.entry.ts block.entry.samples.now) }
    ensures err { OnErr result (source.new ≡ source.old) }
{
    if source.playout().rate() == block.rate {
        source.put(renews, block.ts, block.samples);
    } else {
        *source = begun(alloc, block)?;
    }
    Ok(())
}

/// Reads the next samples of a source, if they have this rate.
fn peek_at<A: Allocator>(playout: &Playout<A>, rate: u32, out: &mut [i16]) -> u32
    requires { length out.old ≤ rate }
    ensures { ShowsAt playout.now rate out.new result }
{
    if playout.rate() == rate {
        playout.peek(out)
    } else {
        out.fill(0);
        0
    }
}

type PlayoutTable<A> = IndexMap<SourceKey, SourcePlayout<A>, BuildHasherDefault<FoldHasher>, A>;

/// The jitter buffers of a lane (media worker), one for each source by SSRC and address.
///
/// A source's buffer begins with its first samples, and is never dropped. It begins anew where the clock rate changes.
/// After [`renew`](Self::renew) it also begins anew where its sound is late or piles up.
#[derive(Drop)]
pub struct Playouts<A: Allocator + Copy = Global> {
    table: PlayoutTable<A>,
    renews: bool,
}

impl<A: Allocator + Copy> Model for Playouts<A> {
    ghost use Rattle.playout.specs.Playouts.{PlayoutsOf};

    ghost Value = { PlayoutsOf };

    ghost view = { λ p. record { renews = p.renews; sources = p.table.entries } };
}

impl<A: Allocator + Copy> Playouts<A> {
    /// No buffers yet. The only error is out of memory.
    pub fn new(alloc: A) -> Result<Self, AllocError>
        ensures { IfOk result (λ playouts. Has playouts []) }
    {
        let table = IndexMap::with_capacity(alloc, FIRST_SOURCES)?;
        Ok(Self {
            table,
            renews: false,
        })
    }

    /// From here on, the buffer of each source begins anew after late or full sound, as by a first put.
    ///
    /// Late: a put with samples that were due before it came, if late samples add up to 300 ms. 1000 samples in time
    /// make up for one late sample. So a slow clock, or a path that becomes longer, does not silence a source.
    ///
    /// Full: a put that finds over 120 ms of sound waiting, if all puts of the last 20 s of the source's sound found so
    /// much. So a fast clock, or a path that becomes shorter, does not delay a source for good.
    ///
    /// To begin anew takes no memory.
    pub fn renew(&mut self)
        ensures { HasAlso self.old self.new Renewing }
    {
        self.renews = true;
    }

    /// Begins the buffer of a new source.
    fn begin(
        &mut self,
        alloc: A,
        source: u32,
        address: &Address,
        block: TimedSamples<'_>,
    ) -> Result<(), AllocError>
        requires new { playout_at source address.now self.old ≡ None }
        requires least { 50 ≤ block.rate }
        requires most { block.rate ≤ 48000 }
        requires some { 0 < length block.samples.now }
        requires few { length block.samples.now * 5 ≤ block.rate }
        ensures has { OnOk result (HasAlso self.old self.new
            (PutOf source address.now block.entry.rate block.entry.ts block.entry.samples.now)) }
        ensures err { OnErr result (self.new ≡ self.old) }
    {
        let begun = begun(alloc, block)?;
        self.table.insert(key_of(source, address), begun)?;
        Ok(())
    }

    /// Puts samples of a source at the places from their timestamp on: 1 sample to a fifth of a second, at 50 to
    /// 48,000 Hz. Samples of another rate than the source's last ones begin its buffer anew.
    ///
    /// Only the first put of a source, and the first one at another rate, take memory. On out of memory, the only
    /// error, nothing changes.
    pub fn put(
        &mut self,
        alloc: A,
        source: u32,
        address: &Address,
        block: TimedSamples<'_>,
    ) -> Result<(), AllocError>
        requires least { 50 ≤ block.rate }
        requires most { block.rate ≤ 48000 }
        requires some { 0 < length block.samples.now }
        requires few { length block.samples.now * 5 ≤ block.rate }
        ensures has { OnOk result (HasAlso self.old self.new
            (PutOf source address.now block.entry.rate block.entry.ts block.entry.samples.now)) }
        ensures err { OnErr result (self.new ≡ self.old) }
    {
        match self.table.get_mut(&key_of(source, address)) {
            Some(kept) => put_into(kept, self.renews, alloc, block),
            None => self.begin(alloc, source, address, block),
        }
    }

    /// Takes the next 20 ms of every source without reading them.
    pub fn take_all(&mut self)
        ensures { HasAlso self.old self.new TakeAll }
    {
        for index in 0..self.table.len() {
            if let Some(kept) = self.table.get_index_mut(index) {
                kept.tick();
            }
        }
    }

    /// Reads the next samples of a source, at most a second of them, and leaves them. A missing sample is 0, and so is
    /// each one where the source's samples have another rate. Returns the number of those present.
    pub fn peek(&self, source: u32, address: &Address, rate: u32, out: &mut [i16]) -> u32
        requires { length out.old ≤ rate }
        ensures { ShowsOf self.now source address.now rate out.new result }
    {
        match self.table.get(&key_of(source, address)) {
            Some(kept) => peek_at(kept.playout(), rate, out),
            None => {
                out.fill(0);
                0
            }
        }
    }
}
