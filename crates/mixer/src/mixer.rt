//! The mixer of a lane.

ghost use Rattle.std.specs.Prelude.{◌≡◌, ℕ, ◌<◌, ◌≤◌, ◌*◌, true, List, [], length, IfOk, OnOk, OnErr};
ghost use Rattle.media_items.specs.OwnStreams.{is_mine};
ghost use Rattle.mixer.specs.Hearing.{Given, put};
ghost use Rattle.mixer.specs.Mixes.{turns, counts_of};
ghost use Rattle.mixer.specs.Mixers.{WasGiven, IsGiven, Ticks};

use crate::preparing::Tick;
use crate::streams::{MixPacket, MixTable, commit_all, pass_all, ready_all};
use crate::voices::voices_of;
use desk_rows::Rows;
use forward_rewrite::Counts;
use indexmap::IndexMap;
use media_items::LanePlace;
use playout::{Playouts, TimedSamples};
use rtp_codec::Address;
use std::alloc::{AllocError, Allocator, Global};
use std::marker::Model;
use topology::{audio_sources, mixes_are_apart, rooms_are_small};

/// The number of streams to allocate for at first.
const FIRST_STREAMS: usize = 16;

/// The audio half of a lane: the jitter buffers of all sources, and the lane's mix streams.
#[derive(Drop)]
pub struct Mixer<A: Allocator + Copy = Global> {
    playouts: Playouts<A>,
    streams: MixTable<A>,
}

impl<A: Allocator + Copy> Model for Mixer<A> {
    ghost use Rattle.mixer.specs.Mixers.{MixerOf};

    ghost Value = { MixerOf };

    ghost view = { λ m. record { playouts = m.playouts; streams = m.streams.entries } };
}

impl<A: Allocator + Copy> Mixer<A> {
    /// A mixer without samples and streams. The only error is out of memory.
    pub fn new(alloc: A) -> Result<Self, AllocError>
        ensures nothing { IfOk result (λ mixer. (lane lanes : ℕ) → WasGiven lane lanes mixer []) }
    {
        let playouts = Playouts::new(alloc)?;
        let streams = IndexMap::with_capacity(alloc, FIRST_STREAMS)?;
        Ok(Self { playouts, streams })
    }

    /// Puts samples of a source into its jitter buffer, whatever the desk says.
    ///
    /// They are at most 200 ms at a clock rate of 50 to 48000 Hz. Only the first put of a source, and one at another
    /// rate than the one before, take memory. On out of memory, the only error, nothing changes.
    pub fn put(
        &mut self,
        alloc: A,
        source: u32,
        address: &Address,
        block: TimedSamples<'_>,
    ) -> Result<(), AllocError>
        requires least { 50 ≤ block.rate }
        requires most { block.rate ≤ 48000 }
        requires some { 0 < length block.samples.now }
        requires few { length block.samples.now * 5 ≤ block.rate }
        ensures given { OnOk result
            (IsGiven self.old self.new
            (put source address.now block.entry.rate block.entry.ts block.entry.samples.now)) }
        ensures err { OnErr result (self.new ≡ self.old) }
    {
        self.playouts.put(alloc, source, address, block)
    }

    /// From here on, jitter buffers begin anew after late or full sound, as [`Playouts::renew`] says.
    pub fn renew(&mut self)
        ensures { IsGiven self.old self.new Given.renew }
    {
        self.playouts.renew();
    }

    /// Runs a tick of 20 ms, and returns the packets of the lane's mix streams, by place of the member.
    ///
    /// It takes 20 ms of each source, whatever the desk says. `moment` is in nanoseconds since 1970. On out of
    /// memory, the only error, nothing changes.
    // How much a tick sends is known only once the mixer has changed. So it takes memory for as many packets as there
    // are members, and a refusal changes nothing.
    pub fn tick(
        &mut self,
        alloc: A,
        place: &LanePlace,
        rows: &Rows<A>,
        moment: u64,
    ) -> Result<Vec<MixPacket<A>, A>, AllocError>
        ensures ticks { IfOk result
            (λ sent. Ticks place.now.lane place.now.lanes self.old self.new rows.now moment sent.items) }
        ensures few { IfOk result (λ sent. length sent.items ≤ length rows.now.members) }
        ensures err { OnErr result (self.new ≡ self.old) }
    {
        rooms_are_small();
        mixes_are_apart();
        let sources = audio_sources(alloc, rows)?;
        let voices = voices_of(alloc, &self.playouts, rows, &sources)?;
        let tick = Tick {
            alloc,
            streams: &self.streams,
            rows,
            voices: &voices,
            moment,
        };
        let ready = ready_all(&tick, place)?;
        let mut out = Vec::with_capacity(alloc, ready.len())?;
        self.streams.reserve(ready.len())?;
        self.playouts.take_all();
        pass_all(&mut self.streams, rows, moment);
        commit_all(&mut self.streams, ready, &mut out);
        Ok(out)
    }

    /// The counts of a mix stream for its sender report (RFC 3550 section 6.4.1), if it is the lane's and has begun.
    pub fn counts(&self, out_audio: u32) -> Option<Counts>
        ensures { (lane lanes : ℕ) (given : List Given) → is_mine lane lanes out_audio ≡ true
            → WasGiven lane lanes self.now given → result ≡ counts_of out_audio (turns out_audio given) }
    {
        self.streams.get(&out_audio)?.counts()
    }
}
