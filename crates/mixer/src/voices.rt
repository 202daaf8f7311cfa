//! The samples of sources in a tick.

ghost use Rattle.std.specs.Prelude.{◌≡◌, ℕ, ◌≤◌, ◌*◌, IfOk, List, All, length, map};
ghost use Rattle.desk_rows.specs.Desk.{Desk};
ghost use Rattle.media_items.specs.Formats.{tick_at};
ghost use Rattle.playout.specs.Playouts.{Has};
ghost use Rattle.mixer.specs.Hearing.{Given, Voice as VoiceOf, to_playouts, voice_at, voice_of};
ghost use Rattle.mixer.specs.inner.Rooms.{AreLong};

use crate::rates::{rate_in, rated};
use desk_rows::Rows;
use playout::Playouts;
use std::alloc::{AllocError, Allocator};
use std::marker::Model;
use topology::AudioSource;

/// The ticks of a second.
const TICKS_PER_SECOND: u32 = 50;

/// The samples of a source in a tick.
#[derive(Drop)]
pub struct Voice<A: Allocator + Copy> {
    /// The source.
    pub source: AudioSource,
    /// The samples, at the clock rate of the source's room. A missing sample is 0.
    pub samples: Vec<i16, A>,
    /// The number of samples that are present.
    pub filled: u32,
}

impl<A: Allocator + Copy> Model for Voice<A> {
    ghost use Rattle.mixer.specs.Hearing.{Voice as VoiceOf};

    ghost Value = { VoiceOf };

    ghost view = { λ v. record { source = v.source; samples = v.samples.items; filled = v.filled } };
}

/// The samples of a tick of 20 ms at a clock rate.
pub fn tick_at(rate: u32) -> usize
    ensures { result ≡ tick_at rate }
{
    (rate / TICKS_PER_SECOND) as usize
}

/// The samples of a source in the next tick, at a clock rate.
fn voice_of<A: Allocator + Copy>(
    alloc: A,
    playouts: &Playouts<A>,
    source: &AudioSource,
    rate: u32,
) -> Result<Voice<A>, AllocError>
    ensures heard { IfOk result (λ voice. (given : List Given) → Has playouts.now (map to_playouts given)
        → voice ≡ voice_at rate given source.now) }
    ensures source { IfOk result (λ voice. voice.source ≡ source.now) }
    ensures long { IfOk result (λ voice. length voice.samples ≡ tick_at rate) }
{
    let mut samples = Vec::new(alloc);
    samples.resize(tick_at(rate), 0)?;
    let filled = playouts.peek(source.ssrc, &source.address, rate, &mut samples);
    Ok(Voice {
        source: *source,
        samples,
        filled,
    })
}

/// The samples of these sources in the next tick, each at the clock rate of its room.
pub fn voices_of<A: Allocator + Copy>(
    alloc: A,
    playouts: &Playouts<A>,
    rows: &Rows<A>,
    sources: &[AudioSource],
) -> Result<Vec<Voice<A>, A>, AllocError>
    ensures heard { IfOk result (λ v. (given : List Given) → Has playouts.now (map to_playouts given)
        → v.items ≡ map (voice_of rows.now given) sources.now) }
    ensures sources { IfOk result (λ v. map (λ v. v.source) v.items ≡ sources.now) }
    ensures long { IfOk result (λ v. AreLong rows.now v.items) }
{
    let mut voices = Vec::with_capacity(alloc, sources.len())?;
    let mut last = rated(rows, 0);
    for source in sources {
        let rate = rate_in(rows, &mut last, source.room);
        let voice = voice_of(alloc, playouts, source, rate)?;
        voices.push(voice)?;
    }
    Ok(voices)
}
