//! Members that speak, and the ticks at which they are heard.

ghost use Rattle.std.specs.Prelude.{◌≡◌, true, IfOk};
ghost use Rattle.media_items.specs.Inputs.{input_of, is_sized};

use crate::asking::Order;
use crate::driving::give;
use crate::items::address_of;
use crate::room::{Sort, add_member, add_source, empty_core};
use crate::tally::Tally;
use bridge_core::{Core, Item};
use desk_rows::Media;
use std::alloc::{AllocError, Global};
use std::io;

/// The samples of an audio packet and of a tick at 8000 Hz: 20 ms.
pub const SAMPLES: usize = 160;

/// The same at 44100 Hz.
const MUSIC_SAMPLES: usize = 882;

/// Nanoseconds from tick to tick.
const TICK: u64 = 20_000_000;

/// The source of the first member.
const FIRST_VOICE: u32 = 1_000;

/// A member, and what its source says in a tick at each clock rate.
#[derive(Clone, Copy)]
struct Speaker {
    member: u16,
    speech: [i16; SAMPLES],
    music: [i16; MUSIC_SAMPLES],
}

/// The source of a member.
fn source_of(member: u16) -> u32 {
    FIRST_VOICE + u32::from(member)
}

/// A sample of a member, from -8,000 to 8,000, at a place: a saw.
fn sample_of(member: u16, place: u16) -> i16 {
    let level = (u32::from(member) * 997 + u32::from(place) * 101) % 16_001;
    level as i16 - 8_000
}

/// What a member says.
pub fn spoken_by(member: u16) -> [i16; SAMPLES] {
    let mut samples = [0; SAMPLES];
    for i in 0..SAMPLES {
        samples[i] = sample_of(member, i as u16);
    }
    samples
}

/// What a member plays.
fn music_of(member: u16) -> [i16; MUSIC_SAMPLES] {
    let mut samples = [0; MUSIC_SAMPLES];
    for i in 0..MUSIC_SAMPLES {
        samples[i] = sample_of(member, i as u16);
    }
    samples
}

/// So many members.
fn speakers(alloc: Global, members: u16) -> Result<Vec<Speaker>, AllocError> {
    let mut speakers = Vec::with_capacity(alloc, usize::from(members))?;
    for member in 0..members {
        speakers.push(Speaker {
            member,
            speech: spoken_by(member),
            music: music_of(member),
        })?;
    }
    Ok(speakers)
}

/// A bridge that has these members in its room of this sort, each with an audio source.
fn core_of(alloc: Global, sort: Sort, speakers: &[Speaker]) -> io::Result<Core> {
    let mut core = empty_core(alloc, sort)?;
    for speaker in speakers {
        let member = speaker.member;
        add_member(alloc, &mut core, sort, member)?;
        add_source(alloc, &mut core, source_of(member), member, Media::Audio)?;
    }
    Ok(core)
}

/// What a member says at a tick in a room of this sort.
fn sound_of(alloc: Global, sort: Sort, speaker: &Speaker, time: u64) -> Result<Item, AllocError>
    ensures { IfOk result (λ item. is_sized (input_of item) ≡ true) }
{
    match sort {
        Sort::Speech => speech_of(alloc, speaker, time),
        Sort::Music => played_by(alloc, speaker, time),
    }
}

/// The same at 8000 Hz.
fn speech_of(alloc: Global, speaker: &Speaker, time: u64) -> Result<Item, AllocError>
    ensures { IfOk result (λ item. is_sized (input_of item) ≡ true) }
{
    let time = (time % (1 << 32)) as u32;
    Ok(Item::Audio {
        ssrc: source_of(speaker.member),
        address: address_of(speaker.member),
        rate: 8_000,
        ts: time.wrapping_mul(SAMPLES as u32),
        samples: Vec::from_slice(alloc, &speaker.speech)?,
    })
}

/// The same at 44100 Hz.
fn played_by(alloc: Global, speaker: &Speaker, time: u64) -> Result<Item, AllocError>
    ensures { IfOk result (λ item. is_sized (input_of item) ≡ true) }
{
    let time = (time % (1 << 32)) as u32;
    Ok(Item::Audio {
        ssrc: source_of(speaker.member),
        address: address_of(speaker.member),
        rate: 44_100,
        ts: time.wrapping_mul(MUSIC_SAMPLES as u32),
        samples: Vec::from_slice(alloc, &speaker.music)?,
    })
}

/// Members of a room of one sort.
#[derive(Clone, Copy)]
struct Call<'a> {
    sort: Sort,
    speakers: &'a [Speaker],
}

/// All of these members speak.
fn speak(
    alloc: Global,
    core: &mut Core,
    call: Call<'_>,
    time: u64,
    tally: &mut Tally,
) -> io::Result<()> {
    for speaker in call.speakers {
        let sound = sound_of(alloc, call.sort, speaker, time)?;
        give(alloc, core, &sound, tally)?;
    }
    Ok(())
}

/// The tick is given to the lane.
fn tick(alloc: Global, core: &mut Core, time: u64, tally: &mut Tally) -> io::Result<()> {
    let item = Item::Tick {
        moment: time.saturating_mul(TICK),
    };
    give(alloc, core, &item, tally)
}

/// All of these members speak before each tick.
fn talk(alloc: Global, core: &mut Core, call: Call<'_>, times: u64) -> io::Result<Tally> {
    let mut tally = Tally::new();
    for time in 0..times {
        speak(alloc, core, call, time, &mut tally)?;
        tick(alloc, core, time, &mut tally)?;
    }
    Ok(tally)
}

/// So many members of a room of this sort hear one another.
pub fn heard(alloc: Global, sort: Sort, order: &Order) -> io::Result<Tally> {
    let speakers = speakers(alloc, order.slots)?;
    let mut core = core_of(alloc, sort, &speakers)?;
    let call = Call {
        sort,
        speakers: &speakers,
    };
    talk(alloc, &mut core, call, order.times)
}

/// As many speak or play, and none is in the room.
pub fn unheard(alloc: Global, sort: Sort, order: &Order) -> io::Result<Tally> {
    let speakers = speakers(alloc, order.slots)?;
    let mut core = empty_core(alloc, sort)?;
    let call = Call {
        sort,
        speakers: &speakers,
    };
    talk(alloc, &mut core, call, order.times)
}

/// As many spoke or played once, none is in the room, and nothing more comes.
pub fn silent(alloc: Global, sort: Sort, order: &Order) -> io::Result<Tally> {
    let speakers = speakers(alloc, order.slots)?;
    let mut core = empty_core(alloc, sort)?;
    let call = Call {
        sort,
        speakers: &speakers,
    };
    let mut tally = talk(alloc, &mut core, call, 1)?;
    for time in 0..order.times {
        tick(alloc, &mut core, time, &mut tally)?;
    }
    Ok(tally)
}
