//! The inputs of a room's mixes.

ghost use Rattle.std.specs.Prelude.{◌≡◌, ◌≤◌, ◌<◌, All, IfOk, OnOk, length, map, slice_index_or};
ghost use Rattle.mix_minus.specs.Mix.{ReachTo};
ghost use Rattle.desk_rows.specs.Desk.{Desk};
ghost use Rattle.media_items.specs.Formats.{tick_at};
ghost use Rattle.topology.specs.Looking.{room_rate};
ghost use Rattle.mixer.specs.Hearing.{Voice as VoiceOf};
ghost use Rattle.mixer.specs.inner.Rooms.{plain, plain_voice, of_room, AreLong, RoomOf, IsRoom};
ghost use Rattle.mixer.specs.inner.Ready.{AreRooms};

use crate::apart::{counts_before, members_of, named_of};
use crate::voices::{Voice, tick_at};
use desk_rows::Rows;
use mix_minus::{Input, room_total};
use std::alloc::{AllocError, Allocator};
use std::marker::Model;
use topology::{AudioSource, room_rate};

/// The audio of a room in a tick.
#[derive(Drop)]
pub struct RoomSound<'a, A: Allocator + Copy> {
    /// The room's number.
    pub room: u32,
    /// The room's clock rate, in Hz.
    pub rate: u32,
    /// The room's audio sources.
    pub sources: Vec<AudioSource, A>,
    /// The samples of each source, in the same order.
    pub inputs: Vec<Input<'a>, A>,
    /// The member of each input, in the same order.
    pub members: Vec<u32, A>,
    /// The number of inputs before each place of which a sample is present, and that of all.
    pub before: Vec<u32, A>,
    /// The sum of all samples.
    pub total: Vec<i32, A>,
    /// The sources of which a sample is present, in network order: four octets each.
    pub named: Vec<u8, A>,
}

impl<'a, A: Allocator + Copy> Model for RoomSound<'a, A> {
    ghost use Rattle.mixer.specs.inner.Rooms.{RoomOf};

    ghost Value = { RoomOf };

    ghost view = { λ r. record {
      room = r.room;
      rate = r.rate;
      sources = r.sources.items;
      inputs = r.inputs.items;
      members = r.members.items;
      before = r.before.items;
      total = r.total.items;
      named = r.named.items;
    } };
}

/// A voice as an input of a mix.
fn input_of<A: Allocator + Copy>(voice: &Voice<A>) -> Input<'_>
    ensures { plain result ≡ plain_voice voice.now }
{
    Input {
        ssrc: voice.source.ssrc,
        member: voice.source.member,
        samples: &voice.samples,
        filled: voice.filled,
    }
}

/// The voices of a room as inputs of a mix.
fn inputs_of<A: Allocator + Copy>(
    alloc: A,
    voices: &[Voice<A>],
    room: u32,
) -> Result<Vec<Input<'_>, A>, AllocError>
    ensures { IfOk result (λ v. map plain v.items ≡ map plain_voice (of_room room voices.now)) }
{
    let mut inputs = Vec::with_capacity(alloc, voices.len())?;
    for voice in voices {
        if voice.source.room == room {
            inputs.push(input_of(voice))?;
        }
    }
    Ok(inputs)
}

fn sources_of<A: Allocator + Copy>(
    alloc: A,
    voices: &[Voice<A>],
    room: u32,
) -> Result<Vec<AudioSource, A>, AllocError>
    ensures { IfOk result (λ v. v.items ≡ map (λ v. v.source) (of_room room voices.now)) }
{
    voices
        .iter()
        .filter(|voice| voice.source.room == room)
        .map(|voice| voice.source)
        .collect(alloc)
}

/// The audio of a room, with at most 64 of these voices.
pub fn room_of<'a, A: Allocator + Copy>(
    alloc: A,
    rows: &Rows<A>,
    voices: &'a [Voice<A>],
    room: u32,
) -> Result<RoomSound<'a, A>, AllocError>
    requires few { length (of_room room voices.now) ≤ 64 }
    requires long { AreLong rows.now voices.now }
    ensures is { IfOk result (λ r. IsRoom rows.now voices.now r) }
    ensures number { IfOk result (λ r. r.room ≡ room) }
{
    let sources = sources_of(alloc, voices, room)?;
    let inputs = inputs_of(alloc, voices, room)?;
    let rate = room_rate(rows, room);
    let mut total = Vec::new(alloc);
    total.resize(tick_at(rate), 0)?;
    room_total(&inputs, &mut total);
    let named = named_of(alloc, &inputs)?;
    let members = members_of(alloc, &inputs)?;
    let before = counts_before(alloc, &inputs)?;
    Ok(RoomSound {
        room,
        rate,
        sources,
        inputs,
        members,
        before,
        total,
        named,
    })
}

/// The index of a room among these. A missing room is added.
pub fn place_of<'a, A: Allocator + Copy>(
    alloc: A,
    rows: &Rows<A>,
    rooms: &mut Vec<RoomSound<'a, A>, A>,
    voices: &'a [Voice<A>],
    room: u32,
) -> Result<usize, AllocError>
    requires few { length (of_room room voices.now) ≤ 64 }
    requires long { AreLong rows.now voices.now }
    requires rooms { AreRooms rows.now voices.now rooms.old.items }
    ensures rooms { OnOk result (AreRooms rows.now voices.now rooms.new.items) }
    ensures within { IfOk result (λ i. i < length rooms.new.items) }
    ensures number { IfOk result (λ i. (d : RoomOf) → (slice_index_or rooms.new.items i d).room ≡ room) }
{
    if let Some(i) = rooms.iter().position(|one| one.room == room) {
        return Ok(i);
    }
    let one = room_of(alloc, rows, voices, room)?;
    let i = rooms.len();
    rooms.push(one)?;
    Ok(i)
}
