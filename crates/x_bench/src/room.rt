//! A desk with one room, and the one that frames are sent by: its member 0 sends, and its others have slots.

ghost use Rattle.std.specs.Prelude.{◌<◌};

use crate::items::{ELSEWHERE, SEEN, UNSEEN, address_of};
use crate::rooms::settings;
use bridge_core::Core;
use desk_calls::Reply;
use desk_edit::{Call, Command};
use desk_rows::{Codec, DEFAULT_RATE, MUSIC_RATE, Media, Member, Room, Slot, Source, Sub};
use std::alloc::Global;
use std::io;

/// The most members that have slots.
const MEMBERS: u16 = 1_023;

/// How many slots have the source that is seen.
pub const RECEIVERS: u16 = 16;

/// The stream of the first slot.
const FIRST_STREAM: u32 = 300_000;

/// What a room is for.
#[derive(Clone, Copy)]
pub enum Sort {
    /// Speech: PCMU at 8000 Hz.
    Speech,
    /// Music: L16 at 44100 Hz.
    Music,
}

impl Sort {
    /// The codec of its members.
    fn codec(self) -> Codec {
        match self {
            Sort::Speech => Codec::Pcmu,
            Sort::Music => Codec::L16,
        }
    }

    /// The clock rate of its audio, in Hz.
    fn rate(self) -> u32 {
        match self {
            Sort::Speech => DEFAULT_RATE,
            Sort::Music => MUSIC_RATE,
        }
    }
}

/// A slot's member, and its index there.
#[derive(Clone, Copy)]
struct Place {
    member: u16,
    index: u16,
}

/// How many members have slots, where there are so many slots.
fn members(slots: u16) -> u16
    ensures { 0 < result }
{
    slots.clamp(1, MEMBERS)
}

/// The place of a slot: each member has one before one has two.
fn place_of(slots: u16, slot: u16) -> Place {
    let members = members(slots);
    Place {
        member: (slot % members).saturating_add(1),
        index: slot / members,
    }
}

/// The last slot that has the source that is seen. It is the last member's first one.
fn last_receiver(slots: u16) -> u16 {
    members(slots).saturating_sub(1)
}

/// The member that has the last receiving slot, and the slot's stream.
pub fn last_owner(slots: u16) -> (u16, u32) {
    let slot = last_receiver(slots);
    (place_of(slots, slot).member, stream_of(slot))
}

/// The stream of a slot.
fn stream_of(slot: u16) -> u32 {
    FIRST_STREAM + u32::from(slot)
}

/// The source that a slot has: the first slots of the last members have the one that is seen.
fn source_of(slots: u16, slot: u16) -> u32 {
    let behind = members(slots).saturating_sub(slot);
    if 0 < behind && behind <= RECEIVERS {
        SEEN
    } else {
        ELSEWHERE
    }
}

/// Carries out a command.
fn call(alloc: Global, core: &mut Core, command: Command) -> io::Result<()> {
    match core.desk(alloc, 0, Call::Apply(command)) {
        Reply::Accepted { .. } => Ok(()),
        Reply::Refused { .. } => Err(io::Error::other("the desk refuses a command")),
    }
}

/// Adds a member to the room, which is of this sort.
pub fn add_member(alloc: Global, core: &mut Core, sort: Sort, member: u16) -> io::Result<()> {
    let row = Member {
        member: u32::from(member),
        room: 1,
        address: address_of(member),
        codec: sort.codec(),
        out_audio: 100_000 + u32::from(member),
        first_seq: 0,
        first_ts: 0,
    };
    call(alloc, core, Command::AddMember(row))
}

pub fn add_source(
    alloc: Global,
    core: &mut Core,
    ssrc: u32,
    member: u16,
    media: Media,
) -> io::Result<()> {
    let row = Source {
        ssrc,
        member: u32::from(member),
        media,
    };
    call(alloc, core, Command::AddSource(row))
}

/// Adds a slot with its subscription.
fn add_slot(alloc: Global, core: &mut Core, slots: u16, slot: u16) -> io::Result<()> {
    let place = place_of(slots, slot);
    let out_ssrc = stream_of(slot);
    let row = Slot {
        out_ssrc,
        member: u32::from(place.member),
        index: u32::from(place.index),
        first_seq: 0,
        first_ts: 0,
    };
    call(alloc, core, Command::AddSlot(row))?;
    let source = source_of(slots, slot);
    call(alloc, core, Command::Subscribe(Sub { out_ssrc, source }))
}

/// A bridge with one lane and an empty room of this sort.
pub fn empty_core(alloc: Global, sort: Sort) -> io::Result<Core> {
    let Ok(mut core) = Core::new(alloc, 1, settings(alloc)?) else {
        return Err(io::Error::other("no core is made"));
    };
    call(
        alloc,
        &mut core,
        Command::AddRoom(Room {
            room: 1,
            rate: sort.rate(),
        }),
    )?;
    Ok(core)
}

/// A bridge with one lane and this many slots, of which 16 have the source that is seen, all others
/// another one, and none the one that is not seen.
pub fn core_of_slots(alloc: Global, slots: u16) -> io::Result<Core> {
    let mut core = empty_core(alloc, Sort::Speech)?;
    for member in 0..members(slots).saturating_add(1) {
        add_member(alloc, &mut core, Sort::Speech, member)?;
    }
    for source in [SEEN, ELSEWHERE, UNSEEN] {
        add_source(alloc, &mut core, source, 0, Media::Video)?;
    }
    for slot in 0..slots {
        add_slot(alloc, &mut core, slots, slot)?;
    }
    Ok(core)
}
