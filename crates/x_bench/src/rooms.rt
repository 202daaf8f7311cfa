//! Desks with one room.

use crate::items::address_of;
use bridge_core::{Core, Settings};
use bytes::Bytes;
use desk_calls::Reply;
use desk_edit::{Call, Command};
use desk_rows::{Codec, Floor, Gain, Media, Member, Pin, Room, Slot, Source, Sub};
use std::alloc::{AllocError, Global};
use std::io;

/// The first audio source. The others follow.
const VOICE: u32 = 1_000;

/// The first video source. The others follow.
const PICTURE: u32 = 2_000;

/// The stream of the first slot. Those of the others follow.
const STREAM: u32 = 300_000;

/// How many members the room has, numbered from 0, and how many audio sources, video sources and slots, in turn of the
/// members. Each slot has a video source, the slots in turn of these.
#[derive(Clone, Copy)]
pub struct Plan {
    /// The members, numbered from 0.
    pub members: u16,
    /// The audio sources.
    pub voices: u16,
    /// The video sources.
    pub pictures: u16,
    /// The slots.
    pub slots: u16,
    /// Each member has a gain for each audio source. The room has a floor, and a pin where there is a video source.
    pub has_gains: bool,
}

/// No member.
pub const EMPTY: Plan = Plan {
    members: 0,
    voices: 0,
    pictures: 0,
    slots: 0,
    has_gains: false,
};

/// 402 rows: a room, 101 members, 100 video sources, and 100 slots with their subscriptions.
pub const HUNDREDS: Plan = Plan {
    members: 101,
    voices: 0,
    pictures: 100,
    slots: 100,
    has_gains: false,
};

/// A source, and 16 receivers of it.
pub const FAN: Plan = Plan {
    members: 17,
    voices: 0,
    pictures: 1,
    slots: 16,
    has_gains: false,
};

/// 256 members with gains, of whom 16 speak: each hears a mix of its own.
pub const HALL: Plan = Plan {
    members: 256,
    voices: 16,
    pictures: 0,
    slots: 0,
    has_gains: true,
};

/// Rows of each kind, few of each.
pub const FEW: Plan = Plan {
    members: 4,
    voices: 2,
    pictures: 16,
    slots: 8,
    has_gains: true,
};

/// A full desk: as many members, sources, slots, subscriptions and gains as a desk may have, a pin and a floor.
pub const FULL: Plan = Plan {
    members: 1_024,
    voices: 64,
    pictures: 1_984,
    slots: 4_096,
    has_gains: true,
};

/// The audio source of this number.
pub fn voice_of(voice: u16) -> u32 {
    VOICE + u32::from(voice)
}

/// The video source of this number.
pub fn picture_of(picture: u16) -> u32 {
    PICTURE + u32::from(picture)
}

fn add_member(member: u16) -> Command {
    Command::AddMember(Member {
        member: u32::from(member),
        room: 1,
        address: address_of(member),
        codec: Codec::Pcmu,
        out_audio: 100_000 + u32::from(member),
        first_seq: 0,
        first_ts: 0,
    })
}

/// A source of this place among all, from the audio sources on.
fn add_source(plan: &Plan, place: u16) -> Command {
    let (ssrc, media) = if place < plan.voices {
        (voice_of(place), Media::Audio)
    } else {
        (picture_of(place - plan.voices), Media::Video)
    };
    Command::AddSource(Source {
        ssrc,
        member: u32::from(place % plan.members.max(1)),
        media,
    })
}

/// A slot of this number. The first ones are those of the members from 1 on.
fn add_slot(plan: &Plan, slot: u16) -> Command {
    let members = u32::from(plan.members.max(1));
    Command::AddSlot(Slot {
        out_ssrc: STREAM + u32::from(slot),
        member: (u32::from(slot) + 1) % members,
        index: u32::from(slot) / members,
        first_seq: 0,
        first_ts: 0,
    })
}

fn subscribe(plan: &Plan, slot: u16) -> Command {
    Command::Subscribe(Sub {
        out_ssrc: STREAM + u32::from(slot),
        source: picture_of(slot % plan.pictures.max(1)),
    })
}

/// The gains, a pin and a floor.
fn gains(plan: &Plan, commands: &mut Vec<Command>) -> Result<(), AllocError> {
    for member in 0..plan.members {
        for voice in 0..plan.voices {
            commands.push(set_gain(member, voice, 100))?;
        }
    }
    if plan.pictures > 0 {
        commands.push(Command::Pin(Pin {
            room: 1,
            source: picture_of(0),
        }))?;
    }
    commands.push(Command::GiveFloor(Floor { room: 1, member: 0 }))?;
    Ok(())
}

/// A member's gain for an audio source.
pub fn set_gain(member: u16, voice: u16, q8: u32) -> Command {
    Command::SetGain(Gain {
        member: u32::from(member),
        source: voice_of(voice),
        q8,
    })
}

/// The commands that make the room.
pub fn commands_for(alloc: Global, plan: &Plan) -> Result<Vec<Command>, AllocError> {
    let mut commands = Vec::new(alloc);
    commands.push(Command::AddRoom(Room {
        room: 1,
        rate: 8_000,
    }))?;
    for member in 0..plan.members {
        commands.push(add_member(member))?;
    }
    for place in 0..plan.voices.saturating_add(plan.pictures) {
        commands.push(add_source(plan, place))?;
    }
    for slot in 0..plan.slots {
        commands.push(add_slot(plan, slot))?;
        commands.push(subscribe(plan, slot))?;
    }
    if plan.has_gains {
        gains(plan, &mut commands)?;
    }
    Ok(commands)
}

/// Who the bridge is.
pub fn settings(alloc: Global) -> Result<Settings, AllocError> {
    Ok(Settings {
        bridge_ssrc: 1,
        cname: Bytes::copy_from_slice(alloc, b"bridge")?,
    })
}

/// A bridge on one thread with this room and one lane.
pub fn core_with(alloc: Global, plan: &Plan) -> io::Result<Core> {
    let Ok(mut core) = Core::new(alloc, 1, settings(alloc)?) else {
        return Err(io::Error::other("no core is made"));
    };
    for command in &commands_for(alloc, plan)? {
        match core.desk(alloc, 0, Call::Apply(*command)) {
            Reply::Accepted { .. } => {}
            Reply::Refused { .. } => return Err(io::Error::other("the core refuses a command")),
        }
    }
    Ok(core)
}
