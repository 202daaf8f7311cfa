//! The refusals of calls: what `help` tells of each line.

ghost use Rattle.std.specs.Prelude.{◌≡◌};
ghost use Rattle.operator_lines.specs.Forms.{blames_of};
ghost use Rattle.operator_lines.specs.declared.topic.Topic.TheVariants as topics;

use crate::topic::Topic;
use desk_edit::{Reason, Refusal, Standing, Table};
use desk_text::{Head, Name};

/// The refusals of `add-room`.
const ADD_ROOM: &[(Refusal, u32)] = &[
    (Refusal::Exists, 2),
    (Refusal::BadValue, 3),
    (
        Refusal::Full {
            table: Table::Rooms,
            limit: 64,
        },
        0,
    ),
    (Refusal::LogFull, 0),
];

/// The refusals of `remove-room`.
const REMOVE_ROOM: &[(Refusal, u32)] = &[(Refusal::NoRoom, 2), (Refusal::LogFull, 0)];

/// The refusals of `add-member`.
const ADD_MEMBER: &[(Refusal, u32)] = &[
    (Refusal::Exists, 2),
    (Refusal::NoRoom, 3),
    (Refusal::SsrcTaken, 6),
    (Refusal::BadValue, 4),
    (
        Refusal::Full {
            table: Table::Members,
            limit: 1024,
        },
        0,
    ),
    (Refusal::RateMismatch, 5),
    (Refusal::LogFull, 0),
];

/// The refusals of `remove-member`.
const REMOVE_MEMBER: &[(Refusal, u32)] = &[(Refusal::NoMember, 2), (Refusal::LogFull, 0)];

/// The refusals of `move-member`.
const MOVE_MEMBER: &[(Refusal, u32)] = &[
    (Refusal::NoRoom, 3),
    (Refusal::NoMember, 2),
    (Refusal::Already, 0),
    (
        Refusal::Full {
            table: Table::RoomAudio,
            limit: 64,
        },
        0,
    ),
    (Refusal::RateMismatch, 3),
    (Refusal::LogFull, 0),
];

/// The refusals of `add-source`.
const ADD_SOURCE: &[(Refusal, u32)] = &[
    (Refusal::Exists, 2),
    (Refusal::NoMember, 3),
    (Refusal::SsrcTaken, 2),
    (
        Refusal::Full {
            table: Table::Sources,
            limit: 2048,
        },
        0,
    ),
    (Refusal::LogFull, 0),
];

/// The refusals of `remove-source`.
const REMOVE_SOURCE: &[(Refusal, u32)] = &[(Refusal::NoSource, 2), (Refusal::LogFull, 0)];

/// The refusals of `add-slot`.
const ADD_SLOT: &[(Refusal, u32)] = &[
    (Refusal::Exists, 2),
    (Refusal::NoMember, 3),
    (Refusal::SsrcTaken, 2),
    (Refusal::BadValue, 4),
    (
        Refusal::Full {
            table: Table::Slots,
            limit: 4096,
        },
        0,
    ),
    (Refusal::LogFull, 0),
];

/// The refusals of `remove-slot`.
const REMOVE_SLOT: &[(Refusal, u32)] = &[(Refusal::NoSlot, 2), (Refusal::LogFull, 0)];

/// The refusals of `subscribe`.
const SUBSCRIBE: &[(Refusal, u32)] = &[
    (Refusal::NoSource, 3),
    (Refusal::NoSlot, 2),
    (Refusal::WrongKind, 3),
    (Refusal::OtherRoom, 3),
    (Refusal::Already, 0),
    (Refusal::LogFull, 0),
];

/// The refusals of `unsubscribe`.
const UNSUBSCRIBE: &[(Refusal, u32)] = &[
    (Refusal::NoSlot, 2),
    (Refusal::NotThere, 0),
    (Refusal::LogFull, 0),
];

/// The refusals of `set-gain`.
const SET_GAIN: &[(Refusal, u32)] = &[
    (Refusal::NoMember, 2),
    (Refusal::NoSource, 3),
    (Refusal::WrongKind, 3),
    (Refusal::OtherRoom, 3),
    (Refusal::BadValue, 4),
    (Refusal::Already, 0),
    (
        Refusal::Full {
            table: Table::Gains,
            limit: 65536,
        },
        0,
    ),
    (Refusal::LogFull, 0),
];

/// The refusals of `mute`.
const MUTE: &[(Refusal, u32)] = &[
    (Refusal::NoSource, 2),
    (Refusal::Already, 0),
    (Refusal::LogFull, 0),
];

/// The refusals of `unmute`.
const UNMUTE: &[(Refusal, u32)] = &[
    (Refusal::NoSource, 2),
    (Refusal::NotThere, 0),
    (Refusal::LogFull, 0),
];

/// The refusals of `pin`.
const PIN: &[(Refusal, u32)] = &[
    (Refusal::NoRoom, 2),
    (Refusal::NoSource, 3),
    (Refusal::WrongKind, 3),
    (Refusal::OtherRoom, 3),
    (Refusal::Already, 0),
    (Refusal::LogFull, 0),
];

/// The refusals of `unpin`.
const UNPIN: &[(Refusal, u32)] = &[
    (Refusal::NoRoom, 2),
    (Refusal::NotThere, 0),
    (Refusal::LogFull, 0),
];

/// The refusals of `give-floor`.
const GIVE_FLOOR: &[(Refusal, u32)] = &[
    (Refusal::NoRoom, 2),
    (Refusal::NoMember, 3),
    (Refusal::OtherRoom, 3),
    (Refusal::Already, 0),
    (Refusal::LogFull, 0),
];

/// The refusals of `take-floor`.
const TAKE_FLOOR: &[(Refusal, u32)] = &[
    (Refusal::NoRoom, 2),
    (Refusal::NotThere, 0),
    (Refusal::LogFull, 0),
];

/// The refusals of `undo`.
const UNDO: &[(Refusal, u32)] = &[
    (Refusal::NewerCommand { last: 0 }, 2),
    (Refusal::NothingToUndo, 0),
    (Refusal::LogFull, 0),
];

/// The refusals of `redo`.
const REDO: &[(Refusal, u32)] = &[
    (Refusal::NewerCommand { last: 0 }, 2),
    (Refusal::NothingToRedo, 0),
    (Refusal::LogFull, 0),
];

/// The refusals of `revert`.
const REVERT: &[(Refusal, u32)] = &[
    (Refusal::LogFull, 0),
    (Refusal::NotInForce, 2),
    (Refusal::TooFar { limit: 256 }, 2),
    (
        Refusal::Conflict {
            call: 0,
            part: 0,
            why: Reason::NotThere,
        },
        0,
    ),
    (
        Refusal::Elsewhere {
            kind: Standing::Room,
            number: 0,
        },
        0,
    ),
];

/// The refusals of `group`.
const GROUP: &[(Refusal, u32)] = &[
    (Refusal::GroupTooLong { limit: 64 }, 0),
    (Refusal::LogFull, 0),
    (
        Refusal::PartRefused {
            part: 0,
            why: Reason::NotThere,
        },
        0,
    ),
];

/// The refusals of a command.
fn command_blames(name: Name) -> &'static [(Refusal, u32)]
    ensures { result.now ≡ blames_of (topics.Command name) }
{
    match name {
        Name::AddRoom => ADD_ROOM,
        Name::RemoveRoom => REMOVE_ROOM,
        Name::AddMember => ADD_MEMBER,
        Name::RemoveMember => REMOVE_MEMBER,
        Name::MoveMember => MOVE_MEMBER,
        Name::AddSource => ADD_SOURCE,
        Name::RemoveSource => REMOVE_SOURCE,
        Name::AddSlot => ADD_SLOT,
        Name::RemoveSlot => REMOVE_SLOT,
        Name::Subscribe => SUBSCRIBE,
        Name::Unsubscribe => UNSUBSCRIBE,
        Name::SetGain => SET_GAIN,
        Name::Mute => MUTE,
        Name::Unmute => UNMUTE,
        Name::Pin => PIN,
        Name::Unpin => UNPIN,
        Name::GiveFloor => GIVE_FLOOR,
        Name::TakeFloor => TAKE_FLOOR,
    }
}

/// The refusals of an undo, a redo, a revert or a group.
fn head_blames(head: Head) -> &'static [(Refusal, u32)]
    ensures { result.now ≡ blames_of (topics.Head head) }
{
    match head {
        Head::Undo => UNDO,
        Head::Redo => REDO,
        Head::Revert => REVERT,
        Head::Group => GROUP,
    }
}

impl Topic {
    /// The refusals of a call that begins so, each with a value in place of what it carries. With each stands the
    /// place of the word on the line that it is about, or 0.
    pub fn blames(self) -> &'static [(Refusal, u32)]
        ensures { result.now ≡ blames_of self }
    {
        match self {
            Topic::Command(name) => command_blames(name),
            Topic::Head(head) => head_blames(head),
            Topic::Own(_) => &[],
        }
    }
}
