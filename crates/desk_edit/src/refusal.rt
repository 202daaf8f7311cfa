//! The refusals of calls, with their numbers and names.

ghost use Rattle.std.specs.Prelude.{◌≡◌};
ghost use Rattle.desk_edit.specs.Reasons.{refusal_for, refusal_of_group};
ghost use Rattle.desk_edit.specs.Told.{table_text, standing_text, told_in, told_of};

use crate::grouping::MAX_GROUP;
use thiserror::Error;

/// What can be full, with a limit.
#[derive(Clone, Copy, Debug, PartialEq, Eq)]
pub enum Table {
    Rooms,
    Members,
    Sources,
    Slots,
    Gains,
    /// The audio sources of one room.
    RoomAudio,
}

/// A kind of row that others hang on: who is in the call, and where.
#[derive(Clone, Copy, Debug, PartialEq, Eq)]
pub enum Standing {
    Room,
    Member,
    Source,
    Slot,
}

/// A reason against a command. The first that holds is reported.
// A refusal of a group has one of these in it. A `Refusal` that had another `Refusal` in it would need a box, and so
// memory.
#[derive(Clone, Copy, Debug, PartialEq, Eq)]
pub enum Reason {
    /// The row exists, or another one has its address or index.
    Exists,
    /// There is no such room.
    NoRoom,
    /// There is no such member.
    NoMember,
    /// There is no such source.
    NoSource,
    /// There is no such slot.
    NoSlot,
    /// The source sends other media than the row needs.
    WrongKind,
    /// The row would name two different rooms.
    OtherRoom,
    /// The bridge, a source or a stream has the SSRC.
    SsrcTaken,
    /// A value is out of range.
    BadValue,
    /// The row is already as wanted.
    Already,
    /// There is no such row to remove.
    NotThere,
    /// A table is full.
    Full {
        /// The table.
        table: Table,
        /// Its limit.
        limit: u32,
    },
    /// The room's clock rate doesn't carry the member's codec, or isn't that of the room that the member leaves.
    RateMismatch,
}

impl Reason {
    /// The refusal of a command for this reason.
    pub fn refusal(self) -> Refusal
        ensures { result ≡ refusal_for self }
    {
        match self {
            Reason::Exists => Refusal::Exists,
            Reason::NoRoom => Refusal::NoRoom,
            Reason::NoMember => Refusal::NoMember,
            Reason::NoSource => Refusal::NoSource,
            Reason::NoSlot => Refusal::NoSlot,
            Reason::WrongKind => Refusal::WrongKind,
            Reason::OtherRoom => Refusal::OtherRoom,
            Reason::SsrcTaken => Refusal::SsrcTaken,
            Reason::BadValue => Refusal::BadValue,
            Reason::Already => Refusal::Already,
            Reason::NotThere => Refusal::NotThere,
            Reason::Full { table, limit } => Refusal::Full { table, limit },
            Reason::RateMismatch => Refusal::RateMismatch,
        }
    }
}

/// Why a call is refused. Nothing changes then. The first that holds is reported, but `OutOfMemory` comes last.
#[derive(Clone, Copy, Debug, PartialEq, Eq, Error)]
pub enum Refusal {
    #[error("it is there, or another stands in its place")]
    Exists,
    #[error("there is no such room")]
    NoRoom,
    #[error("there is no such member")]
    NoMember,
    #[error("there is no such source")]
    NoSource,
    #[error("there is no such slot")]
    NoSlot,
    #[error("the source is of another kind")]
    WrongKind,
    #[error("the two sides are in different rooms")]
    OtherRoom,
    #[error("the SSRC is used already")]
    SsrcTaken,
    #[error("a value is out of its range")]
    BadValue,
    #[error("it stands already as it would be")]
    Already,
    #[error("there is nothing to take")]
    NotThere,
    #[error("there are {limit} already")]
    Full { table: Table, limit: u32 },
    #[error("out of memory")]
    OutOfMemory,
    /// An undo or redo names another call than the last accepted one.
    #[error("the last accepted call is {last}")]
    NewerCommand { last: u64 },
    #[error("no command is done")]
    NothingToUndo,
    #[error("no command is undone")]
    NothingToRedo,
    #[error("1,048,576 calls were accepted")]
    LogFull,
    #[error("the group has no command")]
    EmptyGroup,
    #[error("the group has more than {limit} commands")]
    GroupTooLong { limit: u32 },
    /// A command of the group is refused on the desk after those before it. Commands count from 0.
    #[error("command {part} of the group is refused")]
    PartRefused { part: u32, why: Reason },
    #[error("the room is at another clock rate")]
    RateMismatch,
    /// A revert names no call that is in force: none of this number was accepted, it is an undo or a redo, or it was
    /// undone or taken back.
    #[error("no call of this number is in force")]
    NotInForce,
    /// A revert would go past more commands and reverts than it may.
    #[error("more than {limit} commands lie behind it")]
    TooFar { limit: u32 },
    /// A command of a later call is refused without the call that a revert takes back. Commands count from 0.
    #[error("command {part} of call {call} stands in the way")]
    Conflict { call: u64, part: u32, why: Reason },
    /// A revert would bring or take a row that neither the call nor any other out of force brought or took.
    #[error("row {number} would come or go with it")]
    Elsewhere { kind: Standing, number: u32 },
}

/// Why a group is refused.
#[derive(Clone, Copy, Debug, PartialEq, Eq, Error)]
pub enum GroupRefusal {
    #[error("it has no command")]
    Empty,
    #[error("it has more than 64 commands")]
    TooLong,
    /// A command is refused on the desk after those before it. Commands count from 0.
    #[error("command {part} is refused")]
    Part { part: u32, why: Reason },
    #[error("out of memory")]
    OutOfMemory,
}

impl GroupRefusal {
    /// The refusal of the call.
    pub fn refusal(self) -> Refusal
        ensures { result ≡ refusal_of_group self }
    {
        match self {
            GroupRefusal::Empty => Refusal::EmptyGroup,
            GroupRefusal::TooLong => Refusal::GroupTooLong {
                limit: MAX_GROUP as u32,
            },
            GroupRefusal::Part { part, why } => Refusal::PartRefused { part, why },
            GroupRefusal::OutOfMemory => Refusal::OutOfMemory,
        }
    }
}

/// The values that a refusal carries behind its name.
#[derive(Clone, Copy)]
pub enum Carried {
    /// No value.
    Nothing,
    /// The table that is full, and its limit.
    Limit(Table, u32),
    /// The number of the last accepted call.
    Last(u64),
    /// The most commands of a group.
    Most(u32),
    /// The command of the group, from 0 on, and the reason against it.
    Part(u32, Reason),
    /// The call, its command from 0 on, and the reason against that.
    InCall(u64, u32, Reason),
    /// The kind of a row, and its number.
    Row(Standing, u32),
}

/// A refusal as its texts have it.
#[derive(Clone, Copy)]
pub struct RefusalRow {
    /// The number, 1 to 26.
    pub number: u16,
    /// The name.
    pub name: &'static [u8],
    /// The values behind the name.
    pub carried: Carried,
}

impl Standing {
    /// The name of the kind in texts.
    pub fn text(self) -> &'static [u8]
        ensures { result.now ≡ standing_text self }
    {
        match self {
            Standing::Room => b"room",
            Standing::Member => b"member",
            Standing::Source => b"source",
            Standing::Slot => b"slot",
        }
    }
}

impl Table {
    /// The name of the table in texts.
    pub fn text(self) -> &'static [u8]
        ensures { result.now ≡ table_text self }
    {
        match self {
            Table::Rooms => b"rooms",
            Table::Members => b"members",
            Table::Sources => b"sources",
            Table::Slots => b"slots",
            Table::Gains => b"gains",
            Table::RoomAudio => b"room-audio",
        }
    }
}

/// A refusal of this number and name.
fn row(number: u16, name: &'static [u8], carried: Carried) -> RefusalRow
    ensures { result ≡ record { number = number; name = name.entry; carried = carried } }
{
    RefusalRow {
        number,
        name,
        carried,
    }
}

/// A refusal that carries nothing.
fn bare(number: u16, name: &'static [u8]) -> RefusalRow
    ensures { result ≡ record { number = number; name = name.entry; carried = Carried.Nothing } }
{
    row(number, name, Carried::Nothing)
}

impl Refusal {
    /// The number, the name and the values of the refusal.
    pub fn told(self) -> RefusalRow
        ensures { told_in result ≡ told_of self }
    {
        match self {
            Refusal::Exists => bare(1, b"Exists"),
            Refusal::NoRoom => bare(2, b"NoRoom"),
            Refusal::NoMember => bare(3, b"NoMember"),
            Refusal::NoSource => bare(4, b"NoSource"),
            Refusal::NoSlot => bare(5, b"NoSlot"),
            Refusal::WrongKind => bare(6, b"WrongKind"),
            Refusal::OtherRoom => bare(7, b"OtherRoom"),
            Refusal::SsrcTaken => bare(8, b"SsrcTaken"),
            Refusal::BadValue => bare(9, b"BadValue"),
            Refusal::Already => bare(10, b"Already"),
            Refusal::NotThere => bare(11, b"NotThere"),
            Refusal::Full { table, limit } => row(12, b"Full", Carried::Limit(table, limit)),
            Refusal::OutOfMemory => bare(13, b"OutOfMemory"),
            Refusal::NewerCommand { last } => row(14, b"NewerCommand", Carried::Last(last)),
            Refusal::NothingToUndo => bare(15, b"NothingToUndo"),
            Refusal::NothingToRedo => bare(16, b"NothingToRedo"),
            Refusal::LogFull => bare(17, b"LogFull"),
            Refusal::EmptyGroup => bare(18, b"EmptyGroup"),
            Refusal::GroupTooLong { limit } => row(19, b"GroupTooLong", Carried::Most(limit)),
            Refusal::PartRefused { part, why } => row(20, b"PartRefused", Carried::Part(part, why)),
            Refusal::RateMismatch => bare(21, b"RateMismatch"),
            Refusal::NotInForce => bare(23, b"NotInForce"),
            Refusal::TooFar { limit } => row(24, b"TooFar", Carried::Most(limit)),
            Refusal::Conflict { call, part, why } => {
                row(25, b"Conflict", Carried::InCall(call, part, why))
            }
            Refusal::Elsewhere { kind, number } => {
                row(26, b"Elsewhere", Carried::Row(kind, number))
            }
        }
    }
}
