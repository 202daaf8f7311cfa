//! Commands and calls.

ghost use Rattle.std.specs.Prelude.{◌≡◌};
ghost use Rattle.desk_edit.specs.Forms.{form_of};

use desk_rows::{Floor, Gain, Key, Member, Mute, Pin, Room, Row, Slot, Source, Sub};
use std::alloc::{Allocator, Global};

/// A command of an operator. A removed row takes along all rows that name it, directly or through others.
#[derive(Clone, Copy)]
pub enum Command {
    /// Adds a room. Its clock rate is 8000 or 44100 Hz.
    AddRoom(Room),
    /// Removes a room, with its members and all that names them.
    RemoveRoom {
        /// The room.
        room: u32,
    },
    /// Adds a member to its room. It stands last of all members.
    AddMember(Member),
    /// Removes a member, with its sources, its slots and all that names them.
    RemoveMember {
        /// The member.
        member: u32,
    },
    /// Moves a member to another room of the same clock rate. It keeps its place among the members.
    ///
    /// Rows that name two different rooms then go: subscriptions and gains of the member and of its sources, the pin of
    /// its source, and its floor.
    // These are the rows that one would list by hand, and what stays is good by the same test.
    MoveMember {
        /// The member.
        member: u32,
        /// The room that it moves to.
        room: u32,
    },
    /// Adds a source to a member.
    AddSource(Source),
    /// Removes a source, with all that names it.
    RemoveSource {
        /// The SSRC of the source.
        ssrc: u32,
    },
    /// Adds a slot, an outgoing video stream, to a member.
    AddSlot(Slot),
    /// Removes a slot, with its subscription.
    RemoveSlot {
        /// The SSRC of the slot's stream.
        out_ssrc: u32,
    },
    /// Subscribes a slot to a video source. It replaces the subscription before.
    Subscribe(Sub),
    /// Ends a slot's subscription.
    Unsubscribe {
        /// The SSRC of the slot's stream.
        out_ssrc: u32,
    },
    /// Sets how loud a member hears an audio source. It replaces the gain before. Without a gain it is 256, which
    /// leaves samples as they are.
    SetGain(Gain),
    /// Mutes a source, so that nobody hears or sees it.
    Mute(Mute),
    /// Ends the mute of a source.
    Unmute {
        /// The SSRC of the source.
        source: u32,
    },
    /// Pins a video source in a room. It replaces the pin before.
    Pin(Pin),
    /// Ends the pin of a room.
    Unpin {
        /// The room.
        room: u32,
    },
    /// Gives a room's floor to a member. It replaces the floor before.
    GiveFloor(Floor),
    /// Takes the floor of a room from its member.
    TakeFloor {
        /// The room.
        room: u32,
    },
}

/// What a command does to the rows.
// Each form has one list of refusals, one equation and one proof. So a command costs rows in tables, and no function of
// its own.
#[derive(Clone, Copy)]
pub enum Form {
    /// Puts the row. A member stands last of all; any other row replaces the one of its key.
    Put(Row),
    /// Takes the row of this key, and all rows that depend on it.
    Remove(Key),
    /// Moves the member to the room.
    Move {
        /// The member.
        member: u32,
        /// The room.
        room: u32,
    },
}

impl Command {
    /// What the command does to the rows.
    pub fn form(&self) -> Form
        ensures { result ≡ form_of self.now }
    {
        match self {
            Command::AddRoom(row) => Form::Put(Row::Room(*row)),
            Command::RemoveRoom { room } => Form::Remove(Key::Room(*room)),
            Command::AddMember(row) => Form::Put(Row::Member(*row)),
            Command::RemoveMember { member } => Form::Remove(Key::Member(*member)),
            Command::MoveMember { member, room } => Form::Move {
                member: *member,
                room: *room,
            },
            Command::AddSource(row) => Form::Put(Row::Source(*row)),
            Command::RemoveSource { ssrc } => Form::Remove(Key::Source(*ssrc)),
            Command::AddSlot(row) => Form::Put(Row::Slot(*row)),
            Command::RemoveSlot { out_ssrc } => Form::Remove(Key::Slot(*out_ssrc)),
            Command::Subscribe(row) => Form::Put(Row::Sub(*row)),
            Command::Unsubscribe { out_ssrc } => Form::Remove(Key::Sub(*out_ssrc)),
            Command::SetGain(row) => Form::Put(Row::Gain(*row)),
            Command::Mute(row) => Form::Put(Row::Mute(*row)),
            Command::Unmute { source } => Form::Remove(Key::Mute(*source)),
            Command::Pin(row) => Form::Put(Row::Pin(*row)),
            Command::Unpin { room } => Form::Remove(Key::Pin(*room)),
            Command::GiveFloor(row) => Form::Put(Row::Floor(*row)),
            Command::TakeFloor { room } => Form::Remove(Key::Floor(*room)),
        }
    }
}

/// A call of an operator.
// Contracts see a call as `CallOf`, with a list of commands. The value of a `Vec` has its capacity too, so two calls
// that ask for the same would not be equal.
#[derive(Drop)]
pub enum Call<A: Allocator + Copy = Global> {
    /// Carries out a command.
    Apply(Command),
    /// Carries out 1 to 64 commands as one call: all of them or none.
    Group(Vec<Command, A>),
    /// Takes the last command, group or revert back.
    Undo {
        /// The number of the last accepted call of any kind. Another number is refused.
        last: u64,
    },
    /// Does the entry again that was undone last.
    Redo {
        /// The number of the last accepted call of any kind. Another number is refused.
        last: u64,
    },
    /// Takes one call back alone: the desk is then as if it had never been made.
    Revert {
        /// The number of the call: a command, a group or a revert that is in force.
        number: u64,
    },
}
