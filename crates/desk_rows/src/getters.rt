//! What is in a row, and the row of a kind by its number.

ghost use Rattle.std.specs.Prelude.{◌≡◌, true};
ghost use Rattle.desk_rows.specs.Desk.{good};
ghost use Rattle.desk_rows.specs.Getters.{room_in, member_in, source_in, slot_in, sub_in, pin_in, floor_in};
ghost use Rattle.desk_rows.specs.Getters.{room_row_at, member_at, source_at, slot_at, sub_at, pin_at, floor_at};

use crate::key::Key;
use crate::row::{Floor, Member, Pin, Room, Row, Slot, Source, Sub};
use crate::rows::Rows;
use std::alloc::Allocator;

impl Row {
    /// The room, if the row is one.
    pub fn as_room(&self) -> Option<Room>
        ensures { result ≡ room_in self.now }
    {
        match self {
            Row::Room(room) => Some(*room),
            _ => None,
        }
    }

    /// The member, if the row is one.
    pub fn as_member(&self) -> Option<Member>
        ensures { result ≡ member_in self.now }
    {
        match self {
            Row::Member(member) => Some(*member),
            _ => None,
        }
    }

    /// The source, if the row is one.
    pub fn as_source(&self) -> Option<Source>
        ensures { result ≡ source_in self.now }
    {
        match self {
            Row::Source(source) => Some(*source),
            _ => None,
        }
    }

    /// The slot, if the row is one.
    pub fn as_slot(&self) -> Option<Slot>
        ensures { result ≡ slot_in self.now }
    {
        match self {
            Row::Slot(slot) => Some(*slot),
            _ => None,
        }
    }

    /// The subscription, if the row is one.
    pub fn as_sub(&self) -> Option<Sub>
        ensures { result ≡ sub_in self.now }
    {
        match self {
            Row::Sub(sub) => Some(*sub),
            _ => None,
        }
    }

    /// The pin, if the row is one.
    pub fn as_pin(&self) -> Option<Pin>
        ensures { result ≡ pin_in self.now }
    {
        match self {
            Row::Pin(pin) => Some(*pin),
            _ => None,
        }
    }

    /// The floor, if the row is one.
    pub fn as_floor(&self) -> Option<Floor>
        ensures { result ≡ floor_in self.now }
    {
        match self {
            Row::Floor(floor) => Some(*floor),
            _ => None,
        }
    }
}

impl<A: Allocator + Copy> Rows<A> {
    /// The room of this number.
    pub fn room(&self, room: u32) -> Option<Room>
        ensures room { result ≡ room_row_at self.now room }
        ensures good { good self.now ≡ true }
    {
        self.find(&Key::Room(room))?.as_room()
    }

    /// The member of this number.
    pub fn member(&self, member: u32) -> Option<Member>
        ensures member { result ≡ member_at self.now member }
        ensures good { good self.now ≡ true }
    {
        self.find(&Key::Member(member))?.as_member()
    }

    /// The source of this SSRC.
    pub fn source(&self, source: u32) -> Option<Source>
        ensures source { result ≡ source_at self.now source }
        ensures good { good self.now ≡ true }
    {
        self.find(&Key::Source(source))?.as_source()
    }

    /// The slot of this SSRC.
    pub fn slot(&self, out_ssrc: u32) -> Option<Slot>
        ensures slot { result ≡ slot_at self.now out_ssrc }
        ensures good { good self.now ≡ true }
    {
        self.find(&Key::Slot(out_ssrc))?.as_slot()
    }

    /// The subscription of the slot of this SSRC.
    pub fn sub(&self, out_ssrc: u32) -> Option<Sub>
        ensures sub { result ≡ sub_at self.now out_ssrc }
        ensures good { good self.now ≡ true }
    {
        self.find(&Key::Sub(out_ssrc))?.as_sub()
    }

    /// The pin of this room.
    pub fn pin(&self, room: u32) -> Option<Pin>
        ensures pin { result ≡ pin_at self.now room }
        ensures good { good self.now ≡ true }
    {
        self.find(&Key::Pin(room))?.as_pin()
    }

    /// The floor of this room.
    pub fn floor(&self, room: u32) -> Option<Floor>
        ensures floor { result ≡ floor_at self.now room }
        ensures good { good self.now ≡ true }
    {
        self.find(&Key::Floor(room))?.as_floor()
    }
}
