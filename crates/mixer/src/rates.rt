//! The clock rates of rooms.

ghost use Rattle.std.specs.Prelude.{◌≡◌};
ghost use Rattle.topology.specs.Looking.{room_rate};
ghost use Rattle.mixer.specs.inner.Rooms.{IsRate};

use desk_rows::Rows;
use std::alloc::Allocator;
use topology::room_rate;

/// A room and its clock rate.
#[derive(Clone, Copy)]
pub struct RoomRate {
    /// The room's number.
    pub room: u32,
    /// The clock rate, in Hz.
    pub rate: u32,
}

/// A room with its clock rate.
pub fn rated<A: Allocator + Copy>(rows: &Rows<A>, room: u32) -> RoomRate
    ensures { IsRate rows.now result }
{
    RoomRate {
        room,
        rate: room_rate(rows, room),
    }
}

/// The clock rate of a room. It is not looked up again if the room is the last one.
pub fn rate_in<A: Allocator + Copy>(rows: &Rows<A>, last: &mut RoomRate, room: u32) -> u32
    requires { IsRate rows.now last.old }
    ensures rate { result ≡ room_rate rows.now room }
    ensures last { IsRate rows.now last.new }
{
    if last.room == room {
        return last.rate;
    }
    let rate = room_rate(rows, room);
    *last = RoomRate { room, rate };
    rate
}
