//! Looks rows up by number.

ghost use Rattle.std.specs.Prelude.{◌≡◌, true};
ghost use Rattle.desk_rows.specs.Desk.{good, same_room};
ghost use Rattle.desk_rows.specs.Getters.{member_at, slot_at};
ghost use Rattle.topology.specs.Looking.{subscribed, pinned, holder, is_muted, is_this};
ghost use Rattle.topology.specs.Looking.{sender_of, room_of_member, room_of_source, has_address, source_from};
ghost use Rattle.topology.specs.Looking.{member_from, room_rate, rate_of};
ghost use Rattle.topology.specs.Receivers.{slots_to};

use desk_rows::{DEFAULT_RATE, Key, Member, Rows, Slot, Source};
use rtp_codec::Address;
use std::alloc::Allocator;

/// The member of this number.
pub fn member_at<A: Allocator + Copy>(rows: &Rows<A>, member: u32) -> Option<Member>
    ensures member { result ≡ member_at rows.now member }
    ensures good { good rows.now ≡ true }
{
    rows.member(member)
}

/// The slot of this SSRC.
pub fn slot_at<A: Allocator + Copy>(rows: &Rows<A>, out_ssrc: u32) -> Option<Slot>
    ensures slot { result ≡ slot_at rows.now out_ssrc }
    ensures good { good rows.now ≡ true }
{
    rows.slot(out_ssrc)
}

/// The slots of a member, by rising index.
pub fn slots_to<A: Allocator + Copy>(rows: &Rows<A>, member: u32) -> &[Slot]
    ensures { result.now ≡ slots_to rows.now member }
{
    rows.slots_of(member)
}

/// The source that the slot of this SSRC is subscribed to.
pub(crate) fn subscribed<A: Allocator + Copy>(rows: &Rows<A>, out_ssrc: u32) -> Option<u32>
    ensures { result ≡ subscribed rows.now out_ssrc }
{
    match rows.sub(out_ssrc) {
        None => None,
        Some(sub) => Some(sub.source),
    }
}

/// The source that is pinned in a room.
pub(crate) fn pinned<A: Allocator + Copy>(rows: &Rows<A>, room: u32) -> Option<u32>
    ensures pin { result ≡ pinned rows.now room }
    ensures good { good rows.now ≡ true }
{
    match rows.pin(room) {
        None => None,
        Some(pin) => Some(pin.source),
    }
}

/// The member that has the floor of a room.
pub(crate) fn holder<A: Allocator + Copy>(rows: &Rows<A>, room: u32) -> Option<u32>
    ensures { result ≡ holder rows.now room }
{
    match rows.floor(room) {
        None => None,
        Some(floor) => Some(floor.member),
    }
}

/// Whether the source is muted, so that nobody hears or sees it.
pub(crate) fn is_muted<A: Allocator + Copy>(rows: &Rows<A>, source: u32) -> bool
    ensures mute { result ≡ is_muted rows.now source }
    ensures good { good rows.now ≡ true }
{
    rows.find(&Key::Mute(source)).is_some()
}

/// Whether a number was found, and it is this one.
pub(crate) fn is_this(number: u32, found: Option<u32>) -> bool
    ensures { result ≡ is_this number found }
{
    match found {
        None => false,
        Some(other) => other == number,
    }
}

/// The number of the member that sends a source.
pub fn sender_of<A: Allocator + Copy>(rows: &Rows<A>, source: u32) -> Option<u32>
    ensures { result ≡ sender_of rows.now source }
{
    match rows.source(source) {
        None => None,
        Some(source) => Some(source.member),
    }
}

/// The room that a member is in.
pub(crate) fn room_of_member<A: Allocator + Copy>(rows: &Rows<A>, member: u32) -> Option<u32>
    ensures room { result ≡ room_of_member rows.now member }
    ensures good { good rows.now ≡ true }
{
    match rows.member(member) {
        None => None,
        Some(member) => Some(member.room),
    }
}

/// The clock rate of a room's audio in Hz, 8000 or 44100. It is 8000 if there is no such room.
// No good desk lacks the room. By this answer the receive side and the mixer need no case for one that is missing.
pub fn room_rate<A: Allocator + Copy>(rows: &Rows<A>, room: u32) -> u32
    ensures { result ≡ room_rate rows.now room }
{
    match rows.room(room) {
        None => DEFAULT_RATE,
        Some(row) => row.rate,
    }
}

/// The clock rate of the audio of a member's room in Hz, 8000 or 44100.
pub fn rate_of<A: Allocator + Copy>(rows: &Rows<A>, member: u32) -> Option<u32>
    ensures { result ≡ rate_of rows.now member }
{
    match room_of_member(rows, member) {
        None => None,
        Some(room) => Some(room_rate(rows, room)),
    }
}

/// The room of a source's member.
pub(crate) fn room_of_source<A: Allocator + Copy>(rows: &Rows<A>, source: u32) -> Option<u32>
    ensures { result ≡ room_of_source rows.now source }
{
    let sender = sender_of(rows, source)?;
    room_of_member(rows, sender)
}

/// Whether both are in one room.
pub(crate) fn is_same_room(one: Option<u32>, other: Option<u32>) -> bool
    ensures { result ≡ same_room one other }
{
    match (one, other) {
        (Some(room), Some(other_room)) => room == other_room,
        _ => false,
    }
}

/// Whether a member was found, and has this address.
fn has_address(address: &Address, found: Option<Member>) -> bool
    ensures { result ≡ has_address address.now found }
{
    match found {
        None => false,
        Some(member) => member.address == *address,
    }
}

/// The source of this SSRC, if its member has this address. Packets from elsewhere are not the source's.
pub fn source_from<A: Allocator + Copy>(
    rows: &Rows<A>,
    source: u32,
    address: &Address,
) -> Option<Source>
    ensures { result ≡ source_from rows.now source address.now }
{
    let source = rows.source(source)?;
    if has_address(address, rows.member(source.member)) {
        Some(source)
    } else {
        None
    }
}

/// The number of the member at this address.
pub fn member_from<A: Allocator + Copy>(rows: &Rows<A>, address: &Address) -> Option<u32>
    ensures { result ≡ member_from rows.now address.now }
{
    rows.member_at_address(address).map(|member| member.member)
}
