//! Chooses the source of a slot.

ghost use Rattle.std.specs.Prelude.{◌≡◌, true};
ghost use Rattle.std.specs.List.{find, filter_map};
ghost use Rattle.desk_rows.specs.Desk.{good};
ghost use Rattle.desk_rows.specs.Getters.{source_in};
ghost use Rattle.topology.specs.Choice.{is_video_of, first_video, shown, shown_on, wanted, are_in_one_room, is_barred};
ghost use Rattle.topology.specs.Choice.{chosen, choice};

use crate::looking::{
    holder, is_muted, is_same_room, is_this, pinned, room_of_member, room_of_source, sender_of,
    slot_at, subscribed,
};
use desk_rows::{Kind, Media, Row, Rows, Slot, Source};
use std::alloc::Allocator;

/// The source that the slot of this SSRC sends, if any.
///
/// A subscription decides first. Without one, only a slot of index 0 gets a source: the pin of its room, or without a
/// pin the least video SSRC of the member that has the room's floor.
///
/// The slot sends nothing if that source is muted, is its own member's, or is in another room. Then no later rule
/// applies. An SSRC without a slot gives `None`.
pub fn choice<A: Allocator + Copy>(rows: &Rows<A>, out_ssrc: u32) -> Option<u32>
    ensures source { result ≡ choice rows.now out_ssrc }
    ensures good { good rows.now ≡ true }
{
    let slot = slot_at(rows, out_ssrc)?;
    chosen(rows, &slot)
}

/// The source that this slot sends, if any.
fn chosen<A: Allocator + Copy>(rows: &Rows<A>, slot: &Slot) -> Option<u32>
    ensures { result ≡ chosen rows.now slot.now }
{
    let source = wanted(rows, slot)?;
    if is_barred(rows, slot, source) {
        None
    } else {
        Some(source)
    }
}

/// Whether the slot and the source are in one room.
fn are_in_one_room<A: Allocator + Copy>(rows: &Rows<A>, slot: &Slot, source: u32) -> bool
    ensures { result ≡ are_in_one_room rows.now slot.now source }
{
    is_same_room(
        room_of_source(rows, source),
        room_of_member(rows, slot.member),
    )
}

/// Whether the slot may not send the source: it is muted, is the slot's own member's, or is in another room.
fn is_barred<A: Allocator + Copy>(rows: &Rows<A>, slot: &Slot, source: u32) -> bool
    ensures { result ≡ is_barred rows.now slot.now source }
{
    is_muted(rows, source)
        || is_this(slot.member, sender_of(rows, source))
        || !are_in_one_room(rows, slot, source)
}

/// The source that the rules name for the slot, barred or not.
fn wanted<A: Allocator + Copy>(rows: &Rows<A>, slot: &Slot) -> Option<u32>
    ensures { result ≡ wanted rows.now slot.now }
{
    match subscribed(rows, slot.out_ssrc) {
        Some(source) => Some(source),
        None => shown_on(rows, slot),
    }
}

/// The source for a slot without a subscription.
fn shown_on<A: Allocator + Copy>(rows: &Rows<A>, slot: &Slot) -> Option<u32>
    ensures { result ≡ shown_on rows.now slot.now }
{
    if slot.index == 0 {
        let room = room_of_member(rows, slot.member)?;
        shown(rows, room)
    } else {
        None
    }
}

/// The source that a room shows: its pin, or without one the least video SSRC of its floor holder.
fn shown<A: Allocator + Copy>(rows: &Rows<A>, room: u32) -> Option<u32>
    ensures { result ≡ shown rows.now room }
{
    match pinned(rows, room) {
        Some(source) => Some(source),
        None => {
            let member = holder(rows, room)?;
            first_video(rows, member)
        }
    }
}

/// The least video SSRC of a member.
pub(crate) fn first_video<A: Allocator + Copy>(rows: &Rows<A>, member: u32) -> Option<u32>
    ensures { result ≡ first_video rows.now member }
{
    match first_among(rows.others_of(Kind::Source), member) {
        None => None,
        Some(source) => Some(source.ssrc),
    }
}

/// The first video source of a member among these rows.
fn first_among(these: &[Row], member: u32) -> Option<Source>
    ensures { result ≡ find (is_video_of member) (filter_map source_in these.now) }
{
    these
        .iter()
        .filter_map(|row| row.as_source())
        .find(|source| is_video_of(member, source))
}

/// Whether the source is video and of this member.
fn is_video_of(member: u32, source: &Source) -> bool
    ensures { result ≡ is_video_of member source.now }
{
    source.member == member && source.media.is_same(Media::Video)
}
