//! Mixes for one member.

ghost use Rattle.std.specs.Prelude.{◌≡◌, ◌≤◌, ◌<◌, IfSome, List, length, map, take};
ghost use Rattle.rtp_codec.specs.Packet.{most_csrcs};
ghost use Rattle.desk_rows.specs.Desk.{good};
ghost use Rattle.media_items.specs.Formats.{tick_at};
ghost use Rattle.mixer.specs.Hearing.{Voice};
ghost use Rattle.mixer.specs.inner.Named.{IsHeardOf};
ghost use Rattle.mixer.specs.inner.Rooms.{IsRoom, IsHeard};

use crate::apart::{named_without, own_count, own_in_front, own_start};
use crate::rooms::RoomSound;
use desk_rows::{Member, Rows};
use forward_rewrite::Named;
use mix_minus::{Contributors, is_the_mix, mix_by_total, mix_of_others, others_contribute};
use std::alloc::Allocator;
use topology::{gains_are_small, hears_in_full, write_gains};

/// The most audio sources of a room.
const MOST_SOURCES: usize = 64;

/// Writes the mix of its room for a member, and tells who contributes.
pub fn listen<A: Allocator + Copy>(
    rows: &Rows<A>,
    member: &Member,
    room: &RoomSound<'_, A>,
    samples: &mut [i16],
) -> Contributors
    requires own { room.now.room ≡ member.now.room }
    requires is { (voices : List Voice) × IsRoom rows.now voices room.now }
    requires long { length samples.old ≡ tick_at room.now.rate }
    ensures { (voices : List Voice) → IsRoom rows.now voices room.now
        → IsHeard rows.now voices member.now samples.new result }
{
    gains_are_small();
    let count = room.sources.len();
    let mut gains = [0; MOST_SOURCES];
    let gains = &mut gains[..count];
    write_gains(rows, member.member, &room.sources, gains);
    mix_by_total(&room.total, &room.inputs, gains, member.member, samples)
}

/// Writes the mix of its room for a member without gains, and names who contributes. `None` for a member with gains,
/// and where its own inputs don't stand side by side. They probably stand at the place `near`, where the next member's
/// are expected afterwards.
// The room's total less the member's own samples is the sum of all others, by a law of mix_minus. So a member without
// gains needs no sum of its own.
pub fn listen_in_full<'b, A: Allocator + Copy>(
    rows: &Rows<A>,
    member: &Member,
    room: &'b RoomSound<'_, A>,
    near: &mut usize,
    samples: &mut [i16],
) -> Option<Named<'b>>
    requires own { room.now.room ≡ member.now.room }
    requires is { (voices : List Voice) × IsRoom rows.now voices room.now }
    requires long { length samples.old ≡ tick_at room.now.rate }
    ensures few { IfSome result (λ named. named.count ≤ most_csrcs) }
    ensures heard { IfSome result (λ named. (voices : List Voice) → IsRoom rows.now voices room.now
        → IsHeardOf rows.now voices member.now samples.new named) }
{
    is_the_mix();
    others_contribute();
    if !hears_in_full(rows, member.member) {
        return None;
    }
    let start = own_start(&room.members, member.member, *near);
    let (_, rest) = room.inputs.split_at(start);
    let count = own_in_front(rest, member.member);
    if own_count(&room.members, member.member) as usize != count {
        return None;
    }
    *near = start + count;
    let (own, _) = rest.split_at(count);
    mix_of_others(&room.total, own, samples);
    let before = room.before[start] as usize;
    let through = room.before[start + count] as usize;
    Some(named_without(&room.named, before, through - before))
}
