//! What the laws of the choice and of mixes tell a caller, whatever the desk.

ghost use Rattle.std.specs.Prelude.{◌≡◌, ◌≤◌, ℕ, true, All, None, Some, IfSome, IfOk};
ghost use Rattle.std.specs.Option.{option_map};
ghost use Rattle.desk_rows.specs.declared.row.Slot.{Slot};
ghost use Rattle.topology.specs.Choice.{is_video_of};
ghost use Rattle.topology.specs.Looking.{holder, pinned, room_of_member, slot_at, source_at, subscribed};

use desk_rows::Rows;
use std::alloc::{AllocError, Global};
use topology::{
    MixSource, choice, first_videos_are_least, mix_plan, mixes_stay_in_the_room,
    nothing_falls_through,
};

/// A slot with a subscription sends its source or nothing: neither pin nor floor stands in for it.
pub fn sends_its_subscription_or_nothing(rows: &Rows, out_ssrc: u32) -> Option<u32>
    ensures { (slot : Slot) (source : ℕ)
        → slot_at rows.now out_ssrc ≡ Some slot
        → subscribed rows.now out_ssrc ≡ Some source
        → IfSome result (λ chosen. chosen ≡ source) }
{
    nothing_falls_through();
    choice(rows, out_ssrc)
}

/// Where the floor decides, no video source of its holder has a lesser SSRC than the one that the slot sends.
pub fn sends_the_least_video_of_the_floor(rows: &Rows, out_ssrc: u32) -> Option<u32>
    ensures { (slot : Slot) (room member other : ℕ)
        → slot_at rows.now out_ssrc ≡ Some slot
        → subscribed rows.now out_ssrc ≡ None
        → slot.index ≡ 0
        → room_of_member rows.now slot.member ≡ Some room
        → pinned rows.now room ≡ None
        → holder rows.now room ≡ Some member
        → option_map (is_video_of member) (source_at rows.now other) ≡ Some true
        → IfSome result (λ chosen. chosen ≤ other) }
{
    first_videos_are_least();
    nothing_falls_through();
    choice(rows, out_ssrc)
}

/// All that a member hears is sent by members of its own room.
pub fn hears_its_own_room(
    alloc: Global,
    rows: &Rows,
    member: u32,
) -> Result<Vec<MixSource>, AllocError>
    ensures { IfOk result (λ v. All (λ s. room_of_member rows.now s.member ≡ room_of_member rows.now member) v.items) }
{
    mixes_stay_in_the_room();
    mix_plan(alloc, rows, member)
}
