//! Laws of choices, receivers and mixes: functions that do nothing when they run.

ghost use Rattle.std.specs.Prelude.{◌≡◌, ◌≤◌, ℕ, true, false, if◌then◌else◌, nat_eq, List, ◌∷◌, ◌++◌, All, length};
ghost use Rattle.std.specs.Prelude.{filter, None, Some};
ghost use Rattle.std.specs.List.{find};
ghost use Rattle.std.specs.Option.{is_some, option_map, option_and_then};
ghost use Rattle.rtp_codec.specs.declared.address.Address.{Address};
ghost use Rattle.desk_rows.specs.declared.row.Room.{Room};
ghost use Rattle.desk_rows.specs.declared.row.Member.{Member};
ghost use Rattle.desk_rows.specs.declared.row.Slot.{Slot};
ghost use Rattle.desk_rows.specs.declared.row.Codec.TheVariants.{Pcmu};
ghost use Rattle.desk_rows.specs.declared.row.Media.TheVariants.{Video};
ghost use Rattle.desk_rows.specs.declared.row.Row.TheVariants as rows;
ghost use Rattle.desk_rows.specs.declared.key.Key.TheVariants as keys;
ghost use Rattle.desk_rows.specs.Desk.{Desk, good, row_at, room_at, same_room};
ghost use Rattle.topology.specs.Looking.{member_at, slot_at, source_at, subscribed, pinned, holder, is_muted, is_this};
ghost use Rattle.topology.specs.Looking.{sender_of, room_of_member, room_rate, rate_of};
ghost use Rattle.topology.specs.Choice.{is_video_of, first_video, shown, is_barred, choice};
ghost use Rattle.topology.specs.Receivers.{receivers, receiver_at, receiver_on, AreDistinct};
ghost use Rattle.topology.specs.Mixes.{in_room, audio_sources, gain_of, mix_plan, mix_member};

/// A law: on a good desk a source has each slot as a receiver at most once.
pub fn receivers_are_distinct()
    ensures { (desk : Desk) (source : ℕ) (address : Address) → good desk ≡ true
        → AreDistinct (receivers desk source address) }
{}

/// A law: on a good desk, a stream sends a source's packets exactly if its slot chose the source, and they come from
/// the address of the source's member. They go to the address of the slot's member.
pub fn all_who_chose_receive()
    ensures { (desk : Desk) (source : ℕ) (address : Address) (out_ssrc : ℕ) → good desk ≡ true
        → receiver_at out_ssrc (receivers desk source address) ≡ receiver_on desk source address out_ssrc }
{}

/// A law: on a good desk, a slot chooses an unmuted video source of its own room. Its member is there, and is not the
/// slot's.
pub fn choices_stay_in_the_room()
    ensures room { (desk : Desk) (out_ssrc source : ℕ) → good desk ≡ true → choice desk out_ssrc ≡ Some source
        → same_room (room_at desk (keys.Source source)) (room_at desk (keys.Slot out_ssrc)) ≡ true }
    ensures video { (desk : Desk) (out_ssrc source : ℕ) → good desk ≡ true → choice desk out_ssrc ≡ Some source
        → option_map (λ s. s.media) (source_at desk source) ≡ Some Video }
    ensures heard { (desk : Desk) (out_ssrc source : ℕ) → choice desk out_ssrc ≡ Some source
        → is_muted desk source ≡ false }
    ensures sender { (desk : Desk) (out_ssrc source : ℕ) → good desk ≡ true → choice desk out_ssrc ≡ Some source
        → is_some (option_and_then (member_at desk) (sender_of desk source)) ≡ true }
    ensures others { (desk : Desk) (out_ssrc source : ℕ) (slot : Slot) → choice desk out_ssrc ≡ Some source
        → slot_at desk out_ssrc ≡ Some slot → is_this slot.member (sender_of desk source) ≡ false }
{}

/// A law: on a good desk, the first video source of a member is the one of the least SSRC. If there is none, the member
/// has no video source.
pub fn first_videos_are_least()
    ensures video { (desk : Desk) (member source : ℕ) → good desk ≡ true → first_video desk member ≡ Some source
        → option_map (is_video_of member) (source_at desk source) ≡ Some true }
    ensures least { (desk : Desk) (member source other : ℕ) → good desk ≡ true → first_video desk member ≡ Some source
        → option_map (is_video_of member) (source_at desk other) ≡ Some true → source ≤ other }
    ensures none { (desk : Desk) (member other : ℕ) → good desk ≡ true → first_video desk member ≡ None
        → ¬ (option_map (is_video_of member) (source_at desk other) ≡ Some true) }
{}

/// A law: the first rule that names a source decides, even if the source is barred. The rules are the slot's
/// subscription, then for index 0 alone the pin of its member's room, then the least video SSRC of the floor holder.
pub fn nothing_falls_through()
    ensures subscribed { (desk : Desk) (out_ssrc source : ℕ) (slot : Slot) → slot_at desk out_ssrc ≡ Some slot
        → subscribed desk out_ssrc ≡ Some source
        → choice desk out_ssrc ≡ (if is_barred desk slot source then None else Some source) }
    ensures above { (desk : Desk) (out_ssrc : ℕ) (slot : Slot) → slot_at desk out_ssrc ≡ Some slot
        → subscribed desk out_ssrc ≡ None → ¬ (slot.index ≡ 0) → choice desk out_ssrc ≡ None }
    ensures pinned { (desk : Desk) (out_ssrc room source : ℕ) (slot : Slot) → slot_at desk out_ssrc ≡ Some slot
        → subscribed desk out_ssrc ≡ None → slot.index ≡ 0 → room_of_member desk slot.member ≡ Some room
        → pinned desk room ≡ Some source
        → choice desk out_ssrc ≡ (if is_barred desk slot source then None else Some source) }
    ensures floor { (desk : Desk) (out_ssrc room member source : ℕ) (slot : Slot) → slot_at desk out_ssrc ≡ Some slot
        → subscribed desk out_ssrc ≡ None → slot.index ≡ 0 → room_of_member desk slot.member ≡ Some room
        → pinned desk room ≡ None → holder desk room ≡ Some member → first_video desk member ≡ Some source
        → choice desk out_ssrc ≡ (if is_barred desk slot source then None else Some source) }
    ensures unshown { (desk : Desk) (out_ssrc room : ℕ) (slot : Slot) → slot_at desk out_ssrc ≡ Some slot
        → subscribed desk out_ssrc ≡ None → room_of_member desk slot.member ≡ Some room → shown desk room ≡ None
        → choice desk out_ssrc ≡ None }
{}

/// A law: on a good desk a mix has at most 64 audio sources of a room.
pub fn rooms_are_small()
    ensures { (desk : Desk) (room : ℕ) → good desk ≡ true → length (filter (in_room room) (audio_sources desk)) ≤ 64 }
{}

/// A law: on a good desk gains are at most 1024, four times as loud as the source came.
pub fn gains_are_small()
    ensures { (desk : Desk) (member source : ℕ) → good desk ≡ true → gain_of desk member source ≤ 1024 }
{}

/// A law: on a good desk a mix stream leads back to the one member that has it.
pub fn mixes_are_apart()
    ensures { (desk : Desk) (before : List Member) (m : Member) (after : List Member) → good desk ≡ true
        → desk.members ≡ before ++ m ∷ after → mix_member desk m.out_audio ≡ Some m }
{}

/// A law: on a good desk no later member has the mix stream of an earlier one.
pub fn mixes_have_one_member()
    ensures { (desk : Desk) (before : List Member) (m : Member) (after : List Member) → good desk ≡ true
        → desk.members ≡ before ++ m ∷ after → find (λ n. nat_eq n.out_audio m.out_audio) after ≡ None }
{}

/// A law: on a good desk a member's mix has sources of its own room alone.
pub fn mixes_stay_in_the_room()
    ensures { (desk : Desk) (member : ℕ) → good desk ≡ true
        → All (λ s. room_of_member desk s.member ≡ room_of_member desk member) (mix_plan desk member) }
{}

/// A law: on a good desk a room has the clock rate that its row says. A member whose codec is PCMU is in a room at
/// 8000 Hz.
pub fn rates_are_of_rooms()
    ensures room { (desk : Desk) (room : ℕ) (row : Room) → good desk ≡ true
        → row_at desk (keys.Room room) ≡ Some (rows.Room row) → room_rate desk room ≡ row.rate }
    ensures pcmu { (desk : Desk) (member : ℕ) (row : Member) → good desk ≡ true → member_at desk member ≡ Some row
        → row.codec ≡ Pcmu → rate_of desk member ≡ Some 8000 }
{}
