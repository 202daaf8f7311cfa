//! Questions of commands to a desk.

ghost use Rattle.std.specs.Prelude.{◌≡◌, true, ◌<◌, ◌^◌, not, ◌&&◌, ◌||◌, count_by, map};
ghost use Rattle.std.specs.List.{list_any};
ghost use Rattle.desk_rows.specs.declared.row.Row.TheVariants.{Member as MemberRow};
ghost use Rattle.desk_rows.specs.Row.{makes, other_claims};
ghost use Rattle.desk_rows.specs.Few.{listed};
ghost use Rattle.desk_rows.specs.Desk.{good, is_audio_in, is_bridges, room_of_member, rate_of_room, row_at};
ghost use Rattle.desk_edit.specs.Refusals.{has, is_claimed, is_ssrc, is_replaced, is_there, is_other_claimed};
ghost use Rattle.desk_edit.specs.Refusals.{is_ssrc_taken, ssrc_is_taken, room_is_full, is_audio_of};
ghost use Rattle.desk_edit.specs.Refusals.{is_wrong_kind, is_mismatch, rate_at, rate_of_member, same_rate};

use desk_rows::{
    Claim, Few, Key, Kind, Look, MAX_ROOM_AUDIO, Media, Member, Row, Rows, all_suit, count_audio,
    rate_of_room,
};
use std::alloc::Allocator;

fn any_member_claims(members: &[Member], claim: &Claim) -> bool
    ensures { result ≡ list_any (λ m. makes claim.now (MemberRow m)) members.now }
{
    members
        .iter()
        .any(|member| Row::Member(*member).makes(claim))
}

fn any_claims(rows: &[Row], claim: &Claim) -> bool
    ensures { result ≡ list_any (makes claim.now) rows.now }
{
    rows.iter().any(|row| row.makes(claim))
}

/// Whether a source or a slot has the SSRC.
fn is_stream<A: Allocator + Copy>(rows: &Rows<A>, ssrc: u32) -> bool
    ensures there { result ≡ (has rows.now (Key.Source ssrc) || has rows.now (Key.Slot ssrc)) }
    ensures good { good rows.now ≡ true }
{
    has(rows, Key::Source(ssrc)) || has(rows, Key::Slot(ssrc))
}

/// Whether any row makes this claim. It looks only at the kinds that may make it.
#[tactic(auto, using(crate::proofs::Claimed::claimed_by_kind))]
fn is_claimed<A: Allocator + Copy>(rows: &Rows<A>, claim: &Claim) -> bool
    ensures { result ≡ is_claimed rows.now claim.now }
{
    match claim {
        Claim::Key(key) => has(rows, *key),
        Claim::Address(_) => any_member_claims(rows.members(), claim),
        Claim::Ssrc(ssrc) => { is_stream(rows, *ssrc) || any_member_claims(rows.members(), claim) }
        Claim::Place { .. } => any_claims(rows.others_of(Kind::Slot), claim),
    }
}

/// Whether there is a row of this key.
#[tactic(auto, using(crate::proofs::Words::is_found))]
pub(crate) fn has<A: Allocator + Copy>(rows: &Rows<A>, key: Key) -> bool
    ensures there { result ≡ has rows.now key }
    ensures good { good rows.now ≡ true }
{
    rows.find(&key).is_some()
}

/// Whether a row of this kind replaces the one of its key.
fn is_replaced(row: &Row) -> bool
    ensures { result ≡ is_replaced row.now }
{
    match row {
        Row::Room(_) | Row::Member(_) | Row::Source(_) | Row::Slot(_) => false,
        Row::Sub(_) | Row::Mute(_) | Row::Gain(_) | Row::Pin(_) | Row::Floor(_) => true,
    }
}

fn is_ssrc(claim: &Claim) -> bool
    ensures { result ≡ is_ssrc claim.now }
{
    match claim {
        Claim::Ssrc(_) => true,
        Claim::Key(_) | Claim::Address(_) | Claim::Place { .. } => false,
    }
}

/// Whether any row makes this claim, and it is no SSRC.
fn is_other_claimed<A: Allocator + Copy>(rows: &Rows<A>, claim: &Claim) -> bool
    ensures { result ≡ is_other_claimed rows.now claim.now }
{
    !is_ssrc(claim) && is_claimed(rows, claim)
}

/// Whether the row exists and is not replaced, or another row has its address or index.
pub(crate) fn is_there<A: Allocator + Copy>(rows: &Rows<A>, row: &Row) -> bool
    ensures { result ≡ is_there rows.now row.now }
{
    if !is_replaced(row) && has(rows, row.key()) {
        return true;
    }
    match row.claims() {
        Few::Nothing => false,
        Few::One(claim) => is_other_claimed(rows, &claim),
        Few::Two(claim, other) => {
            is_other_claimed(rows, &claim) || is_other_claimed(rows, &other)
        }
    }
}

fn is_bridges<A: Allocator + Copy>(rows: &Rows<A>, claim: &Claim) -> bool
    ensures { result ≡ is_bridges rows.now claim.now }
{
    match claim {
        Claim::Ssrc(ssrc) => *ssrc == rows.bridge_ssrc(),
        Claim::Key(_) | Claim::Address(_) | Claim::Place { .. } => false,
    }
}

/// Whether the claim is an SSRC of the bridge, a source or an outgoing stream.
fn is_ssrc_taken<A: Allocator + Copy>(rows: &Rows<A>, claim: &Claim) -> bool
    ensures { result ≡ is_ssrc_taken rows.now claim.now }
{
    is_ssrc(claim) && (is_bridges(rows, claim) || is_claimed(rows, claim))
}

/// Whether the row's SSRC is taken.
pub(crate) fn ssrc_is_taken<A: Allocator + Copy>(rows: &Rows<A>, row: &Row) -> bool
    ensures { result ≡ ssrc_is_taken rows.now row.now }
{
    match row.claims() {
        Few::Nothing => false,
        Few::One(claim) => is_ssrc_taken(rows, &claim),
        Few::Two(claim, other) => is_ssrc_taken(rows, &claim) || is_ssrc_taken(rows, &other),
    }
}

/// Whether a source that the row names sends other media than the row needs.
pub(crate) fn is_wrong_kind<A: Allocator + Copy>(rows: &Rows<A>, row: &Row) -> bool
    ensures { result ≡ is_wrong_kind rows.now row.now }
{
    !row.is_of(Kind::Member) && !all_suit(rows, row)
}

/// Whether the row is a member whose room doesn't carry its codec.
pub(crate) fn is_mismatch<A: Allocator + Copy>(rows: &Rows<A>, row: &Row) -> bool
    ensures { result ≡ is_mismatch rows.now row.now }
{
    row.is_of(Kind::Member) && !all_suit(rows, row)
}

/// The clock rate of the room, in Hz.
fn rate_at<A: Allocator + Copy>(rows: &Rows<A>, room: u32) -> Option<u32>
    ensures { result ≡ rate_at rows.now room }
{
    rate_of_room(rows.look(Key::Room(room)))
}

/// The clock rate of the room that the member is in, in Hz.
fn rate_of_member<A: Allocator + Copy>(rows: &Rows<A>, member: u32) -> Option<u32>
    ensures { result ≡ rate_of_member rows.now member }
{
    match room_of_member(rows, member) {
        None => None,
        Some(room) => rate_at(rows, room),
    }
}

/// Whether both are rates, and equal.
fn same_rate(a: Option<u32>, b: Option<u32>) -> bool
    ensures { result ≡ same_rate a b }
{
    match (a, b) {
        (Some(a), Some(b)) => a == b,
        _ => false,
    }
}

/// Whether the room has the clock rate of the room that the member is in.
pub(crate) fn keeps_rate<A: Allocator + Copy>(rows: &Rows<A>, member: u32, room: u32) -> bool
    ensures { result ≡ same_rate (rate_of_member rows.now member) (rate_at rows.now room) }
{
    same_rate(rate_of_member(rows, member), rate_at(rows, room))
}

/// The number of audio sources of the room.
pub(crate) fn count_audio_in<A: Allocator + Copy>(rows: &Rows<A>, room: u32) -> usize
    ensures few { result < 2 ^ 62 }
    ensures count { result ≡ count_by (is_audio_in rows.now room) rows.now.others }
{
    count_audio(rows, rows.others_of(Kind::Source), room)
}

/// Whether the room has as many audio sources as it may have.
pub(crate) fn room_is_full<A: Allocator + Copy>(rows: &Rows<A>, room: Option<u32>) -> bool
    ensures { result ≡ room_is_full rows.now room }
{
    match room {
        None => false,
        Some(room) => count_audio_in(rows, room) >= MAX_ROOM_AUDIO,
    }
}

/// The room that the member is in.
pub(crate) fn room_of_member<A: Allocator + Copy>(rows: &Rows<A>, member: u32) -> Option<u32>
    ensures { result ≡ room_of_member (row_at rows.now (Key.Member member)) }
{
    match rows.look(Key::Member(member)) {
        Some(Row::Member(row)) => Some(row.room),
        _ => None,
    }
}

fn is_audio_of(row: &Row, member: u32) -> bool
    ensures { result ≡ is_audio_of member row.now }
{
    match row {
        Row::Source(source) => source.media.is_same(Media::Audio) && source.member == member,
        _ => false,
    }
}

fn count_these_of(rows: &[Row], member: u32) -> usize
    ensures { result ≡ count_by (is_audio_of member) rows.now }
{
    rows.iter().filter(|row| is_audio_of(row, member)).count()
}

/// The number of audio sources of the member.
pub(crate) fn count_audio_of<A: Allocator + Copy>(rows: &Rows<A>, member: u32) -> usize
    ensures few { result < 2 ^ 62 }
    ensures count { result ≡ count_by (is_audio_of member) rows.now.others }
{
    count_these_of(rows.others_of(Kind::Source), member)
}
