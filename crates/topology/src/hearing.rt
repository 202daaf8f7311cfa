//! The sources of a member's mix.

ghost use Rattle.std.specs.Prelude.{◌≡◌, ℕ, IfOk, filter, length, map, nat_eq, true};
ghost use Rattle.std.specs.List.{filter_map};
ghost use Rattle.desk_rows.specs.Desk.{good};
ghost use Rattle.desk_rows.specs.Naming.{gains_naming};
ghost use Rattle.desk_rows.specs.Order.{in_order};
ghost use Rattle.topology.specs.Mixes.{audio_sources, full_gain, gain_of, in_room, mix_source, mix_plan};
ghost use Rattle.topology.specs.inner.Audible.{audio_in, is_muted_in, audible_seat, gain_among};

use crate::looking::room_of_member;
use crate::seating::{Seated, by_places, seat_of};
use desk_rows::{Key, Kind, Media, Row, Rows, Source, find_row};
use rtp_codec::Address;
use std::alloc::{AllocError, Allocator};

/// An unmuted audio source of the desk, with its member's address and room.
#[derive(Clone, Copy)]
pub struct AudioSource {
    /// The SSRC of the source.
    pub ssrc: u32,
    /// The address of its member.
    pub address: Address,
    /// The member that sends it.
    pub member: u32,
    /// The room of its member.
    pub room: u32,
}

/// A source of a member's mix.
#[derive(Clone, Copy)]
pub struct MixSource {
    /// The SSRC of the source.
    pub ssrc: u32,
    /// The address of the member that sends it.
    pub address: Address,
    /// The member that sends it.
    pub member: u32,
    /// The listener's gain for it in 256ths, 0 to 1024.
    pub gain: u32,
}

/// The unmuted audio sources of all rooms, by place of the member and then by SSRC. The only error is out of memory.
pub fn audio_sources<A: Allocator + Copy>(
    alloc: A,
    rows: &Rows<A>,
) -> Result<Vec<AudioSource, A>, AllocError>
    ensures sources { IfOk result (λ v. v.items ≡ audio_sources rows.now) }
    ensures good { good rows.now ≡ true }
{
    let mutes = rows.others_of(Kind::Mute);
    let mut seats = seats(alloc, rows, mutes, rows.others_of(Kind::Source))?;
    by_places(alloc, &mut seats)
}

/// The unmuted audio sources in these rows, each at its member's place.
fn seats<A: Allocator + Copy>(
    alloc: A,
    rows: &Rows<A>,
    mutes: &[Row],
    these: &[Row],
) -> Result<Vec<Seated<AudioSource>, A>, AllocError>
    requires { in_order mutes.now ≡ true }
    ensures { IfOk result (λ v. v.items ≡ filter_map (audible_seat rows.now mutes.now) these.now) }
{
    these
        .iter()
        .filter_map(|row| audible_seat(rows, mutes, row))
        .collect(alloc)
}

/// The source in a row at its member's place, if it is audio and not muted.
fn audible_seat<A: Allocator + Copy>(
    rows: &Rows<A>,
    mutes: &[Row],
    row: &Row,
) -> Option<Seated<AudioSource>>
    requires { in_order mutes.now ≡ true }
    ensures { result ≡ audible_seat rows.now mutes.now row.now }
{
    let source = audio_in(row)?;
    if is_muted_in(mutes, source.ssrc) {
        return None;
    }
    let member = seat_of(rows, source.member)?;
    Some(Seated {
        place: member.place,
        thing: AudioSource {
            ssrc: source.ssrc,
            address: member.thing.address,
            member: member.thing.member,
            room: member.thing.room,
        },
    })
}

fn audio_in(row: &Row) -> Option<Source>
    ensures { result ≡ audio_in row.now }
{
    match row {
        Row::Source(source) if source.media.is_same(Media::Audio) => Some(*source),
        _ => None,
    }
}

/// Whether the source is muted in these rows.
fn is_muted_in(mutes: &[Row], source: u32) -> bool
    requires { in_order mutes.now ≡ true }
    ensures { result ≡ is_muted_in mutes.now source }
{
    find_row(mutes, Key::Mute(source)).is_some()
}

/// The gain of a source without a row of its own, in 256ths: as loud as it came.
const FULL_GAIN: u32 = 256;

/// The member's gain for a source by these rows, in 256ths.
fn gain_among(gains: &[Row], member: u32, source: u32) -> u32
    requires { in_order gains.now ≡ true }
    ensures { result ≡ gain_among gains.now member source }
{
    match find_row(gains, Key::Gain { member, source }) {
        Some(Row::Gain(gain)) => gain.q8,
        _ => FULL_GAIN,
    }
}

/// Writes the member's gain for each of the sources, by these rows.
fn write_each(own: &[Row], member: u32, sources: &[AudioSource], gains: &mut [u32])
    requires order { in_order own.now ≡ true }
    requires lengths { length gains.old ≡ length sources.now }
    ensures { gains.new ≡ map (λ s. gain_among own.now member s.ssrc) sources.now }
{
    for i in 0..gains.len() {
        gains[i] = gain_among(own, member, sources[i].ssrc);
    }
}

/// Writes a member's gain for each of these sources, in 256ths: 0 to 1024. Without a gain of its own it is 256.
///
/// `gains` is as long as `sources`.
pub fn write_gains<A: Allocator + Copy>(
    rows: &Rows<A>,
    member: u32,
    sources: &[AudioSource],
    gains: &mut [u32],
)
    requires { length gains.old ≡ length sources.now }
    ensures gains { gains.new ≡ map (λ s. gain_of rows.now member s.ssrc) sources.now }
    ensures good { good rows.now ≡ true }
{
    let own = rows.gains_of(member);
    if own.is_empty() {
        gains.fill(FULL_GAIN);
    } else {
        write_each(own, member, sources, gains);
    }
}

/// Whether a member has no gains of its own. Then it hears each source as loud as it came.
pub fn hears_in_full<A: Allocator + Copy>(rows: &Rows<A>, member: u32) -> bool
    ensures none { result ≡ nat_eq (length (gains_naming rows.now member)) 0 }
    ensures full { result ≡ true → (source : ℕ) → gain_of rows.now member source ≡ full_gain }
{
    rows.gains_of(member).is_empty()
}

/// A member's gain for a source, in 256ths.
fn gain_of<A: Allocator + Copy>(rows: &Rows<A>, member: u32, source: u32) -> u32
    ensures { result ≡ gain_of rows.now member source }
{
    gain_among(rows.gains_of(member), member, source)
}

/// The sources of a member's mix: the unmuted audio sources of its room, by place of the member and then by SSRC.
///
/// The member's own sources are among them, and the mixer leaves them out. A number without a member gives none. The
/// only error is out of memory.
pub fn mix_plan<A: Allocator + Copy>(
    alloc: A,
    rows: &Rows<A>,
    member: u32,
) -> Result<Vec<MixSource, A>, AllocError>
    ensures sources { IfOk result (λ v. v.items ≡ mix_plan rows.now member) }
    ensures good { good rows.now ≡ true }
{
    match room_of_member(rows, member) {
        None => Ok(Vec::new(alloc)),
        Some(room) => {
            let sources = audio_sources(alloc, rows)?;
            room_mix(alloc, rows, member, room, &sources)
        }
    }
}

/// The sources of the room, with the member's gains for them.
fn room_mix<A: Allocator + Copy>(
    alloc: A,
    rows: &Rows<A>,
    member: u32,
    room: u32,
    sources: &[AudioSource],
) -> Result<Vec<MixSource, A>, AllocError>
    ensures { IfOk result (λ v. v.items ≡ map (mix_source rows.now member) (filter (in_room room) sources.now)) }
{
    sources
        .iter()
        .filter(|source| source.room == room)
        .map(|source| mix_source(rows, member, source))
        .collect(alloc)
}

/// The source with the member's gain for it.
fn mix_source<A: Allocator + Copy>(rows: &Rows<A>, member: u32, source: &AudioSource) -> MixSource
    ensures { result ≡ mix_source rows.now member source.now }
{
    MixSource {
        ssrc: source.ssrc,
        address: source.address,
        member: source.member,
        gain: gain_of(rows, member, source.ssrc),
    }
}
