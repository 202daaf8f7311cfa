//! The mix streams of a lane.

ghost use Rattle.std.specs.Prelude.{◌≡◌, ◌≤◌, ◌<◌, ◌+◌, ◌++◌, ◌∷◌, [], ℕ, List, length, map, filter, IfOk, OnOk};
ghost use Rattle.std.specs.Prelude.{IfSome, is_some, option_copied, slice_index_or, vec_len, vec_capacity};
ghost use Rattle.indexmap.specs.IndexMap.{spare};
ghost use Rattle.forward_rewrite.specs.Mixes.{MixOf};
ghost use Rattle.topology.specs.Mixes.{mix_member};
ghost use Rattle.mixer.specs.Hearing.{Voice as VoiceOf};
ghost use Rattle.mixer.specs.Mixers.{mix_at};
ghost use Rattle.mixer.specs.inner.Encoded.{AreEncoded, most_block};
ghost use Rattle.mixer.specs.inner.Rooms.{AreLong, IsRoom, IsRate, of_room};
ghost use Rattle.mixer.specs.inner.Ready.{AreRooms, IsReady, Passes, current, hears_any, hearers, members_of};
ghost use Rattle.mixer.specs.inner.Ready.{AreReady, pass_rate};
ghost use Rattle.mixer.specs.inner.Ready.{kept_after, kept_after_one, sent_of};

use crate::apart::{MOST_NAMED, SSRC_OCTETS};
use crate::preparing::{Scratch, Tick, prepare_for};
use crate::rates::{RoomRate, rate_in, rated};
use crate::rooms::{RoomSound, place_of};
use desk_rows::{Member, Rows};
use forward_rewrite::{MixStream, OutPacket, PreparedMix, format_of};
use indexmap::IndexMap;
use media_items::LanePlace;
use rtp_codec::Address;
use std::alloc::{AllocError, Allocator, Global};
use std::hash::{BuildHasherDefault, FoldHasher};
use std::marker::Model;
use topology::mixes_are_apart;

/// The mix streams by SSRC.
pub type MixTable<A> = IndexMap<u32, MixStream, BuildHasherDefault<FoldHasher>, A>;

/// A packet of a member's mix.
#[derive(Drop)]
pub struct MixPacket<A: Allocator + Copy = Global> {
    /// The member's address.
    pub to: Address,
    /// The SSRC of the mix stream.
    pub ssrc: u32,
    /// The packet.
    pub packet: OutPacket<A>,
}

impl<A: Allocator + Copy> Model for MixPacket<A> {
    ghost use Rattle.mixer.specs.Mixes.{MixSent};

    ghost Value = { MixSent };

    ghost view = { λ p. record { to = p.to; ssrc = p.ssrc; packet = p.packet } };
}

/// A packet that is ready for a member.
#[derive(Drop)]
pub struct Ready<A: Allocator + Copy = Global> {
    member: Member,
    prepared: PreparedMix<A>,
}

impl<A: Allocator + Copy> Model for Ready<A> {
    ghost use Rattle.mixer.specs.inner.Ready.{ReadyOf};

    ghost Value = { ReadyOf };

    ghost view = { λ r. record { member = r.member; prepared = r.prepared } };
}

/// The most octets of a header with its contributing sources (RFC 3550 section 5.1).
const MOST_HEADER: usize = 12 + SSRC_OCTETS * MOST_NAMED;

/// The most octets of a payload: 882 samples of two octets.
const MOST_PAYLOAD: usize = 882 * 2;

/// The most octets of a block: 64 packets.
const MOST_BLOCK: usize = 64 * (MOST_HEADER + MOST_PAYLOAD);

/// The octets to reserve for the packets of a tick. A block for more packets grows.
fn block_len<A: Allocator + Copy>(place: &LanePlace, rows: &Rows<A>) -> usize
    ensures { result ≤ most_block }
{
    let mut octets: usize = 0;
    let mut last = rated(rows, 0);
    for member in rows.members() {
        let mine = place.is_mine(member.out_audio);
        if mine {
            let format = format_of(member.codec, rate_in(rows, &mut last, member.room));
            let payload = format.tick().saturating_mul(format.octets());
            octets = octets.saturating_add(payload.saturating_add(MOST_HEADER));
        }
    }
    octets.min(MOST_BLOCK)
}

/// The stream of a member's mix, or a new one.
fn stream_for<A: Allocator + Copy>(streams: &MixTable<A>, member: &Member) -> MixStream
    ensures { result ≡ current (mix_at member.now.out_audio streams.now.entries) member.now }
{
    match streams.get(&member.out_audio) {
        Some(stream) => *stream,
        None => MixStream::new(member.out_audio, member.first_seq, member.first_ts),
    }
}

/// The packet of what a member hears in a tick on its stream, if it hears anything.
fn ready_for<A: Allocator + Copy>(
    tick: &Tick<'_, A>,
    room: &RoomSound<'_, A>,
    member: &Member,
    scratch: &mut Scratch<A>,
) -> Result<Option<Ready<A>>, AllocError>
    requires own { room.now.room ≡ member.now.room }
    requires is { (voices : List VoiceOf) × IsRoom tick.now.rows.now voices room.now }
    requires last { AreEncoded scratch.old.last }
    requires empty { scratch.old.block.items ≡ [] }
    ensures none { IfOk result (λ ready. (voices : List VoiceOf) → IsRoom tick.now.rows.now voices room.now
        → is_some ready ≡ hears_any tick.now.rows.now voices member.now) }
    ensures some { IfOk result
        (λ ready. IfSome ready
        (λ r. (r.member ≡ member.now)
        × ((voices : List VoiceOf) → IsRoom tick.now.rows.now voices room.now
        → IsReady tick.now.rows.now voices tick.now.moment tick.now.streams.now.entries r))) }
    ensures last { OnOk result (AreEncoded scratch.new.last) }
    ensures empty { OnOk result (scratch.new.block.items ≡ []) }
{
    let stream = stream_for(tick.streams, member);
    match prepare_for(tick, &stream, room, member, scratch)? {
        Some(prepared) => Ok(Some(Ready {
            member: *member,
            prepared,
        })),
        None => Ok(None),
    }
}

/// Appends the packet of what a member hears, if it hears anything.
fn add<'a, A: Allocator + Copy>(
    tick: &Tick<'a, A>,
    rooms: &mut Vec<RoomSound<'a, A>, A>,
    member: &Member,
    scratch: &mut Scratch<A>,
    ready: &mut Vec<Ready<A>, A>,
) -> Result<(), AllocError>
    requires few { length (of_room member.now.room tick.now.voices.now) ≤ 64 }
    requires long { AreLong tick.now.rows.now tick.now.voices.now }
    requires rooms { AreRooms tick.now.rows.now tick.now.voices.now rooms.old.items }
    requires last { AreEncoded scratch.old.last }
    requires empty { scratch.old.block.items ≡ [] }
    ensures rooms { OnOk result (AreRooms tick.now.rows.now tick.now.voices.now rooms.new.items) }
    ensures members { OnOk result (members_of ready.new.items
        ≡ members_of ready.old.items ++ filter (hears_any tick.now.rows.now tick.now.voices.now) (member.now ∷ [])) }
    ensures ready { OnOk result (AreReady tick.now.rows.now tick.now.voices.now tick.now.moment
        tick.now.streams.now.entries ready.old.items
        → AreReady tick.now.rows.now tick.now.voices.now tick.now.moment tick.now.streams.now.entries ready.new.items) }
    ensures last { OnOk result (AreEncoded scratch.new.last) }
    ensures empty { OnOk result (scratch.new.block.items ≡ []) }
{
    let place = place_of(tick.alloc, tick.rows, rooms, tick.voices, member.room)?;
    if let Some(one) = ready_for(tick, &rooms[place], member, scratch)? {
        ready.push(one)?;
    }
    Ok(())
}

/// The packets of what the members of the lane's streams hear.
pub fn ready_all<A: Allocator + Copy>(
    tick: &Tick<'_, A>,
    place: &LanePlace,
) -> Result<Vec<Ready<A>, A>, AllocError>
    requires few { (room : ℕ) → length (of_room room tick.now.voices.now) ≤ 64 }
    requires long { AreLong tick.now.rows.now tick.now.voices.now }
    ensures members { IfOk result
        (λ rs. members_of rs.items
        ≡ hearers tick.now.rows.now tick.now.voices.now place.now.lane place.now.lanes tick.now.rows.now.members) }
    ensures ready { IfOk result
        (λ rs. AreReady tick.now.rows.now tick.now.voices.now tick.now.moment tick.now.streams.now.entries rs.items) }
{
    let mut rooms = Vec::new(tick.alloc);
    let mut ready = Vec::with_capacity(tick.alloc, tick.rows.members().len())?;
    let mut scratch = Scratch::new(tick.alloc, block_len(place, tick.rows))?;
    for member in tick.rows.members() {
        if place.is_mine(member.out_audio) {
            add(tick, &mut rooms, member, &mut scratch, &mut ready)?;
        }
    }
    Ok(ready)
}

/// The member whose mix has this SSRC. It is found at once if it stands at this place.
fn mix_member<A: Allocator + Copy>(rows: &Rows<A>, place: usize, out_audio: u32) -> Option<&Member>
    ensures { option_copied result ≡ mix_member rows.now out_audio }
{
    mixes_are_apart();
    let members = rows.members();
    if place < members.len() {
        let member = &members[place];
        if member.out_audio == out_audio {
            return Some(member);
        }
    }
    members.iter().find(|m| m.out_audio == out_audio)
}

/// The clock rate at which a stream passes a tick. Its member may stand at this place.
fn pass_rate<A: Allocator + Copy>(
    rows: &Rows<A>,
    last: &mut RoomRate,
    place: usize,
    out_audio: u32,
    stream: &MixStream,
) -> u32
    requires { IsRate rows.now last.old }
    ensures rate { result ≡ pass_rate rows.now out_audio stream.now }
    ensures last { IsRate rows.now last.new }
{
    match mix_member(rows, place, out_audio) {
        Some(member) => rate_in(rows, last, member.room),
        None => stream.rate().unwrap_or(0),
    }
}

/// The clock rate at which the stream at an index passes a tick.
fn pass_rate_at<A: Allocator + Copy>(
    rows: &Rows<A>,
    last: &mut RoomRate,
    streams: &MixTable<A>,
    i: usize,
) -> u32
    requires within { i < length streams.now.entries }
    requires last { IsRate rows.now last.old }
    ensures rate { (d : ℕ × MixOf)
        → result ≡ (let e = slice_index_or streams.now.entries i d in pass_rate rows.now e.0 e.1) }
    ensures last { IsRate rows.now last.new }
{
    match streams.get_index(i) {
        Some((out_audio, stream)) => pass_rate(rows, last, i, *out_audio, stream),
        None => unreachable!(),
    }
}

/// Passes a silent tick on all streams. This takes no memory.
pub fn pass_all<A: Allocator + Copy>(streams: &mut MixTable<A>, rows: &Rows<A>, moment: u64)
    ensures streams { (ssrc : ℕ)
        → Passes rows.now moment ssrc (mix_at ssrc streams.old.entries) (mix_at ssrc streams.new.entries) }
    ensures spare { spare streams.new ≡ spare streams.old }
{
    let mut last = rated(rows, 0);
    for i in 0..streams.len() {
        let rate = pass_rate_at(rows, &mut last, streams, i);
        match streams.get_index_mut(i) {
            Some(stream) => stream.pass(rate, moment),
            None => unreachable!(),
        }
    }
}

/// Sends a member's packet. The table has the capacity.
fn commit_one<A: Allocator + Copy>(streams: &mut MixTable<A>, ready: Ready<A>) -> MixPacket<A>
    requires capacity { 0 < spare streams.old }
    ensures streams { (ssrc : ℕ)
        → mix_at ssrc streams.new.entries ≡ kept_after_one ssrc ready (mix_at ssrc streams.old.entries) }
    ensures packet { result ≡ sent_of ready }
    ensures spare { spare streams.old ≤ spare streams.new + 1 }
{
    let Ready { member, prepared } = ready;
    let PreparedMix { next, packet } = prepared;
    if streams.insert(member.out_audio, next).is_err() {
        unreachable!();
    }
    MixPacket {
        to: member.address,
        ssrc: member.out_audio,
        packet,
    }
}

/// Sends all packets. The table and the list have the capacity.
pub fn commit_all<A: Allocator + Copy>(
    streams: &mut MixTable<A>,
    ready: Vec<Ready<A>, A>,
    out: &mut Vec<MixPacket<A>, A>,
)
    requires capacity { vec_len ready ≤ spare streams.old }
    requires out_capacity { vec_len out.old + vec_len ready ≤ vec_capacity out.old }
    ensures streams { (ssrc : ℕ)
        → mix_at ssrc streams.new.entries ≡ kept_after ssrc ready.items (mix_at ssrc streams.old.entries) }
    ensures out { out.new.items ≡ out.old.items ++ map sent_of ready.items }
{
    for one in ready {
        out.push_reserved(commit_one(streams, one));
    }
}
