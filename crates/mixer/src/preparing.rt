//! The packets of what members hear.

ghost use Rattle.std.specs.Prelude.{◌≡◌, ◌≤◌, [], List, length, IfOk, OnOk, IfSome, is_some};
ghost use Rattle.rtp_codec.specs.Packet.{most_csrcs};
ghost use Rattle.desk_rows.specs.Desk.{Desk};
ghost use Rattle.desk_rows.specs.declared.row.Member.{Member as MemberRow};
ghost use Rattle.media_items.specs.Formats.{tick_at};
ghost use Rattle.forward_rewrite.specs.Mixes.{format_of};
ghost use Rattle.mixer.specs.Hearing.{Voice as VoiceOf, member_rate};
ghost use Rattle.mixer.specs.inner.Named.{IsHeardOf};
ghost use Rattle.mixer.specs.inner.Rooms.{IsRoom};
ghost use Rattle.mixer.specs.inner.Ready.{IsPrepared, hears_any};
ghost use Rattle.mixer.specs.inner.Encoded.{IsEncoded, AreEncoded};

use crate::apart::own_start;
use crate::encoding::{Encoded, Encodings};
use crate::hearing::{listen, listen_in_full};
use crate::rooms::RoomSound;
use crate::streams::MixTable;
use crate::voices::{Voice, tick_at};
use bytes::BytesMut;
use desk_rows::{Member, Rows};
use forward_rewrite::{MixStream, Named, PreparedMix, format_of};
use media_items::Format;
use std::alloc::{AllocError, Allocator};

/// What the packets of a tick are made from.
#[derive(Drop)]
pub struct Tick<'a, A: Allocator + Copy> {
    /// Where packets are allocated.
    pub alloc: A,
    /// The mix streams as they are before the tick.
    pub streams: &'a MixTable<A>,
    /// The rows of the desk.
    pub rows: &'a Rows<A>,
    /// The samples of all sources.
    pub voices: &'a [Voice<A>],
    /// The moment, in nanoseconds since 1970.
    pub moment: u64,
}

/// What a tick works in. Its packets are cut off one block.
#[derive(Drop)]
pub struct Scratch<A: Allocator + Copy> {
    /// Where the next member's own inputs probably stand among those of its room.
    pub near: usize,
    /// The samples of a mix.
    pub samples: Vec<i16, A>,
    /// The last payloads.
    pub last: Encodings<A>,
    /// What packets are cut off. It is empty before and behind a packet.
    pub block: BytesMut<A>,
}

impl<A: Allocator + Copy> Scratch<A> {
    /// No samples, and a block for this many octets.
    pub fn new(alloc: A, octets: usize) -> Result<Self, AllocError>
        ensures block { IfOk result (λ s. s.block.items ≡ []) }
        ensures last { IfOk result (λ s. AreEncoded s.last) }
    {
        Ok(Scratch {
            near: 0,
            samples: Vec::new(alloc),
            last: Encodings::new(alloc),
            block: BytesMut::with_capacity(alloc, octets)?,
        })
    }
}

/// What a member without gains hears in a tick.
#[derive(Clone, Copy)]
struct MixHeard<'a> {
    /// The format of its mix.
    format: Format,
    /// The contributing sources.
    named: Named<'a>,
    /// The samples.
    samples: &'a [i16],
    /// Whether other members probably hear the same.
    shared: bool,
}

/// The packet of what a member without gains hears, if it hears anything. It is cut off the block. `last` is the last
/// payload of its encoding.
fn prepare_encoded<A: Allocator + Copy>(
    stream: &MixStream,
    heard: MixHeard<'_>,
    last: &mut Encoded<A>,
    block: &mut BytesMut<A>,
    moment: u64,
) -> Result<Option<PreparedMix<A>>, AllocError>
    requires few { heard.named.count ≤ most_csrcs }
    requires last { IsEncoded last.old }
    requires empty { block.old.items ≡ [] }
    ensures none { IfOk result (λ p. (d : Desk) (voices : List VoiceOf) (m : MemberRow)
        → IsHeardOf d voices m heard.entry.samples.now heard.entry.named
        → is_some p ≡ hears_any d voices m) }
    ensures some { IfOk result (λ o. IfSome o (λ p. (d : Desk) (voices : List VoiceOf) (m : MemberRow)
        → IsHeardOf d voices m heard.entry.samples.now heard.entry.named
        → heard.entry.format ≡ format_of m.codec (member_rate d m)
        → IsPrepared d voices moment m stream.now p)) }
    ensures last { OnOk result (IsEncoded last.new) }
    ensures empty { OnOk result (block.new.items ≡ []) }
{
    if heard.named.count == 0 {
        return Ok(None);
    }
    last.encode(heard.format, heard.samples, heard.shared)?;
    let prepared = stream.prepare_in(block, heard.format, heard.named, &last.payload, moment)?;
    Ok(Some(prepared))
}

/// The packet of what a member without gains hears, if it hears anything. It is cut off the block.
fn prepare_in_full<A: Allocator + Copy>(
    stream: &MixStream,
    heard: MixHeard<'_>,
    last: &mut Encodings<A>,
    block: &mut BytesMut<A>,
    moment: u64,
) -> Result<Option<PreparedMix<A>>, AllocError>
    requires few { heard.named.count ≤ most_csrcs }
    requires last { AreEncoded last.old }
    requires empty { block.old.items ≡ [] }
    ensures none { IfOk result (λ p. (d : Desk) (voices : List VoiceOf) (m : MemberRow)
        → IsHeardOf d voices m heard.entry.samples.now heard.entry.named
        → is_some p ≡ hears_any d voices m) }
    ensures some { IfOk result (λ o. IfSome o (λ p. (d : Desk) (voices : List VoiceOf) (m : MemberRow)
        → IsHeardOf d voices m heard.entry.samples.now heard.entry.named
        → heard.entry.format ≡ format_of m.codec (member_rate d m)
        → IsPrepared d voices moment m stream.now p)) }
    ensures last { OnOk result (AreEncoded last.new) }
    ensures empty { OnOk result (block.new.items ≡ []) }
{
    match heard.format {
        Format::Pcmu => prepare_encoded(stream, heard, &mut last.pcmu, block, moment),
        Format::L16At8000 | Format::L16At44100 => {
            prepare_encoded(stream, heard, &mut last.linear, block, moment)
        }
    }
}

/// The packet of what a member hears by its gains, if it hears anything.
fn prepare_by_gains<A: Allocator + Copy>(
    tick: &Tick<'_, A>,
    stream: &MixStream,
    room: &RoomSound<'_, A>,
    member: &Member,
    samples: &mut [i16],
) -> Result<Option<PreparedMix<A>>, AllocError>
    requires own { room.now.room ≡ member.now.room }
    requires is { (voices : List VoiceOf) × IsRoom tick.now.rows.now voices room.now }
    requires long { length samples.old ≡ tick_at room.now.rate }
    ensures none { IfOk result (λ p. (voices : List VoiceOf) → IsRoom tick.now.rows.now voices room.now
        → is_some p ≡ hears_any tick.now.rows.now voices member.now) }
    ensures some { IfOk result (λ o. IfSome o (λ p. (voices : List VoiceOf) → IsRoom tick.now.rows.now voices room.now
        → IsPrepared tick.now.rows.now voices tick.now.moment member.now stream.now p)) }
{
    let named = listen(tick.rows, member, room, samples);
    let count = named.count as usize;
    if count == 0 {
        return Ok(None);
    }
    let format = format_of(member.codec, room.rate);
    let prepared = stream.prepare(
        tick.alloc,
        format,
        &named.ssrcs[..count],
        samples,
        tick.moment,
    )?;
    Ok(Some(prepared))
}

/// The packet of what a member hears in a tick, if it hears anything.
pub fn prepare_for<A: Allocator + Copy>(
    tick: &Tick<'_, A>,
    stream: &MixStream,
    room: &RoomSound<'_, A>,
    member: &Member,
    scratch: &mut Scratch<A>,
) -> Result<Option<PreparedMix<A>>, AllocError>
    requires own { room.now.room ≡ member.now.room }
    requires is { (voices : List VoiceOf) × IsRoom tick.now.rows.now voices room.now }
    requires last { AreEncoded scratch.old.last }
    requires empty { scratch.old.block.items ≡ [] }
    ensures none { IfOk result (λ p. (voices : List VoiceOf) → IsRoom tick.now.rows.now voices room.now
        → is_some p ≡ hears_any tick.now.rows.now voices member.now) }
    ensures some { IfOk result (λ o. IfSome o (λ p. (voices : List VoiceOf) → IsRoom tick.now.rows.now voices room.now
        → IsPrepared tick.now.rows.now voices tick.now.moment member.now stream.now p)) }
    ensures last { OnOk result (AreEncoded scratch.new.last) }
    ensures empty { OnOk result (scratch.new.block.items ≡ []) }
{
    let Scratch {
        near,
        samples,
        last,
        block,
    } = scratch;
    samples.resize(tick_at(room.rate), 0)?;
    // Members without inputs of their own hear the same.
    let shared = own_start(&room.members, member.member, *near) == room.members.len();
    match listen_in_full(tick.rows, member, room, near, samples) {
        Some(named) => {
            let format = format_of(member.codec, room.rate);
            let heard = MixHeard {
                format,
                named,
                samples,
                shared,
            };
            prepare_in_full(stream, heard, last, block, tick.moment)
        }
        None => prepare_by_gains(tick, stream, room, member, samples),
    }
}
