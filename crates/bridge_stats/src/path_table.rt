//! What receivers reported last of the way of each stream to them.

ghost use Rattle.std.specs.Prelude.{◌≡◌, ℕ, List, [], IfOk};
ghost use Rattle.std.specs.Map.{lookup};
ghost use Rattle.std.specs.List.{FoldsTo};
ghost use Rattle.rtcp_codec.specs.View.{packet_of, packets_of};
ghost use Rattle.bridge_stats.specs.Senders.{same_sender};
ghost use Rattle.bridge_stats.specs.Tables.{IsKept};
ghost use Rattle.bridge_stats.specs.Paths.{most_paths, stream_at, is_at, is_received, is_mix, mix_rate, rate_to};
ghost use Rattle.bridge_stats.specs.Paths.{IsBlockNoted, IsPacketNoted, AreReported};
ghost use Rattle.bridge_stats.specs.Noted.{HasReports};

use crate::path::{PathReport, stream_at};
use crate::sender::Sender;
use desk_rows::{Member, Rows};
use ingress::{Disposition, Received};
use lru::LruCache;
use rtcp_codec::{ReportBlock, Rtcp};
use rtp_codec::Address;
use std::alloc::{AllocError, Allocator, Global};
use std::hash::{BuildHasherDefault, FoldHasher};
use std::marker::Model;
use std::num::NonZeroUsize;
use topology::{member_from, rate_of};

/// Of how many streams at their receivers' addresses the last report is kept.
const MOST_PATHS: usize = 5_120;

/// What was reported of the streams that are kept.
pub(crate) type PathCache<A> = LruCache<Sender, PathReport, BuildHasherDefault<FoldHasher>, A>;

/// What the last report block says of the way of each stream: of the 5,120 streams, at the addresses of their
/// receivers, of which blocks came last. A block is kept only of a stream, of a slot or a mix, that the desk sends to
/// the address from which the block came, so that no member can push out what others report. Only a stream that isn't
/// kept takes memory. Where that is refused, its block is left out, and counted.
///
/// Contracts see what was reported of each, that of the latest block first.
#[derive(Drop)]
pub(crate) struct PathTable<A: Allocator + Copy = Global> {
    pub(crate) cache: PathCache<A>,
    pub(crate) left_out: u64,
}

impl<A: Allocator + Copy> Model for PathTable<A> {
    ghost use Rattle.std.specs.Prelude.{◌≡◌};
    ghost use Rattle.bridge_stats.specs.declared.path.PathReport.{PathReport as Path};
    ghost use Rattle.bridge_stats.specs.Tables.{TableOf};
    ghost use Rattle.bridge_stats.specs.Paths.{most_paths};

    ghost Value = { TableOf Path };

    ghost view = { λ s. record { entries = s.cache.entries; left_out = s.left_out } };

    ghost invariant = { λ s. s.cache.cap ≡ most_paths };
}

/// Whether a member was found, and has this address.
fn is_at(member: Option<Member>, from: &Address) -> bool
    ensures { result ≡ is_at member from.now }
{
    match member {
        None => false,
        Some(member) => member.address == *from,
    }
}

/// The clock rate of video, in Hz.
const VIDEO_RATE: u32 = 90_000;

/// Whether the desk sends the stream of a slot to an address: that of the slot's member.
fn is_received(rows: &Rows, from: &Address, ssrc: u32) -> bool
    ensures { result ≡ is_received rows.now from.now ssrc }
{
    match rows.slot(ssrc) {
        None => false,
        Some(slot) => is_at(rows.member(slot.member), from),
    }
}

/// Whether a member was found whose mix has this SSRC.
fn is_mix(member: Option<Member>, ssrc: u32) -> bool
    ensures { result ≡ is_mix member ssrc }
{
    match member {
        None => false,
        Some(member) => member.out_audio == ssrc,
    }
}

/// The clock rate of a stream, if it is the mix of a member that was found.
fn mix_rate(rows: &Rows, member: Option<u32>, ssrc: u32) -> Option<u32>
    ensures { result ≡ mix_rate rows.now member ssrc }
{
    match member {
        None => None,
        Some(member) => {
            if is_mix(rows.member(member), ssrc) {
                rate_of(rows, member)
            } else {
                None
            }
        }
    }
}

/// The clock rate of a stream that the desk sends to an address, if it sends one of this SSRC there.
fn rate_to(rows: &Rows, from: &Address, ssrc: u32) -> Option<u32>
    ensures { result ≡ rate_to rows.now from.now ssrc }
{
    if is_received(rows, from, ssrc) {
        return Some(VIDEO_RATE);
    }
    mix_rate(rows, member_from(rows, from), ssrc)
}

impl<A: Allocator + Copy> PathTable<A> {
    /// Nothing was reported. The only error is out of memory.
    pub(crate) fn new(alloc: A) -> Result<Self, AllocError>
        ensures { IfOk result (λ table. table ≡ record { entries = []; left_out = 0 }) }
    {
        let Some(most) = NonZeroUsize::new(MOST_PATHS) else {
            unreachable!()
        };
        let cache = LruCache::sparse(alloc, most)?;
        Ok(Self { cache, left_out: 0 })
    }

    /// What was reported last of a stream from this address.
    pub(crate) fn path(&self, from: &Address, ssrc: u32) -> Option<PathReport>
        ensures { result ≡ lookup (same_sender (stream_at from.now ssrc)) self.now.entries }
    {
        self.cache.peek(&stream_at(from, ssrc)).copied()
    }

    /// Puts what was reported of a stream before what was reported of others.
    fn put_path(&mut self, stream: Sender, path: PathReport)
        ensures { IsKept most_paths stream path self.old self.new }
    {
        match self.cache.put(stream, path) {
            Ok(_) => {}
            Err(_) => self.left_out = self.left_out.saturating_add(1),
        }
    }

    /// Notes a block that came from an address at a moment, if the desk sends the block's stream there.
    fn note_block(&mut self, rows: &Rows, from: &Address, moment: u64, block: &ReportBlock)
        ensures { IsBlockNoted rows.now from.now moment self.old block.now self.new }
    {
        let Some(rate) = rate_to(rows, from, block.ssrc) else {
            return;
        };
        let stream = stream_at(from, block.ssrc);
        let path = PathReport::of(moment, rate, block);
        self.put_path(stream, path);
    }

    /// Notes blocks, one after another.
    fn note_blocks(&mut self, rows: &Rows, from: &Address, moment: u64, blocks: &[ReportBlock])
        ensures { FoldsTo (IsBlockNoted rows.now from.now moment) self.old blocks.now self.new }
    {
        for block in blocks {
            self.note_block(rows, from, moment, block);
        }
    }

    /// Notes the blocks of a packet.
    fn note_packet(&mut self, rows: &Rows, from: &Address, moment: u64, packet: &Rtcp<A>)
        ensures { IsPacketNoted rows.now from.now moment self.old (packet_of packet.now) self.new }
    {
        match packet {
            Rtcp::Sender(report) => self.note_blocks(rows, from, moment, &report.blocks),
            Rtcp::Receiver(report) => self.note_blocks(rows, from, moment, &report.blocks),
            Rtcp::Sdes(_)
            | Rtcp::Bye(_)
            | Rtcp::App(_)
            | Rtcp::Nack(_)
            | Rtcp::Pli(_)
            | Rtcp::Other(_) => {}
        }
    }

    /// Notes the blocks of packets, one after another.
    fn note_packets(&mut self, rows: &Rows, from: &Address, moment: u64, packets: &[Rtcp<A>])
        ensures { FoldsTo (IsPacketNoted rows.now from.now moment) self.old (packets_of packets.now) self.new }
    {
        for packet in packets {
            self.note_packet(rows, from, moment, packet);
        }
    }

    /// Notes the blocks of a datagram that was taken in, if it is a compound from a member.
    pub(crate) fn note(&mut self, rows: &Rows, received: &Received<A>)
        ensures { (octets : List ℕ) → HasReports octets received.now
            → AreReported rows.now received.now.outcome received.now.from received.now.moment octets
            self.old self.new }
    {
        match received.outcome.class().disposition {
            Disposition::Compound { .. } => {
                self.note_packets(rows, &received.from, received.moment, &received.packets);
            }
            Disposition::Dropped
            | Disposition::Probation
            | Disposition::OnTime { .. }
            | Disposition::Late { .. }
            | Disposition::Duplicate { .. }
            | Disposition::Restarted { .. } => {}
        }
    }
}
