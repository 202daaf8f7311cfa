//! Outgoing mix streams: one packet or none in each tick of 20 ms.

ghost use Rattle.std.specs.Prelude.{◌≡◌, ◌≤◌, ◌++◌, [], ◌∷◌, ℕ, ℤ, List, length, IfOk, OnOk, OnErr, option_map};
ghost use Rattle.rtp_codec.specs.Packet.{number_octets, most_csrcs};
ghost use Rattle.media_items.specs.Formats.{encoded};
ghost use Rattle.forward_rewrite.specs.Mixes.{MixTick, sound_of, sounding, silent, mix_state, mix_counts};
ghost use Rattle.forward_rewrite.specs.Mixes.{HasMixed, GivesTick};
ghost use Rattle.forward_rewrite.specs.inner.MixCounters.{IsPreparedMix, next_ts, next_header, after_octets};
ghost use Rattle.forward_rewrite.specs.inner.MixCounters.{after_silence};

use crate::counts::Counts;
use crate::mix_packets::{Named, packet_in, packet_of};
use crate::prepared_mix::PreparedMix;
use crate::sending::OutPacket;
use crate::tick_time::TickTime;
use bytes::BytesMut;
use media_items::Format;
use rtp_codec::{Header, seq_next};
use std::alloc::{AllocError, Allocator};
use std::marker::Model;

/// The ticks of a second.
const TICKS_PER_SECOND: u32 = 50;

/// An outgoing mix stream. It begins with its first packet. From then on each tick advances its timestamp by the
/// tick's own samples: 160 at 8000 Hz, 882 at 44100 Hz.
///
/// At each tick, call [`prepare`](Self::prepare) and [`commit`](Self::commit), or [`pass`](Self::pass) if nothing
/// sounds. The format may be another one from tick to tick. It is `Copy`.
#[derive(Clone, Copy)]
pub struct MixStream {
    ssrc: u32,
    /// The number of the next packet.
    next: u16,
    /// The timestamp of the last tick. Before the first packet it is that packet's.
    ts: u32,
    /// Whether the last tick sent a packet.
    spoke: bool,
    /// The packets that it has sent, modulo 2^32.
    packets: u32,
    /// The octets of payload that they had, modulo 2^32.
    octets: u32,
    /// The last tick since it began.
    last: Option<TickTime>,
}

impl Model for MixStream {
    ghost use Rattle.forward_rewrite.specs.Mixes.{MixOf};

    ghost Value = { MixOf };

    ghost view = { λ s. record {
      ssrc = s.ssrc;
      next = s.next;
      ts = s.ts;
      spoke = s.spoke;
      packets = s.packets;
      octets = s.octets;
      last = s.last;
    } };

    ghost inverse = { λ v. record {
      ssrc = v.ssrc;
      next = v.next;
      ts = v.ts;
      spoke = v.spoke;
      packets = v.packets;
      octets = v.octets;
      last = v.last;
    } };
}

impl MixStream {
    /// A mix stream that has sent nothing. Its first packet will have this number and this timestamp.
    pub fn new(ssrc: u32, first_seq: u16, first_ts: u32) -> Self
        ensures { result ≡ mix_state ssrc first_seq first_ts [] }
    {
        MixStream {
            ssrc,
            next: first_seq,
            ts: first_ts,
            spoke: false,
            packets: 0,
            octets: 0,
            last: None,
        }
    }

    /// The SSRC of its packets.
    pub fn ssrc(&self) -> u32
        ensures { result ≡ self.now.ssrc }
    {
        self.ssrc
    }

    /// The clock rate of its last tick, in Hz. `None` until its first packet is sent.
    pub fn rate(&self) -> Option<u32>
        ensures { result ≡ option_map (λ last. last.rate) self.now.last }
    {
        self.last.map(|last| last.rate)
    }

    /// Makes the packet of a tick that sounds. The stream stays as it is until [`commit`](Self::commit).
    ///
    /// The samples are at the format's clock rate, and have at most 15 contributing sources. `moment` is in nanoseconds
    /// since 1970. The first packet and one behind a silent tick have the marker (RFC 3551 section 4.1). The only error
    /// is out of memory.
    pub fn prepare<A: Allocator + Copy>(
        &self,
        alloc: A,
        format: Format,
        csrcs: &[u32],
        samples: &[i16],
        moment: u64,
    ) -> Result<PreparedMix<A>, AllocError>
        requires { length csrcs.now ≤ most_csrcs }
        ensures gives { IfOk result
            (λ p. GivesTick self.now p.next (sounding (sound_of format csrcs.now samples.now) moment) (p.packet ∷ [])) }
        ensures ssrc { IfOk result (λ p. p.next.ssrc ≡ self.now.ssrc) }
    {
        self.prepare_by_fields(alloc, format, csrcs, samples, moment)
    }

    /// [`prepare`](Self::prepare), by the stream's fields.
    fn prepare_by_fields<A: Allocator + Copy>(
        &self,
        alloc: A,
        format: Format,
        csrcs: &[u32],
        samples: &[i16],
        moment: u64,
    ) -> Result<PreparedMix<A>, AllocError>
        requires { length csrcs.now ≤ most_csrcs }
        ensures { IfOk result (λ p. IsPreparedMix self.now (sound_of format csrcs.now samples.now) moment p) }
    {
        let bytes = packet_of(alloc, &self.header(format), csrcs, format, samples)?;
        let number = self.next;
        Ok(PreparedMix {
            next: self.after(format, format.payload_len(samples), moment),
            packet: OutPacket { number, bytes },
        })
    }

    /// Makes the packet of a tick that sounds, as [`prepare`](Self::prepare) does, from a payload of the format.
    ///
    /// The packet is cut off `block`, which is empty before the call and after it. The octets are copied once. If
    /// `block` has the capacity, only its first packet takes memory. The only error is out of memory; it leaves octets
    /// in `block`.
    // All packets of a tick share one block, since taking memory for each is a good part of a tick's cost. The block is
    // freed with its last packet.
    pub fn prepare_in<A: Allocator + Copy>(
        &self,
        block: &mut BytesMut<A>,
        format: Format,
        named: Named<'_>,
        payload: &[u8],
        moment: u64,
    ) -> Result<PreparedMix<A>, AllocError>
        requires few { named.count ≤ most_csrcs }
        requires empty { block.old.items ≡ [] }
        ensures gives { IfOk result (λ p. (csrcs : List ℕ) (samples : List ℤ)
            → length csrcs ≡ named.entry.count → named.entry.front.now ++ named.entry.back.now ≡ number_octets csrcs
            → payload.now ≡ encoded format samples
            → GivesTick self.now p.next (sounding (sound_of format csrcs samples) moment) (p.packet ∷ [])) }
        ensures ssrc { IfOk result (λ p. p.next.ssrc ≡ self.now.ssrc) }
        ensures empty { OnOk result (block.new.items ≡ []) }
    {
        self.prepare_in_by_fields(block, format, named, payload, moment)
    }

    /// [`prepare_in`](Self::prepare_in), by the stream's fields.
    fn prepare_in_by_fields<A: Allocator + Copy>(
        &self,
        block: &mut BytesMut<A>,
        format: Format,
        named: Named<'_>,
        payload: &[u8],
        moment: u64,
    ) -> Result<PreparedMix<A>, AllocError>
        requires few { named.count ≤ most_csrcs }
        requires empty { block.old.items ≡ [] }
        ensures packet { IfOk result (λ p. (csrcs : List ℕ) (samples : List ℤ)
            → length csrcs ≡ named.entry.count → named.entry.front.now ++ named.entry.back.now ≡ number_octets csrcs
            → payload.now ≡ encoded format samples
            → IsPreparedMix self.now (sound_of format csrcs samples) moment p) }
        ensures ssrc { IfOk result (λ p. p.next.ssrc ≡ self.now.ssrc) }
        ensures empty { OnOk result (block.new.items ≡ []) }
    {
        let bytes = packet_in(block, &self.header(format), named, payload)?;
        let number = self.next;
        Ok(PreparedMix {
            next: self.after(format, payload.len(), moment),
            packet: OutPacket { number, bytes },
        })
    }

    /// The header of the next packet.
    fn header(&self, format: Format) -> Header
        ensures { result ≡ next_header self.now format }
    {
        Header {
            marker: !self.spoke,
            pt: format.payload_type(),
            seq: self.next,
            ts: self.next_ts(format.rate()),
            ssrc: self.ssrc,
        }
    }

    /// The timestamp of the next tick.
    fn next_ts(&self, rate: u32) -> u32
        ensures { result ≡ next_ts self.now rate }
    {
        if self.last.is_some() {
            self.ts.wrapping_add(rate / TICKS_PER_SECOND)
        } else {
            self.ts
        }
    }

    /// The stream after a tick that sends this number of octets of payload.
    fn after(&self, format: Format, octets: usize, moment: u64) -> MixStream
        ensures { result ≡ after_octets self.now format octets moment }
    {
        let rate = format.rate();
        MixStream {
            ssrc: self.ssrc,
            next: seq_next(self.next),
            ts: self.next_ts(rate),
            spoke: true,
            packets: self.packets.wrapping_add(1),
            octets: self.octets.wrapping_add((octets % 4_294_967_296) as u32),
            last: Some(TickTime { rate, moment }),
        }
    }

    /// Sends a prepared packet. This takes no memory.
    pub fn commit<A: Allocator + Copy>(&mut self, prepared: PreparedMix<A>) -> OutPacket<A>
        ensures stream { self.new ≡ prepared.next }
        ensures packet { result ≡ prepared.packet }
    {
        let PreparedMix { next, packet } = prepared;
        *self = next;
        packet
    }

    /// Prepares and commits the packet of a tick that sounds. On out of memory, the only error, the stream stays as it
    /// was.
    pub fn send<A: Allocator + Copy>(
        &mut self,
        alloc: A,
        format: Format,
        csrcs: &[u32],
        samples: &[i16],
        moment: u64,
    ) -> Result<OutPacket<A>, AllocError>
        requires { length csrcs.now ≤ most_csrcs }
        ensures gives { IfOk result
            (λ out. GivesTick self.old self.new (sounding (sound_of format csrcs.now samples.now) moment) (out ∷ [])) }
        ensures ssrc { self.new.ssrc ≡ self.old.ssrc }
        ensures err { OnErr result (self.new ≡ self.old) }
    {
        let prepared = self.prepare(alloc, format, csrcs, samples, moment)?;
        Ok(self.commit(prepared))
    }

    /// Passes a silent tick at this clock rate, which sends no packet. `moment` is in nanoseconds since 1970.
    ///
    /// Before the first packet it changes nothing. It takes no memory.
    pub fn pass(&mut self, rate: u32, moment: u64)
        ensures gives { GivesTick self.old self.new (silent rate moment) [] }
        ensures ssrc { self.new.ssrc ≡ self.old.ssrc }
    {
        self.pass_by_fields(rate, moment);
    }

    /// [`pass`](Self::pass), by the stream's fields.
    fn pass_by_fields(&mut self, rate: u32, moment: u64)
        ensures { self.new ≡ after_silence self.old rate moment }
    {
        self.spoke = false;
        self.ts = self.next_ts(rate);
        self.last = self.last.map(|_| TickTime { rate, moment });
    }

    /// The counts for a sender report, once a packet was sent. Silent ticks advance the timestamp and moment too.
    pub fn counts(&self) -> Option<Counts>
        ensures { (first_seq first_ts : ℕ) (ticks : List MixTick) → HasMixed self.now first_seq first_ts ticks
            → result ≡ mix_counts self.now.ssrc first_seq first_ts ticks }
    {
        self.last.map(|last| Counts {
            ssrc: self.ssrc,
            packets: self.packets,
            octets: self.octets,
            ts: self.ts,
            moment: last.moment,
            rate: last.rate,
        })
    }
}
