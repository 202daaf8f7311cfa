//! The known sources, an LRU cache.

ghost use Rattle.std.specs.Prelude.{◌≡◌, [], IfOk, OnOk, OnErr, IfSome, None, true, is_some, option_copied};
ghost use Rattle.std.specs.Prelude.{List};
ghost use Rattle.rtcp_codec.specs.View.{packet_of, packets_of};
ghost use Rattle.ingress.specs.Sources.{most_known, Known as KnownOf, retold};
ghost use Rattle.ingress.specs.Control.{heard_on, noted, noted_all};
ghost use Rattle.ingress.specs.Reported.{renewed};
ghost use Rattle.frame_gate.specs.Waits.{answer_in};
ghost use Rattle.ingress.specs.inner.SourceEntries.{EntryOf, base_of, gate_in, gate_for, Becomes};
ghost use Rattle.ingress.specs.inner.Freed.{freed_by};
ghost use Rattle.ingress.specs.inner.Holding.{Holds, kept_at, kept_for, key_of, put_first, WaitedAt};

use crate::admitting::commit_admission;
use crate::source_entry::{NextState, SourceEntry};
use frame_gate::{Frame, PreparedWait, Waited};
use lru::LruCache;
use rtcp_codec::Rtcp;
use rtp_codec::{Address, IpOctets};
use std::alloc::{AllocError, Allocator, Global};
use std::hash::{BuildHasherDefault, FoldHasher};
use std::marker::Model;
use std::num::NonZeroUsize;

/// The most known sources.
const MOST_KNOWN: usize = 4_096;

/// The key of a source: the parts of an address, and an SSRC.
#[derive(Clone, Copy, PartialEq, Eq, Hash)]
pub(crate) struct OriginKey {
    ip: IpOctets,
    port: u16,
    ssrc: u32,
}

/// The key of a source.
pub(crate) fn key_of(address: &Address, ssrc: u32) -> OriginKey
    ensures { result ≡ key_of (record { address = address.now; ssrc = ssrc }) }
{
    OriginKey {
        ip: address.octets(),
        port: address.port,
        ssrc,
    }
}

type Cache<A> = LruCache<OriginKey, SourceEntry<A>, BuildHasherDefault<FoldHasher>, A>;

/// The state of the sources that were used last. A source that exceeds the limit drops the least recently used one.
#[derive(Drop)]
pub(crate) struct Known<A: Allocator + Copy = Global> {
    cache: Cache<A>,
}

impl<A: Allocator + Copy> Model for Known<A> {
    ghost use Rattle.std.specs.Prelude.{◌≡◌, List};
    ghost use Rattle.ingress.specs.Sources.{most_known};
    ghost use Rattle.ingress.specs.declared.known.OriginKey.{OriginKey as OriginKeyOf};
    ghost use Rattle.ingress.specs.inner.SourceEntries.{EntryOf};

    ghost Value = { List (OriginKeyOf × EntryOf) };

    ghost view = { λ k. k.cache.entries };

    ghost invariant = { λ k. k.cache.cap ≡ most_known };
}

impl<A: Allocator + Copy> Known<A> {
    /// No known source. It preallocates for the most sources.
    pub(crate) fn new(alloc: A) -> Result<Self, AllocError>
        ensures { IfOk result (λ known. known ≡ []) }
    {
        let Some(most) = NonZeroUsize::new(MOST_KNOWN) else {
            unreachable!()
        };
        let cache = LruCache::new(alloc, most)?;
        Ok(Self { cache })
    }

    /// The state of a source.
    pub(crate) fn at(&self, key: &OriginKey) -> Option<&SourceEntry<A>>
        ensures { option_copied result ≡ kept_at key.now self.now }
    {
        self.cache.peek(key)
    }

    /// The state of a source, if it is kept at this clock rate, in Hz.
    // Timestamps of two clocks can't be compared, so a source that is judged at another rate begins anew. Until its
    // next packet comes, reports have its old state: only a datagram has the receive side look at the desk.
    pub(crate) fn at_rate(&self, key: &OriginKey, rate: u32) -> Option<&SourceEntry<A>>
        ensures { option_copied result ≡ kept_for key.now rate self.now }
    {
        match self.at(key) {
            None => None,
            Some(kept) => { if kept.rate == rate { Some(kept) } else { None } }
        }
    }

    /// Keeps a source that was unknown. Gives the frames that the packet frees.
    fn begin(
        &mut self,
        alloc: A,
        key: OriginKey,
        next: NextState<A>,
    ) -> Result<Vec<Frame<A>, A>, AllocError>
        requires new { kept_at key self.old ≡ None }
        requires ready { IfSome next.admission (λ a. is_some (base_of (gate_for None next.begins) a) ≡ true) }
        ensures becomes { OnOk result ((k : EntryOf) × Becomes None next k × (self.new ≡ put_first key k self.old)) }
        ensures frames { IfOk result (λ frames. frames.items ≡ freed_by next.admission) }
        ensures err { OnErr result (self.new ≡ self.old) }
    {
        let NextState {
            rate,
            source,
            epoch,
            begins: _,
            admission,
        } = next;
        let mut gate = None;
        let frames = commit_admission(alloc, &mut gate, admission);
        let kept = SourceEntry {
            rate,
            source,
            epoch,
            gate,
        };
        self.cache.put(key, kept)?;
        Ok(frames)
    }

    /// Puts the next state of a source in its place, as the most recently used. Gives the frames that the packet frees.
    /// Only an unknown source takes memory.
    #[inline(always)]
    pub(crate) fn put_next(
        &mut self,
        alloc: A,
        key: OriginKey,
        next: NextState<A>,
    ) -> Result<Vec<Frame<A>, A>, AllocError>
        requires ready { IfSome next.admission
            (λ a. is_some (base_of (gate_for (kept_for key next.rate self.old) next.begins) a) ≡ true) }
        ensures becomes { OnOk result ((k : EntryOf) × Becomes (kept_for key next.rate self.old) next k
            × (self.new ≡ put_first key k self.old)) }
        ensures frames { IfOk result (λ frames. frames.items ≡ freed_by next.admission) }
        ensures err { OnErr result (self.new ≡ self.old) }
    {
        match self.cache.get_mut(&key) {
            Some(kept) => Ok(kept.become_next(alloc, next)),
            None => self.begin(alloc, key, next),
        }
    }

    /// Notes a sender report, if its source is known and past probation. The order of use stays.
    fn hear_report(&mut self, from: &Address, ssrc: u32, ntp: u64, moment: u64)
        ensures { (known : List KnownOf) → Holds self.old known
            → Holds self.new
            (retold (record { address = from.now; ssrc = ssrc })
            (heard_on (record { ntp = ntp; moment = moment })) known) }
    {
        let key = key_of(from, ssrc);
        match self.cache.peek_mut(&key) {
            Some(kept) => kept.hear(ntp, moment),
            None => {}
        }
    }

    /// Begins a new interval of a source, if it is known and past probation. The order of use stays.
    pub(crate) fn renew(&mut self, from: &Address, ssrc: u32)
        ensures { (known : List KnownOf) → Holds self.old known
            → Holds self.new (retold (record { address = from.now; ssrc = ssrc }) renewed known) }
    {
        match self.cache.peek_mut(&key_of(from, ssrc)) {
            Some(kept) => kept.renew(),
            None => {}
        }
    }

    /// Commits a prepared wait at a source's gate. Gives the source's epoch and the gate's answer. The order of use
    /// stays, and this takes no memory.
    pub(crate) fn wait(&mut self, key: &OriginKey, prepared: PreparedWait<A>) -> (u64, Waited<A>)
        requires ready { is_some (gate_in (kept_at key.now self.old)) ≡ true }
        ensures answer { result.1 ≡ answer_in prepared }
        ensures waited { WaitedAt self.old self.new key.now prepared result.0 }
    {
        match self.cache.peek_mut(key) {
            Some(kept) => (kept.epoch, kept.wait(prepared)),
            None => unreachable!(),
        }
    }

    /// Notes a packet, if it is a sender report.
    fn hear_packet(&mut self, from: &Address, moment: u64, packet: &Rtcp<A>)
        ensures { (known : List KnownOf) → Holds self.old known
            → Holds self.new (noted from.now moment known (packet_of packet.now)) }
    {
        match packet {
            Rtcp::Sender(report) => self.hear_report(from, report.ssrc, report.ntp, moment),
            Rtcp::Receiver(_)
            | Rtcp::Sdes(_)
            | Rtcp::Bye(_)
            | Rtcp::App(_)
            | Rtcp::Nack(_)
            | Rtcp::Pli(_)
            | Rtcp::Other(_) => {}
        }
    }

    /// Notes the sender reports of a compound.
    pub(crate) fn hear_all(&mut self, from: &Address, moment: u64, packets: &[Rtcp<A>])
        ensures { (known : List KnownOf) → Holds self.old known
            → Holds self.new (noted_all from.now moment known (packets_of packets.now)) }
    {
        for packet in packets {
            self.hear_packet(from, moment, packet);
        }
    }
}
