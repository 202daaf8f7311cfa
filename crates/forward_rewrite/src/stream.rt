//! Outgoing video streams.

ghost use Rattle.std.specs.Prelude.{◌≡◌, ◌≤◌, ℕ, List, [], ◌++◌, length, IfOk, OnErr, option_copied};
ghost use Rattle.std.specs.List.{AllByRecursion};
ghost use Rattle.retransmit.specs.Window.{window_size, latest, resend_of};
ghost use Rattle.forward_rewrite.specs.Sending.{Sending, sending_of, IsOf};
ghost use Rattle.forward_rewrite.specs.Streams.{state_of, counts_of, committed, HasSent, SendsNext, GivesNext};
ghost use Rattle.forward_rewrite.specs.inner.Counters.{ts_after, IsPrepared};
ghost use Rattle.forward_rewrite.specs.inner.Row.{MayGoOn};

use crate::counts::Counts;
use crate::last_sent::LastSent;
use crate::packets::{Shared, entries_of, out_packets, payload_octets};
use crate::prepared::PreparedFrame;
use crate::sending::OutPacket;
use media_items::{MediaFrame, Stamp};
use retransmit::{Entry, Owner, Window};
use std::alloc::{AllocError, Allocator, Global};
use std::marker::Model;

/// The clock rate of video timestamps, in Hz.
const RATE: u32 = 90000;

/// An outgoing video stream. It numbers its packets in a row, has timestamps of its own, and keeps its last 512
/// packets.
///
/// For each frame, call [`prepare`](Self::prepare) and [`commit`](Self::commit), or [`send`](Self::send).
#[derive(Drop)]
pub struct Stream<A: Allocator + Copy = Global> {
    ssrc: u32,
    /// The timestamp of the first frame.
    first_ts: u32,
    /// The number of the next packet.
    next: u16,
    /// The packets that it has sent, modulo 2^32.
    packets: u32,
    /// The octets of payload that they had, modulo 2^32.
    octets: u32,
    last: Option<LastSent>,
    window: Window<A>,
}

impl<A: Allocator + Copy> Model for Stream<A> {
    ghost use Rattle.forward_rewrite.specs.Streams.{StreamOf};
    ghost use Rattle.forward_rewrite.specs.inner.Row.{IsKept};

    ghost Value = { StreamOf };

    ghost view = { λ s. record {
      ssrc = s.ssrc;
      first_ts = s.first_ts;
      next = s.next;
      packets = s.packets;
      octets = s.octets;
      last = s.last;
      window = s.window;
    } };

    ghost invariant = { λ s. IsKept s.window s.next };
}

/// Pushes packets that were sent. The window keeps the last 512.
fn push_sent<A: Allocator + Copy>(window: &mut Window<A>, entries: Vec<Entry<A>, A>)
    requires few { length window.old ≤ window_size }
    requires goes_on { MayGoOn window.old entries.items }
    ensures { window.new ≡ latest window_size (window.old ++ entries.items) }
{
    for entry in entries {
        window.push(entry);
    }
}

impl<A: Allocator + Copy> Stream<A> {
    /// A stream that has sent nothing. Its first packet will have this number, and its first frame this timestamp, at
    /// 90000 Hz.
    ///
    /// It allocates for the 512 packets that it keeps. The only error is out of memory.
    pub fn new(alloc: A, ssrc: u32, first_seq: u16, first_ts: u32) -> Result<Self, AllocError>
        ensures { IfOk result (λ s. s ≡ state_of ssrc first_seq first_ts []) }
    {
        let window = Window::new(alloc)?;
        Ok(Stream {
            ssrc,
            first_ts,
            next: first_seq,
            packets: 0,
            octets: 0,
            last: None,
            window,
        })
    }

    /// The SSRC of its packets.
    pub fn ssrc(&self) -> u32
        ensures { result ≡ self.now.ssrc }
    {
        self.ssrc
    }

    /// The counts for a sender report, once a frame was sent. Resends don't count.
    pub fn counts(&self) -> Option<Counts>
        ensures { (first_seq first_ts : ℕ) (sendings : List Sending) → HasSent self.now first_seq first_ts sendings
            → result ≡ counts_of self.now.ssrc first_ts sendings }
    {
        self.last.map(|last| Counts {
            ssrc: self.ssrc,
            packets: self.packets,
            octets: self.octets,
            ts: last.ts(),
            moment: last.moment(),
            rate: RATE,
        })
    }

    /// The timestamp of the next frame.
    fn ts_for(&self, frame: &MediaFrame<A>) -> u32
        ensures { result ≡ ts_after self.now.first_ts self.now.last frame.now }
    {
        let first_ts = self.first_ts;
        match &self.last {
            None => first_ts,
            Some(last) => last.ts_for(frame),
        }
    }

    /// Makes the packets of the next frame, for this receiver. The stream stays as it is until
    /// [`commit`](Self::commit).
    ///
    /// The payloads are shared. The only error is out of memory.
    pub fn prepare(
        &self,
        alloc: A,
        frame: &MediaFrame<A>,
        stamp: Stamp,
        owner: Owner,
    ) -> Result<PreparedFrame<A>, AllocError>
        ensures sends { IfOk result
            (λ p. SendsNext self.now (committed self.now p) (sending_of frame.now stamp owner) p.packets) }
        ensures first { IfOk result (λ p. p.first ≡ self.now.next) }
        ensures count { IfOk result (λ p. length p.packets ≡ length frame.now.frame.packets) }
        ensures whose { IfOk result (λ p. AllByRecursion (IsOf (sending_of frame.now stamp owner)) p.packets) }
    {
        self.prepare_by_fields(alloc, frame, stamp, owner)
    }

    /// [`prepare`](Self::prepare), by the stream's fields.
    fn prepare_by_fields(
        &self,
        alloc: A,
        frame: &MediaFrame<A>,
        stamp: Stamp,
        owner: Owner,
    ) -> Result<PreparedFrame<A>, AllocError>
        ensures { IfOk result (λ p. IsPrepared self.now (sending_of frame.now stamp owner) p) }
    {
        let whole = &frame.frame;
        let ts = self.ts_for(frame);
        let shared = Shared {
            ssrc: self.ssrc,
            ts,
            stamp,
            owner,
        };
        let entries = entries_of(alloc, &shared, self.next, frame, whole.sent())?;
        Ok(PreparedFrame {
            first: self.next,
            next: self.next.wrapping_add(whole.len()),
            octets: payload_octets(whole.sent()),
            last: LastSent::new(frame, ts),
            entries,
        })
    }

    /// Sends a prepared frame: the stream goes on behind it, and keeps its packets. This takes no memory.
    ///
    /// The stream must be as it was when the frame was prepared. Copy what is to go out before, from
    /// [`PreparedFrame::packets`].
    pub fn commit(&mut self, prepared: PreparedFrame<A>)
        requires { prepared.first ≡ self.old.next }
        ensures { self.new ≡ committed self.old prepared }
    {
        let PreparedFrame {
            first: _,
            next,
            octets,
            last,
            entries,
        } = prepared;
        self.next = next;
        self.packets = self
            .packets
            .wrapping_add((entries.len() % 4_294_967_296) as u32);
        self.octets = self.octets.wrapping_add(octets);
        self.last = Some(last);
        push_sent(&mut self.window, entries);
    }

    /// Prepares and commits the next frame. On out of memory, the only error, the stream stays as it was.
    pub fn send(
        &mut self,
        alloc: A,
        frame: &MediaFrame<A>,
        stamp: Stamp,
        owner: Owner,
    ) -> Result<Vec<OutPacket<A>, A>, AllocError>
        ensures sends { IfOk result (λ out. GivesNext self.old self.new (sending_of frame.now stamp owner) out.items) }
        ensures count { IfOk result (λ out. length out.items ≡ length frame.now.frame.packets) }
        ensures ssrc { self.new.ssrc ≡ self.old.ssrc }
        ensures err { OnErr result (self.new ≡ self.old) }
    {
        let prepared = self.prepare(alloc, frame, stamp, owner)?;
        let out = out_packets(alloc, prepared.packets())?;
        self.commit(prepared);
        Ok(out)
    }

    /// The packet that went to this owner under this number, if it is among the last 512.
    ///
    /// Nobody but the owner gets it.
    pub fn find(&self, number: u16, owner: &Owner) -> Option<&Entry<A>>
        ensures { option_copied result ≡ resend_of number owner.now self.now.window }
    {
        self.window.find(number, owner)
    }
}
