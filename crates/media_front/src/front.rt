//! The front of a bridge whose lanes run on threads.

ghost use Rattle.std.specs.Prelude.{◌≡◌, ◌↔◌, ◌<◌, ◌≤◌, true, length, map, Some, OnErr, IfOk, slice_get};
ghost use Rattle.std.specs.Bool.{MatchBool};
ghost use Rattle.media_items.specs.Inputs.{Input};
ghost use Rattle.ingress.specs.Received.{IsReceived};
ghost use Rattle.bridge_core.specs.Calls.{most_lanes};
ghost use Rattle.media_workers.specs.Bridges.{AllEnded};
ghost use Rattle.udp_wire.specs.Pacing.{tick_gap, most_ticks, is_behind, report_due, after_report};
ghost use Rattle.media_front.specs.FedLanes.{FedLane, ports_in, owing_notice, after_signal, AreGiven, AllAreGiven};
ghost use Rattle.media_front.specs.LeftOut.{none_limited};
ghost use Rattle.media_front.specs.Prices.{pli_octets};
ghost use Rattle.media_front.specs.Tries.{WereTried};
ghost use Rattle.media_front.specs.Fronts.{HasTaken, MayHaveTaken, HasReported, ticks_due, after_ticks, until_tick};

use crate::feed::LaneFeed;
use crate::limiting::none_limited;
use crate::timer_item::TimerItem;
use crate::trying::try_all;
use bridge_core::{Ingress, Received};
use bridge_stats::Limited;
use desk_rows::Rows;
use media_workers::{LaneEnd, Pace, PublisherName, Sink};
use published_desk::Notice;
use rate_limiter::RateLimiter;
use rtp_codec::Address;
use std::alloc::Global;
use std::marker::Model;
use std::sync::Wait;
use std::thread::Threads;
use udp_wire::{FrontFault, ReportTimer, Ticks, Wire};

/// How many nanoseconds lie between two ticks.
const TICK_GAP: u64 = 20_000_000;

/// The most ticks that are made up for.
const MOST_TICKS: u32 = 50;

/// The front of a bridge whose lanes run on threads: the receive side, the lanes, the rate limiter and what that left
/// out, and when ticks and reports are due. It is not `Drop`: end it by [`MediaFront::close`].
///
/// Contracts see these six. Moments are nanoseconds since 1970.
pub struct MediaFront<N: PublisherName, P: Pace, S: Sink> {
    pub(crate) ingress: Ingress,
    pub(crate) feed: LaneFeed<N, P, S>,
    pub(crate) limiter: RateLimiter,
    /// What the rate limiter left out.
    pub(crate) limited: Limited,
    /// How many octets a PLI costs the address that it comes from.
    pub(crate) pli_cost: u64,
    ticks: Ticks,
    reports: ReportTimer,
}

impl<N: PublisherName, P: Pace, S: Sink> Model for MediaFront<N, P, S> {
    ghost use Rattle.std.specs.Prelude.{◌≡◌};
    ghost use Rattle.media_front.specs.Prices.{pli_octets};
    ghost use Rattle.media_front.specs.Fronts.{FrontOf};

    ghost Value = { FrontOf P S };

    ghost view = { λ f. record {
      ingress = f.ingress;
      feed = f.feed;
      limiter = f.limiter;
      limited = f.limited;
      ticks = f.ticks;
      reports = f.reports;
    } };

    ghost invariant = { λ f. f.pli_cost ≡ pli_octets f.ingress.asker };
}

impl<N: PublisherName, P: Pace, S: Sink> MediaFront<N, P, S> {
    /// A front whose ticks are counted from the start of these reports. `pli_cost` is how many octets pass a PLI on, as
    /// [`pli_octets`](crate::pli_octets) counts them.
    pub fn new(
        ingress: Ingress,
        feed: LaneFeed<N, P, S>,
        limiter: RateLimiter,
        pli_cost: u64,
        reports: ReportTimer,
    ) -> Self
        requires cost { pli_cost ≡ pli_octets ingress.asker }
        ensures { result ≡ record {
          ingress = ingress;
          feed = feed;
          limiter = limiter;
          limited = none_limited;
          ticks = record { start = reports.last; had = 0 };
          reports = reports;
        } }
    {
        Self {
            ingress,
            feed,
            limiter,
            limited: none_limited(),
            pli_cost,
            ticks: Ticks {
                start: reports.last,
                had: 0,
            },
            reports,
        }
    }

    /// Each lane's next parcel carries this notice, in place of one that the lane was owed.
    pub fn tell(&mut self, notice: Notice)
        requires publisher { notice.publisher ≡ N.publisher }
        ensures { self.new ≡ record self.old { feed = map (owing_notice notice) self.old.feed } }
    {
        self.feed.tell(notice);
    }

    /// Takes in a datagram from an address at a moment, and returns what it was. The rows say whose it is. Then:
    ///
    /// - A datagram of a member refills the tokens of its octets.
    /// - The front tries to send what the receive side asks the sender for, in order. Each of these datagrams costs its
    ///   octets. One that its address has too few tokens for is dropped.
    /// - Every lane is given each item. A NACK keeps as many of its first numbers as the limiter grants. A NACK, a
    ///   report block or a PLI is left out if the limiter grants it nothing. A PLI also costs its sender the octets
    ///   that pass it on, and is left out if the sender has too few tokens. What is left out is counted.
    ///
    /// On out of memory, the only error, nothing is sent, and no lane is given an item. The receive side may have taken
    /// the datagram in.
    pub fn datagram<W: Wire>(
        &mut self,
        alloc: Global,
        rows: &Rows,
        from: &Address,
        moment: u64,
        octets: &[u8],
        wire: &mut W,
    ) -> Result<Received, FrontFault>
        ensures takes { IfOk result (λ received. HasTaken
            (record { desk = rows.now; from = from.now; moment = moment; octets = octets.now }) received.outcome
            self.old self.new (W.attempts wire.old) (W.attempts wire.new)) }
        ensures received { IfOk result (IsReceived rows.now from.now moment octets.now
            self.old.ingress.epochs self.new.ingress.epochs) }
        ensures err { OnErr result (self.new ≡ record self.old { ingress = self.new.ingress }) }
        ensures unsent { OnErr result (W.attempts wire.new ≡ W.attempts wire.old) }
        ensures ingress { OnErr result (MayHaveTaken
            (record { desk = rows.now; from = from.now; moment = moment; octets = octets.now })
            self.old.ingress self.new.ingress) }
        ensures same { self.new ≡ record self.old {
          ingress = self.new.ingress;
          feed = self.new.feed;
          limiter = self.new.limiter;
          limited = self.new.limited;
        } }
        ensures asker { self.new.ingress.asker ≡ self.old.ingress.asker }
    {
        let ingest = self.ingress.datagram(alloc, rows, from, moment, octets)?;
        let received = self.handle(alloc, ingest, wire)?;
        Ok(received)
    }

    /// Gives every lane the ticks that are due: one for each whole 20 ms since the start, oldest first, and of more
    /// than 50 the last 50. It takes no memory. Returns whether any was due.
    pub fn tick(&mut self, now: u64) -> bool
        ensures due { result ≡ is_behind self.old.ticks now }
        ensures given { AllAreGiven (map Input.tick (ticks_due most_ticks self.old.ticks now))
            self.old.feed self.new.feed }
        ensures ticks { self.new.ticks ≡ after_ticks most_ticks self.old.ticks now }
        ensures same { self.new ≡ record self.old { feed = self.new.feed; ticks = self.new.ticks } }
    {
        let is_due = self.ticks.is_due(now);
        self.tick_most(MOST_TICKS, now);
        is_due
    }

    /// How many nanoseconds pass until the next tick is due, at most 20 ms: 0 if one is due now.
    pub fn until_tick(&self, now: u64) -> u64
        ensures until { result ≡ until_tick self.now.ticks now }
        ensures due { result ≡ 0 ↔ is_behind self.now.ticks now ≡ true }
        ensures few { result ≤ tick_gap }
    {
        if self.ticks.is_due(now) {
            return 0;
        }
        TICK_GAP - now.saturating_sub(self.ticks.start) % TICK_GAP
    }

    /// Gives every lane the ticks that are due, at most `most` of them.
    fn tick_most(&mut self, most: u32, now: u64)
        ensures given { AllAreGiven (map Input.tick (ticks_due most self.old.ticks now)) self.old.feed self.new.feed }
        ensures ticks { self.new.ticks ≡ after_ticks most self.old.ticks now }
        ensures same { self.new ≡ record self.old { feed = self.new.feed; ticks = self.new.ticks } }
    {
        for _ in 0..most {
            let Some(moment) = self.ticks.due(now) else {
                return;
            };
            self.feed.give_timer_item(TimerItem::Tick { moment });
        }
    }

    /// Once the interval has passed since the last report or the start, tries to send the receiver reports, in order,
    /// and then gives every lane a report. Returns whether a report was due.
    ///
    /// Reports cost no tokens. They answer no datagram, and time bounds them.
    ///
    /// On out of memory, the only error, nothing changes and nothing is sent.
    pub fn report<W: Wire>(
        &mut self,
        alloc: Global,
        rows: &Rows,
        now: u64,
        wire: &mut W,
    ) -> Result<bool, FrontFault>
        ensures due { IfOk result (λ due. due ≡ report_due self.old.reports now) }
        ensures reported { IfOk result (λ due. MatchBool due
            (HasReported rows.now now self.old self.new (W.attempts wire.old) (W.attempts wire.new))
            ((self.new ≡ self.old) × (W.attempts wire.new ≡ W.attempts wire.old))) }
        ensures timer { IfOk result (λ due. self.new.reports ≡ after_report self.old.reports now) }
        ensures same { self.new ≡ record self.new { limiter = self.old.limiter; ticks = self.old.ticks } }
        ensures asker { self.new.ingress.asker ≡ self.old.ingress.asker }
        ensures err { OnErr result ((self.new ≡ self.old) × (W.attempts wire.new ≡ W.attempts wire.old)) }
    {
        let mut timer = self.reports;
        if !timer.due(now) {
            return Ok(false);
        }
        let up = self.ingress.reports(alloc, rows, now)?;
        self.reports = timer;
        try_all(&up, wire);
        self.feed.give_timer_item(TimerItem::Report { moment: now });
        Ok(true)
    }

    /// Has every lane begin its jitter buffers anew after late or full sound, from here on. It takes no memory. Call it
    /// once, before anything else is given: then each ring has a place for it.
    pub fn renew(&mut self)
        ensures given { AreGiven self.old.feed Input.renew self.new.feed }
        ensures same { self.new ≡ record self.old { feed = self.new.feed } }
    {
        self.feed.give_timer_item(TimerItem::Renew);
    }

    /// Raises the signal of each lane that accepted something other than sound since it was raised last, or 256
    /// parcels: for all that it accepted. So sound alone waits for the next tick.
    pub fn signal<R: Wait>(&mut self, rt: &R)
        ensures { self.new ≡ record self.old { feed = map after_signal self.old.feed } }
    {
        self.feed.signal(rt);
    }

    /// What the rate limiter left out so far, in part or whole, of what members asked for and reported.
    pub fn limited(&self) -> Limited
        ensures { result ≡ self.now.limited }
    {
        self.limited
    }

    /// Whether any lane has ended. No contract speaks of the answer for lanes on threads.
    pub fn has_ended(&self) -> bool {
        self.feed.has_ended()
    }

    /// How many lanes there are.
    pub fn lanes(&self) -> u32
        ensures count { result ≡ length self.now.feed }
        ensures few { result ≤ most_lanes }
    {
        self.feed.count()
    }

    /// How many parcels a lane accepted: the items that it was given.
    pub fn given(&self, lane: u32) -> u64
        requires lane { lane < length self.now.feed }
        ensures { (x : FedLane _ _) → slice_get self.now.feed lane ≡ Some x → result ≡ x.given }
    {
        self.feed.given(lane)
    }

    /// How many parcels were dropped for a lane, since its ring had too few free places for them.
    pub fn dropped(&self, lane: u32) -> u64
        requires lane { lane < length self.now.feed }
        ensures { (x : FedLane _ _) → slice_get self.now.feed lane ≡ Some x → result ≡ x.dropped }
    {
        self.feed.dropped(lane)
    }

    /// Opens each signal, gives each lane its `End`, and waits for the lanes' threads.
    pub fn close<R: Threads + Wait>(self, rt: &R) -> Vec<LaneEnd<N, S>>
        ensures ended { AllEnded P.answers S.taken (ports_in self.feed) result.items }
    {
        let MediaFront {
            ingress: _,
            feed,
            limiter: _,
            limited: _,
            pli_cost: _,
            ticks: _,
            reports: _,
        } = self;
        feed.close(rt)
    }
}
