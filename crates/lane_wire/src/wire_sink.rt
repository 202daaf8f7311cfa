//! A sink that sends over a wire.

ghost use Rattle.std.specs.Prelude.{◌≡◌, ◌∷◌, ◌++◌, [], length, map, false, List, None, Some};
ghost use Rattle.std.specs.declared.alloc.Global.{Global as Heap};
ghost use Rattle.rtrb.specs.declared.consumer.Consumer.{Consumer};
ghost use Rattle.rtrb.specs.declared.AnyItems.{AnyItems};
ghost use Rattle.bridge_core.specs.declared.egress.Egress.{Egress as AnEgress};
ghost use Rattle.media_workers.specs.LaneRuns.{Versioned, handled_by};
ghost use Rattle.udp_wire.specs.Attempts.{datagrams_of};
ghost use Rattle.lane_wire.specs.Logs.{taken_list, step_list};
ghost use Rattle.lane_wire.specs.Handlings.{versioned_item, handed_on, HasAll, GoesOn};
ghost use Rattle.lane_wire.specs.Counted.{no_counts};
ghost use Rattle.lane_wire.specs.Sendings.{so_far, WereSent};
ghost use Rattle.lane_wire.specs.Sinks.{AskedForAll};

use crate::counts::{SendCounts, octets_in};
use crate::handled::Handled;
use crate::lane_trace::{LaneHandled, LaneTrace};
use crate::sending::{LaneWire, Trial, is_unready, patience, send_patiently};
use crate::shared_counts::SharedCounts;
use crate::taken::Taken;
use crate::wire_log::WireLog;
use bridge_core::Egress;
use media_workers::{LaneItem, Sink};
use std::alloc::Global;
use std::marker::Model;
use std::sync::{Arc, Wait};

/// What a sink took, how much of that was sent, and what was done on its wire.
#[derive(Drop)]
pub struct LaneSent {
    /// What it took, in proofs alone.
    pub taken: Taken,
    /// How many datagrams of that were sent, and how many were not.
    pub counts: SendCounts,
    /// What was done on its wire, in proofs alone.
    pub asked: WireLog,
}

/// A sink that sends each datagram, in the order in which they are put. It counts each for its stream, and of notes it
/// keeps the last one of each stream.
///
/// Where the wire isn't ready, it makes a pause and tries the same datagram again, for 20 ms at most. A datagram that
/// is given up, or fails otherwise, is counted by its cause, and the next one is sent. After one that was given up it
/// makes no pauses until the wire is ready again, so that a lane isn't held up by a wire that never is.
///
/// Contracts see its wire, what it took, and what it counts. At any time, all that was done on the wire is to send the
/// datagrams of what the sink took, each once and in order.
#[derive(Drop)]
pub struct WireSink<W: LaneWire + Drop> {
    /// Where it sends.
    wire: W,
    /// What it took, in proofs alone.
    taken: Taken,
    /// How many datagrams of that were sent, and how many were not.
    counts: SendCounts,
    /// Whether the last datagram was given up since the wire wasn't ready.
    is_stuck: bool,
    /// What it was told that its lane handled.
    handled: LaneHandled,
    /// Where others read the counts.
    shown: Arc<SharedCounts, Global>,
}

impl<W: LaneWire + Drop> Model for WireSink<W> {
    ghost use Rattle.lane_wire.specs.Logs.{taken_list};
    ghost use Rattle.lane_wire.specs.Sinks.{SinkOf, HaveSent};

    ghost Value = { SinkOf W };

    ghost view = { λ s. record {
      wire = s.wire;
      taken = taken_list s.taken;
      counts = s.counts;
      is_stuck = s.is_stuck;
      handled = s.handled;
    } };

    ghost invariant = { λ s. HaveSent (taken_list s.taken) (W.steps s.wire) s.counts s.is_stuck };
}

impl<W: LaneWire + Drop> WireSink<W> {
    /// A sink that took nothing, over a wire on which nothing was done. It shows its counts, and drops what its lane
    /// handled.
    pub fn new(wire: W, shown: Arc<SharedCounts, Global>) -> Self
        requires unused { W.steps wire ≡ [] }
        ensures wire { result.wire ≡ wire }
        ensures taken { result.taken ≡ [] }
        ensures counts { result.counts ≡ no_counts }
        ensures ready { result.is_stuck ≡ false }
        ensures handled { result.handled ≡ record { handled = []; trace = None } }
    {
        Self::of_parts(wire, shown, LaneHandled::new(None))
    }

    /// The same, but for what its lane handled: the sink hands that on by this, which was handed nothing yet. Where it
    /// is full, the sink gives it up and goes on without waiting.
    pub fn traced(wire: W, shown: Arc<SharedCounts, Global>, trace: LaneTrace) -> Self
        requires fresh { handed_on trace ≡ [] }
        requires unused { W.steps wire ≡ [] }
        ensures wire { result.wire ≡ wire }
        ensures taken { result.taken ≡ [] }
        ensures counts { result.counts ≡ no_counts }
        ensures ready { result.is_stuck ≡ false }
        ensures handled { result.handled ≡ record { handled = []; trace = Some trace } }
    {
        Self::of_parts(wire, shown, LaneHandled::new(Some(trace)))
    }

    /// A sink that took nothing, with this of what its lane handled.
    fn of_parts(wire: W, shown: Arc<SharedCounts, Global>, handled: LaneHandled) -> Self
        requires { W.steps wire ≡ [] }
        ensures wire { result.wire ≡ wire }
        ensures taken { result.taken ≡ [] }
        ensures counts { result.counts ≡ no_counts }
        ensures ready { result.is_stuck ≡ false }
        ensures handled { result.handled ≡ handled }
    {
        Self {
            wire,
            taken: Taken::new(),
            counts: SendCounts::new(),
            is_stuck: false,
            handled,
            shown,
        }
    }

    /// How many datagrams of what it took were sent, and how many were not.
    pub fn counts(&self) -> SendCounts
        ensures { result ≡ self.now.counts }
    {
        self.counts
    }

    /// What it took, how much of that was sent, and what was done on its wire: each datagram of what it took was sent
    /// once, in order, and nothing else was done.
    pub fn into_sent(self) -> LaneSent
        ensures taken { taken_list result.taken ≡ self.taken }
        ensures counts { result.counts ≡ self.counts }
        ensures steps { step_list result.asked ≡ W.steps self.wire }
        ensures asked { AskedForAll result }
    {
        let asked = self.wire.into_log();
        LaneSent {
            taken: self.taken,
            counts: self.counts,
            asked,
        }
    }

    /// Sends the datagram of an egress that is no note, counts what came of it, and notes that the egress was taken.
    fn send<R: Wait>(&mut self, rt: &R, egress: &Egress)
        requires { length (datagrams_of egress.now) ≡ 1 }
        ensures sent { WereSent (datagrams_of egress.now)
            (so_far (W.steps self.old.wire) self.old.counts self.old.is_stuck)
            (so_far (W.steps self.new.wire) self.new.counts self.new.is_stuck) }
        ensures taken { self.new.taken ≡ self.old.taken ++ egress.now ∷ [] }
        ensures handled { self.new.handled ≡ self.old.handled }
    {
        let most = patience(self.is_stuck);
        let Trial { pauses, answer } = send_patiently(rt, &mut self.wire, egress, most);
        self.is_stuck = is_unready(answer);
        self.counts.count_pauses(pauses);
        self.counts.count_answer(octets_in(egress), answer);
        self.shown.show(&self.counts, pauses > 0 || answer.is_err());
        self.shown.count(rt, egress, answer);
        self.taken.note(egress);
    }

    /// Counts a note for its stream, and notes that it was taken. Nothing is sent.
    fn count_note<R: Wait>(&mut self, rt: &R, note: &Egress)
        requires { datagrams_of note.now ≡ [] }
        ensures sent { WereSent (datagrams_of note.now)
            (so_far (W.steps self.old.wire) self.old.counts self.old.is_stuck)
            (so_far (W.steps self.new.wire) self.new.counts self.new.is_stuck) }
        ensures taken { self.new.taken ≡ self.old.taken ++ note.now ∷ [] }
        ensures handled { self.new.handled ≡ self.old.handled }
    {
        self.shown.count(rt, note, Ok(()));
        self.taken.note(note);
    }
}

impl<W: LaneWire + Drop> Sink for WireSink<W> {
    ghost taken = { λ s. s.taken };

    ghost feeds = { λ s c. ⊥ };

    ghost heard = { λ s l. l ≡ map versioned_item s.handled.handled };

    fn put<R: Wait>(&mut self, rt: &R, egress: Egress)
        ensures taken { self.new.taken ≡ self.old.taken ++ egress ∷ [] }
        ensures feeds { (c : Consumer (AnEgress Heap) Heap AnyItems) → ⊥ → ⊥ }
        ensures heard { (l : List Versioned) → l ≡ map versioned_item self.old.handled.handled →
            l ≡ map versioned_item self.new.handled.handled }
        ensures handled { self.new.handled ≡ self.old.handled }
        ensures sent { WereSent (datagrams_of egress)
            (so_far (W.steps self.old.wire) self.old.counts self.old.is_stuck)
            (so_far (W.steps self.new.wire) self.new.counts self.new.is_stuck) }
    {
        match &egress {
            Egress::Media { .. } | Egress::Control { .. } => self.send(rt, &egress),
            Egress::Note { .. } => self.count_note(rt, &egress),
        }
    }

    fn handled<R: Wait>(&mut self, _rt: &R, version: u64, item: LaneItem)
        ensures taken { self.new.taken ≡ self.old.taken }
        ensures feeds { (c : Consumer (AnEgress Heap) Heap AnyItems) → ⊥ → ⊥ }
        ensures heard { (l : List Versioned) → l ≡ map versioned_item self.old.handled.handled →
            l ++ handled_by version item ∷ [] ≡ map versioned_item self.new.handled.handled }
        ensures handled { self.new.handled.handled
            ≡ self.old.handled.handled ++ record { version = version; item = item } ∷ [] }
        ensures all { HasAll self.new.handled.handled self.new.handled.trace }
        ensures trace { GoesOn self.old.handled.trace self.new.handled.trace }
        ensures sent { self.new ≡ record self.old { handled = self.new.handled } }
    {
        self.handled.note(Handled { version, item });
    }
}
