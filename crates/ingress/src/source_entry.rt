//! The state that the receive side keeps of a source.

ghost use Rattle.std.specs.Prelude.{◌≡◌, Some, true, is_some, IfSome};
ghost use Rattle.rtcp_codec.specs.Report.{FitsLost};
ghost use Rattle.ingress.specs.Stories.{Story};
ghost use Rattle.ingress.specs.Control.{heard_on};
ghost use Rattle.ingress.specs.Reported.{block_on, renewed};
ghost use Rattle.frame_gate.specs.Waits.{answer_in};
ghost use Rattle.ingress.specs.inner.SourceEntries.{Keeps, base_of, gate_for, kept_by, Becomes, HasWaited};
ghost use Rattle.ingress.specs.inner.Freed.{freed_by};

use crate::admitting::{Admission, commit_admission};
use frame_gate::{Frame, PreparedWait, Waited, WatchedGate};
use rtcp_codec::ReportBlock;
use source_valid::SourceState;
use std::alloc::{Allocator, Global};
use std::marker::Model;

/// A source with its clock rate, its epoch and its gate. The first packet that reaches the gate makes it.
#[derive(Drop)]
pub(crate) struct SourceEntry<A: Allocator + Copy = Global> {
    /// In Hz.
    pub(crate) rate: u32,
    pub(crate) source: SourceState,
    pub(crate) epoch: u64,
    pub(crate) gate: Option<WatchedGate<A>>,
}

impl<A: Allocator + Copy> Model for SourceEntry<A> {
    ghost use Rattle.ingress.specs.inner.SourceEntries.{EntryOf};

    ghost Value = { EntryOf };

    ghost view = { λ k. record { rate = k.rate; source = k.source; epoch = k.epoch; gate = k.gate } };
}

/// The next state of a source.
#[derive(Drop)]
pub(crate) struct NextState<A: Allocator + Copy = Global> {
    /// The clock rate, in Hz.
    pub(crate) rate: u32,
    pub(crate) source: SourceState,
    pub(crate) epoch: u64,
    /// Whether the epoch begins with the packet.
    pub(crate) begins: bool,
    /// The packet that is prepared for its gate.
    pub(crate) admission: Option<Admission<A>>,
}

impl<A: Allocator + Copy> Model for NextState<A> {
    ghost use Rattle.ingress.specs.inner.SourceEntries.{NextOf};

    ghost Value = { NextOf };

    ghost view = { λ n. record {
      rate = n.rate;
      source = n.source;
      epoch = n.epoch;
      begins = n.begins;
      admission = n.admission;
    } };
}

impl<A: Allocator + Copy> SourceEntry<A> {
    /// Moves to the next state, and gives the frames that the packet frees. At another clock rate the gate is dropped.
    /// This takes no memory.
    #[inline(always)]
    pub(crate) fn become_next(&mut self, alloc: A, next: NextState<A>) -> Vec<Frame<A>, A>
        requires ready { IfSome next.admission
            (λ a. is_some (base_of (gate_for (kept_by next.rate (Some self.old)) next.begins) a) ≡ true) }
        ensures becomes { Becomes (kept_by next.rate (Some self.old)) next self.new }
        ensures frames { result.items ≡ freed_by next.admission }
    {
        let NextState {
            rate,
            source,
            epoch,
            begins,
            admission,
        } = next;
        if begins || self.rate != rate {
            self.gate = None;
        }
        self.rate = rate;
        self.source = source;
        self.epoch = epoch;
        commit_admission(alloc, &mut self.gate, admission)
    }

    /// Notes a sender report, if the source is past probation.
    pub(crate) fn hear(&mut self, ntp: u64, moment: u64)
        ensures { (story : Story) → Keeps self.old story
            → Keeps self.new (heard_on (record { ntp = ntp; moment = moment }) story) }
    {
        if self.source.past_probation() {
            self.source.sender_report(ntp, moment);
        }
    }

    /// The report block at a moment, if the source is past probation.
    pub(crate) fn block(&self, ssrc: u32, moment: u64) -> Option<ReportBlock>
        ensures block { (story : Story) → Keeps self.now story → result ≡ block_on ssrc moment story }
        ensures fits { IfSome result (λ b. FitsLost b.lost) }
    {
        let mut source = self.source;
        if !source.past_probation() {
            return None;
        }
        Some(source.block(ssrc, moment))
    }

    /// Begins a new interval, if the source is past probation.
    pub(crate) fn renew(&mut self)
        ensures { (story : Story) → Keeps self.old story → Keeps self.new (renewed story) }
    {
        let source = &mut self.source;
        if source.past_probation() {
            // The block was made before.
            source.block(0, 0);
        }
    }

    /// Commits a prepared wait at the gate. This takes no memory.
    pub(crate) fn wait(&mut self, prepared: PreparedWait<A>) -> Waited<A>
        requires ready { is_some self.old.gate ≡ true }
        ensures answer { result ≡ answer_in prepared }
        ensures waited { HasWaited self.old.gate prepared self.new.gate }
        ensures same { self.new ≡ record self.old { gate = self.new.gate } }
    {
        match &mut self.gate {
            Some(gate) => gate.wait(prepared),
            None => unreachable!(),
        }
    }
}
