//! Lanes: each has its share of the outgoing streams.

ghost use Rattle.std.specs.Prelude.{◌≡◌, ◌+◌, ◌-◌, ◌<◌, ◌≤◌, ◌^◌, ◌↔◌, true, map, [], IfOk, OnOk, OnErr};
ghost use Rattle.bridge_core.specs.Calls.{most_lanes};
ghost use Rattle.media_items.specs.Inputs.{input_of, is_sized};
ghost use Rattle.ingress.specs.Names.{is_name};
ghost use Rattle.bridge_core.specs.Sent.{sent_of};
ghost use Rattle.bridge_core.specs.LaneState.{HasHandled, Handles};

use crate::egress::Egress;
use crate::fault::LaneFault;
use crate::parts::LaneParts;
use crate::visit::LaneVisit;
use desk_rows::Rows;
use ingress::Settings;
use media_items::{Item, LanePlace, Stamp};
use std::alloc::{AllocError, Allocator, Global};
use std::marker::Model;

/// The most lanes that there may be.
pub const LANES: u32 = 16;

/// A lane (media worker): its outgoing streams, and a jitter buffer for each audio source.
///
/// Its streams are those whose SSRC modulo the number of lanes is its own number. Give it every item, in order, by
/// [`step`](Self::step), with the desk's rows and their version.
#[derive(Drop)]
pub struct LaneState<A: Allocator + Copy = Global> {
    place: LanePlace,
    settings: Settings<A>,
    handled: u64,
    parts: LaneParts<A>,
}

impl<A: Allocator + Copy> Model for LaneState<A> {
    ghost use Rattle.std.specs.Prelude.{◌≡◌, true};
    ghost use Rattle.ingress.specs.Names.{is_name};
    ghost use Rattle.bridge_core.specs.LaneState.{LaneOf};

    ghost Value = { LaneOf };

    ghost view = { λ s. record {
      lane = s.place.lane;
      lanes = s.place.lanes;
      who = record { ssrc = s.settings.bridge_ssrc; cname = s.settings.cname };
      handled = s.handled;
      video = s.parts.video;
      audio = s.parts.audio;
    } };

    ghost invariant = { λ s. is_name s.settings.cname ≡ true };
}

impl<A: Allocator + Copy> LaneState<A> {
    /// A lane that has handled nothing.
    pub fn new(alloc: A, lane: u32, lanes: u32, settings: Settings<A>) -> Result<Self, AllocError>
        requires lane { lane < lanes }
        requires lanes { lanes ≤ most_lanes }
        requires name { is_name settings.cname ≡ true }
        ensures nothing_handled { IfOk result (λ state. HasHandled state []) }
        ensures place { IfOk result (λ state. (state.lane ≡ lane) × (state.lanes ≡ lanes)) }
        ensures who { IfOk result
            (λ state. state.who ≡ record { ssrc = settings.bridge_ssrc; cname = settings.cname }) }
    {
        let parts = LaneParts::new(alloc)?;
        Ok(Self {
            place: LanePlace { lane, lanes },
            settings,
            handled: 0,
            parts,
        })
    }

    /// The lane's number among its lanes, from 0.
    pub fn lane(&self) -> u32
        ensures { result ≡ self.now.lane }
    {
        self.place.lane
    }

    /// Handles one more item by a version of the desk, and returns what is to be sent. A refusal changes nothing.
    ///
    /// Audio has 1 sample to 200 ms, at 8000 or 44100 Hz.
    pub fn step(
        &mut self,
        alloc: A,
        version: u64,
        rows: &Rows<A>,
        item: &Item<A>,
    ) -> Result<Vec<Egress<A>, A>, LaneFault>
        requires sized { is_sized (input_of item.now) ≡ true }
        ensures sends { IfOk result
            (λ sent. Handles self.old self.new version rows.now (input_of item.now) (map sent_of sent.items)) }
        ensures place { (self.new.lane ≡ self.old.lane) × (self.new.lanes ≡ self.old.lanes)
            × (self.new.who ≡ self.old.who) }
        ensures count { OnOk result (self.new.handled ≡ self.old.handled + 1) }
        ensures spent { (result ≡ Err LaneFault.Spent) ↔ (self.old.handled ≡ 2 ^ 64 - 1) }
        ensures err { OnErr result (self.new ≡ self.old) }
    {
        if self.handled == u64::MAX {
            return Err(LaneFault::Spent);
        }
        let stamp = Stamp {
            version,
            item: self.handled + 1,
        };
        let visit = LaneVisit {
            stamp,
            place: self.place,
            rows,
            settings: &self.settings,
        };
        let sent = self.parts.answer(alloc, &visit, item)?;
        self.handled += 1;
        Ok(sent)
    }
}
