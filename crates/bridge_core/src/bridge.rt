//! The desk and the lanes together.

ghost use Rattle.std.specs.Prelude.{◌≡◌, ◌+◌, ◌<◌, ◌≤◌, ◌≢◌, ◌↔◌, true, [], ◌∷◌};
ghost use Rattle.std.specs.Prelude.{map, length, None, Some, IfOk, IfErr, OnOk, OnErr};
ghost use Rattle.desk_rows.specs.Desk.{blank, good};
ghost use Rattle.desk_edit.specs.Asked.{asked_by};
ghost use Rattle.desk_edit.specs.Calls.{CallHistory, no_calls};
ghost use Rattle.media_items.specs.Inputs.{input_of, is_sized};
ghost use Rattle.ingress.specs.Sources.{no_sources};
ghost use Rattle.ingress.specs.Ingested.{ingested_of, answered_of, datagram_of};
ghost use Rattle.ingress.specs.Names.{is_name};
ghost use Rattle.ingress.specs.Ingresses.{Knows, TakesIn, WaitsFor, TellsSenders};
ghost use Rattle.bridge_core.specs.Sent.{sent_of};
ghost use Rattle.bridge_core.specs.Sound.{AreFresh};
ghost use Rattle.bridge_core.specs.Steps.{CoreOf, HasTaken, Takes, Step, IsSpent};
ghost use Rattle.bridge_core.specs.Following.{HasCalled, IsAnswered};
ghost use Rattle.bridge_core.specs.Calls.{core_fault, most_lanes, Answers, OnAccepted};

use crate::egress::Egress;
use crate::fault::{CoreFault, LaneFault};
use crate::lane::{LANES, LaneState};
use desk_calls::{Desk, Reply};
use desk_edit::Call;
use desk_rows::Rows;
use ingress::{Ingest, Ingress, Settings, WaitAnswer};
use media_items::Item;
use rtp_codec::Address;
use std::alloc::{AllocError, Allocator, Global};
use std::marker::Model;

/// The desk with its history, the receive side, and the lanes that send by the desk.
///
/// There are three kinds of calls, and they may come in any order.
///
/// - [`desk`](Self::desk) changes the desk: version n is the desk after n accepted calls.
/// - [`datagram`](Self::datagram), [`wait`](Self::wait) and [`reports`](Self::reports) ask the receive side. They
///   change neither desk nor lanes. Give each item of a datagram or a wait to every lane, in order.
/// - [`item`](Self::item) lets a lane handle an item, and returns what it sends.
#[derive(Drop)]
pub struct Core<A: Allocator + Copy = Global> {
    desk: Desk<A>,
    lanes: Vec<LaneState<A>, A>,
    ingress: Ingress<A>,
}

impl<A: Allocator + Copy> Model for Core<A> {
    ghost use Rattle.bridge_core.specs.Steps.{CoreOf};
    ghost use Rattle.bridge_core.specs.Sound.{HavePlaces};

    ghost Value = { CoreOf };

    ghost view = { λ c. record {
      version = c.desk.version;
      history = c.desk.history;
      desk = c.desk.desk;
      done = c.desk.done;
      undone = c.desk.undone;
      lanes = c.lanes.items;
      ingress = c.ingress;
    } };

    ghost invariant = { λ c. HavePlaces c.lanes.items c.ingress.asker };
}

impl<A: Allocator + Copy> Core<A> {
    /// A bridge without rooms, with 1 to 16 lanes.
    pub fn new(alloc: A, lanes: u32, settings: Settings<A>) -> Result<Self, CoreFault>
        ensures fresh { IfOk result (λ core. HasTaken core (blank settings.bridge_ssrc) []) }
        ensures begins { IfOk result (λ core. good core.desk ≡ true) }
        ensures history { IfOk result (λ core. HasCalled core (no_calls (blank settings.bridge_ssrc))) }
        ensures lists { IfOk result (λ core. (core.done ≡ []) × (core.undone ≡ [])) }
        ensures lanes { IfOk result (λ core. length core.lanes ≡ lanes) }
        ensures sources { IfOk result (λ core. Knows core.ingress no_sources) }
        ensures asker { IfOk result
            (λ core. core.ingress.asker ≡ record { ssrc = settings.bridge_ssrc; cname = settings.cname }) }
        ensures good { OnOk result (core_fault lanes settings.cname ≡ None) }
        ensures fault { IfErr result
            (λ fault. fault ≢ CoreFault.OutOfMemory → core_fault lanes settings.cname ≡ Some fault) }
        ensures memory { result ≡ Err CoreFault.OutOfMemory → core_fault lanes settings.cname ≡ None }
    {
        if lanes == 0 || lanes > LANES {
            return Err(CoreFault::BadLanes);
        }
        if !settings.is_good() {
            return Err(CoreFault::BadSettings);
        }
        let Ok(rows) = Rows::new(alloc, settings.bridge_ssrc) else {
            return Err(CoreFault::OutOfMemory);
        };
        let Ok(states) = lane_states(alloc, lanes, &settings) else {
            return Err(CoreFault::OutOfMemory);
        };
        let Ok(ingress) = Ingress::new(alloc, settings) else {
            return Err(CoreFault::OutOfMemory);
        };
        Ok(Self {
            desk: Desk::new(alloc, rows),
            lanes: states,
            ingress,
        })
    }

    /// The rows of the desk.
    pub fn rows(&self) -> &Rows<A>
        ensures { result.now ≡ self.now.desk }
    {
        self.desk.rows()
    }

    /// How many calls of the desk were accepted.
    pub fn version(&self) -> u64
        ensures { result ≡ self.now.version }
    {
        self.desk.version()
    }

    /// How many lanes there are.
    pub fn lanes(&self) -> usize
        ensures { result ≡ length self.now.lanes }
    {
        self.lanes.len()
    }

    /// Answers an operator's call. The operator's number has no effect. `Desk::prepare` of desk_calls gives the order
    /// of the checks.
    pub fn desk(&mut self, alloc: A, _op: u8, call: Call<A>) -> Reply
        ensures answer { Answers self.old self.new (asked_by call) result }
        ensures takes { OnAccepted result (Takes self.old self.new (Step.publish self.new.desk) []) }
        ensures good { good self.new.desk ≡ true }
        ensures history { (h : CallHistory) → HasCalled self.old h → IsAnswered h self.new (asked_by call) result }
        ensures ingress { self.new.ingress ≡ self.old.ingress }
    {
        match self.desk.prepare(alloc, &call) {
            Ok(prepared) => Reply::Accepted {
                no: self.desk.commit(&call, prepared),
            },
            Err(why) => Reply::Refused {
                at: self.desk.version(),
                why,
            },
        }
    }

    /// Lets a lane handle an item by the present version of the desk. On an `Err` nothing changes.
    ///
    /// Audio has 1 sample to 200 ms, at 8000 or 44100 Hz, as the receive side's items have.
    pub fn item(
        &mut self,
        alloc: A,
        lane: u32,
        item: &Item<A>,
    ) -> Result<Vec<Egress<A>, A>, LaneFault>
        requires lane { lane < length self.old.lanes }
        requires sized { is_sized (input_of item.now) ≡ true }
        ensures takes { IfOk result
            (λ sent. Takes self.old self.new (Step.item lane (input_of item.now)) (map sent_of sent.items ∷ [])) }
        ensures spent { (result ≡ Err LaneFault.Spent) ↔ IsSpent self.old lane }
        ensures err { OnErr result (self.new ≡ self.old) }
        ensures lanes { length self.new.lanes ≡ length self.old.lanes }
        ensures desk { (self.new.version ≡ self.old.version) × (self.new.desk ≡ self.old.desk) }
        ensures history { (self.new.done ≡ self.old.done) × (self.new.undone ≡ self.old.undone)
            × (self.new.history ≡ self.old.history) }
        ensures ingress { self.new.ingress ≡ self.old.ingress }
    {
        let rows = self.desk.rows();
        self.lanes[lane as usize].step(alloc, self.desk.version(), rows, item)
    }

    /// Takes in a datagram that came from an address at a moment, in nanoseconds since 1970.
    ///
    /// Returns what it was, the datagrams to send back, and the items to give to every lane, in order. On out of
    /// memory, the only error, nothing changes.
    pub fn datagram(
        &mut self,
        alloc: A,
        from: &Address,
        moment: u64,
        octets: &[u8],
    ) -> Result<Ingest<A>, AllocError>
        ensures takes { IfOk result (λ ingest.
            TakesIn self.old.ingress self.new.ingress (ingested_of ingest) octets.now
            (λ r. record { desk = self.old.desk; from = from.now; moment = moment; reading = r })) }
        ensures others { (self.new.version ≡ self.old.version) × (self.new.desk ≡ self.old.desk)
            × (self.new.done ≡ self.old.done) × (self.new.undone ≡ self.old.undone)
            × (self.new.lanes ≡ self.old.lanes) × (self.new.history ≡ self.old.history) }
        ensures asker { self.new.ingress.asker ≡ self.old.ingress.asker }
        ensures err { OnErr result (self.new ≡ self.old) }
    {
        let rows = self.desk.rows();
        self.ingress.datagram(alloc, rows, from, moment, octets)
    }

    /// Tells the gate of a video source that time has passed, as [`Ingress::wait`] says. Call it every 20 ms for each
    /// video source of the desk.
    ///
    /// Returns the datagrams to send back, and the frames to give to every lane, in order. `moment` is in nanoseconds
    /// since 1970. On out of memory, the only error, nothing changes.
    pub fn wait(
        &mut self,
        alloc: A,
        from: &Address,
        ssrc: u32,
        moment: u64,
    ) -> Result<WaitAnswer<A>, AllocError>
        ensures waits { IfOk result (λ answer. WaitsFor self.old.ingress self.new.ingress (answered_of answer)
            self.old.desk (record { address = from.now; ssrc = ssrc }) moment) }
        ensures others { (self.new.version ≡ self.old.version) × (self.new.desk ≡ self.old.desk)
            × (self.new.done ≡ self.old.done) × (self.new.undone ≡ self.old.undone)
            × (self.new.lanes ≡ self.old.lanes) × (self.new.history ≡ self.old.history) }
        ensures asker { self.new.ingress.asker ≡ self.old.ingress.asker }
        ensures err { OnErr result (self.new ≡ self.old) }
    {
        let rows = self.desk.rows();
        self.ingress.wait(alloc, rows, from, ssrc, moment)
    }

    /// The bridge's receiver reports (RFC 3550 section 6.4.2) at a moment, in nanoseconds since 1970.
    ///
    /// Each member with a known source past probation gets one datagram, with a block for each such source. These
    /// sources begin a new interval. On out of memory, the only error, nothing changes.
    pub fn reports(
        &mut self,
        alloc: A,
        moment: u64,
    ) -> Result<Vec<(Address, Vec<u8, A>), A>, AllocError>
        ensures tells { IfOk result
            (λ up. TellsSenders self.old.ingress self.new.ingress (map datagram_of up.items) self.old.desk moment) }
        ensures others { (self.new.version ≡ self.old.version) × (self.new.desk ≡ self.old.desk)
            × (self.new.done ≡ self.old.done) × (self.new.undone ≡ self.old.undone)
            × (self.new.lanes ≡ self.old.lanes) × (self.new.history ≡ self.old.history) }
        ensures asker { self.new.ingress.asker ≡ self.old.ingress.asker }
        ensures err { OnErr result (self.new ≡ self.old) }
    {
        let rows = self.desk.rows();
        self.ingress.reports(alloc, rows, moment)
    }
}

/// The lanes of a bridge, in order. None has handled anything.
fn lane_states<A: Allocator + Copy>(
    alloc: A,
    lanes: u32,
    settings: &Settings<A>,
) -> Result<Vec<LaneState<A>, A>, AllocError>
    requires lanes { lanes ≤ most_lanes }
    requires name { is_name settings.now.cname ≡ true }
    ensures fresh { IfOk result
        (λ v. AreFresh lanes (record { ssrc = settings.now.bridge_ssrc; cname = settings.now.cname }) v.items) }
    ensures count { IfOk result (λ v. length v.items ≡ lanes) }
{
    let mut states = Vec::with_capacity(alloc, lanes as usize)?;
    for lane in 0..lanes {
        let state = LaneState::new(alloc, lane, lanes, settings.try_clone()?)?;
        states.push(state)?;
    }
    Ok(states)
}
