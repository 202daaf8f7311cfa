//! What is done with the receive side's answer to a datagram or to a wait.

ghost use Rattle.std.specs.Prelude.{◌≡◌, IfOk, OnOk, OnErr};
ghost use Rattle.ingress.specs.Ingested.{ingested_of, IsAbout};
ghost use Rattle.media_front.specs.Fronts.{Arrival, HasHandled};
ghost use Rattle.media_front.specs.inner.Plans.{IsOfArrival};

use crate::front::MediaFront;
use crate::giving::share_all;
use crate::planning::{Plan, plan_for};
use crate::trying::try_all;
use bridge_core::{Ingest, Received};
use media_workers::{Pace, PublisherName, Sink};
use std::alloc::{AllocError, Global};
use udp_wire::Wire;

impl<N: PublisherName, P: Pace, S: Sink> MediaFront<N, P, S> {
    /// Does what the receive side answered to a datagram: refills the tokens of its octets, tries to send what is paid
    /// for, gives every lane what is granted of the items, and counts what is left out. Returns what the datagram was.
    ///
    /// On out of memory, the only error, nothing changes and nothing is sent.
    pub(crate) fn handle<W: Wire>(
        &mut self,
        alloc: Global,
        ingest: Ingest,
        wire: &mut W,
    ) -> Result<Received, AllocError>
        requires about { IsAbout ingest.received.from (ingested_of ingest) }
        ensures handled { OnOk result ((arrival : Arrival) → IsOfArrival arrival ingest.received
            → HasHandled arrival (ingested_of ingest)
            self.old self.new (W.attempts wire.old) (W.attempts wire.new)) }
        ensures received { IfOk result (λ received. received ≡ ingest.received) }
        ensures err { OnErr result ((self.new ≡ self.old) × (W.attempts wire.new ≡ W.attempts wire.old)) }
        ensures same { self.new ≡ record self.old {
          feed = self.new.feed;
          limiter = self.new.limiter;
          limited = self.new.limited;
        } }
    {
        let planned = plan_for(alloc, &self.limiter, self.limited, self.pli_cost, ingest)?;
        let Plan {
            ingest,
            draft,
            limited,
        } = planned;
        let Ingest {
            received,
            up,
            items,
        } = ingest;
        let shared = share_all(alloc, items)?;
        self.limiter.put_back(draft)?;
        self.limited = limited;
        try_all(&up, wire);
        self.feed.hand_out_all(&shared);
        Ok(received)
    }
}
