//! Pictures that senders are asked for, where no datagram of theirs is the cause.

ghost use Rattle.std.specs.Prelude.{◌≡◌, IfOk, OnErr};
ghost use Rattle.media_front.specs.Pictures.{HasAsked};

use crate::front::MediaFront;
use crate::paying::try_one;
use media_workers::{Pace, PublisherName, Sink};
use rtp_codec::Address;
use std::alloc::Global;
use udp_wire::{FrontFault, Wire};

impl<N: PublisherName, P: Pace, S: Sink> MediaFront<N, P, S> {
    /// Asks the sender of a video source for a picture, by a PLI (RFC 4585 section 6.3.1). The front tries to send it
    /// if the address has tokens for its octets. Returns whether it had.
    ///
    /// Ask so where a slot was given the source: no picture can be seen before the next key frame. On out of memory,
    /// the only error, nothing changes and nothing is sent.
    pub fn ask_picture<W: Wire>(
        &mut self,
        alloc: Global,
        to: &Address,
        ssrc: u32,
        wire: &mut W,
    ) -> Result<bool, FrontFault>
        ensures asked { IfOk result (λ sent. HasAsked (record { address = to.now; ssrc = ssrc }) sent
            self.old self.new (W.attempts wire.old) (W.attempts wire.new)) }
        ensures same { self.new ≡ record self.old { limiter = self.new.limiter } }
        ensures err { OnErr result ((self.new ≡ self.old) × (W.attempts wire.new ≡ W.attempts wire.old)) }
    {
        let request = self.ingress.picture_request(alloc, to, ssrc)?;
        Ok(try_one(&mut self.limiter, &request, wire))
    }
}
