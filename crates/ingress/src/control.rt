//! Takes in RTCP compounds.

ghost use Rattle.std.specs.Prelude.{◌≡◌, ◌≢◌, ℕ, nat_lt, IfOk, OnOk, OnErr, Some};
ghost use Rattle.rtp_codec.specs.declared.class.Class.TheVariants as classes;
ghost use Rattle.rtcp_codec.specs.View.{packets_of};
ghost use Rattle.topology.specs.Looking.{member_from};
ghost use Rattle.ingress.specs.Readings.{IsOf};
ghost use Rattle.ingress.specs.Energy.{no_sound};
ghost use Rattle.ingress.specs.Ingested.{ingested_of, IsAbout};
ghost use Rattle.ingress.specs.Received.{IsReceived};
ghost use Rattle.ingress.specs.Taking.{of_member};
ghost use Rattle.ingress.specs.Ingresses.{Moves, TakesIn};
ghost use Rattle.ingress.specs.inner.Effects.{effect_of};

use crate::asking::asked_items;
use crate::ingest::{Effect, Ingest};
use crate::ingress::Ingress;
use crate::outcome::Outcome;
use crate::received::Received;
use crate::sound_count::SoundCount;
use desk_rows::Rows;
use rtcp_codec::{Rtcp, RtcpFault, read_compound};
use rtp_codec::Address;
use std::alloc::{AllocError, Allocator};
use topology::member_from;

/// The outcome of a datagram that is no compound. Out of memory is an error, not an outcome.
fn no_compound(fault: RtcpFault) -> Result<Outcome, AllocError>
    ensures fault { OnOk result (fault ≢ RtcpFault.OutOfMemory) }
    ensures outcome { IfOk result (λ outcome. outcome ≡ Outcome.BadRtcp fault) }
{
    match fault {
        RtcpFault::OutOfMemory => Err(AllocError),
        RtcpFault::Short => Ok(Outcome::BadRtcp(fault)),
        RtcpFault::Version => Ok(Outcome::BadRtcp(fault)),
        RtcpFault::First => Ok(Outcome::BadRtcp(fault)),
        RtcpFault::Length => Ok(Outcome::BadRtcp(fault)),
        RtcpFault::Padding => Ok(Outcome::BadRtcp(fault)),
        RtcpFault::Body => Ok(Outcome::BadRtcp(fault)),
    }
}

impl<A: Allocator + Copy> Ingress<A> {
    /// Takes in a member's compound.
    fn heard(
        &mut self,
        alloc: A,
        from: &Address,
        moment: u64,
        packets: &[Rtcp<A>],
    ) -> Result<Effect<A>, AllocError>
        ensures moves { (member : ℕ)
            → IfOk result
            (λ effect. Moves self.old self.new (effect_of effect)
            (λ voice s. of_member (Some member) from.now moment (packets_of packets.now) s)) }
        ensures about { IfOk result (λ effect. IsAbout from.now (effect_of effect)) }
        ensures begins { IfOk result (λ effect. effect.begins ≡ nat_lt self.old.epochs self.new.epochs) }
        ensures sound { IfOk result (λ effect. effect.sound ≡ no_sound) }
        ensures err { OnErr result (self.new ≡ self.old) }
        ensures asker { self.new.asker ≡ self.old.asker }
    {
        let items = asked_items(alloc, from, packets)?;
        self.known.hear_all(from, moment, packets);
        Ok(Effect {
            outcome: Outcome::Rtcp {
                packets: packets.len(),
            },
            begins: false,
            sound: SoundCount::nothing(),
            up: Vec::new(alloc),
            items,
        })
    }

    /// Takes in a compound. One from an address without a member is dropped.
    fn control(
        &mut self,
        alloc: A,
        rows: &Rows<A>,
        from: &Address,
        moment: u64,
        packets: &[Rtcp<A>],
    ) -> Result<Effect<A>, AllocError>
        ensures moves { IfOk result
            (λ effect. Moves self.old self.new (effect_of effect)
            (λ voice s. of_member (member_from rows.now from.now) from.now moment (packets_of packets.now) s)) }
        ensures about { IfOk result (λ effect. IsAbout from.now (effect_of effect)) }
        ensures begins { IfOk result (λ effect. effect.begins ≡ nat_lt self.old.epochs self.new.epochs) }
        ensures sound { IfOk result (λ effect. effect.sound ≡ no_sound) }
        ensures err { OnErr result (self.new ≡ self.old) }
        ensures asker { self.new.asker ≡ self.old.asker }
    {
        match member_from(rows, from) {
            None => Ok(Effect::only(alloc, Outcome::Unknown)),
            Some(_) => self.heard(alloc, from, moment, packets),
        }
    }

    /// Takes in a datagram whose first octets say RTCP.
    pub(crate) fn rtcp(
        &mut self,
        alloc: A,
        rows: &Rows<A>,
        from: &Address,
        moment: u64,
        octets: &[u8],
    ) -> Result<Ingest<A>, AllocError>
        requires { IsOf classes.Rtcp octets.now }
        ensures takes { IfOk result
            (λ ingest. TakesIn self.old self.new (ingested_of ingest) octets.now
            (λ r. record { desk = rows.now; from = from.now; moment = moment; reading = r })) }
        ensures about { IfOk result (λ ingest. IsAbout from.now (ingested_of ingest)) }
        ensures received { IfOk result (λ ingest. IsReceived rows.now from.now moment octets.now
            self.old.epochs self.new.epochs ingest.received) }
        ensures err { OnErr result (self.new ≡ self.old) }
        ensures asker { self.new.asker ≡ self.old.asker }
    {
        match read_compound(alloc, octets) {
            Err(fault) => {
                let outcome = no_compound(fault)?;
                let received = Received::new(alloc, from, moment, octets, None);
                Ok(Ingest::only(alloc, received, outcome))
            }
            Ok(packets) => {
                let effect = self.control(alloc, rows, from, moment, &packets)?;
                let mut received = Received::new(alloc, from, moment, octets, None);
                received.packets = packets;
                Ok(Ingest::of(received, effect))
            }
        }
    }
}
