//! The receive side: its state, and the way of a datagram.
//!
//! A media packet goes on in `media`, then in `advancing` for its source, in `gating` for the source's gate, and in
//! `requesting` for what the source is asked for. A compound goes on in `control`, and a wait in `waiting`. Receiver
//! reports are made in `reporting`.

ghost use Rattle.std.specs.Prelude.{◌≡◌, true, map, IfOk, OnErr};
ghost use Rattle.desk_rows.specs.Desk.{good};
ghost use Rattle.ingress.specs.Names.{is_name};
ghost use Rattle.ingress.specs.Sources.{no_sources};
ghost use Rattle.ingress.specs.Ingested.{ingested_of, answered_of, datagram_of, IsAbout};
ghost use Rattle.ingress.specs.Received.{IsReceived};
ghost use Rattle.ingress.specs.Ingresses.{Knows, TakesIn, WaitsFor, TellsSenders};

use crate::ingest::{Ingest, WaitAnswer};
use crate::known::Known;
use crate::media_packet::Origin;
use crate::outcome::Outcome;
use crate::payloads::PayloadBlock;
use crate::received::{Received, header_in};
use crate::reporting::sources_of;
use crate::settings::Settings;
use desk_rows::{Media, Rows};
use rtp_codec::{Address, Class, classify};
use std::alloc::{AllocError, Allocator, Global};
use std::marker::Model;
use topology::source_from;

/// The most octets of a datagram.
const MOST_OCTETS: usize = 8_192;

/// The receive side. It judges each datagram, and turns it into items for the lanes and datagrams for its sender.
///
/// Contracts see the sources that it knows, as a function of the datagrams, waits and reports so far.
#[derive(Drop)]
pub struct Ingress<A: Allocator + Copy = Global> {
    pub(crate) settings: Settings<A>,
    pub(crate) known: Known<A>,
    /// Buffers for the payloads of video.
    pub(crate) payloads: PayloadBlock<A>,
    /// The number of epochs that have begun.
    pub(crate) epochs: u64,
}

impl<A: Allocator + Copy> Model for Ingress<A> {
    ghost use Rattle.std.specs.Prelude.{◌≡◌, true};
    ghost use Rattle.ingress.specs.Names.{is_name};
    ghost use Rattle.ingress.specs.inner.Holding.{IngressOf};

    ghost Value = { IngressOf };

    ghost view = { λ i. record {
      asker = record { ssrc = i.settings.bridge_ssrc; cname = i.settings.cname };
      entries = i.known;
      epochs = i.epochs;
    } };

    ghost invariant = { λ i. is_name i.settings.cname ≡ true };
}

impl<A: Allocator + Copy> Ingress<A> {
    /// A receive side that knows no source. The canonical name has 1 to 255 octets. The only error is out of memory.
    pub fn new(alloc: A, settings: Settings<A>) -> Result<Self, AllocError>
        requires { is_name settings.cname ≡ true }
        ensures knows { IfOk result (λ ingress. Knows ingress no_sources) }
        ensures asker { IfOk result
            (λ ingress. ingress.asker ≡ record { ssrc = settings.bridge_ssrc; cname = settings.cname }) }
    {
        let known = Known::new(alloc)?;
        Ok(Self {
            settings,
            known,
            payloads: PayloadBlock::new(alloc),
            epochs: 0,
        })
    }

    /// Takes in a datagram. The rows say whose it is. The answer says what it was: it is read here, and nowhere else.
    ///
    /// `from` is the address that it came from, and `moment` is in nanoseconds since 1970. On out of memory, the only
    /// error, nothing changes.
    pub fn datagram(
        &mut self,
        alloc: A,
        rows: &Rows<A>,
        from: &Address,
        moment: u64,
        octets: &[u8],
    ) -> Result<Ingest<A>, AllocError>
        ensures takes { IfOk result
            (λ ingest. TakesIn self.old self.new (ingested_of ingest) octets.now
            (λ r. record { desk = rows.now; from = from.now; moment = moment; reading = r })) }
        ensures about { IfOk result (λ ingest. IsAbout from.now (ingested_of ingest)) }
        ensures received { IfOk result (λ ingest. IsReceived rows.now from.now moment octets.now
            self.old.epochs self.new.epochs ingest.received) }
        ensures err { OnErr result (self.new ≡ self.old) }
        ensures asker { self.new.asker ≡ self.old.asker }
    {
        let class = classify(octets);
        if octets.len() > MOST_OCTETS {
            let header = header_in(class, octets);
            let received = Received::new(alloc, from, moment, octets, header);
            return Ok(Ingest::only(alloc, received, Outcome::TooLong));
        }
        match class {
            Class::Neither => {
                let received = Received::new(alloc, from, moment, octets, None);
                Ok(Ingest::only(alloc, received, Outcome::Neither))
            }
            Class::Rtp => self.rtp(alloc, rows, from, moment, octets),
            Class::Rtcp => self.rtcp(alloc, rows, from, moment, octets),
        }
    }

    /// Tells the gate of a video source that time has passed. Call it every 20 ms for each video source of the desk.
    ///
    /// A call asks again for each packet that was missing at 2, 5, 11 or 21 calls before it, by one NACK (RFC 4585
    /// section 6.2.1). It gives up the packets that were missing at 25 calls before it, or at 5 while the source
    /// doesn't answer NACKs. Then it also asks for a picture, by a PLI (RFC 4585 section 6.3.1), and the frames that
    /// this sets free are its items, with this moment. What it asks for goes to `from` in one datagram.
    ///
    /// Nothing comes of the call, and nothing changes, unless the desk has a video source of this SSRC of a member at
    /// the address `from`, and a packet of its epoch has come to its gate. The order of use stays in any case.
    ///
    /// `moment` is in nanoseconds since 1970. On out of memory, the only error, nothing changes.
    pub fn wait(
        &mut self,
        alloc: A,
        rows: &Rows<A>,
        from: &Address,
        ssrc: u32,
        moment: u64,
    ) -> Result<WaitAnswer<A>, AllocError>
        ensures waits { IfOk result (λ answer. WaitsFor self.old self.new (answered_of answer) rows.now
            (record { address = from.now; ssrc = ssrc }) moment) }
        ensures about { IfOk result (λ answer. IsAbout from.now (answered_of answer)) }
        ensures err { OnErr result (self.new ≡ self.old) }
        ensures asker { self.new.asker ≡ self.old.asker }
    {
        let Some(source) = source_from(rows, ssrc, from) else {
            return Ok(WaitAnswer::nothing(alloc));
        };
        match source.media {
            Media::Audio => Ok(WaitAnswer::nothing(alloc)),
            Media::Video => {
                let origin = Origin {
                    address: *from,
                    ssrc,
                };
                self.video_wait(alloc, origin, moment)
            }
        }
    }

    /// Makes the bridge's receiver reports (RFC 3550 section 6.4.2), and begins a new interval for each reported
    /// source.
    ///
    /// Each member gets one datagram at its address, by place of the member. It has a block for each of the member's
    /// sources that is known at this address and past probation, by SSRC; muted ones too. A member without such a
    /// source gets none.
    ///
    /// `moment` is in nanoseconds since 1970. On out of memory, the only error, nothing changes.
    pub fn reports(
        &mut self,
        alloc: A,
        rows: &Rows<A>,
        moment: u64,
    ) -> Result<Vec<(Address, Vec<u8, A>), A>, AllocError>
        ensures tells { IfOk result (λ up. TellsSenders self.old self.new (map datagram_of up.items) rows.now moment) }
        ensures err { OnErr result (self.new ≡ self.old) }
        ensures asker { self.new.asker ≡ self.old.asker }
        ensures good { good rows.now ≡ true }
    {
        let sources = sources_of(alloc, rows)?;
        let up = self.told_to(alloc, rows.members(), &sources, moment)?;
        self.known.renew_all(rows, &sources);
        Ok(up)
    }
}
