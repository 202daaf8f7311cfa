//! What a datagram was. It is read once, and whoever counts, limits or traces it takes what was read by reference.

ghost use Rattle.std.specs.Prelude.{◌≡◌, false, None, length, IfSome, IfNone};
ghost use Rattle.rtp_codec.specs.declared.writing.Header.{Header as HeaderOf};
ghost use Rattle.rtp_codec.specs.Class.{class_of};
ghost use Rattle.rtp_codec.specs.View.{packet_of};
ghost use Rattle.ingress.specs.Energy.{no_sound};
ghost use Rattle.ingress.specs.Received.{HasHeader, received_so};

use crate::outcome::Outcome;
use crate::sound_count::SoundCount;
use desk_rows::Source;
use rtcp_codec::Rtcp;
use rtp_codec::{Address, Class, Header, RtpView, read};
use std::alloc::{Allocator, Global};

/// A datagram that was taken in: where it came from and when, what stands in it, whose it is, and its outcome.
#[derive(Drop)]
pub struct Received<A: Allocator + Copy = Global> {
    /// Where it came from.
    pub from: Address,
    /// When it came, in nanoseconds since 1970.
    pub moment: u64,
    /// How many octets it has.
    pub octets: u64,
    /// Its header, if it is an RTP packet.
    pub header: Option<Header>,
    /// The packets of a compound. One that is too long is not read, and has none here.
    pub packets: Vec<Rtcp<A>, A>,
    /// The row of the source that it is a packet of.
    pub source: Option<Source>,
    /// Its outcome.
    pub outcome: Outcome,
    /// Whether an epoch of its source begins with it.
    pub begins: bool,
    /// What is counted of its sound. All but an accepted packet of a source of sound has none.
    pub sound: SoundCount,
}

/// The header of a packet.
pub(crate) fn header_of(view: &RtpView<'_>) -> Header
    ensures { result ≡ (packet_of view.now).header }
{
    Header {
        marker: view.marker,
        pt: view.pt,
        seq: view.seq,
        ts: view.ts,
        ssrc: view.ssrc,
    }
}

/// The header of a datagram of this class, if it is an RTP packet.
pub(crate) fn header_in(class: Class, octets: &[u8]) -> Option<Header>
    requires class { class ≡ class_of octets.now }
    ensures found { IfSome result (HasHeader octets.now) }
    ensures none { IfNone result ((h : HeaderOf) → HasHeader octets.now h → ⊥) }
{
    match class {
        Class::Rtp => match read(octets) {
            Ok(view) => Some(header_of(&view)),
            Err(_) => None,
        },
        Class::Rtcp | Class::Neither => None,
    }
}

impl<A: Allocator + Copy> Received<A> {
    /// A datagram with these octets and this header, which came from an address at a moment. Of its source, its packets
    /// and its outcome nothing is known yet.
    pub(crate) fn new(
        alloc: A,
        from: &Address,
        moment: u64,
        octets: &[u8],
        header: Option<Header>,
    ) -> Self
        ensures { result ≡ received_so from.now moment (length octets.now) header result.packets None Outcome.Unknown
            false no_sound }
    {
        Self {
            from: *from,
            moment,
            octets: octets.len() as u64,
            header,
            packets: Vec::new(alloc),
            source: None,
            outcome: Outcome::Unknown,
            begins: false,
            sound: SoundCount::nothing(),
        }
    }

    /// No datagram: time passed for a source at an address, until a moment. It is as a datagram of no octets from an
    /// address that is no member's.
    pub fn silence(alloc: A, from: &Address, moment: u64) -> Self
        ensures { result ≡ received_so from.now moment 0 None result.packets None Outcome.Unknown false
            no_sound }
    {
        Self::new(alloc, from, moment, &[], None)
    }
}
