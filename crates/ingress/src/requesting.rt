//! Makes the datagrams that ask a source for packets or a picture.

ghost use Rattle.std.specs.Prelude.{◌≡◌, ◌≤◌, [], ◌∷◌, length, IfOk, map};
ghost use Rattle.std.specs.List.{AllByRecursion};
ghost use Rattle.sender_feedback.specs.Upstream.{most_words};
ghost use Rattle.ingress.specs.Ingested.{datagram_of};
ghost use Rattle.ingress.specs.inner.MediaPackets.{origin_in};
ghost use Rattle.ingress.specs.Taking.{Voice, IsVoice, asking, asked_of, picture_request};

use crate::ingress::Ingress;
use crate::media_packet::Origin;
use crate::settings::Settings;
use rtp_codec::Address;
use sender_feedback::upstream;
use std::alloc::{AllocError, Allocator};

fn one_datagram<A: Allocator + Copy>(
    alloc: A,
    to: &Address,
    octets: Vec<u8, A>,
) -> Result<Vec<(Address, Vec<u8, A>), A>, AllocError>
    ensures { IfOk result (λ up. map datagram_of up.items ≡ (to.now, octets.items) ∷ []) }
{
    let mut up = Vec::with_capacity(alloc, 1)?;
    up.push_reserved((*to, octets));
    Ok(up)
}

impl<A: Allocator + Copy> Ingress<A> {
    /// The octets that ask a source for packets, a picture or both.
    fn asking(
        &self,
        alloc: A,
        source: u32,
        nacks: &[i64],
        pli: bool,
    ) -> Result<Vec<u8, A>, AllocError>
        requires { length nacks.now ≤ most_words }
        ensures { (voice : Voice) → IsVoice voice → voice.asker ≡ self.now.asker
            → IfOk result (λ octets. octets.items ≡ asking voice source nacks.now pli) }
    {
        let Settings { bridge_ssrc, cname } = &self.settings;
        upstream(alloc, *bridge_ssrc, cname, source, nacks, pli)
    }

    /// The datagram for a source, if it is asked for anything.
    pub(crate) fn asked(
        &self,
        alloc: A,
        origin: Origin,
        nacks: &[i64],
        pli: bool,
    ) -> Result<Vec<(Address, Vec<u8, A>), A>, AllocError>
        requires { length nacks.now ≤ most_words }
        ensures asked { (voice : Voice) → IsVoice voice → voice.asker ≡ self.now.asker
            → IfOk result
            (λ up. map datagram_of up.items
            ≡ asked_of voice (origin_in origin) nacks.now pli) }
        ensures about { IfOk result
            (λ up. AllByRecursion (λ d. d.0 ≡ origin.address) (map datagram_of up.items)) }
    {
        if nacks.is_empty() && !pli {
            return Ok(Vec::new(alloc));
        }
        let octets = self.asking(alloc, origin.ssrc, nacks, pli)?;
        one_datagram(alloc, &origin.address, octets)
    }

    /// The datagram that asks a source for a picture, by a PLI (RFC 4585 section 6.3.1), with the address that it goes
    /// to. The receive side need not know the source. The only error is out of memory.
    pub fn picture_request(
        &self,
        alloc: A,
        to: &Address,
        ssrc: u32,
    ) -> Result<(Address, Vec<u8, A>), AllocError>
        ensures { IfOk result (λ up.
            datagram_of up ≡ picture_request self.now.asker (record { address = to.now; ssrc = ssrc })) }
    {
        let Settings { bridge_ssrc, cname } = &self.settings;
        let octets = upstream(alloc, *bridge_ssrc, cname, ssrc, &[], true)?;
        Ok((*to, octets))
    }
}
