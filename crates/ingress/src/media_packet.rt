//! A media packet on its way in, and where it comes from.

ghost use Rattle.std.specs.Prelude.{◌≡◌};
ghost use Rattle.ingress.specs.Media.{origin_of};
ghost use Rattle.ingress.specs.inner.MediaPackets.{incoming_of, origin_in};

use rtp_codec::{Address, RtpView};

/// A media packet, the address that it came from, and the moment when it came.
#[derive(Clone, Copy)]
pub(crate) struct MediaPacket<'a> {
    pub(crate) from: &'a Address,
    /// In nanoseconds since 1970.
    pub(crate) moment: u64,
    pub(crate) view: &'a RtpView<'a>,
}

/// A source: the address that its packets come from, and its SSRC.
#[derive(Clone, Copy)]
pub(crate) struct Origin {
    pub(crate) address: Address,
    pub(crate) ssrc: u32,
}

/// The source of a packet.
pub(crate) fn origin_of(incoming: MediaPacket<'_>) -> Origin
    ensures { origin_in result ≡ origin_of (incoming_of incoming.entry) }
{
    Origin {
        address: *incoming.from,
        ssrc: incoming.view.ssrc,
    }
}
