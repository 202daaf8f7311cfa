//! A packet that was read.

/// An RTP packet (RFC 3550 section 5.1) that borrows its parts from the datagram.
#[derive(Clone, Copy)]
pub struct RtpView<'a> {
    /// The marker bit. For video it ends a frame.
    pub marker: bool,
    /// The payload type, at most 127.
    pub pt: u8,
    /// The sequence number.
    pub seq: u16,
    /// The RTP timestamp, in units of the payload's clock.
    pub ts: u32,
    /// The synchronisation source.
    pub ssrc: u32,
    /// The contributing sources: at most 15, each four octets in network order.
    pub csrcs: &'a [u8],
    /// The header extension: the 16 bits that the profile defines, and the octets of its 32-bit words.
    pub extension: Option<(u16, &'a [u8])>,
    /// The payload, without padding. It may be empty.
    pub payload: &'a [u8],
    /// The octets of padding behind the payload, 0 to 255.
    pub padding: u8,
}
