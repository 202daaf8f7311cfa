//! The kinds of outcomes, each with its name.

ghost use Rattle.std.specs.Prelude.{◌≡◌};
ghost use Rattle.ingress.specs.OutcomeKinds.{rtp_kind, rtcp_kind, kind_name};

use rtcp_codec::RtcpFault;
use rtp_codec::RtpFault;

/// The kind of an outcome: its name, without the numbers that it carries. The faults of the two codecs are kinds.
#[derive(Clone, Copy)]
pub enum OutcomeKind {
    /// Dropped: over 8,192 octets.
    TooLong,
    /// Dropped: neither RTP nor RTCP.
    Neither,
    /// Dropped: RTP under 12 octets.
    RtpShort,
    /// Dropped: RTP of another version.
    RtpVersion,
    /// Dropped: RTP whose contributing sources pass the end.
    RtpCsrc,
    /// Dropped: RTP whose header extension passes the end.
    RtpExtension,
    /// Dropped: RTP with padding that may not be.
    RtpPadding,
    /// Dropped: RTCP under 4 octets.
    RtcpShort,
    /// Dropped: RTCP of another version.
    RtcpVersion,
    /// Dropped: RTCP whose first packet is no report.
    RtcpFirst,
    /// Dropped: RTCP with a packet that passes the end.
    RtcpLength,
    /// Dropped: RTCP with padding that may not be.
    RtcpPadding,
    /// Dropped: RTCP with a body that lacks some of its parts.
    RtcpBody,
    /// Dropped: RTCP for which memory ran out.
    RtcpOutOfMemory,
    /// Dropped: of no source, or from no member.
    Unknown,
    /// Dropped: audio in no format of its room.
    BadPayload,
    /// Dropped: no epoch is left.
    Spent,
    /// Dropped: its source is on probation.
    Probation,
    /// Accepted.
    Accepted,
    /// Accepted, but too late.
    Late,
    /// Accepted, but the gate has a packet of this number.
    Duplicate,
    /// Dropped: its number is too far off.
    Jump,
    /// Accepted, and its source begins anew.
    Restarted,
    /// An RTCP compound from a member.
    Rtcp,
}

/// The kind of a fault of RTP.
pub(crate) fn rtp_kind(fault: RtpFault) -> OutcomeKind
    ensures { result ≡ rtp_kind fault }
{
    match fault {
        RtpFault::Short => OutcomeKind::RtpShort,
        RtpFault::Version => OutcomeKind::RtpVersion,
        RtpFault::Csrc => OutcomeKind::RtpCsrc,
        RtpFault::Extension => OutcomeKind::RtpExtension,
        RtpFault::Padding => OutcomeKind::RtpPadding,
    }
}

/// The kind of a fault of RTCP.
pub(crate) fn rtcp_kind(fault: RtcpFault) -> OutcomeKind
    ensures { result ≡ rtcp_kind fault }
{
    match fault {
        RtcpFault::Short => OutcomeKind::RtcpShort,
        RtcpFault::Version => OutcomeKind::RtcpVersion,
        RtcpFault::First => OutcomeKind::RtcpFirst,
        RtcpFault::Length => OutcomeKind::RtcpLength,
        RtcpFault::Padding => OutcomeKind::RtcpPadding,
        RtcpFault::Body => OutcomeKind::RtcpBody,
        RtcpFault::OutOfMemory => OutcomeKind::RtcpOutOfMemory,
    }
}

impl OutcomeKind {
    /// Its name: the words of the outcome in a script, without numbers of its own.
    pub fn name(self) -> &'static [u8]
        ensures { result.now ≡ kind_name self }
    {
        match self {
            OutcomeKind::TooLong => b"dropped TooLong",
            OutcomeKind::Neither => b"dropped Neither",
            OutcomeKind::RtpShort => b"dropped rtp 1 Short",
            OutcomeKind::RtpVersion => b"dropped rtp 2 Version",
            OutcomeKind::RtpCsrc => b"dropped rtp 3 Csrc",
            OutcomeKind::RtpExtension => b"dropped rtp 4 Extension",
            OutcomeKind::RtpPadding => b"dropped rtp 5 Padding",
            OutcomeKind::RtcpShort => b"dropped rtcp 1 Short",
            OutcomeKind::RtcpVersion => b"dropped rtcp 2 Version",
            OutcomeKind::RtcpFirst => b"dropped rtcp 3 First",
            OutcomeKind::RtcpLength => b"dropped rtcp 4 Length",
            OutcomeKind::RtcpPadding => b"dropped rtcp 5 Padding",
            OutcomeKind::RtcpBody => b"dropped rtcp 6 Body",
            OutcomeKind::RtcpOutOfMemory => b"dropped rtcp 7 OutOfMemory",
            OutcomeKind::Unknown => b"dropped Unknown",
            OutcomeKind::BadPayload => b"dropped BadPayload",
            OutcomeKind::Spent => b"dropped Spent",
            OutcomeKind::Probation => b"probation",
            OutcomeKind::Accepted => b"accepted",
            OutcomeKind::Late => b"late",
            OutcomeKind::Duplicate => b"duplicate",
            OutcomeKind::Jump => b"jump",
            OutcomeKind::Restarted => b"restarted",
            OutcomeKind::Rtcp => b"rtcp",
        }
    }
}
