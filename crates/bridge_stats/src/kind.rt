//! The kinds of outcomes, each of which has a line.

ghost use Rattle.std.specs.Prelude.{◌≡◌, ◌<◌};
ghost use Rattle.bridge_stats.specs.Kinds.{line_place, all_kinds, kinds};

use ingress::OutcomeKind;

/// How many kinds there are.
pub(crate) const KINDS: usize = 24;

/// All kinds, in the order of their lines.
pub(crate) fn all_kinds() -> &'static [OutcomeKind]
    ensures { result.now ≡ all_kinds }
{
    &[
        OutcomeKind::TooLong,
        OutcomeKind::Neither,
        OutcomeKind::RtpShort,
        OutcomeKind::RtpVersion,
        OutcomeKind::RtpCsrc,
        OutcomeKind::RtpExtension,
        OutcomeKind::RtpPadding,
        OutcomeKind::RtcpShort,
        OutcomeKind::RtcpVersion,
        OutcomeKind::RtcpFirst,
        OutcomeKind::RtcpLength,
        OutcomeKind::RtcpPadding,
        OutcomeKind::RtcpBody,
        OutcomeKind::RtcpOutOfMemory,
        OutcomeKind::Unknown,
        OutcomeKind::BadPayload,
        OutcomeKind::Spent,
        OutcomeKind::Probation,
        OutcomeKind::Accepted,
        OutcomeKind::Late,
        OutcomeKind::Duplicate,
        OutcomeKind::Jump,
        OutcomeKind::Restarted,
        OutcomeKind::Rtcp,
    ]
}

/// The place of a kind's line among those of all kinds, from 0 on.
pub(crate) fn line_place(kind: OutcomeKind) -> usize
    ensures place { result ≡ line_place kind }
    ensures few { result < kinds }
{
    match kind {
        OutcomeKind::TooLong => 0,
        OutcomeKind::Neither => 1,
        OutcomeKind::RtpShort => 2,
        OutcomeKind::RtpVersion => 3,
        OutcomeKind::RtpCsrc => 4,
        OutcomeKind::RtpExtension => 5,
        OutcomeKind::RtpPadding => 6,
        OutcomeKind::RtcpShort => 7,
        OutcomeKind::RtcpVersion => 8,
        OutcomeKind::RtcpFirst => 9,
        OutcomeKind::RtcpLength => 10,
        OutcomeKind::RtcpPadding => 11,
        OutcomeKind::RtcpBody => 12,
        OutcomeKind::RtcpOutOfMemory => 13,
        OutcomeKind::Unknown => 14,
        OutcomeKind::BadPayload => 15,
        OutcomeKind::Spent => 16,
        OutcomeKind::Probation => 17,
        OutcomeKind::Accepted => 18,
        OutcomeKind::Late => 19,
        OutcomeKind::Duplicate => 20,
        OutcomeKind::Jump => 21,
        OutcomeKind::Restarted => 22,
        OutcomeKind::Rtcp => 23,
    }
}
