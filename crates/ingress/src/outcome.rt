//! The outcome of a datagram, and the table of outcomes.

ghost use Rattle.std.specs.Prelude.{◌≡◌};
ghost use Rattle.ingress.specs.Outcomes.{outcome_class, is_accepted, is_on_time, is_late, is_duplicate};

use crate::outcome_class::{
    Disposition, OutcomeClass, from_member, from_nobody, from_source, from_stranger,
};
use crate::outcome_kind::{OutcomeKind as Kind, rtcp_kind, rtp_kind};
use rtcp_codec::RtcpFault;
use rtp_codec::RtpFault;

/// The outcome of a datagram. The checks are made in the order of the variants. Only accepted, late, duplicate and
/// restarted packets count for their source.
#[derive(Clone, Copy, PartialEq, Eq)]
pub enum Outcome {
    /// Dropped: over 8,192 octets.
    TooLong,
    /// Dropped: neither RTP nor RTCP (RFC 5761 section 4).
    Neither,
    /// Dropped: no RTP packet.
    BadRtp(RtpFault),
    /// Dropped: no RTCP compound. Out of memory is never the fault here.
    BadRtcp(RtcpFault),
    /// Dropped: no source of this SSRC, or no member, has the address that it came from.
    Unknown,
    /// Dropped: audio in no format of its room, with half a sample, or over 200 ms. The formats are PCMU (type 0) and
    /// L16 (type 97) at 8000 Hz, and L16 (type 11) at 44100 Hz.
    BadPayload,
    /// Dropped: it would begin an epoch, and 2^64 - 1 have begun.
    Spent,
    /// Dropped: its source is on probation.
    Probation,
    /// Accepted.
    Accepted {
        /// Its extended sequence number, at least -65536.
        ext: i64,
    },
    /// Accepted, but too late: its frame was decided already.
    Late {
        /// Its extended sequence number, at least -65536.
        ext: i64,
    },
    /// Accepted, but the gate has a packet of this number.
    Duplicate {
        /// Its extended sequence number, at least -65536.
        ext: i64,
    },
    /// Dropped: its number is too far off.
    Jump,
    /// Accepted, and its source begins anew.
    Restarted {
        /// Its extended sequence number, 0 to 65535.
        ext: i64,
    },
    /// An RTCP compound from a member.
    Rtcp {
        /// The number of its packets, at least 1.
        packets: usize,
    },
}

impl Outcome {
    /// Its row in the table of outcomes. All that is asked of an outcome is a column of this table.
    #[inline(always)]
    pub fn class(&self) -> OutcomeClass
        ensures { result ≡ outcome_class self.now }
    {
        match *self {
            Self::TooLong => from_nobody(Kind::TooLong),
            Self::Neither => from_nobody(Kind::Neither),
            Self::BadRtp(fault) => from_nobody(rtp_kind(fault)),
            Self::BadRtcp(fault) => from_nobody(rtcp_kind(fault)),
            Self::Unknown => from_stranger(Kind::Unknown),
            Self::BadPayload => from_source(Kind::BadPayload, Disposition::Dropped),
            Self::Spent => from_source(Kind::Spent, Disposition::Dropped),
            Self::Probation => from_source(Kind::Probation, Disposition::Probation),
            Self::Accepted { ext } => from_source(Kind::Accepted, Disposition::OnTime { ext }),
            Self::Late { ext } => from_source(Kind::Late, Disposition::Late { ext }),
            Self::Duplicate { ext } => from_source(Kind::Duplicate, Disposition::Duplicate { ext }),
            Self::Jump => from_source(Kind::Jump, Disposition::Dropped),
            Self::Restarted { ext } => from_source(Kind::Restarted, Disposition::Restarted { ext }),
            Self::Rtcp { packets } => from_member(Kind::Rtcp, Disposition::Compound { packets }),
        }
    }

    /// Whether its packet counts for its source.
    #[inline(always)]
    pub fn is_accepted(&self) -> bool
        ensures { result ≡ is_accepted self.now }
    {
        match self.class().disposition {
            Disposition::OnTime { .. }
            | Disposition::Late { .. }
            | Disposition::Duplicate { .. }
            | Disposition::Restarted { .. } => true,
            Disposition::Dropped | Disposition::Probation | Disposition::Compound { .. } => false,
        }
    }

    /// Whether its packet counts, is neither late nor a duplicate, and its source goes on with it.
    #[inline(always)]
    pub fn is_on_time(&self) -> bool
        ensures { result ≡ is_on_time self.now }
    {
        match self.class().disposition {
            Disposition::OnTime { .. } => true,
            Disposition::Dropped
            | Disposition::Probation
            | Disposition::Late { .. }
            | Disposition::Duplicate { .. }
            | Disposition::Restarted { .. }
            | Disposition::Compound { .. } => false,
        }
    }

    /// Whether its packet came too late.
    #[inline(always)]
    pub fn is_late(&self) -> bool
        ensures { result ≡ is_late self.now }
    {
        match self.class().disposition {
            Disposition::Late { .. } => true,
            Disposition::Dropped
            | Disposition::Probation
            | Disposition::OnTime { .. }
            | Disposition::Duplicate { .. }
            | Disposition::Restarted { .. }
            | Disposition::Compound { .. } => false,
        }
    }

    /// Whether its packet repeats a number.
    #[inline(always)]
    pub fn is_duplicate(&self) -> bool
        ensures { result ≡ is_duplicate self.now }
    {
        match self.class().disposition {
            Disposition::Duplicate { .. } => true,
            Disposition::Dropped
            | Disposition::Probation
            | Disposition::OnTime { .. }
            | Disposition::Late { .. }
            | Disposition::Restarted { .. }
            | Disposition::Compound { .. } => false,
        }
    }
}
