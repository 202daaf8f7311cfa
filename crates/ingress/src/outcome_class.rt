//! What an outcome says of a datagram.

ghost use Rattle.std.specs.Prelude.{◌≡◌};
ghost use Rattle.ingress.specs.Outcomes.{from_nobody, from_stranger, from_source, from_member};

use crate::outcome_kind::OutcomeKind;

/// Whose a datagram is, by its outcome.
#[derive(Clone, Copy)]
pub enum Whose {
    /// Nobody's: it was dropped before its sender was looked up.
    Nobody,
    /// A stranger's: its sender is no source, or no member.
    Stranger,
    /// A source's.
    Source,
    /// A member's.
    Member,
}

/// What becomes of a datagram, by its outcome.
#[derive(Clone, Copy)]
pub enum Disposition {
    /// It is dropped.
    Dropped,
    /// It is dropped, since its source is on probation. The numbers of its source begin anew behind it.
    Probation,
    /// It counts for its source.
    OnTime {
        /// Its extended sequence number, at least -65536.
        ext: i64,
    },
    /// It counts for its source, but comes too late.
    Late {
        /// Its extended sequence number, at least -65536.
        ext: i64,
    },
    /// It counts for its source, but another one had its number.
    Duplicate {
        /// Its extended sequence number, at least -65536.
        ext: i64,
    },
    /// It counts for its source, which begins anew with it.
    Restarted {
        /// Its extended sequence number, 0 to 65535.
        ext: i64,
    },
    /// It is a compound that was read.
    Compound {
        /// The number of its packets, at least 1.
        packets: usize,
    },
}

/// What an outcome says of a datagram: its row in the table of outcomes.
#[derive(Clone, Copy)]
pub struct OutcomeClass {
    /// The outcome without the numbers that it carries.
    pub kind: OutcomeKind,
    /// Whose the datagram is.
    pub whose: Whose,
    /// What becomes of it.
    pub disposition: Disposition,
}

/// The row of a datagram that is nobody's.
#[inline(always)]
pub(crate) fn from_nobody(kind: OutcomeKind) -> OutcomeClass
    ensures { result ≡ from_nobody kind }
{
    OutcomeClass {
        kind,
        whose: Whose::Nobody,
        disposition: Disposition::Dropped,
    }
}

/// The row of a datagram of a stranger.
#[inline(always)]
pub(crate) fn from_stranger(kind: OutcomeKind) -> OutcomeClass
    ensures { result ≡ from_stranger kind }
{
    OutcomeClass {
        kind,
        whose: Whose::Stranger,
        disposition: Disposition::Dropped,
    }
}

/// The row of a packet of a source.
#[inline(always)]
pub(crate) fn from_source(kind: OutcomeKind, disposition: Disposition) -> OutcomeClass
    ensures { result ≡ from_source kind disposition }
{
    OutcomeClass {
        kind,
        whose: Whose::Source,
        disposition,
    }
}

/// The row of a datagram of a member.
#[inline(always)]
pub(crate) fn from_member(kind: OutcomeKind, disposition: Disposition) -> OutcomeClass
    ensures { result ≡ from_member kind disposition }
{
    OutcomeClass {
        kind,
        whose: Whose::Member,
        disposition,
    }
}
