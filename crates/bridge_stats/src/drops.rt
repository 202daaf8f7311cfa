//! Why packets of a source were dropped.

ghost use Rattle.std.specs.Prelude.{◌≡◌, [], ◌∷◌, ◌++◌, List, cond};
ghost use Rattle.bridge_stats.specs.declared.taken.TakenIn.{TakenIn as TakenOf};
ghost use Rattle.bridge_stats.specs.Counts.{has_kind};
ghost use Rattle.bridge_stats.specs.Drops.{type_of, drops_of};

use crate::kind::line_place;
use crate::source_count::more_if;
use crate::taken::TakenIn;
use ingress::OutcomeKind;
use rtp_codec::Header;

/// Why packets of a source were dropped. Each count ends at 2^64 - 1.
#[derive(Clone, Copy)]
pub struct DropNumbers {
    /// How many had a bad payload.
    pub bad_payload: u64,
    /// The payload type of the last one of these.
    pub bad_type: Option<u8>,
    /// How many came when no epoch was left.
    pub spent: u64,
    /// How many came while their source was on probation.
    pub probation: u64,
    /// How many had a number too far off.
    pub jump: u64,
}

/// Whether a datagram had an outcome of this kind.
fn has_kind(taken: &TakenIn, kind: OutcomeKind) -> bool
    ensures { result ≡ has_kind kind taken.now }
{
    line_place(taken.outcome.class().kind) == line_place(kind)
}

/// The payload type of a packet.
fn type_of(header: Option<Header>) -> Option<u8>
    ensures { result ≡ type_of header }
{
    match header {
        None => None,
        Some(header) => Some(header.pt),
    }
}

/// The payload type of the last bad payload, after one more datagram.
fn bad_type_after(before: Option<u8>, is_bad: bool, taken: &TakenIn) -> Option<u8>
    ensures { result ≡ cond is_bad (type_of taken.now.header) before }
{
    if is_bad {
        type_of(taken.header)
    } else {
        before
    }
}

impl DropNumbers {
    /// Nothing came.
    pub(crate) fn new() -> Self
        ensures { result ≡ drops_of [] }
    {
        Self {
            bad_payload: 0,
            bad_type: None,
            spent: 0,
            probation: 0,
            jump: 0,
        }
    }

    /// After one more datagram.
    pub(crate) fn after(self, taken: &TakenIn) -> Self
        ensures { (all : List TakenOf) → self ≡ drops_of all → result ≡ drops_of (all ++ taken.now ∷ []) }
    {
        let is_bad = has_kind(taken, OutcomeKind::BadPayload);
        let spent = has_kind(taken, OutcomeKind::Spent);
        let probation = has_kind(taken, OutcomeKind::Probation);
        let jump = has_kind(taken, OutcomeKind::Jump);
        Self {
            bad_payload: more_if(self.bad_payload, is_bad, 1),
            bad_type: bad_type_after(self.bad_type, is_bad, taken),
            spent: more_if(self.spent, spent, 1),
            probation: more_if(self.probation, probation, 1),
            jump: more_if(self.jump, jump, 1),
        }
    }
}
