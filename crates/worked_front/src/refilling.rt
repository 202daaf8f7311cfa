//! Which datagrams refill tokens, by their outcome.

ghost use Rattle.std.specs.Prelude.{◌≡◌, ℕ, ℤ, [], true, false};
ghost use Rattle.ingress.specs.declared.outcome.Outcome.TheVariants.{BadPayload, Spent, Probation, Accepted};
ghost use Rattle.ingress.specs.declared.outcome.Outcome.TheVariants.{Duplicate, Jump, Restarted, Rtcp};
ghost use Rattle.worked_front.specs.Refilled.{with_406};

use bridge_core::Outcome;
use media_front::refill_for;
use rate_limiter::Draft;
use rtcp_codec::RtcpFault;
use rtp_codec::RtpFault;

/// Datagrams of an address that is no member's, and those that are dropped before their sender is looked up: no bucket
/// is opened, and none changes.
pub fn strangers_refill_nothing(draft: &mut Draft, rtp: RtpFault, rtcp: RtcpFault)
    ensures { draft.new ≡ draft.old }
{
    refill_for(draft, Outcome::Unknown, 1_000);
    refill_for(draft, Outcome::TooLong, 8_193);
    refill_for(draft, Outcome::Neither, 1_000);
    refill_for(draft, Outcome::BadRtp(rtp), 1_000);
    refill_for(draft, Outcome::BadRtcp(rtcp), 1_000);
}

/// A late packet of 100 octets refills 150. With the 256 of a new address these are 406.
pub fn a_late_packet_refills(draft: &mut Draft) -> (bool, bool)
    requires { draft.old.after ≡ [] }
    ensures first { result.0 ≡ true }
    ensures second { result.1 ≡ false }
{
    refill_for(draft, Outcome::Late { ext: 7 }, 100);
    let first = draft.spend(406);
    let second = draft.spend(1);
    (first, second)
}

/// Each other datagram of 100 octets that a member sends refills as many, also one that is dropped.
pub fn each_of_a_member_refills(draft: &mut Draft, outcome: Outcome)
    requires { draft.old.after ≡ [] }
    ensures bad { outcome ≡ BadPayload → draft.new.after ≡ with_406 draft.old.address }
    ensures spent { outcome ≡ Spent → draft.new.after ≡ with_406 draft.old.address }
    ensures probation { outcome ≡ Probation → draft.new.after ≡ with_406 draft.old.address }
    ensures accepted { (ext : ℤ) → outcome ≡ Accepted ext → draft.new.after ≡ with_406 draft.old.address }
    ensures duplicate { (ext : ℤ) → outcome ≡ Duplicate ext → draft.new.after ≡ with_406 draft.old.address }
    ensures jump { outcome ≡ Jump → draft.new.after ≡ with_406 draft.old.address }
    ensures restarted { (ext : ℤ) → outcome ≡ Restarted ext → draft.new.after ≡ with_406 draft.old.address }
    ensures rtcp { (packets : ℕ) → outcome ≡ Rtcp packets → draft.new.after ≡ with_406 draft.old.address }
{
    refill_for(draft, outcome, 100);
}
