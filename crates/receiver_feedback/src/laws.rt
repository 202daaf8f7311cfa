//! Laws of the definitions: functions that do nothing when they run.

ghost use Rattle.std.specs.Prelude.{◌≡◌, ℕ, ◌+◌, ◌*◌, ◌/◌, ◌%◌, ◌^◌, ◌<◌, ◌≤◌, true, if◌then◌else◌};
ghost use Rattle.std.specs.Prelude.{nat_eq, List, [], ◌∷◌, ◌++◌, filter, Some};
ghost use Rattle.std.specs.List.{list_any};
ghost use Rattle.std.specs.Option.{is_some};
ghost use Rattle.rtp_codec.specs.declared.address.Address.{Address};
ghost use Rattle.forward_rewrite.specs.declared.counts.Counts.{Counts};
ghost use Rattle.desk_rows.specs.Desk.{Desk, good};
ghost use Rattle.topology.specs.Looking.{slot_at};
ghost use Rattle.topology.specs.Choice.{choice};
ghost use Rattle.receiver_feedback.specs.Resends.{firsts};
ghost use Rattle.receiver_feedback.specs.PassedUp.{is_of_member_at, pli_up};
ghost use Rattle.receiver_feedback.specs.Times.{second, from_1900_to_1970, ntp_of, ts_at};

use topology::choices_stay_in_the_room;

/// A law: each number of a list is kept once, and no other. A further number is kept last, if it is new.
pub fn each_number_once()
    ensures once { (numbers : List ℕ) (n : ℕ)
        → filter (nat_eq n) (firsts numbers) ≡ (if list_any (nat_eq n) numbers then n ∷ [] else []) }
    ensures one_more { (numbers : List ℕ) (n : ℕ)
        → firsts (numbers ++ n ∷ [])
        ≡ (if list_any (nat_eq n) numbers then firsts numbers else firsts numbers ++ n ∷ []) }
{}

/// A law: on a good desk, a PLI from a slot's member is passed up whenever the slot chose a source.
pub fn picture_losses_reach_a_sender()
    ensures { (desk : Desk) (from : Address) (out_ssrc source : ℕ) → good desk ≡ true
        → is_of_member_at desk from (slot_at desk out_ssrc) ≡ true → choice desk out_ssrc ≡ Some source
        → is_some (pli_up desk from out_ssrc) ≡ true }
{
    choices_stay_in_the_room();
}

/// A law of the timestamps in sender reports.
///
/// Up to the moment of the last frame or tick, the RTP timestamp is that one's. Each second later it is ahead by the
/// rate. The high 32 bits of the NTP timestamp are the seconds since 1900, modulo 2^32: they are 0 in 2036,
/// 2,085,978,496 seconds after 1970. The low 32 bits are the fraction of a second in units of 2^-32, rounded down.
pub fn times_of_reports()
    ensures still { (c : Counts) (moment : ℕ) → c.ts < 2 ^ 32 → moment ≤ c.moment → ts_at c moment ≡ c.ts }
    ensures ahead { (c : Counts) (seconds : ℕ)
        → ts_at c (c.moment + seconds * second) ≡ (c.ts + seconds * c.rate) % 2 ^ 32 }
    ensures seconds { (moment : ℕ) → ntp_of moment / 2 ^ 32 ≡ (moment / second + from_1900_to_1970) % 2 ^ 32 }
    ensures not_later { (moment : ℕ) → ntp_of moment % 2 ^ 32 * second ≤ moment % second * 2 ^ 32 }
    ensures not_earlier { (moment : ℕ) → moment % second * 2 ^ 32 < (ntp_of moment % 2 ^ 32 + 1) * second }
    ensures anew { ntp_of (2085978496 * second) ≡ 0 }
{}
