//! Laws of mixes over all ticks: functions that do nothing when they run.

ghost use Rattle.std.specs.Prelude.{◌≡◌, ℕ, ℤ, true, List, [], ◌∷◌, ◌++◌};
ghost use Rattle.rtp_codec.specs.declared.address.Address.{Address};
ghost use Rattle.desk_rows.specs.Desk.{Desk, good};
ghost use Rattle.topology.specs.Mixes.{mix_member};
ghost use Rattle.mixer.specs.Hearing.{Given, put, tick, renew};
ghost use Rattle.mixer.specs.Mixes.{turn_of, mixes, mixes_at, sent_by};
ghost use Rattle.mixer.specs.MixLists.{AreInARow, Carries, on_stream, to_its_member};

use topology::mixes_have_one_member;

/// A law: over all ticks and desks, the packets of a mix stream are numbered in a row.
pub fn mixes_are_in_a_row()
    ensures { (ssrc : ℕ) (given : List Given) → AreInARow (mixes ssrc given) }
{}

/// A law: a tick adds one packet to a mix stream if its member hears anything, and else none. The packet carries what
/// the member hears. Samples that come in add no packet, nor does it that buffers begin anew from there on.
pub fn ticks_add_what_is_heard()
    ensures behind { (ssrc : ℕ) (before : List Given) (d : Desk) (moment : ℕ)
        → mixes ssrc (before ++ tick d moment ∷ []) ≡ mixes ssrc before ++ mixes_at ssrc before d moment }
    ensures heard { (ssrc : ℕ) (before : List Given) (d : Desk) (moment : ℕ)
        → Carries ssrc (turn_of ssrc before d moment).heard (mixes_at ssrc before d moment) }
    ensures samples { (ssrc : ℕ) (before : List Given) (source : ℕ) (address : Address) (rate ts : ℕ) (samples : List ℤ)
        → mixes ssrc (before ++ put source address rate ts samples ∷ []) ≡ mixes ssrc before }
    ensures renewing { (ssrc : ℕ) (before : List Given) → mixes ssrc (before ++ renew ∷ []) ≡ mixes ssrc before }
{}

/// A law: on a good desk, a tick sends what it adds to a mix once, to the member whose mix it is.
pub fn mixes_go_to_their_members()
    ensures { (ssrc : ℕ) (before : List Given) (d : Desk) (moment : ℕ) → good d ≡ true
        → on_stream ssrc (sent_by before d moment) ≡ to_its_member (mix_member d ssrc) (mixes_at ssrc before d moment) }
{
    mixes_have_one_member();
}
