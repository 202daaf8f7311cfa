//! What members of a room hear, tick by tick.

ghost use Rattle.std.specs.Prelude.{◌≡◌, pos, [], ◌∷◌, IfOk};
ghost use Rattle.std.specs.List.{range_with_len};
ghost use Rattle.mixer.specs.Mixers.{WasGiven};
ghost use Rattle.worked_media.specs.Rooms.{first, second, third, mute, gain, three_with, sixteen_sources, mix_to};
ghost use Rattle.worked_media.specs.Rooms.{two_ticks_later, three_ticks_later, four_ticks_later, all_sixteen_said};

use desk_rows::Rows;
use forward_rewrite::Counts;
use media_items::LanePlace;
use mixer::{MixPacket, Mixer};
use std::alloc::{AllocError, Global};

/// In the fourth tick after their samples, 60 ms on, each member hears the other two. A muted one isn't heard, and a
/// gain of 128 makes it half as loud.
pub fn each_hears_the_other_two(
    alloc: Global,
    mixer: &mut Mixer,
    place: &LanePlace,
    rows: &Rows,
) -> Result<Vec<MixPacket>, AllocError>
    requires lane { place.now.lane ≡ 0 }
    requires lanes { place.now.lanes ≡ 1 }
    requires given { WasGiven 0 1 mixer.old (three_ticks_later rows.now) }
    ensures all { rows.now ≡ three_with [] → IfOk result (λ sent.
        sent.items
        ≡ mix_to first (22 ∷ 23 ∷ []) (pos 6000)
        ∷ mix_to second (21 ∷ 23 ∷ []) (pos 5000)
        ∷ mix_to third (21 ∷ 22 ∷ []) (pos 3000)
        ∷ []) }
    ensures muted { rows.now ≡ three_with (mute 22 ∷ []) → IfOk result (λ sent.
        sent.items
        ≡ mix_to first (23 ∷ []) (pos 4000)
        ∷ mix_to second (21 ∷ 23 ∷ []) (pos 5000)
        ∷ mix_to third (21 ∷ []) (pos 1000)
        ∷ []) }
    ensures half { rows.now ≡ three_with (gain 1 22 128 ∷ []) → IfOk result (λ sent.
        sent.items
        ≡ mix_to first (22 ∷ 23 ∷ []) (pos 5000)
        ∷ mix_to second (21 ∷ 23 ∷ []) (pos 5000)
        ∷ mix_to third (21 ∷ 22 ∷ []) (pos 3000)
        ∷ []) }
{
    mixer.tick(alloc, place, rows, 60_000_000)
}

/// One tick earlier nobody is heard yet.
pub fn nobody_is_heard_before_60_ms(
    alloc: Global,
    mixer: &mut Mixer,
    place: &LanePlace,
    rows: &Rows,
) -> Result<Vec<MixPacket>, AllocError>
    requires lane { place.now.lane ≡ 0 }
    requires lanes { place.now.lanes ≡ 1 }
    requires rows { rows.now ≡ three_with [] }
    requires given { WasGiven 0 1 mixer.old (two_ticks_later rows.now) }
    ensures { IfOk result (λ sent. sent.items ≡ []) }
{
    mixer.tick(alloc, place, rows, 40_000_000)
}

/// Of sixteen sources that a member hears, each with a sample of 100, the first fifteen are named.
pub fn the_sixteenth_contributor_is_not_named(
    alloc: Global,
    mixer: &mut Mixer,
    place: &LanePlace,
    rows: &Rows,
) -> Result<Vec<MixPacket>, AllocError>
    requires lane { place.now.lane ≡ 0 }
    requires lanes { place.now.lanes ≡ 1 }
    requires rows { rows.now ≡ sixteen_sources }
    requires given { WasGiven 0 1 mixer.old (all_sixteen_said rows.now) }
    ensures { IfOk result (λ sent. sent.items ≡ mix_to first (range_with_len 101 15) (pos 1600) ∷ []) }
{
    mixer.tick(alloc, place, rows, 60_000_000)
}

/// Nothing is told of the first member's mix before its first packet, which has 160 samples of two octets.
pub fn a_mix_is_told_of_from_its_first_packet_on(mixer: &Mixer) -> Option<Counts>
    ensures before { WasGiven 0 1 mixer.now (three_ticks_later (three_with [])) → result ≡ None }
    ensures after { WasGiven 0 1 mixer.now (four_ticks_later (three_with []))
        → result ≡ Some (record { ssrc = 9001; packets = 1; octets = 320; ts = 1000; moment = 60000000; rate = 8000 }) }
{
    mixer.counts(9001)
}
