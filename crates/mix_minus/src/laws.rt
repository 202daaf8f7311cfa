//! Laws of mixes: functions that do nothing when they run.

ghost use Rattle.std.specs.Prelude.{◌≡◌, ℕ, ℤ, ◌≤◌, List, ◌++◌, length};
ghost use Rattle.mix_minus.specs.declared.input.Input.{Input};
ghost use Rattle.mix_minus.specs.Mix.{IsMix, IsTotal, IsLeft, AreFull, own_of, others_of, present_in, contributing};

/// A law: the room's total without the receiver's own inputs is the mix of a receiver whose gains are all 256.
pub fn is_the_mix()
    ensures { (inputs : List Input) (gains : List ℕ) (receiver : ℕ) (total out : List ℤ) → IsTotal inputs total
        → AreFull inputs gains → length out ≤ length total → IsLeft total (own_of receiver inputs) out
        → IsMix inputs gains receiver out }
{}

/// A law: if a receiver's gains are all 256, every other source with a sample present contributes. So the contributors
/// of a room can be listed once. The contributors of a room's first part stand before those of its second.
pub fn others_contribute()
    ensures others { (inputs : List Input) (gains : List ℕ) (receiver : ℕ) → AreFull inputs gains
        → contributing receiver inputs gains ≡ present_in (others_of receiver inputs) }
    ensures parts { (front back : List Input) → present_in (front ++ back) ≡ present_in front ++ present_in back }
{}
