//! Whether lanes have ended.

ghost use Rattle.std.specs.Prelude.{◌≡◌, ◌<◌, ℕ, true, false};

/// Lanes that are asked whether they have ended. Of lanes on threads any answer may come at any moment, so a clause on
/// a feed can't tell what they answered. What is proved of any such lanes tells it.
pub(crate) trait AskedLanes {
    ghost use Rattle.std.specs.Prelude.{◌≡◌, ◌<◌, ℕ, Bool};

    /// How many lanes there are.
    ghost count: { Self → ℕ };

    /// The lane of this number answered so when it was asked whether it has ended.
    ghost answered: { Self → ℕ → Bool → Type 0 };

    /// How many lanes there are.
    fn lanes(&self) -> u32
        ensures { result ≡ count self.now };

    /// Whether a lane has ended.
    fn lane_has_ended(&self, lane: u32) -> bool
        requires { lane < count self.now }
        ensures { answered self.now lane result };
}

/// Whether any lane has ended: each is asked until one says so.
pub(crate) fn any_has_ended<L: AskedLanes>(lanes: &L) -> bool
    ensures one { result ≡ true → (lane : ℕ) × (lane < L.count lanes.now) × L.answered lanes.now lane true }
    ensures none { result ≡ false → (lane : ℕ) → lane < L.count lanes.now → L.answered lanes.now lane false }
{
    for lane in 0..lanes.lanes() {
        if lanes.lane_has_ended(lane) {
            return true;
        }
    }
    false
}
