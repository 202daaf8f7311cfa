//! Laws of the definitions: functions that do nothing when they run.

ghost use Rattle.std.specs.Prelude.{◌≡◌, ◌≢◌, ℕ, List, All};
ghost use Rattle.rtp_codec.specs.declared.address.Address.{Address};
ghost use Rattle.playout.specs.Playouts.{AudioEvent, Renewing, play_on};
ghost use Rattle.playout.specs.laws.Plain.{plain_on};

/// A law: as long as nobody asks for it, no jitter buffer begins anew by its tally. Each is what its puts and takes
/// make of it.
pub fn nothing_is_renewed_unasked()
    ensures { (source : ℕ) (address : Address) (events : List AudioEvent) → All (λ event. event ≢ Renewing) events
        → play_on source address events ≡ plain_on source address events }
{}
