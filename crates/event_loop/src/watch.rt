//! What tells the time.

ghost use Rattle.std.specs.Prelude.{◌≡◌, ◌++◌, ◌∷◌, [], ℕ, List, IfOk, IfErr, OnErr};
ghost use Rattle.udp_wire.specs.Ended.{IsOfClock};
ghost use Rattle.event_loop.specs.Moments.{AreUpTo};

use udp_wire::FrontFault;

/// What tells the time. Contracts see the moments that it told, oldest first, in nanoseconds since 1970.
pub trait Watch {
    /// What it told so far.
    ghost told: { Self → List ℕ };

    /// The present moment, in nanoseconds since 1970. It is no earlier than any that it told before.
    fn now(&mut self) -> Result<u64, FrontFault>
        ensures ok { IfOk result (λ now. told self.new ≡ told self.old ++ now ∷ []) }
        ensures rising { IfOk result (λ now. AreUpTo now (told self.old)) }
        ensures err { OnErr result (told self.new ≡ told self.old) }
        ensures fault { IfErr result IsOfClock };
}
