//! How a bridge that runs is set up, in proofs alone.

use std::marker::Brand;

/// By which SSRC and name a bridge signs, and how many lanes it has. It exists in proofs alone. A caller is generic
/// over it, and its own caller picks it by calling it with `Brand`.
pub(crate) trait Setup {
    ghost use Rattle.std.specs.Prelude.{ℕ};
    ghost use Rattle.sender_feedback.specs.Upstream.{Asker};

    ghost who: { Asker };

    ghost lanes: { ℕ };
}

impl Setup for Brand {
    ghost use Rattle.std.specs.Prelude.{[]};

    ghost who = { record { ssrc = 0; cname = [] } };

    ghost lanes = { 0 };
}
