//! What goes out onto a wire.

ghost use Rattle.std.specs.Prelude.{◌≡◌, ◌∷◌, [], List, map, length, true, false};
ghost use Rattle.std.specs.List.{flat_map};
ghost use Rattle.udp_wire.specs.Attempts.{Attempt, datagrams_of, with_tried};

use bridge_core::Egress;
use std::alloc::Global;
use udp_wire::{Wire, send_all};

/// Three datagrams: each is tried, and where the second attempt alone fails the answer is 1.
pub fn tries_three<W: Wire>(egresses: &[(u32, Egress<Global>)], wire: &mut W) -> u64
    requires { length (flat_map datagrams_of (map (λ e. e.1) egresses.now)) ≡ 3 }
    ensures { (tried : List Attempt)
        × (W.attempts wire.new ≡ with_tried tried (W.attempts wire.old))
        × (length tried ≡ 3)
        × (map (λ attempt. attempt.sent) tried ≡ true ∷ false ∷ true ∷ [] → result ≡ 1) }
{
    send_all(egresses, wire)
}
