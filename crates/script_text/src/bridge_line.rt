//! What the first line of a script says of its bridge.

ghost use Rattle.std.specs.Prelude.{◌≡◌, true};
ghost use Rattle.ingress.specs.Names.{is_name};

use bridge_core::Settings;
use std::alloc::{Allocator, Global};

/// Who the bridge is, and how it begins.
#[derive(Drop)]
pub(crate) struct BridgeLine<A: Allocator + Copy = Global> {
    /// Its SSRC and its canonical name.
    pub settings: Settings<A>,
    /// Whether its jitter buffers begin anew after late or full sound.
    pub renews: bool,
    /// The name has 1 to 255 octets.
    pub ghost named: { is_name settings.cname ≡ true },
}
