//! Jitter buffers that begin anew after late sound.

ghost use Rattle.std.specs.Prelude.{◌≡◌, IfOk};
ghost use Rattle.playout.specs.Playouts.{Has};
ghost use Rattle.worked_media.specs.Late.{long_ago};

use playout::{Playouts, TimedSamples};
use rtp_codec::Address;
use std::alloc::{AllocError, Global};

/// The address of the member that sends source 21.
const MEMBER: Address = Address {
    ip: [127, 0, 0, 1],
    port: 7,
};

/// So many samples at a rate, from timestamp 1000 on.
macro_rules! late {
    ($rate:expr, $count:expr) => {
        TimedSamples {
            rate: $rate,
            ts: 1000,
            samples: &[7; $count],
        }
    };
}

/// At 8000 Hz 300 ms are 2,400 samples. One less than that many late ones change nothing: 60 ms later none is heard.
/// The last one begins the buffer anew, and is heard 60 ms later.
pub fn late_sound_at_8000(alloc: Global, playouts: &mut Playouts) -> Result<(u32, u32), AllocError>
    requires had { Has playouts.old (long_ago 8000) }
    ensures short { IfOk result (λ counts. counts.0 ≡ 0) }
    ensures limit { IfOk result (λ counts. counts.1 ≡ 1) }
{
    playouts.renew();
    playouts.put(alloc, 21, &MEMBER, late!(8_000, 1_600))?;
    playouts.put(alloc, 21, &MEMBER, late!(8_000, 799))?;
    playouts.take_all();
    playouts.take_all();
    playouts.take_all();
    let short = playouts.peek(21, &MEMBER, 8_000, &mut [0; 160]);
    playouts.put(alloc, 21, &MEMBER, late!(8_000, 1))?;
    playouts.take_all();
    playouts.take_all();
    playouts.take_all();
    let limit = playouts.peek(21, &MEMBER, 8_000, &mut [0; 160]);
    Ok((short, limit))
}

/// At 44100 Hz 300 ms are 13,230 samples. One less than that many late ones change nothing: 60 ms later none is heard.
/// The last one begins the buffer anew, and is heard 60 ms later.
pub fn late_sound_at_44100(alloc: Global, playouts: &mut Playouts) -> Result<(u32, u32), AllocError>
    requires had { Has playouts.old (long_ago 44100) }
    ensures short { IfOk result (λ counts. counts.0 ≡ 0) }
    ensures limit { IfOk result (λ counts. counts.1 ≡ 1) }
{
    playouts.renew();
    playouts.put(alloc, 21, &MEMBER, late!(44_100, 8_820))?;
    playouts.put(alloc, 21, &MEMBER, late!(44_100, 4_409))?;
    playouts.take_all();
    playouts.take_all();
    playouts.take_all();
    let short = playouts.peek(21, &MEMBER, 44_100, &mut [0; 882]);
    playouts.put(alloc, 21, &MEMBER, late!(44_100, 1))?;
    playouts.take_all();
    playouts.take_all();
    playouts.take_all();
    let limit = playouts.peek(21, &MEMBER, 44_100, &mut [0; 882]);
    Ok((short, limit))
}
