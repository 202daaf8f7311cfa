//! Time that passes for sources.

ghost use Rattle.std.specs.Prelude.{◌≡◌, [], OnOk};
ghost use Rattle.media_front.specs.Tries.{WereTried};

use desk_rows::Rows;
use media_front::MediaFront;
use media_workers::{Pace, PublisherName, Sink};
use rtp_codec::Address;
use std::alloc::Global;
use udp_wire::{FrontFault, Wire};

/// A wait of source 101 at 20 ms refills nothing: where no member's datagram has come, nothing is asked for, whatever
/// is missing.
pub fn a_wait_pays_by_what_came<N: PublisherName, P: Pace, S: Sink, W: Wire>(
    media: &mut MediaFront<N, P, S>,
    alloc: Global,
    rows: &Rows,
    member: &Address,
    wire: &mut W,
) -> Result<(), FrontFault>
    requires { media.old.limiter ≡ [] }
    ensures { OnOk result (WereTried [] (W.attempts wire.old) (W.attempts wire.new)) }
{
    media.wait(alloc, rows, member, 101, 20_000_000, wire)
}
