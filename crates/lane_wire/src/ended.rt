//! What lanes sent that have ended.

ghost use Rattle.std.specs.Prelude.{◌≡◌, map, IfOk};
ghost use Rattle.std.specs.List.{AllByRecursion};
ghost use Rattle.lane_wire.specs.Logs.{taken_list};
ghost use Rattle.lane_wire.specs.Sinks.{AskedForAll};

use crate::sending::LaneWire;
use crate::wire_sink::{LaneSent, WireSink};
use media_workers::{LaneEnd, PublisherName};
use std::alloc::{AllocError, Global};

/// What each of these lanes sent, and what was done on its wire.
pub fn sent_of<N: PublisherName, W: LaneWire + Drop>(
    alloc: Global,
    ends: Vec<LaneEnd<N, WireSink<W>>>,
) -> Result<Vec<LaneSent>, AllocError>
    ensures taken { IfOk result (λ lanes.
        map (λ lane. taken_list lane.taken) lanes.items ≡ map (λ end. end.sink.taken) ends.items) }
    ensures asked { IfOk result (λ lanes. AllByRecursion AskedForAll lanes.items) }
{
    let mut lanes = Vec::new(alloc);
    for end in ends {
        let sent = end.sink.into_sent();
        lanes.push(sent)?;
    }
    Ok(lanes)
}
