//! Lanes of one bridge.

ghost use Rattle.std.specs.Prelude.{◌≡◌, ◌<◌, ◌≤◌, true, All, IfOk, IfSome, vec_len};
ghost use Rattle.published_desk.specs.Published.{ReaderOf};
ghost use Rattle.ingress.specs.Names.{is_name};
ghost use Rattle.media_workers.specs.LaneRuns.{LaneNow};
ghost use Rattle.media_workers.specs.Bridges.{IsNew, AreNew};

use crate::rooms::settings;
use bridge_core::{LaneState, Settings};
use media_workers::{Lane, PublisherName};
use published_desk::LaneReader;
use std::alloc::Global;
use std::io;

/// The most lanes of a bridge.
const LANES: u32 = 16;

/// The lane of this number among so many, by the last of these readers.
fn next_lane<N: PublisherName>(
    alloc: Global,
    settings: &Settings,
    readers: &mut Vec<LaneReader>,
    lane: u32,
    count: u32,
) -> Option<Lane>
    requires lane { lane < count }
    requires count { count ≤ 16 }
    requires name { is_name settings.now.cname ≡ true }
    requires readers { All (λ (r : ReaderOf). r.publisher ≡ N.publisher) readers.old.items }
    ensures readers { All (λ (r : ReaderOf). r.publisher ≡ N.publisher) readers.new.items }
    ensures new { IfSome result (IsNew
        (record { ssrc = settings.now.bridge_ssrc; cname = settings.now.cname }) count lane) }
    ensures publisher { IfSome result (λ (l : LaneNow). l.reader.publisher ≡ N.publisher) }
{
    let Some(reader) = readers.pop() else {
        return None;
    };
    let Ok(own) = settings.try_clone() else {
        return None;
    };
    let Ok(state) = LaneState::new(alloc, lane, count, own) else {
        return None;
    };
    Some(Lane::new(reader, state))
}

/// So many lanes of a bridge of this name.
fn all_lanes<N: PublisherName>(
    alloc: Global,
    settings: &Settings,
    readers: Vec<LaneReader>,
    count: u32,
) -> Option<Vec<Lane>>
    requires count { count ≤ 16 }
    requires name { is_name settings.now.cname ≡ true }
    requires readers { All (λ (r : ReaderOf). r.publisher ≡ N.publisher) readers.items }
    ensures new { IfSome result (λ lanes. AreNew lanes.items) }
    ensures publisher { IfSome result (λ lanes.
        All (λ (lane : LaneNow). lane.reader.publisher ≡ N.publisher) lanes.items) }
    ensures count { IfSome result (λ lanes. vec_len lanes ≡ count) }
{
    let mut readers = readers;
    let Ok(mut lanes) = Vec::with_capacity(alloc, count as usize) else {
        return None;
    };
    for lane in 0..count {
        let Some(next) = next_lane::<N>(alloc, settings, &mut readers, lane, count) else {
            return None;
        };
        lanes.push_reserved(next);
    }
    Some(lanes)
}

/// So many lanes of a bridge, each with one of these readers.
pub fn lanes_by<N: PublisherName>(
    alloc: Global,
    readers: Vec<LaneReader>,
    count: u32,
) -> io::Result<Vec<Lane>>
    requires readers { All (λ (r : ReaderOf). r.publisher ≡ N.publisher) readers.items }
    ensures new { IfOk result (λ lanes. AreNew lanes.items) }
    ensures publisher { IfOk result (λ lanes.
        All (λ (lane : LaneNow). lane.reader.publisher ≡ N.publisher) lanes.items) }
    ensures count { IfOk result (λ lanes. vec_len lanes ≡ count) }
{
    let settings = settings(alloc)?;
    if !settings.is_good() || count > LANES {
        return Err(io::Error::other("so no lanes can be made"));
    }
    match all_lanes::<N>(alloc, &settings, readers, count) {
        Some(lanes) => Ok(lanes),
        None => Err(io::Error::other("no lanes are made")),
    }
}
