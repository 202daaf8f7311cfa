//! Lanes that have handled nothing.

ghost use Rattle.std.specs.Prelude.{◌≡◌, ◌<◌, ◌≤◌, [], vec_len, codes, All, IfSome, IfOk};
ghost use Rattle.published_desk.specs.Published.{new_reader};
ghost use Rattle.bridge_core.specs.LaneState.{HasHandled};
ghost use Rattle.media_workers.specs.LaneRuns.{LaneNow};
ghost use Rattle.media_workers.specs.Bridges.{AreNew};

use crate::items::FitItem;
use crate::told::{OfBrand, Told};
use bridge_core::{Egress, LaneState, Settings};
use bytes::Bytes;
use media_workers::{HandleFault, Lane, PublisherName};
use operator_desk::DeskBrand;
use published_desk::LaneReader;
use std::alloc::{AllocError, Global};
use std::marker::PhantomData;

/// The state of a lane of the bridge `bridge`, which has SSRC 1.
fn state(alloc: Global, lane: u32, lanes: u32) -> Result<LaneState, AllocError>
    requires lane { lane < lanes }
    requires lanes { lanes ≤ 16 }
    ensures none { IfOk result (λ state. HasHandled state []) }
    ensures place { IfOk result (λ state. (state.lane ≡ lane) × (state.lanes ≡ lanes)) }
    ensures who { IfOk result (λ state. state.who ≡ record { ssrc = 1; cname = codes "bridge" }) }
{
    let settings = Settings {
        bridge_ssrc: 1,
        cname: Bytes::from_static(b"bridge"),
    };
    LaneState::new(alloc, lane, lanes, settings)
}

/// The lanes of a bridge, one for each of up to 16 readers.
pub fn lanes<H: DeskBrand>(alloc: Global, readers: Vec<LaneReader>) -> Result<Vec<Lane>, AllocError>
    requires readers { All (λ reader. reader ≡ new_reader H.publisher H.start) readers.items }
    ensures new { IfOk result (λ lanes. AreNew lanes.items) }
    ensures publisher { IfOk result (λ lanes.
        All (λ (lane : LaneNow). lane.reader.publisher ≡ H.publisher) lanes.items) }
    ensures len { IfOk result (λ lanes. vec_len lanes ≡ vec_len readers) }
    ensures few { IfOk result (λ lanes. vec_len lanes ≤ 16) }
{
    if readers.len() > 16 {
        return Err(AllocError);
    }
    let many = readers.len() as u32;
    let mut readers = readers;
    let mut lanes = Vec::new(alloc);
    for lane in 0..many {
        let Some(reader) = readers.pop() else {
            return Err(AllocError);
        };
        let state = state(alloc, lane, many)?;
        lanes.push(Lane::new(reader, state))?;
    }
    Ok(lanes)
}

/// The last reader. It leaves the list.
fn last_of<H: DeskBrand>(readers: &mut Vec<LaneReader>) -> Option<LaneReader>
    requires { All (λ reader. reader ≡ new_reader H.publisher H.start) readers.old.items }
    ensures taken { IfSome result (λ reader. reader ≡ new_reader H.publisher H.start) }
    ensures left { All (λ reader. reader ≡ new_reader H.publisher H.start) readers.new.items }
{
    readers.pop()
}

/// A lane without a thread, whose reader is of this publisher.
#[derive(Drop)]
pub struct OwnLane<N: PublisherName> {
    lane: Lane,
    _publisher: PhantomData<N>,
    ghost of: { lane.reader.publisher ≡ N.publisher },
}

/// The only lane of a bridge, with the last one of the readers.
pub fn own_lane<H: DeskBrand>(
    alloc: Global,
    readers: &mut Vec<LaneReader>,
) -> Option<OwnLane<OfBrand<H>>>
    requires { All (λ reader. reader ≡ new_reader H.publisher H.start) readers.old.items }
    ensures { All (λ reader. reader ≡ new_reader H.publisher H.start) readers.new.items }
{
    let reader = last_of::<H>(readers)?;
    let state = state(alloc, 0, 1).ok()?;
    Some(OwnLane {
        lane: Lane::new(reader, state),
        _publisher: PhantomData,
    })
}

impl<N: PublisherName> OwnLane<N> {
    /// Takes in a notice.
    pub fn learn(&mut self, told: Told<N>) {
        self.lane.learn(told.into_notice());
    }

    /// What the lane sends for an item.
    pub fn handle(&mut self, alloc: Global, item: &FitItem) -> Result<Vec<Egress>, HandleFault> {
        self.lane.handle(alloc, item.item())
    }

    pub fn into_lane(self) -> Lane
        ensures { result.reader.publisher ≡ N.publisher }
    {
        self.lane
    }
}
