//! What a lane reads when it handles an item.

use desk_rows::Rows;
use ingress::Settings;
use media_items::{LanePlace, Stamp};
use std::alloc::{Allocator, Global};

/// A visit of an item to a lane: all that the parts of the lane read beside the item.
#[derive(Clone, Copy)]
pub struct LaneVisit<'a, A: Allocator + Copy = Global> {
    /// The version of the desk, and the item's number in the lane.
    pub stamp: Stamp,
    /// The lane.
    pub place: LanePlace,
    /// The rows of that version.
    pub rows: &'a Rows<A>,
    /// The bridge's SSRC and canonical name.
    pub settings: &'a Settings<A>,
}
