//! The lanes of the model.

ghost use Rattle.std.specs.Prelude.{◌≡◌, true};
ghost use Rattle.std.specs.Bool.{OnTrue};
ghost use Rattle.media_items.specs.Inputs.{input_of, is_sized};

use crate::beat::BEAT;
use crate::datagram::Datagram;
use crate::difference::Difference;
use crate::left::{NOTHING, with_datagram};
use bridge_core::{Core, Item};
use media_front::places_left;
use std::alloc::{AllocError, Global};
use std::collections::VecDeque;

/// How many parcels the ring of a lane holds.
const RING: usize = 1_024;
/// From how many parcels on a lane is woken, whatever they are.
const MANY: usize = 256;

/// A lane of the model: the parcels in its ring, and what it sends.
#[derive(Drop)]
pub struct LaneModel {
    lane: u32,
    ring: VecDeque<Item>,
    /// How many of the parcels it was woken for.
    woken: usize,
    /// Whether one that it wasn't woken for presses.
    presses: bool,
    /// How many of the parcels that it was woken for are beats.
    beats: u64,
    /// How many of the others are.
    later_beats: u64,
    /// How many parcels were kept in the ring.
    pub kept: u64,
    /// How many parcels were dropped.
    pub dropped: u64,
    /// How many datagrams it gave so far.
    pub datagrams: u64,
    /// All of these.
    pub all: u64,
    /// Those that it is to try.
    tried: VecDeque<Datagram>,
}

/// Whether a lane may handle an item: sound has 1 to 200 ms of samples at 8000 or 44100 Hz.
fn is_fit(item: &Item) -> bool
    ensures { OnTrue result (is_sized (input_of item.now) ≡ true) }
{
    match item {
        Item::Audio { rate, samples, .. } => {
            (*rate == 8_000 || *rate == 44_100)
                && (!samples.is_empty() && samples.len() <= *rate as usize / 5)
        }
        _ => true,
    }
}

/// 1 for a beat, and 0 for another item.
fn beats_in(item: &Item) -> u64 {
    match item {
        Item::Frame(frame) if frame.source == BEAT => 1,
        _ => 0,
    }
}

impl LaneModel {
    /// A lane that was given nothing.
    pub fn new(alloc: Global, lane: u32) -> Self {
        Self {
            lane,
            ring: VecDeque::new(alloc),
            woken: 0,
            presses: false,
            beats: 0,
            later_beats: 0,
            kept: 0,
            dropped: 0,
            datagrams: 0,
            all: NOTHING,
            tried: VecDeque::new(alloc),
        }
    }

    /// Gives the lane an item. It is dropped if it leaves too few places of the ring free.
    pub fn give(&mut self, item: Item) -> Result<(), AllocError> {
        let free = RING.saturating_sub(self.ring.len());
        if free <= places_left(&item) {
            self.dropped = self.dropped.saturating_add(1);
            return Ok(());
        }
        self.presses = self.presses || !matches!(item, Item::Audio { .. });
        self.later_beats = self.later_beats.saturating_add(beats_in(&item));
        self.ring.push_back(item)?;
        self.kept = self.kept.saturating_add(1);
        Ok(())
    }

    /// Wakes it for all that is in its ring, if one presses or they are many.
    pub fn wake(&mut self) {
        if self.presses || self.ring.len().saturating_sub(self.woken) >= MANY {
            self.woken = self.ring.len();
            self.presses = false;
            self.beats = self.beats.saturating_add(self.later_beats);
            self.later_beats = 0;
        }
    }

    /// Handles items up to the first one that gives datagrams, if it was woken for a beat, which does. Returns how many
    /// that gives.
    pub fn advance(&mut self, alloc: Global, core: &mut Core) -> Result<u64, Difference> {
        for _ in 0..RING {
            if self.beats == 0 {
                break;
            }
            let Some(item) = self.ring.pop_front() else {
                break;
            };
            self.woken = self.woken.saturating_sub(1);
            self.beats = self.beats.saturating_sub(beats_in(&item));
            let given = self.handle(alloc, core, &item)?;
            if given > 0 {
                return Ok(given);
            }
        }
        Ok(0)
    }

    /// Handles an item at the present version. Returns how many datagrams that gives.
    fn handle(&mut self, alloc: Global, core: &mut Core, item: &Item) -> Result<u64, Difference> {
        if self.lane as usize >= core.lanes() || !is_fit(item) {
            return Err(Difference::Fault(self.lane as usize));
        }
        let Ok(sent) = core.item(alloc, self.lane, item) else {
            return Err(Difference::Memory);
        };
        let before = self.datagrams;
        for egress in &sent {
            if let Some(datagram) = Datagram::of_egress(alloc, egress)? {
                self.datagrams = self.datagrams.saturating_add(1);
                self.all = with_datagram(self.all, &datagram);
                self.tried.push_back(datagram)?;
            }
        }
        Ok(self.datagrams.saturating_sub(before))
    }

    /// Takes the datagrams that it is to try but for the last ones, which are so many.
    pub fn take_tried(&mut self, alloc: Global, left: usize) -> Result<Vec<Datagram>, AllocError> {
        let mut taken = Vec::new(alloc);
        for _ in left..self.tried.len() {
            if let Some(datagram) = self.tried.pop_front() {
                taken.push(datagram)?;
            }
        }
        Ok(taken)
    }
}
