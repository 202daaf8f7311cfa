//! What lanes are given, step by step.

ghost use Rattle.std.specs.Prelude.{◌≡◌, true, IfOk};
ghost use Rattle.media_items.specs.Inputs.{input_of, is_sized};

use crate::items::{address_of, frame_of};
use crate::rooms::{Plan, picture_of, voice_of};
use crate::talking::{SAMPLES, spoken_by};
use bridge_core::{Item, MediaFrame};
use std::alloc::{AllocError, Global};
use std::io;

/// Nanoseconds from tick to tick.
const TICK: u64 = 20_000_000;

/// What lanes are given.
#[derive(Drop)]
pub enum Load {
    /// A step is this frame.
    Frames(MediaFrame),
    /// In a step this many members speak, and then comes a tick.
    Talk { voices: u16 },
}

/// A frame of this many packets of member 0.
pub fn frames_of(alloc: Global, packets: u16) -> io::Result<Load> {
    Ok(Load::Frames(frame_of(alloc, picture_of(0), packets)?))
}

/// All voices of a room.
pub fn talk_of(plan: &Plan) -> Load {
    Load::Talk {
        voices: plan.voices,
    }
}

/// What a member says in a step.
fn sound_of(alloc: Global, member: u16, step: u64) -> Result<Item, AllocError>
    ensures { IfOk result (λ item. is_sized (input_of item) ≡ true) }
{
    let step = (step % (1 << 32)) as u32;
    Ok(Item::Audio {
        ssrc: voice_of(member),
        address: address_of(member),
        rate: 8_000,
        ts: step.wrapping_mul(SAMPLES as u32),
        samples: Vec::from_slice(alloc, &spoken_by(member))?,
    })
}

impl Load {
    /// How many items a step has.
    pub fn items(&self) -> u16 {
        match self {
            Load::Frames(_) => 1,
            Load::Talk { voices } => voices.saturating_add(1),
        }
    }

    /// An item of a step, by its place.
    pub fn item(&self, alloc: Global, step: u64, place: u16) -> Result<Item, AllocError>
        ensures { IfOk result (λ item. is_sized (input_of item) ≡ true) }
    {
        match self {
            Load::Frames(frame) => Ok(Item::Frame(frame.try_clone(alloc)?)),
            Load::Talk { voices } if place < *voices => sound_of(alloc, place, step),
            Load::Talk { .. } => Ok(Item::Tick {
                moment: step.saturating_mul(TICK),
            }),
        }
    }
}
