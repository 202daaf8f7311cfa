//! The parts of a lane.

ghost use Rattle.std.specs.Prelude.{◌≡◌, ℕ, true, [], map, IfOk, OnErr};
ghost use Rattle.media_items.specs.Inputs.{input_of, is_sized};
ghost use Rattle.media_items.specs.Inputs.Input.{report as report_input};
ghost use Rattle.ingress.specs.Names.{is_name};
ghost use Rattle.mixer.specs.Mixers.{WasGiven};
ghost use Rattle.bridge_core.specs.Sent.{sent_of};
ghost use Rattle.bridge_core.specs.inner.Parts.{PartsAnswer};

use crate::audio::{put_sound, renew_sound, send_mixes};
use crate::control::{note_block, pass_up};
use crate::egress::Egress;
use crate::reporting::Reporting;
use crate::video::VideoStreams;
use crate::visit::LaneVisit;
use media_items::Item;
use mixer::{Mixer, TimedSamples};
use std::alloc::{AllocError, Allocator, Global};

/// The parts of a lane.
#[derive(Drop)]
pub struct LaneParts<A: Allocator + Copy = Global> {
    /// Its video streams that have begun.
    pub video: VideoStreams<A>,
    /// Its jitter buffers and its mix streams.
    pub audio: Mixer<A>,
}

impl<A: Allocator + Copy> LaneParts<A> {
    /// Parts that were given nothing. The only error is out of memory.
    pub fn new(alloc: A) -> Result<Self, AllocError>
        ensures video { IfOk result (λ parts. parts.video ≡ []) }
        ensures audio { IfOk result (λ parts. (lane lanes : ℕ) → WasGiven lane lanes parts.audio []) }
    {
        let video = VideoStreams::new(alloc)?;
        let audio = Mixer::new(alloc)?;
        Ok(Self { video, audio })
    }

    /// What the parts send for an item. On out of memory, the only error, nothing changes.
    pub fn answer(
        &mut self,
        alloc: A,
        visit: &LaneVisit<'_, A>,
        item: &Item<A>,
    ) -> Result<Vec<Egress<A>, A>, AllocError>
        requires sized { is_sized (input_of item.now) ≡ true }
        requires name { is_name visit.now.settings.now.cname ≡ true }
        ensures sends { IfOk result
            (λ sent. PartsAnswer visit.now self.old self.new (input_of item.now) (map sent_of sent.items)) }
        ensures err { OnErr result (self.new ≡ self.old) }
    {
        match item {
            Item::Frame(frame) => self.video.frame(alloc, visit, frame),
            Item::Audio {
                ssrc,
                address,
                rate,
                ts,
                samples,
            } => {
                let block = TimedSamples {
                    rate: *rate,
                    ts: *ts,
                    samples,
                };
                put_sound(alloc, &mut self.audio, *ssrc, address, block)
            }
            Item::Tick { moment } => send_mixes(alloc, &mut self.audio, visit, *moment),
            Item::Nack {
                from,
                out_ssrc,
                numbers,
            } => self.video.nack(alloc, visit, from, *out_ssrc, numbers),
            Item::Block { from, block } => note_block(alloc, &self.video, visit, from, block),
            Item::Pli { from, out_ssrc } => pass_up(alloc, visit, from, *out_ssrc),
            Item::Report { moment } => self.report(alloc, visit, *moment),
            Item::Renew => Ok(renew_sound(alloc, &mut self.audio)),
        }
    }

    /// The sender reports of a moment, in nanoseconds since 1970.
    fn report(
        &self,
        alloc: A,
        visit: &LaneVisit<'_, A>,
        moment: u64,
    ) -> Result<Vec<Egress<A>, A>, AllocError>
        requires { is_name visit.now.settings.now.cname ≡ true }
        ensures { IfOk result
            (λ sent. PartsAnswer visit.now self.now self.now (report_input moment) (map sent_of sent.items)) }
    {
        let due = Reporting {
            parts: self,
            visit: *visit,
            moment,
        };
        due.all(alloc)
    }
}
