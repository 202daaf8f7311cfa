//! Decodes audio payloads into items.

ghost use Rattle.std.specs.Prelude.{◌≡◌, true, [], length, map, is_some, if◌then◌else◌, IfOk, IfSome};
ghost use Rattle.std.specs.List.{list_all};
ghost use Rattle.media_items.specs.Formats.{holds_whole, samples_of_packet};
ghost use Rattle.media_items.specs.Inputs.{input_of, is_sized};
ghost use Rattle.source_valid.specs.Histories.{accepted};
ghost use Rattle.ingress.specs.Energy.{count_of_samples, no_sound};
ghost use Rattle.ingress.specs.Media.{audio_format, sound_of, sounds};
ghost use Rattle.ingress.specs.inner.MediaPackets.{incoming_of};

use crate::media_packet::MediaPacket;
use crate::sound_count::SoundCount;
use media_items::{Format, Item, format_of_packet};
use source_valid::Verdict;
use std::alloc::{AllocError, Allocator, Global};

/// What is heard of a packet.
#[derive(Drop)]
pub(crate) struct PacketSound<A: Allocator + Copy = Global> {
    /// The items that it makes.
    pub(crate) items: Vec<Item<A>, A>,
    /// What is counted of its sound.
    pub(crate) sound: SoundCount,
}

impl<A: Allocator + Copy> PacketSound<A> {
    /// Nothing.
    pub(crate) fn nothing(alloc: A) -> Self
        ensures items { result.items.items ≡ [] }
        ensures sound { result.sound ≡ no_sound }
    {
        Self {
            items: Vec::new(alloc),
            sound: SoundCount::nothing(),
        }
    }
}

/// The format of a payload of so many octets, if it is audio in a room of this clock rate.
pub(crate) fn audio_format(rate: u32, pt: u8, octets: usize) -> Option<Format>
    ensures format { result ≡ audio_format rate pt octets }
    ensures whole { IfSome result (λ format. holds_whole format octets ≡ true) }
{
    match format_of_packet(pt, rate) {
        None => None,
        Some(format) => {
            if format.holds_whole(octets) {
                Some(format)
            } else {
                None
            }
        }
    }
}

/// A packet as an item, unless its payload is empty, and what is counted of its samples.
#[tactic(auto, using(media_items::proofs::FormatLemmas::few_samples, media_items::proofs::FormatLemmas::whole_samples))]
fn sound_of<A: Allocator + Copy>(
    alloc: A,
    format: Format,
    incoming: MediaPacket<'_>,
) -> Result<PacketSound<A>, AllocError>
    requires { holds_whole format (length incoming.view.now.payload.now) ≡ true }
    ensures items { IfOk result
        (λ heard. map input_of heard.items.items ≡ sound_of format (incoming_of incoming.entry)) }
    ensures sound { IfOk result (λ heard. heard.sound
        ≡ count_of_samples (samples_of_packet format (incoming_of incoming.entry).packet.payload)) }
{
    let view = incoming.view;
    let samples = format.decode(alloc, view.payload)?;
    let sound = SoundCount::of(&samples);
    if view.payload.is_empty() {
        return Ok(PacketSound {
            items: Vec::new(alloc),
            sound,
        });
    }
    let mut items = Vec::with_capacity(alloc, 1)?;
    items.push_reserved(Item::Audio {
        ssrc: view.ssrc,
        address: *incoming.from,
        rate: format.rate(),
        ts: view.ts,
        samples,
    });
    Ok(PacketSound { items, sound })
}

/// The items of a judged packet, and what is counted of its sound. Only a packet that counts is heard.
pub(crate) fn sounds<A: Allocator + Copy>(
    alloc: A,
    verdict: Verdict,
    format: Format,
    incoming: MediaPacket<'_>,
) -> Result<PacketSound<A>, AllocError>
    requires { holds_whole format (length incoming.view.now.payload.now) ≡ true }
    ensures items { IfOk result
        (λ heard. map input_of heard.items.items ≡ sounds format (incoming_of incoming.entry) verdict) }
    ensures sized { IfOk result (λ heard. list_all is_sized (map input_of heard.items.items) ≡ true) }
    ensures sound { IfOk result (λ heard. heard.sound
        ≡ (if is_some (accepted verdict)
        then count_of_samples (samples_of_packet format (incoming_of incoming.entry).packet.payload) else no_sound)) }
{
    match verdict.accepted() {
        None => Ok(PacketSound::nothing(alloc)),
        Some(_) => sound_of(alloc, format, incoming),
    }
}
