//! Puts video packets through their source's gate.

ghost use Rattle.std.specs.Prelude.{◌≡◌, ◌+◌, ◌≤◌, ◌||◌, ◌&&◌, ◌++◌, true, false, is_some, nat_eq};
ghost use Rattle.std.specs.Prelude.{length, map, IfOk, OnErr};
ghost use Rattle.std.specs.Prelude.{option_copied, vec_len, vec_capacity};
ghost use Rattle.rtp_codec.specs.View.{packet_of};
ghost use Rattle.source_valid.specs.Histories.{restarts};
ghost use Rattle.frame_gate.specs.Frame.{highest_pt};
ghost use Rattle.frame_gate.specs.Packets.{IsExt, NumberedPacket, numbered};
ghost use Rattle.media_items.specs.Inputs.{input_of};
ghost use Rattle.ingress.specs.Energy.{no_sound};
ghost use Rattle.ingress.specs.Ingested.{IsAbout};
ghost use Rattle.ingress.specs.Media.{gate_packet, frames_from};
ghost use Rattle.ingress.specs.Taking.{most_epochs};
ghost use Rattle.ingress.specs.inner.Effects.{effect_of, IsOfPacket};
ghost use Rattle.ingress.specs.inner.MediaPackets.{incoming_of, origin_in};
ghost use Rattle.ingress.specs.inner.SourceEntries.{Admits, base_of, gate_for};
ghost use Rattle.ingress.specs.inner.Holding.{kept_for};
ghost use Rattle.frame_gate.specs.Epochs.{most_missing};
ghost use Rattle.ingress.specs.inner.Moves.{epoch_in, Gates};

use crate::admitting::{Admission, admit};
use crate::advancing::outcome_at;
use crate::ingest::Effect;
use crate::ingress::Ingress;
use crate::known::OriginKey;
use crate::media_packet::{MediaPacket, Origin, origin_of};
use crate::sound_count::SoundCount;
use crate::source_entry::SourceEntry;
use crate::validating::Validated;
use frame_gate::{Frame, Packet, WatchedGate};
use media_items::{Item, MediaFrame};
use rtp_codec::RtpView;
use source_valid::Verdict;
use std::alloc::{AllocError, Allocator};

/// The gate for a packet. There is none yet if an epoch begins with it.
// A source takes the memory of a gate with its first video packet. Audio comes to no gate.
pub(crate) fn gate_for<A: Allocator + Copy>(
    kept: Option<&SourceEntry<A>>,
    begins: bool,
) -> Option<&WatchedGate<A>>
    ensures { option_copied result ≡ gate_for (option_copied kept.entry) begins }
{
    match kept {
        None => None,
        Some(kept) => { if begins { None } else { kept.gate.as_ref() } }
    }
}

/// Whether a picture is lost: the source restarts, or its gate gives up.
fn loses(verdict: Verdict, gives_up: bool) -> bool
    ensures { result ≡ (restarts verdict || gives_up) }
{
    verdict.restarts() || gives_up
}

/// Appends the frames as items. The list has the capacity.
// The moment is that of the datagram that closed a frame, since the frame leaves then: a stream's moments go back only
// where those of the datagrams do. A frame that waited for a packet has a late one.
pub(crate) fn put_frames<A: Allocator + Copy>(
    items: &mut Vec<Item<A>, A>,
    origin: Origin,
    moment: u64,
    epoch: u64,
    frames: Vec<Frame<A>, A>,
)
    requires { vec_len items.old + vec_len frames ≤ vec_capacity items.old }
    ensures items { map input_of items.new.items
        ≡ map input_of items.old.items
        ++ frames_from (origin_in origin) moment epoch frames.items }
    ensures len { vec_len items.new ≡ vec_len items.old + vec_len frames }
    ensures capacity { vec_capacity items.old ≤ vec_capacity items.new }
{
    for frame in frames {
        items.push_reserved(Item::Frame(MediaFrame {
            source: origin.ssrc,
            address: origin.address,
            epoch,
            moment,
            frame,
        }));
    }
}

impl<A: Allocator + Copy> Ingress<A> {
    /// The packet for its source's gate. This copies the payload, which is shared from here on.
    fn packet_of(&mut self, alloc: A, view: &RtpView<'_>) -> Result<Packet<A>, AllocError>
        ensures packet { IfOk result (λ p. p ≡ gate_packet (packet_of view.now)) }
        ensures same { self.new ≡ self.old }
    {
        let payload = self.payloads.copied(alloc, view.payload)?;
        Ok(Packet {
            marker: view.marker,
            pt: view.pt,
            ts: view.ts,
            payload,
        })
    }

    /// Prepares a packet for its source's gate.
    fn admission(
        &self,
        alloc: A,
        key: &OriginKey,
        validated: &Validated,
        ext: i64,
        packet: Packet<A>,
    ) -> Result<Admission<A>, AllocError>
        requires ext { IsExt ext }
        requires pt { packet.pt ≤ highest_pt }
        ensures few { IfOk result (λ a. length a.prepared.prepared.answer.nacks ≤ most_missing) }
        ensures admits { IfOk result
            (λ a. Admits (gate_for (kept_for key.now validated.now.rate self.now.entries) validated.now.begins)
            (numbered ext packet) a) }
    {
        let kept = self.known.at_rate(key, validated.rate);
        admit(alloc, gate_for(kept, validated.begins), ext, packet)
    }

    /// Puts a prepared packet through its source's gate.
    fn at_gate(
        &mut self,
        alloc: A,
        key: OriginKey,
        validated: &Validated,
        incoming: MediaPacket<'_>,
        admission: Admission<A>,
    ) -> Result<Effect<A>, AllocError>
        requires below { (validated.now.begins && nat_eq self.old.epochs most_epochs) ≡ false }
        requires epoch { validated.now.epoch ≡ epoch_in (kept_for key validated.now.rate self.old.entries) }
        requires few { length admission.prepared.prepared.answer.nacks ≤ most_missing }
        requires ready { is_some
            (base_of (gate_for (kept_for key validated.now.rate self.old.entries) validated.now.begins) admission)
            ≡ true }
        ensures gates { (p : NumberedPacket)
            → Admits (gate_for (kept_for key validated.now.rate self.old.entries) validated.now.begins) p admission
            → IfOk result
            (λ effect. Gates self.old self.new key validated.now (incoming_of incoming.entry) p (effect_of effect)) }
        ensures about { IfOk result (λ effect. IsAbout incoming.entry.from.now (effect_of effect)) }
        ensures packet { IfOk result (IsOfPacket self.old self.new) }
        ensures sound { IfOk result (λ effect. effect.sound ≡ no_sound) }
        ensures err { OnErr result (self.new ≡ self.old) }
        ensures asker { self.new.asker ≡ self.old.asker }
    {
        let origin = origin_of(incoming);
        let answer = admission.answer();
        let pli = loses(validated.verdict, answer.pli);
        let up = self.asked(alloc, origin, &answer.nacks, pli)?;
        let outcome = outcome_at(validated.verdict, answer.place);
        let mut items = Vec::with_capacity(alloc, answer.frames.len())?;
        let epoch = self.epoch_for(validated);
        let frames = self.advance(alloc, key, validated, Some(admission))?;
        put_frames(&mut items, origin, incoming.moment, epoch, frames);
        Ok(Effect {
            outcome,
            begins: validated.begins,
            sound: SoundCount::nothing(),
            up,
            items,
        })
    }

    /// Copies a packet's payload, and puts it through its source's gate.
    pub(crate) fn pass_gate(
        &mut self,
        alloc: A,
        key: OriginKey,
        validated: &Validated,
        ext: i64,
        incoming: MediaPacket<'_>,
    ) -> Result<Effect<A>, AllocError>
        requires below { (validated.now.begins && nat_eq self.old.epochs most_epochs) ≡ false }
        requires epoch { validated.now.epoch ≡ epoch_in (kept_for key validated.now.rate self.old.entries) }
        requires ext { IsExt ext }
        requires pt { incoming.view.now.pt ≤ highest_pt }
        ensures gates { IfOk result
            (λ effect. Gates self.old self.new key validated.now (incoming_of incoming.entry)
            (numbered ext (gate_packet (packet_of incoming.entry.view.now))) (effect_of effect)) }
        ensures about { IfOk result (λ effect. IsAbout incoming.entry.from.now (effect_of effect)) }
        ensures packet { IfOk result (IsOfPacket self.old self.new) }
        ensures sound { IfOk result (λ effect. effect.sound ≡ no_sound) }
        ensures err { OnErr result (self.new ≡ self.old) }
        ensures asker { self.new.asker ≡ self.old.asker }
    {
        let packet = self.packet_of(alloc, incoming.view)?;
        let admission = self.admission(alloc, &key, validated, ext, packet)?;
        self.at_gate(alloc, key, validated, incoming, admission)
    }
}
