//! Takes in media packets.

ghost use Rattle.std.specs.Prelude.{◌≡◌, ◌≤◌, true, length, IfOk, OnErr};
ghost use Rattle.rtp_codec.specs.View.{packet_of};
ghost use Rattle.frame_gate.specs.Frame.{highest_pt};
ghost use Rattle.rtp_codec.specs.declared.class.Class.TheVariants as classes;
ghost use Rattle.media_items.specs.Formats.{rate_of, holds_whole, samples_of_packet};
ghost use Rattle.media_items.specs.Rates.{video_rate};
ghost use Rattle.ingress.specs.Readings.{IsOf};
ghost use Rattle.ingress.specs.Ingested.{ingested_of, IsAbout};
ghost use Rattle.ingress.specs.Received.{IsReceived};
ghost use Rattle.ingress.specs.Energy.{counted_as, no_sound, samples_for};
ghost use Rattle.ingress.specs.Media.{audio_course, video_course, arrival_of};
ghost use Rattle.ingress.specs.Taking.{sourced, of_row};
ghost use Rattle.ingress.specs.Ingresses.{Moves, TakesIn};
ghost use Rattle.ingress.specs.inner.Effects.{effect_of, IsOfPacket};
ghost use Rattle.ingress.specs.inner.MediaPackets.{incoming_of};

use crate::ingest::{Effect, Ingest};
use crate::ingress::Ingress;
use crate::known::key_of;
use crate::media_packet::MediaPacket;
use crate::outcome::Outcome;
use crate::received::{Received, header_of};
use crate::sounding::{audio_format, sounds};
use crate::validating::{RtpArrival, units_of};
use desk_rows::{DEFAULT_RATE, Media, Rows, Source};
use media_items::Format;
use rtp_codec::{Address, read};
use std::alloc::{AllocError, Allocator};
use topology::{rate_of, source_from};

/// The clock rate of video in Hz (RFC 3551 section 5).
const VIDEO_RATE: u32 = 90_000;

/// The parts of a packet that a source of this clock rate judges.
fn arrival_of(rate: u32, incoming: MediaPacket<'_>) -> RtpArrival
    requires { rate ≤ 90000 }
    ensures { result ≡ arrival_of rate (incoming_of incoming.entry) }
{
    RtpArrival {
        rate,
        seq: incoming.view.seq,
        ts: incoming.view.ts,
        units: units_of(rate, incoming.moment),
    }
}

impl<A: Allocator + Copy> Ingress<A> {
    /// Takes in an audio packet of this format.
    #[tactic(auto, using(media_items::proofs::FormatLemmas::rate_fits))]
    fn audio(
        &mut self,
        alloc: A,
        format: Format,
        incoming: MediaPacket<'_>,
    ) -> Result<Effect<A>, AllocError>
        requires { holds_whole format (length incoming.view.now.payload.now) ≡ true }
        ensures moves { IfOk result
            (λ effect. Moves self.old self.new (effect_of effect)
            (λ voice s. sourced voice (rate_of format)
            (audio_course format (incoming_of incoming.entry)) (incoming_of incoming.entry) s)) }
        ensures about { IfOk result (λ effect. IsAbout incoming.entry.from.now (effect_of effect)) }
        ensures packet { IfOk result (IsOfPacket self.old self.new) }
        ensures sound { IfOk result (λ effect. effect.sound ≡ counted_as effect.outcome
            (samples_of_packet format (incoming_of incoming.entry).packet.payload)) }
        ensures err { OnErr result (self.new ≡ self.old) }
        ensures asker { self.new.asker ≡ self.old.asker }
    {
        let key = key_of(incoming.from, incoming.view.ssrc);
        let validated = self.validated(&key, arrival_of(format.rate(), incoming));
        if self.is_spent(&validated) {
            return Ok(Effect::only(alloc, Outcome::Spent));
        }
        let heard = sounds(alloc, validated.verdict, format, incoming)?;
        self.verdict_with(alloc, key, &validated, heard)
    }

    /// Takes in a video packet.
    fn video(&mut self, alloc: A, incoming: MediaPacket<'_>) -> Result<Effect<A>, AllocError>
        requires { incoming.view.now.pt ≤ highest_pt }
        ensures moves { IfOk result
            (λ effect. Moves self.old self.new (effect_of effect)
            (λ voice s.
            sourced voice video_rate (video_course (incoming_of incoming.entry)) (incoming_of incoming.entry) s)) }
        ensures about { IfOk result (λ effect. IsAbout incoming.entry.from.now (effect_of effect)) }
        ensures packet { IfOk result (IsOfPacket self.old self.new) }
        ensures sound { IfOk result (λ effect. effect.sound ≡ no_sound) }
        ensures err { OnErr result (self.new ≡ self.old) }
        ensures asker { self.new.asker ≡ self.old.asker }
    {
        let key = key_of(incoming.from, incoming.view.ssrc);
        let validated = self.validated(&key, arrival_of(VIDEO_RATE, incoming));
        if self.is_spent(&validated) {
            return Ok(Effect::only(alloc, Outcome::Spent));
        }
        match validated.verdict.accepted() {
            None => self.verdict_only(alloc, key, &validated),
            Some(ext) => self.pass_gate(alloc, key, &validated, ext, incoming),
        }
    }

    /// Takes in a media packet of the source in this row, if there is one.
    fn media(
        &mut self,
        alloc: A,
        rows: &Rows<A>,
        source: Option<Source>,
        incoming: MediaPacket<'_>,
    ) -> Result<Effect<A>, AllocError>
        requires { incoming.view.now.pt ≤ highest_pt }
        ensures moves { IfOk result
            (λ effect. Moves self.old self.new (effect_of effect)
            (λ voice s. of_row voice rows.now source (incoming_of incoming.entry) s)) }
        ensures about { IfOk result (λ effect. IsAbout incoming.entry.from.now (effect_of effect)) }
        ensures packet { IfOk result (IsOfPacket self.old self.new) }
        ensures sound { IfOk result (λ effect. effect.sound
            ≡ counted_as effect.outcome (samples_for rows.now source (incoming_of incoming.entry).packet)) }
        ensures err { OnErr result (self.new ≡ self.old) }
        ensures asker { self.new.asker ≡ self.old.asker }
    {
        let view = incoming.view;
        let Some(source) = source else {
            return Ok(Effect::only(alloc, Outcome::Unknown));
        };
        match source.media {
            Media::Audio => {
                let rate = rate_of(rows, source.member).unwrap_or(DEFAULT_RATE);
                match audio_format(rate, view.pt, view.payload.len()) {
                    None => Ok(Effect::only(alloc, Outcome::BadPayload)),
                    Some(format) => self.audio(alloc, format, incoming),
                }
            }
            Media::Video => self.video(alloc, incoming),
        }
    }

    /// Takes in a datagram whose first octets say RTP.
    pub(crate) fn rtp(
        &mut self,
        alloc: A,
        rows: &Rows<A>,
        from: &Address,
        moment: u64,
        octets: &[u8],
    ) -> Result<Ingest<A>, AllocError>
        requires { IsOf classes.Rtp octets.now }
        ensures takes { IfOk result
            (λ ingest. TakesIn self.old self.new (ingested_of ingest) octets.now
            (λ r. record { desk = rows.now; from = from.now; moment = moment; reading = r })) }
        ensures about { IfOk result (λ ingest. IsAbout from.now (ingested_of ingest)) }
        ensures received { IfOk result (λ ingest. IsReceived rows.now from.now moment octets.now
            self.old.epochs self.new.epochs ingest.received) }
        ensures err { OnErr result (self.new ≡ self.old) }
        ensures asker { self.new.asker ≡ self.old.asker }
    {
        match read(octets) {
            Err(fault) => {
                let received = Received::new(alloc, from, moment, octets, None);
                Ok(Ingest::only(alloc, received, Outcome::BadRtp(fault)))
            }
            Ok(view) => {
                let source = source_from(rows, view.ssrc, from);
                let incoming = MediaPacket {
                    from,
                    moment,
                    view: &view,
                };
                let effect = self.media(alloc, rows, source, incoming)?;
                let header = header_of(&view);
                let mut received = Received::new(alloc, from, moment, octets, Some(header));
                received.source = source;
                Ok(Ingest::of(received, effect))
            }
        }
    }
}
