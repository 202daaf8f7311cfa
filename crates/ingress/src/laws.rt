//! Laws of the definitions: functions that do nothing when they run.

ghost use Rattle.std.specs.Prelude.{◌≡◌, ℕ, true, false, if◌then◌else◌, List, map, IfSome, option_map};
ghost use Rattle.rtp_codec.specs.Octets.{AreOctets};
ghost use Rattle.frame_gate.specs.Packets.{NumberedPacket};
ghost use Rattle.frame_gate.specs.Epochs.{epoch_of};
ghost use Rattle.frame_gate.specs.Watched.{came};
ghost use Rattle.desk_rows.specs.Desk.{Desk, good};
ghost use Rattle.topology.specs.Looking.{comes_from};
ghost use Rattle.sender_feedback.specs.Upstream.{Asker};
ghost use Rattle.ingress.specs.Readings.{Reading, IsReading};
ghost use Rattle.ingress.specs.Stories.{Story, gate_epoch};
ghost use Rattle.ingress.specs.Sources.{Origin, Sources, no_sources, same_origin, story_at};
ghost use Rattle.ingress.specs.Taking.{Voice, IsVoice, Datagram, taken_in};
ghost use Rattle.ingress.specs.Waiting.{waited_for};
ghost use Rattle.ingress.specs.PacketsAlone.{HavePacketsAlone};
ghost use Rattle.ingress.specs.Reported.{block_on, renewed, reported};

use frame_gate::packets_alone_are_an_epoch;
use rtcp_codec::{compound_or_fault, numbers_have_words};
use rtp_codec::faultless_is_packet;

/// A law: two readings of the same octets are equal.
pub fn readings_agree()
    ensures { (octets : List ℕ) (r s : Reading) → IsReading octets r → IsReading octets s → r ≡ s }
{}

/// A law: any octets have a reading. They are too many, neither RTP nor RTCP, a packet, a compound, or have a fault.
pub fn datagrams_are_read()
    ensures { (octets : List ℕ) → AreOctets octets → (r : Reading) × IsReading octets r }
{
    faultless_is_packet();
    compound_or_fault();
}

/// A law: any sequence numbers have NACK words, so the bridge can ask for them.
pub fn voices_are_there()
    ensures { (asker : Asker) → (voice : Voice) × IsVoice voice × (voice.asker ≡ asker) }
{
    numbers_have_words();
}

/// A law of reports under a good desk. New intervals begin for exactly the known sources that a member sends from its
/// address. The order of use stays. A source that is reported again at once has lost nothing since.
pub fn reports_begin_intervals()
    ensures just { (asker : Asker) (d : Desk) (moment : ℕ) (s : Sources) (o : Origin) → good d ≡ true
        → story_at o (reported asker d moment s).1.known
        ≡ (if comes_from d o.ssrc o.address then option_map renewed (story_at o s.known) else story_at o s.known) }
    ensures order { (asker : Asker) (d : Desk) (moment : ℕ) (s : Sources)
        → map (λ k. k.origin) (reported asker d moment s).1.known ≡ map (λ k. k.origin) s.known }
    ensures next { (ssrc moment : ℕ) (story : Story)
        → IfSome (block_on ssrc moment (renewed story)) (λ b. b.fraction ≡ 0) }
{}

/// A law of sources without waits. Datagrams and reports bring packets alone to the gates, and then the epoch at a
/// gate is that of these packets.
pub fn gates_without_waits()
    ensures epoch { (story : Story) (packets : List NumberedPacket) → story.gate_events ≡ map came packets
        → gate_epoch story ≡ epoch_of packets }
    ensures start { HavePacketsAlone no_sources }
    ensures datagrams { (voice : Voice) (s : Sources) (d : Datagram) → HavePacketsAlone s
        → HavePacketsAlone (taken_in voice s d).1 }
    ensures reports { (asker : Asker) (d : Desk) (moment : ℕ) (s : Sources) → HavePacketsAlone s
        → HavePacketsAlone (reported asker d moment s).1 }
{
    packets_alone_are_an_epoch();
}

/// A law of waits. The order of use stays, other sources stay as they were, and no epoch begins.
pub fn waits_leave_others_alone()
    ensures order { (voice : Voice) (d : Desk) (o : Origin) (moment : ℕ) (s : Sources)
        → map (λ k. k.origin) (waited_for voice d o moment s).1.known ≡ map (λ k. k.origin) s.known }
    ensures others { (voice : Voice) (d : Desk) (o p : Origin) (moment : ℕ) (s : Sources) → same_origin p o ≡ false
        → story_at p (waited_for voice d o moment s).1.known ≡ story_at p s.known }
    ensures epochs { (voice : Voice) (d : Desk) (o : Origin) (moment : ℕ) (s : Sources)
        → (waited_for voice d o moment s).1.epochs ≡ s.epochs }
{}
