//! Laws of the definitions, in the words of a script's grammar.

ghost use Rattle.std.specs.Prelude.{◌≡◌, ℕ, Bool, ◌^◌, ◌<◌, ◌≤◌, ◌++◌, List, Ok, codes};
ghost use Rattle.std.specs.List.{join_with_byte, flat_map};
ghost use Rattle.hex.specs.Hex.{IsBytes, decode_of, encode_lower};
ghost use Rattle.rtp_codec.specs.declared.address.Address.{Address};
ghost use Rattle.rtp_codec.specs.Octets.{AreOctets};
ghost use Rattle.desk_rows.specs.Desk.{blank};
ghost use Rattle.sender_feedback.specs.Upstream.{Asker};
ghost use Rattle.call_history.specs.AcceptedCall.{AcceptedOf};
ghost use Rattle.desk_text.specs.Values.{last_operator, AllFit};
ghost use Rattle.desk_text.specs.Words.{words_of};
ghost use Rattle.desk_text.specs.Calls.{SpellCall, IsCall};
ghost use Rattle.desk_text.specs.HistoryText.{said_by};
ghost use Rattle.script_text.specs.Decodings.{Decoding, script_asker, IsDecoded, DecodesLines};
ghost use Rattle.bridge_core.specs.Headline.{AreGood, HaveNoGap, numbers};
ghost use Rattle.bridge_core.specs.Named.{Name, firsts};
ghost use Rattle.bridge_core.specs.Steps.{sends};
ghost use Rattle.script_text.specs.Bridge.{first_desk, text_of};
ghost use Rattle.script_text.specs.Output.{output_of};
ghost use Rattle.frame_gate.specs.Frame.{SourcePacket};
ghost use Rattle.media_items.specs.Frame.{SourceFrame};
ghost use Rattle.media_items.specs.Inputs.Input.{frame, tick};
ghost use Rattle.desk_edit.specs.Asked.{CallOf};
ghost use Rattle.script_text.specs.Scripts.{answers_of, sent_in, speaker_of, steps_of};
ghost use Rattle.script_text.specs.Requests.{words_request, Desk, desk_words, desk_line};
ghost use Rattle.script_text.specs.Requests.{Item, frame_words, frame_line, IsFrame, Rx, rx_words, rx_line, IsDatagram};
ghost use Rattle.script_text.specs.Requests.{Wait, wait_values, wait_line, tick_line, Report, report_line, Begin};
ghost use Rattle.script_text.specs.FirstLine.{first_request, request_at, bridge_line, IsNamed};
ghost use Rattle.script_text.specs.Packets.{SpellPackets, packet_of, packet_text, SpellsHex, SpellsPacket, IsReadable};

use crate::script::{BRIDGE_SSRC, CNAME};
use bridge_core::streams_have_no_gap;
use desk_revert::histories_stay_sound;
use ingress::{datagrams_are_read, voices_are_there};

/// The words of an operator's line are its call, and what is read as an operator's call is spelled by its line, in
/// which a rate of 8000 Hz may be left out.
pub fn desk_lines()
    ensures read { (op : ℕ) (c : CallOf) → op ≤ last_operator → IsCall c
        → words_request (words_of (desk_line op c)) ≡ Ok (Desk op c) }
    ensures spelled { (line : List ℕ) (op : ℕ) (c : CallOf) → words_request (words_of line) ≡ Ok (Desk op c)
        → (words : List (List ℕ)) × (line ≡ join_with_byte 32 (desk_words op words)) × SpellCall words c
        × (op ≤ last_operator) × IsCall c }
{}

/// The line of an accepted call holds the call and its operator: behind the word `desk`, in place of its number, it is
/// read as the line of that operator's call.
pub fn made_lines_are_read()
    ensures { (m : AcceptedOf) → m.op ≤ last_operator → IsCall m.call
        → words_request (words_of (codes "desk " ++ said_by m)) ≡ Ok (Desk m.op m.call) }
{
    desk_lines();
}

/// What is printed of octets in hexadecimal reads back as these octets, and a word that is read
/// spells its octets, in either case.
pub fn hex_words()
    ensures read { (octets : List ℕ) → IsBytes octets → decode_of (encode_lower octets) ≡ Ok octets }
    ensures spelled { (word octets : List ℕ) → decode_of word ≡ Ok octets → SpellsHex word octets × IsBytes octets }
{}

/// What is printed of a packet reads back as this packet, and a word that is read spells its packet.
pub fn packet_words()
    ensures read { (place : ℕ) (p : SourcePacket) → IsReadable p → packet_of place (packet_text p) ≡ Ok p }
    ensures spelled { (place : ℕ) (word : List ℕ) (p : SourcePacket) → packet_of place word ≡ Ok p
        → SpellsPacket word p × IsReadable p }
{}

/// The words of a frame's line are that frame, and what is read as a frame is spelled by its line,
/// its packets being written in any of their ways.
pub fn frame_lines()
    ensures read { (f : SourceFrame) → IsFrame f → words_request (words_of (frame_line f)) ≡ Ok (Item (frame f)) }
    ensures spelled { (line : List ℕ) (f : SourceFrame) → words_request (words_of line) ≡ Ok (Item (frame f))
        → (packets : List (List ℕ)) × (line ≡ join_with_byte 32 (frame_words f packets))
        × SpellPackets packets f.frame.packets × IsFrame f }
{}

/// The words of a datagram's line are that datagram, and what is read as a datagram is spelled by its
/// line, its octets being written in either case.
pub fn datagram_lines()
    ensures read { (moment : ℕ) (from : Address) (octets : List ℕ) → IsDatagram moment from octets
        → words_request (words_of (rx_line moment from octets)) ≡ Ok (Rx moment from octets) }
    ensures spelled { (line : List ℕ) (moment : ℕ) (from : Address) (octets : List ℕ)
        → words_request (words_of line) ≡ Ok (Rx moment from octets)
        → (word : List ℕ) × (line ≡ join_with_byte 32 (rx_words moment from word)) × SpellsHex word octets
        × IsDatagram moment from octets }
{}

/// The words of a wait's line are that wait, and what is read as a wait is spelled by its line.
pub fn wait_lines()
    ensures read { (moment : ℕ) (from : Address) (ssrc : ℕ) → AllFit (wait_values moment from ssrc)
        → words_request (words_of (wait_line moment from ssrc)) ≡ Ok (Wait moment from ssrc) }
    ensures spelled { (line : List ℕ) (moment : ℕ) (from : Address) (ssrc : ℕ)
        → words_request (words_of line) ≡ Ok (Wait moment from ssrc)
        → (line ≡ wait_line moment from ssrc) × AllFit (wait_values moment from ssrc) }
{}

/// The words of a line that says who the bridge is say that, and what is read so is spelled by its line.
pub fn bridge_lines()
    ensures read { (who : Asker) (renews : Bool) → IsNamed who
        → first_request (words_of (bridge_line who renews)) ≡ Ok (Begin who renews) }
    ensures spelled { (line : List ℕ) (who : Asker) (renews : Bool)
        → first_request (words_of line) ≡ Ok (Begin who renews)
        → (line ≡ bridge_line who renews) × IsNamed who }
    ensures first { (number : ℕ) (line : List ℕ) (who : Asker) (renews : Bool)
        → request_at number line ≡ Ok (Begin who renews) → number ≡ 1 }
{}

/// The words of a tick's line are that tick, and what is read as a tick is spelled by its line.
pub fn tick_lines()
    ensures read { (moment : ℕ) → moment < 2 ^ 64
        → words_request (words_of (tick_line moment)) ≡ Ok (Item (tick moment)) }
    ensures spelled { (line : List ℕ) (moment : ℕ) → words_request (words_of line) ≡ Ok (Item (tick moment))
        → (line ≡ tick_line moment) × (moment < 2 ^ 64) }
{}

/// The words of a line of reports are these reports, and what is read as reports is spelled by their
/// line.
pub fn report_lines()
    ensures read { (moment : ℕ) → moment < 2 ^ 64 → words_request (words_of (report_line moment)) ≡ Ok (Report moment) }
    ensures spelled { (line : List ℕ) (moment : ℕ) → words_request (words_of line) ≡ Ok (Report moment)
        → (line ≡ report_line moment) × (moment < 2 ^ 64) }
{}

/// The bridge of a script speaks as SSRC 1, under the canonical name `bridge`, where its first line doesn't say it. The
/// first desk is blank, and the SSRC of the bridge is its own.
pub fn script_bridge()
    ensures ssrc { BRIDGE_SSRC ≡ 1 }
    ensures name { CNAME.now ≡ codes "bridge" }
    ensures asker { script_asker ≡ record { ssrc = BRIDGE_SSRC; cname = CNAME.now } }
    ensures desk { (who : Asker) → first_desk who ≡ blank who.ssrc }
{}

/// One decoding has every datagram: any octets have a reading, and the bridge has words for lost packets.
pub fn datagrams_are_heard()
    ensures { (decoding : Decoding) × ((octets : List ℕ) → AreOctets octets → IsDecoded decoding octets) }
{
    voices_are_there();
    datagrams_are_read();
}

/// One decoding has all lines of every script: only datagrams and waits have to be decoded.
pub fn scripts_are_heard()
    ensures { (decoding : Decoding) × ((lines : List (List ℕ)) → DecodesLines decoding lines) }
{
    datagrams_are_heard();
}

/// The output of a script is what its requests are answered, and what goes out among it is all that
/// the core's definition sends over the script's accepted calls and items: so the core's laws on
/// streams and choices speak of scripts.
pub fn script_sends()
    ensures text { (decoding : Decoding) (input : List ℕ)
        → (output_of decoding input).text ≡ flat_map text_of (answers_of decoding input) }
    ensures sends { (decoding : Decoding) (input : List ℕ)
        → sent_in (answers_of decoding input)
        ≡ sends (speaker_of input) 1 (first_desk (speaker_of input)) (steps_of decoding input) }
{}

/// Each desk that a script publishes is good, so the core's laws on good desks speak of scripts: each
/// stream of a script numbers the packets that it sends for the first time without a gap modulo 65536.
pub fn script_streams_have_no_gap()
    ensures good { (decoding : Decoding) (input : List ℕ) → AreGood (steps_of decoding input) }
    ensures no_gap { (decoding : Decoding) (input : List ℕ) (name : Name)
        → HaveNoGap (numbers
        (firsts (speaker_of input) 1 (first_desk (speaker_of input)) name (steps_of decoding input))) }
{
    histories_stay_sound();
    streams_have_no_gap();
}
