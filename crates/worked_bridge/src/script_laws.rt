//! What the laws of scripts tell a caller, whatever the words are.

ghost use Rattle.std.specs.Prelude.{◌≡◌, ◌≢◌, ◌≤◌, ◌<◌, ◌+◌, ◌%◌, ◌^◌, ◌++◌, ◌∷◌};
ghost use Rattle.std.specs.Prelude.{ℕ, ℤ, Bool, pos, true, List, [], codes, length, Some, Ok, IfSome, IfOk, OnOk};
ghost use Rattle.rtp_codec.specs.declared.address.Address.{Address};
ghost use Rattle.sender_feedback.specs.Upstream.{Asker};
ghost use Rattle.desk_rows.specs.Desk.{Desk, blank, good};
ghost use Rattle.frame_gate.specs.Frame.{SourcePacket};
ghost use Rattle.media_items.specs.Frame.{SourceFrame};
ghost use Rattle.desk_rows.specs.declared.row.Member.{Member as MemberOf};
ghost use Rattle.desk_edit.specs.Asked.{CallOf, asked_by};
ghost use Rattle.desk_edit.specs.declared.refusal.Refusal.{Refusal as RefusalOf};
ghost use Rattle.desk_edit.specs.Refusals.{first_case};
ghost use Rattle.bridge_core.specs.Sent.{Sent, sent_of};
ghost use Rattle.bridge_core.specs.Named.{Name, firsts};
ghost use Rattle.bridge_core.specs.Headline.{numbers};
ghost use Rattle.bridge_core.specs.Steps.{Step, sends};
ghost use Rattle.desk_text.specs.Words.{words_of};
ghost use Rattle.desk_text.specs.Lines.{lines_of, parts_of};
ghost use Rattle.desk_text.specs.Numbers.{decimal_of, ext_of, FitsExt};
ghost use Rattle.desk_text.specs.Values.{AllFit};
ghost use Rattle.desk_text.specs.Judged.{call_cases};
ghost use Rattle.script_text.specs.Packets.{IsReadable, packet_text};
ghost use Rattle.script_text.specs.Requests.{IsFrame, IsDatagram, frame_line, report_line, rx_line, tick_line};
ghost use Rattle.script_text.specs.Requests.{wait_line, wait_values, Begin};
ghost use Rattle.script_text.specs.FirstLine.{IsNamed, bridge_line, request_at};
ghost use Rattle.script_text.specs.Decodings.{Decoding, IsDecoded, DecodesLines};
ghost use Rattle.script_text.specs.Scripts.{answers_of, sent_in, speaker_of, steps_of};
ghost use Rattle.script_text.specs.Output.{output_of};

use bridge_core::{Core, Egress};
use desk_calls::Reply;
use desk_edit::{Call, Command};
use desk_text::{
    address_words, call_lines, ext_words, number_words, parse_address, parse_desk, pieces_join,
    print_reply, refusal_words,
};
use hex::{decode, encode};
use rtp_codec::Address;
use script_text::{
    RunFault, bridge_lines, datagram_lines, datagrams_are_heard, frame_lines, hex_words, output,
    packet_words, print_egress, report_lines, script_bridge, script_sends,
    script_streams_have_no_gap, scripts_are_heard, tick_lines, wait_lines,
};
use std::alloc::{AllocError, Global};

/// Two texts of the same words are one text, and so are two of the same lines.
pub fn texts_of_the_same_words_are_one(first: &[u8], second: &[u8]) -> bool
    ensures words { words_of first.now ≡ words_of second.now → result ≡ true }
    ensures parts { parts_of first.now ≡ parts_of second.now → result ≡ true }
{
    pieces_join();
    first == second
}

/// Texts that spell one undo are one text, and so are texts that add one member.
pub fn a_call_without_a_rate_is_spelt_in_one_way(
    alloc: Global,
    first: &[u8],
    second: &[u8],
) -> Option<(Call, Call)>
    ensures undo { IfSome result (λ both. (last : ℕ) → asked_by both.0 ≡ CallOf.Undo last
        → asked_by both.1 ≡ CallOf.Undo last → first.now ≡ second.now) }
    ensures member { IfSome result (λ both. (m : MemberOf) → asked_by both.0 ≡ CallOf.Apply (Command.AddMember m)
        → asked_by both.1 ≡ CallOf.Apply (Command.AddMember m) → first.now ≡ second.now) }
{
    call_lines();
    let Ok(one) = parse_desk(alloc, first) else {
        return None;
    };
    let Ok(other) = parse_desk(alloc, second) else {
        return None;
    };
    Some((one, other))
}

/// Texts that spell one address are one text.
pub fn one_address_is_spelt_in_one_way(first: &[u8], second: &[u8]) -> Option<(Address, Address)>
    ensures { IfSome result (λ both. both.0 ≡ both.1 → first.now ≡ second.now) }
{
    address_words();
    let one = parse_address(first)?;
    let other = parse_address(second)?;
    Some((one, other))
}

/// The number of an accepted call reads back from its line.
pub fn reads_back_the_number_of_a_call(no: u64, out: &mut Vec<u8>) -> Result<(), AllocError>
    requires { out.old.items ≡ [] }
    ensures { OnOk result ((word : List ℕ) × (out.new.items ≡ codes "ok " ++ word ++ 10 ∷ [])
        × (decimal_of 18446744073709551615 word ≡ Some no)) }
{
    number_words();
    print_reply(&Reply::Accepted { no }, out)
}

/// The number of the source's packet reads back from the line of a receiver's losses.
pub fn reads_back_the_number_of_a_noted_packet(
    ext: i64,
    egress: &Egress,
    out: &mut Vec<u8>,
) -> Result<(), AllocError>
    requires note { sent_of egress.now ≡ Sent.note record {
      version = 6;
      item = 2;
      from = record { ip = 10 ∷ 0 ∷ 0 ∷ 2 ∷ []; port = 5000 };
      note = record { out_ssrc = 501; fraction = 0; lost = pos 0; source = Some (101, ext) };
    } }
    requires behind { out.old.items ≡ [] }
    ensures { OnOk result ((word : List ℕ)
        × (out.new.items ≡ codes "note 6 2 10.0.0.2:5000 501 0 0 101 " ++ word ++ 10 ∷ [])
        × (FitsExt ext → ext_of word ≡ Some ext)) }
{
    ext_words();
    print_egress(egress, out)
}

/// Octets that are written in hexadecimal read back.
pub fn reads_back_octets(alloc: Global, octets: &[u8]) -> Option<Vec<u8>>
    ensures { IfSome result (λ back. back.items ≡ octets.now) }
{
    hex_words();
    let Ok(text) = encode(alloc, octets) else {
        return None;
    };
    let Ok(back) = decode(alloc, text.as_bytes()) else {
        return None;
    };
    Some(back)
}

/// What is printed of packets, frames, datagrams, waits, ticks and reports is another where they are others.
pub fn others_are_printed_otherwise()
    ensures packets { (p q : SourcePacket) → IsReadable p → IsReadable q → packet_text p ≡ packet_text q → p ≡ q }
    ensures frames { (f g : SourceFrame) → IsFrame f → IsFrame g → frame_line f ≡ frame_line g → f ≡ g }
    ensures datagrams { (m n : ℕ) (from to : Address) (octets bytes : List ℕ)
        → IsDatagram m from octets → IsDatagram n to bytes
        → rx_line m from octets ≡ rx_line n to bytes → octets ≡ bytes }
    ensures waits { (m n : ℕ) (from to : Address) (source other : ℕ)
        → AllFit (wait_values m from source) → AllFit (wait_values n to other)
        → wait_line m from source ≡ wait_line n to other → source ≡ other }
    ensures ticks { (m n : ℕ) → m < 2 ^ 64 → n < 2 ^ 64 → tick_line m ≡ tick_line n → m ≡ n }
    ensures reports { (m n : ℕ) → m < 2 ^ 64 → n < 2 ^ 64 → report_line m ≡ report_line n → m ≡ n }
{
    packet_words();
    frame_lines();
    datagram_lines();
    wait_lines();
    tick_lines();
    report_lines();
}

/// A call that is refused is told the first reason that holds.
pub fn tells_the_first_reason(alloc: Global, core: &mut Core, call: Call) -> Reply
    ensures { (at : ℕ) (why : RefusalOf) → result ≡ Reply.Refused at why → why ≢ RefusalOf.OutOfMemory
        → first_case (call_cases (record core.old.history { accepted = core.old.version }) core.old.desk
        (length core.old.done) (length core.old.undone) (asked_by call)) ≡ Some why }
{
    refusal_words();
    core.desk(alloc, 0, call)
}

/// The octets of a datagram are heard, whatever they are.
pub fn a_datagram_is_heard(octets: &[u8])
    ensures { (decoding : Decoding) × IsDecoded decoding octets.now }
{
    datagrams_are_heard();
}

/// The output of a script is that of a decoding of the script, whatever its lines are.
pub fn a_script_has_an_output(alloc: Global, script: &[u8]) -> Result<Vec<u8>, RunFault>
    ensures { IfOk result (λ out. (decoding : Decoding) × DecodesLines decoding (lines_of script.now)
        × (out.items ≡ (output_of decoding script.now).text)) }
{
    output(alloc, script)
}

/// The outputs of two scripts are those of one decoding of both.
pub fn two_scripts_have_one_wire(
    alloc: Global,
    first: &[u8],
    second: &[u8],
) -> Result<(Vec<u8>, Vec<u8>), RunFault>
    ensures { IfOk result (λ both. (decoding : Decoding) × (both.0.items ≡ (output_of decoding first.now).text)
        × (both.1.items ≡ (output_of decoding second.now).text)) }
{
    scripts_are_heard();
    let one = output(alloc, first)?;
    let other = output(alloc, second)?;
    Ok((one, other))
}

/// What a script sends is what the core sends over its steps, under the name that the script gives its bridge. The desk
/// is blank at first. A script that gives none, as one that adds a room, has SSRC 1 and the name `bridge`.
pub fn a_script_sends_as_the_core_does()
    ensures sends { (decoding : Decoding) (input : List ℕ) → sent_in (answers_of decoding input)
        ≡ sends (speaker_of input) 1 (blank (speaker_of input).ssrc) (steps_of decoding input) }
    ensures unnamed { speaker_of (codes "desk 0 add-room 1\n") ≡ record { ssrc = 1; cname = codes "bridge" } }
    ensures named { speaker_of (codes "bridge 7 conf renew\n") ≡ record { ssrc = 7; cname = codes "conf" } }
{
    script_bridge();
    script_sends();
}

/// A line that says who the bridge is is spelt in one way, and it is the first of its script.
pub fn a_bridge_is_named_once()
    ensures spelt { (who other : Asker) (renews goes_on : Bool) → IsNamed who → IsNamed other
        → bridge_line who renews ≡ bridge_line other goes_on → who ≡ other }
    ensures first { (line : List ℕ) (who : Asker) (renews : Bool) → request_at 2 line ≢ Ok (Begin who renews) }
{
    bridge_lines();
}

/// The second packet that a script sends for the first time on a stream is numbered one more than the first, and the
/// first desk that it publishes is good.
pub fn a_script_numbers_without_a_gap()
    ensures second { (decoding : Decoding) (input : List ℕ) (name : Name) (m n : ℕ) (ns : List ℕ)
        → numbers (firsts (speaker_of input) 1 (blank (speaker_of input).ssrc) name (steps_of decoding input))
        ≡ m ∷ n ∷ ns
        → n ≡ (m + 1) % 2 ^ 16 }
    ensures good { (decoding : Decoding) (input : List ℕ) (desk : Desk) (steps : List Step)
        → steps_of decoding input ≡ Step.publish desk ∷ steps → good desk ≡ true }
{
    script_bridge();
    script_streams_have_no_gap();
}
