//! What is printed for what goes out.

ghost use Rattle.std.specs.Prelude.{◌≡◌, ◌+◌, ◌<◌, [], ◌∷◌, ◌++◌, codes, length, map, OnOk, OnErr};
ghost use Rattle.std.specs.Prelude.{vec_len, vec_capacity};
ghost use Rattle.desk_text.specs.declared.value.Value.TheVariants.{U16, U32};
ghost use Rattle.desk_text.specs.Text.{fixed, value, hex, line_text};
ghost use Rattle.desk_text.specs.Shown.{said};
ghost use Rattle.script_text.specs.SentLines.{head_words, media_words, source_words, loss_words, sent_text};
ghost use Rattle.bridge_core.specs.Sent.{sent_of};

use bridge_core::{Egress, LossNote};
use desk_text::{Value, Word, print_line};
use rtp_codec::Address;
use std::alloc::{AllocError, Allocator};

/// The words that stand first of what goes out: the version, the number of the item in its lane, and an
/// address.
fn head_words<'a>(version: u64, item: u64, address: Address) -> [Word<'a>; 3]
    ensures { map said result ≡ head_words version item address }
{
    [
        Word::Value(Value::U64(version)),
        Word::Value(Value::U64(item)),
        Word::Value(Value::Address(address)),
    ]
}

/// Appends the line of a packet with these words: for the first time, or again by a version.
fn print_media<A: Allocator>(
    words: [Word<'_>; 6],
    resent_by: Option<u64>,
    out: &mut Vec<u8, A>,
) -> Result<(), AllocError>
    ensures ok { OnOk result
        (out.new.items ≡ out.old.items ++ line_text (media_words resent_by (map said words.entry))) }
    ensures err { OnErr result (out.new.items ≡ out.old.items) }
    ensures full { OnErr result (vec_capacity out.old
        < vec_len out.old + length (line_text (media_words resent_by (map said words.entry)))) }
{
    match resent_by {
        None => print_line(b"tx", &words, out),
        Some(now) => {
            let [version, item, to, ssrc, number, octets] = words;
            let now = Word::Value(Value::U64(now));
            print_line(b"re", &[now, version, item, to, ssrc, number, octets], out)
        }
    }
}

/// The words of a source's packet, or marks that there is none.
fn source_words<'a>(source: Option<(u32, i64)>) -> [Word<'a>; 2]
    ensures { map said result ≡ source_words source }
{
    match source {
        None => [Word::Fixed(b"-"), Word::Fixed(b"-")],
        Some((ssrc, ext)) => [Word::Value(Value::U32(ssrc)), Word::Signed(ext)],
    }
}

/// The words of what a receiver tells of its losses.
fn loss_words<'a>(note: LossNote) -> [Word<'a>; 5]
    ensures { map said result ≡ loss_words note }
{
    let out_ssrc = Word::Value(Value::U32(note.out_ssrc));
    let fraction = Word::Value(Value::U16(u16::from(note.fraction)));
    let lost = Word::Signed(i64::from(note.lost));
    let [ssrc, ext] = source_words(note.source);
    [out_ssrc, fraction, lost, ssrc, ext]
}

/// The words of a packet of a stream, with these first.
fn packet_words<'a>(head: [Word<'a>; 3], ssrc: u32, number: u16, octets: Word<'a>) -> [Word<'a>; 6]
    ensures { map said result ≡ map said head.entry ++ value (U32 ssrc) ∷ value (U16 number) ∷ said octets.entry ∷ [] }
{
    let [version, item, to] = head;
    let ssrc = Word::Value(Value::U32(ssrc));
    let number = Word::Value(Value::U16(number));
    [version, item, to, ssrc, number, octets]
}

/// Appends the line of an RTCP compound, with these words first.
fn print_control<A: Allocator>(
    head: [Word<'_>; 3],
    octets: &[u8],
    out: &mut Vec<u8, A>,
) -> Result<(), AllocError>
    ensures ok { OnOk result (out.new.items ≡ out.old.items
        ++ line_text (fixed (codes "ct") ∷ map said head.entry ++ hex octets.now ∷ [])) }
    ensures err { OnErr result (out.new.items ≡ out.old.items) }
    ensures full { OnErr result (vec_capacity out.old
        < vec_len out.old + length (line_text (fixed (codes "ct") ∷ map said head.entry ++ hex octets.now ∷ []))) }
{
    let [version, item, to] = head;
    print_line(b"ct", &[version, item, to, Word::Hex(octets)], out)
}

/// Appends the line of what a receiver tells of its losses, with these words first.
fn print_note<A: Allocator>(
    head: [Word<'_>; 3],
    note: LossNote,
    out: &mut Vec<u8, A>,
) -> Result<(), AllocError>
    ensures ok { OnOk result (out.new.items ≡ out.old.items
        ++ line_text (fixed (codes "note") ∷ map said head.entry ++ loss_words note)) }
    ensures err { OnErr result (out.new.items ≡ out.old.items) }
    ensures full { OnErr result (vec_capacity out.old
        < vec_len out.old + length (line_text (fixed (codes "note") ∷ map said head.entry ++ loss_words note))) }
{
    let [version, item, from] = head;
    let [out_ssrc, fraction, lost, ssrc, ext] = loss_words(note);
    let words = [version, item, from, out_ssrc, fraction, lost, ssrc, ext];
    print_line(b"note", &words, out)
}

/// Appends the line of an egress. On out of memory, the only error, nothing changes.
pub fn print_egress<A: Allocator + Copy>(
    egress: &Egress<A>,
    out: &mut Vec<u8, A>,
) -> Result<(), AllocError>
    ensures ok { OnOk result (out.new.items ≡ out.old.items ++ sent_text (sent_of egress.now)) }
    ensures err { OnErr result (out.new.items ≡ out.old.items) }
    ensures full { OnErr result (vec_capacity out.old < vec_len out.old + length (sent_text (sent_of egress.now))) }
{
    match egress {
        Egress::Media {
            version,
            item,
            to,
            ssrc,
            number,
            bytes,
            resent_by,
        } => {
            let head = head_words(*version, *item, *to);
            let (header, payload) = bytes.parts();
            let words = packet_words(head, *ssrc, *number, Word::Parts(header, payload));
            print_media(words, *resent_by, out)
        }
        Egress::Control {
            version,
            item,
            to,
            bytes,
            ..
        } => print_control(head_words(*version, *item, *to), bytes, out),
        Egress::Note {
            version,
            item,
            from,
            note,
        } => print_note(head_words(*version, *item, *from), *note, out),
    }
}
