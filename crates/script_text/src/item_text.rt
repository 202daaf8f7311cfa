//! Appending the lines that hand the lane items.

ghost use Rattle.std.specs.Prelude.{◌≡◌, ◌+◌, ◌<◌, ◌≤◌, [], ◌∷◌, ◌++◌, codes, length, map, OnOk, OnErr};
ghost use Rattle.std.specs.Prelude.{vec_len, vec_capacity};
ghost use Rattle.media_items.specs.Inputs.{input_of};
ghost use Rattle.media_items.specs.Inputs.Input.{frame, nack, block, pli};
ghost use Rattle.desk_text.specs.declared.value.Value.TheVariants.{U64};
ghost use Rattle.desk_text.specs.Text.{fixed, value, line_text};
ghost use Rattle.desk_text.specs.Shown.{said};
ghost use Rattle.script_text.specs.Requests.{front_values};
ghost use Rattle.script_text.specs.ItemLines.{item_text};
ghost use Rattle.script_text.specs.inner.Shown.{packet_word};

use arrayvec::ArrayVec;
use bridge_core::{FramePacket, Item, MediaFrame};
use desk_text::{Value, Word, print_line};
use rtcp_codec::ReportBlock;
use rtp_codec::Address;
use std::alloc::{AllocError, Allocator};

/// How many words a frame has behind the first: its kind, five values, and 256 packets at most.
const FRAME_WORDS: usize = 262;

/// The words of a frame that stand before its packets.
fn frame_front<'a, A: Allocator + Copy>(frame: &MediaFrame<A>) -> ArrayVec<Word<'a>, FRAME_WORDS>
    ensures words { map said result.items ≡ fixed (codes "frame") ∷ map value (front_values frame.now) }
    ensures few { length result.items ≡ 6 }
{
    let mut words = ArrayVec::new();
    words.push(Word::Fixed(b"frame"));
    words.push(Word::Value(Value::U64(frame.moment)));
    words.push(Word::Value(Value::Address(frame.address)));
    words.push(Word::Value(Value::U32(frame.source)));
    words.push(Word::Value(Value::U64(frame.epoch)));
    words.push(Word::Value(Value::U32(frame.frame.ts)));
    words
}

/// Appends the words of packets.
fn push_packets<'a, A: Allocator + Copy>(
    packets: &'a [FramePacket<A>],
    words: &mut ArrayVec<Word<'a>, FRAME_WORDS>,
)
    requires { length words.old.items + length packets.now ≤ FRAME_WORDS }
    ensures { map said words.new.items ≡ map said words.old.items ++ map packet_word packets.now }
{
    for packet in packets {
        words.push(Word::Packet {
            ext: packet.ext,
            marker: packet.marker,
            pt: packet.pt,
            payload: packet.payload.as_slice(),
        });
    }
}

/// Appends the line that hands the lane a frame.
fn append_frame<A: Allocator + Copy, B: Allocator>(
    media: &MediaFrame<A>,
    out: &mut Vec<u8, B>,
) -> Result<(), AllocError>
    ensures ok { OnOk result (out.new.items ≡ out.old.items ++ item_text (frame media.now)) }
    ensures err { OnErr result (out.new.items ≡ out.old.items) }
    ensures full { OnErr result (vec_capacity out.old < vec_len out.old + length (item_text (frame media.now))) }
{
    let count = usize::from(media.frame.len());
    let mut words = frame_front(media);
    push_packets(&media.frame.sent()[..count], &mut words);
    print_line(b"item", words.as_slice(), out)
}

/// Appends the line by which an address asks for packets of an outgoing stream again.
fn append_nack<A: Allocator>(
    from: Address,
    ssrc: u32,
    numbers: &[u16],
    out: &mut Vec<u8, A>,
) -> Result<(), AllocError>
    ensures ok { OnOk result (out.new.items ≡ out.old.items
        ++ item_text (nack record { from = from; out_ssrc = ssrc; numbers = numbers.now })) }
    ensures err { OnErr result (out.new.items ≡ out.old.items) }
    ensures full { OnErr result (vec_capacity out.old < vec_len out.old
        + length (item_text (nack record { from = from; out_ssrc = ssrc; numbers = numbers.now }))) }
{
    let from = Word::Value(Value::Address(from));
    let ssrc = Word::Value(Value::U32(ssrc));
    print_line(
        b"item",
        &[Word::Fixed(b"nack"), from, ssrc, Word::Numbers(numbers)],
        out,
    )
}

/// Appends the line of an address's report block about an outgoing stream.
fn append_block<A: Allocator>(
    from: Address,
    told: ReportBlock,
    out: &mut Vec<u8, A>,
) -> Result<(), AllocError>
    ensures ok { OnOk result (out.new.items ≡ out.old.items
        ++ item_text (block record { from = from; block = told })) }
    ensures err { OnErr result (out.new.items ≡ out.old.items) }
    ensures full { OnErr result (vec_capacity out.old < vec_len out.old
        + length (item_text (block record { from = from; block = told }))) }
{
    let words = [
        Word::Fixed(b"block"),
        Word::Value(Value::Address(from)),
        Word::Value(Value::U32(told.ssrc)),
        Word::Value(Value::U16(u16::from(told.fraction))),
        Word::Signed(i64::from(told.lost)),
        Word::Value(Value::U32(told.highest)),
        Word::Value(Value::U32(told.jitter)),
        Word::Value(Value::U32(told.lsr)),
        Word::Value(Value::U32(told.dlsr)),
    ];
    print_line(b"item", &words, out)
}

/// Appends the line by which an address has lost the picture of an outgoing stream.
fn append_pli<A: Allocator>(
    from: Address,
    ssrc: u32,
    out: &mut Vec<u8, A>,
) -> Result<(), AllocError>
    ensures ok { OnOk result (out.new.items ≡ out.old.items
        ++ item_text (pli record { from = from; out_ssrc = ssrc })) }
    ensures err { OnErr result (out.new.items ≡ out.old.items) }
    ensures full { OnErr result (vec_capacity out.old < vec_len out.old
        + length (item_text (pli record { from = from; out_ssrc = ssrc }))) }
{
    let from = Word::Value(Value::Address(from));
    let ssrc = Word::Value(Value::U32(ssrc));
    print_line(b"item", &[Word::Fixed(b"pli"), from, ssrc], out)
}

/// Appends the line that hands the lane an item of this kind with a moment.
fn append_moment<A: Allocator>(
    kind: &[u8],
    moment: u64,
    out: &mut Vec<u8, A>,
) -> Result<(), AllocError>
    ensures ok { OnOk result (out.new.items ≡ out.old.items
        ++ line_text (fixed (codes "item") ∷ fixed kind.now ∷ value (U64 moment) ∷ [])) }
    ensures err { OnErr result (out.new.items ≡ out.old.items) }
    ensures full { OnErr result (vec_capacity out.old < vec_len out.old
        + length (line_text (fixed (codes "item") ∷ fixed kind.now ∷ value (U64 moment) ∷ []))) }
{
    let moment = Word::Value(Value::U64(moment));
    print_line(b"item", &[Word::Fixed(kind), moment], out)
}

/// Appends the line that hands the lane this item. On out of memory, the only error, nothing changes.
pub fn append_item_line<A: Allocator + Copy, B: Allocator>(
    item: &Item<A>,
    out: &mut Vec<u8, B>,
) -> Result<(), AllocError>
    ensures ok { OnOk result (out.new.items ≡ out.old.items ++ item_text (input_of item.now)) }
    ensures err { OnErr result (out.new.items ≡ out.old.items) }
    ensures full { OnErr result (vec_capacity out.old < vec_len out.old + length (item_text (input_of item.now))) }
{
    match item {
        Item::Frame(frame) => append_frame(frame, out),
        &Item::Audio {
            ssrc,
            address,
            rate,
            ts,
            ref samples,
        } => {
            let address = Word::Value(Value::Address(address));
            let ssrc = Word::Value(Value::U32(ssrc));
            let rate = Word::Value(Value::U32(rate));
            let ts = Word::Value(Value::U32(ts));
            let kind = Word::Fixed(b"audio");
            let words = [kind, address, ssrc, rate, ts, Word::Samples(samples)];
            print_line(b"item", &words, out)
        }
        &Item::Tick { moment } => append_moment(b"tick", moment, out),
        &Item::Nack {
            from,
            out_ssrc,
            ref numbers,
        } => append_nack(from, out_ssrc, numbers, out),
        &Item::Block { from, block } => append_block(from, block, out),
        &Item::Pli { from, out_ssrc } => append_pli(from, out_ssrc, out),
        &Item::Report { moment } => append_moment(b"report", moment, out),
        Item::Renew => print_line(b"item", &[Word::Fixed(b"renew")], out),
    }
}
