//! The items that lines hand the lane.

ghost use Rattle.std.specs.Prelude.{◌≡◌, ◌≤◌, ◌+◌, true, map, IfSome};
ghost use Rattle.media_items.specs.Inputs.{input_of, is_audio_rate, is_sized};
ghost use Rattle.desk_text.specs.Words.{Gives, words_in, size_of};
ghost use Rattle.desk_text.specs.Values.{field_of};
ghost use Rattle.script_text.specs.Requests.{frame_of};
ghost use Rattle.script_text.specs.ItemLines.{clock_of, lost_of, spelt_sound, nack_of, block_of, block_with, item_with};
ghost use Rattle.script_text.specs.ItemLines.{block_fields, handed_alone, item_front_of, item_request};
ghost use Rattle.script_text.specs.inner.Cursor.{sighting, handed_in};

use crate::framing::{FrameHead, frame};
use crate::handed_item::HandedItem;
use crate::line::ITEM_LIMIT;
use crate::name::{ItemKind, item_front, parse_item_kind};
use crate::pairs::{numbers, samples};
use bridge_core::Item;
use desk_text::{
    Fault, Field, ParseFault, Value, address_at, end_of_words, next_word, parse_ext, parse_number,
    read_values, u32_at, u64_at,
};
use rtcp_codec::ReportBlock;
use rtp_codec::Address;
use std::alloc::Allocator;

/// The clock rate that a word spells.
fn parse_rate(word: &[u8]) -> Option<u32>
    ensures rate { result ≡ clock_of word.now }
    ensures known { IfSome result (λ rate. is_audio_rate rate ≡ true) }
{
    if word == b"8000".as_slice() {
        Some(8000)
    } else if word == b"44100".as_slice() {
        Some(44100)
    } else {
        None
    }
}

/// The sound of a source at an address, by the words from place 5 on.
#[tactic(auto, unfolding(crate::specs::ItemLines::spelt_sound))]
fn sound<A: Allocator + Copy>(
    alloc: A,
    address: Address,
    ssrc: u32,
    words: Option<&[u8]>,
) -> Result<HandedItem<A>, ParseFault>
    ensures { Gives handed_in result (spelt_sound address ssrc (words_in words.entry)) }
{
    let (word, rest) = next_word(words, 5)?;
    let Some(rate) = parse_rate(word) else {
        return Err(Fault::BadNumber.at(5));
    };
    let (values, rest) = read_values(6, &[Field::U32], rest)?;
    let ts = u32_at(values.as_slice(), 0);
    let (word, rest) = next_word(rest, 7)?;
    let samples = samples(alloc, rate, word, 7)?;
    end_of_words(rest, 8)?;
    Ok(HandedItem {
        item: Item::Audio {
            ssrc,
            address,
            rate,
            ts,
            samples,
        },
    })
}

/// What an address asks for again of an outgoing stream, by the word at place 5.
#[tactic(auto, unfolding(crate::specs::ItemLines::nack_of))]
fn nack<A: Allocator + Copy>(
    alloc: A,
    from: Address,
    out_ssrc: u32,
    words: Option<&[u8]>,
) -> Result<HandedItem<A>, ParseFault>
    ensures { Gives handed_in result (nack_of from out_ssrc (words_in words.entry)) }
{
    let (word, rest) = next_word(words, 5)?;
    let numbers = numbers(alloc, word, 5)?;
    end_of_words(rest, 6)?;
    Ok(HandedItem {
        item: Item::Nack {
            from,
            out_ssrc,
            numbers,
        },
    })
}

/// The count of lost packets that a word spells, of 24 bits with a sign.
fn parse_lost(word: &[u8]) -> Option<i32>
    ensures { result ≡ lost_of word.now }
{
    match parse_ext(word) {
        Some(lost) if -8_388_608 <= lost && lost <= 8_388_607 => Some(lost as i32),
        _ => None,
    }
}

/// The report block about a stream with these values last.
fn block_with(ssrc: u32, fraction: u8, lost: i32, values: &[Value]) -> ReportBlock
    requires { map field_of values.now ≡ block_fields }
    ensures { result ≡ block_with ssrc fraction lost values.now }
{
    ReportBlock {
        ssrc,
        fraction,
        lost,
        highest: u32_at(values, 0),
        jitter: u32_at(values, 1),
        lsr: u32_at(values, 2),
        dlsr: u32_at(values, 3),
    }
}

/// What an address reports of an outgoing stream, by the words from place 5 on.
#[tactic(auto, unfolding(crate::specs::ItemLines::block_of))]
fn block<A: Allocator + Copy>(
    from: Address,
    ssrc: u32,
    words: Option<&[u8]>,
) -> Result<HandedItem<A>, ParseFault>
    ensures { Gives handed_in result (block_of from ssrc (words_in words.entry)) }
{
    let (word, rest) = next_word(words, 5)?;
    let Some(fraction) = parse_number(word, 255) else {
        return Err(Fault::BadNumber.at(5));
    };
    let (word, rest) = next_word(rest, 6)?;
    let Some(lost) = parse_lost(word) else {
        return Err(Fault::BadNumber.at(6));
    };
    let (values, rest) = read_values(7, &[Field::U32, Field::U32, Field::U32, Field::U32], rest)?;
    end_of_words(rest, 11)?;
    let block = block_with(ssrc, fraction as u8, lost, values.as_slice());
    Ok(HandedItem {
        item: Item::Block { from, block },
    })
}

/// A frame, by the words from place 8 on.
fn whole_frame<A: Allocator + Copy>(
    alloc: A,
    head: FrameHead,
    words: Option<&[u8]>,
) -> Result<HandedItem<A>, ParseFault>
    requires { size_of words ≤ ITEM_LIMIT + 1 }
    ensures { Gives handed_in result (frame_of 8 (sighting head) (words_in words.entry)) }
{
    let frame = frame(alloc, 8, head, words)?;
    Ok(HandedItem {
        item: Item::Frame(frame),
    })
}

/// An item whose words end before this place.
fn alone<A: Allocator + Copy>(
    place: u32,
    item: Item<A>,
    words: Option<&[u8]>,
) -> Result<HandedItem<A>, ParseFault>
    requires { is_sized (input_of item) ≡ true }
    ensures { Gives handed_in result (handed_alone place (input_of item) (words_in words.entry)) }
{
    end_of_words(words, place)?;
    Ok(HandedItem { item })
}

/// The item of a kind, with these values first.
fn item_with<A: Allocator + Copy>(
    alloc: A,
    kind: ItemKind,
    values: &[Value],
    words: Option<&[u8]>,
) -> Result<HandedItem<A>, ParseFault>
    requires shape { map field_of values.now ≡ item_front_of kind }
    requires short { size_of words ≤ ITEM_LIMIT + 1 }
    ensures { Gives handed_in result (item_with kind values.now (words_in words.entry)) }
{
    match kind {
        ItemKind::Frame => {
            let head = FrameHead {
                moment: u64_at(values, 0),
                address: address_at(values, 1),
                source: u32_at(values, 2),
                epoch: u64_at(values, 3),
                ts: u32_at(values, 4),
            };
            whole_frame(alloc, head, words)
        }
        ItemKind::Audio => sound(alloc, address_at(values, 0), u32_at(values, 1), words),
        ItemKind::Tick => {
            let moment = u64_at(values, 0);
            alone(4, Item::Tick { moment }, words)
        }
        ItemKind::Nack => nack(alloc, address_at(values, 0), u32_at(values, 1), words),
        ItemKind::Block => block(address_at(values, 0), u32_at(values, 1), words),
        ItemKind::Pli => {
            let from = address_at(values, 0);
            let out_ssrc = u32_at(values, 1);
            alone(5, Item::Pli { from, out_ssrc }, words)
        }
        ItemKind::Report => {
            let moment = u64_at(values, 0);
            alone(4, Item::Report { moment }, words)
        }
        ItemKind::Renew => alone(3, Item::Renew, words),
    }
}

/// The item that words from place 2 on spell.
#[tactic(auto, unfolding(crate::specs::ItemLines::item_request))]
pub(crate) fn read_item<A: Allocator + Copy>(
    alloc: A,
    words: Option<&[u8]>,
) -> Result<HandedItem<A>, ParseFault>
    requires { size_of words ≤ ITEM_LIMIT + 1 }
    ensures { Gives handed_in result (item_request (words_in words.entry)) }
{
    let (word, rest) = next_word(words, 2)?;
    let Some(kind) = parse_item_kind(word) else {
        return Err(Fault::UnknownWord.at(2));
    };
    let (values, rest) = read_values(3, item_front(kind), rest)?;
    item_with(alloc, kind, values.as_slice(), rest)
}
