//! What lines ask for.

ghost use Rattle.std.specs.Prelude.{◌≡◌, ◌≤◌, ◌+◌, length, map, nat_lt};
ghost use Rattle.desk_text.specs.Words.{Gives, words_in, size_of, words_of};
ghost use Rattle.desk_text.specs.Values.{field_of};
ghost use Rattle.desk_text.specs.Lines.{limit_of};
ghost use Rattle.script_text.specs.inner.Cursor.{view};
ghost use Rattle.script_text.specs.Requests.{desk_of, some_octets, rx_of, wait_of, tick_item, report_of, show_of};
ghost use Rattle.script_text.specs.Requests.{front_of, request_with, words_request};
ghost use Rattle.script_text.specs.ItemLines.{later_request};
ghost use Rattle.script_text.specs.FirstLine.{first_request, words_request_at, request_at};

use crate::bridge_line::BridgeLine;
use crate::first_line::read_bridge_line;
use crate::framing::{FrameHead, frame};
use crate::handed_item::HandedItem;
use crate::handing::read_item;
use crate::name::{LineKind, front, parse_kind};
use crate::packet::octets;
use bridge_core::MediaFrame;
use desk_edit::Call;
use desk_text::{
    Fault, LINE_LIMIT, ParseFault, Value, address_at, end_of_words, first_word, is_printable,
    next_word, operator_at, read_call, read_values, u32_at, u64_at,
};
use rtp_codec::Address;
use std::alloc::{Allocator, Global};

/// How many octets a line may have that hands the lane an item. A frame of 256 packets fits.
pub(crate) const ITEM_LIMIT: usize = 8_388_608;

/// How many octets this line may have.
fn limit(line: &[u8]) -> usize
    ensures { result ≡ limit_of line.now }
{
    let start = if line.len() < 5 { line } else { &line[..5] };
    if start == b"item ".as_slice() {
        ITEM_LIMIT
    } else {
        LINE_LIMIT
    }
}

/// Whether a line has more octets than it may have.
fn is_too_long(line: &[u8]) -> bool
    ensures { result ≡ nat_lt (limit_of line.now) (length line.now) }
{
    line.len() > limit(line)
}

/// Whether a line has more octets than it may have and a CR.
// Each octet asks so, and most lines are short.
pub(crate) fn is_past(line: &[u8]) -> bool
    ensures { result ≡ nat_lt (limit_of line.now + 1) (length line.now) }
{
    line.len() > LINE_LIMIT && line.len() > limit(line) + 1
}

/// What a line asks for.
#[derive(Drop)]
pub(crate) enum Line<A: Allocator + Copy = Global> {
    Nothing,
    Begin(BridgeLine<A>),
    Desk {
        op: u8,
        call: Call<A>,
    },
    Frame(MediaFrame<A>),
    Item(HandedItem<A>),
    Rx {
        moment: u64,
        from: Address,
        octets: Vec<u8, A>,
    },
    Wait {
        moment: u64,
        from: Address,
        ssrc: u32,
    },
    Tick {
        moment: u64,
    },
    Report {
        moment: u64,
    },
    Show,
}

/// The call of an operator.
fn desk<A: Allocator + Copy>(alloc: A, op: u8, words: Option<&[u8]>) -> Result<Line<A>, ParseFault>
    requires { size_of words ≤ LINE_LIMIT + 1 }
    ensures { Gives view result (desk_of op (words_in words.entry)) }
{
    let call = read_call(alloc, 2, words)?;
    Ok(Line::Desk { op, call })
}

/// The rows of the desk.
fn show<A: Allocator + Copy>(words: Option<&[u8]>) -> Result<Line<A>, ParseFault>
    ensures { Gives view result (show_of (words_in words.entry)) }
{
    end_of_words(words, 2)?;
    Ok(Line::Show)
}

/// The octets that a word at this place spells, of which there is one at least.
fn some_octets<A: Allocator + Copy>(
    alloc: A,
    word: &[u8],
    place: u32,
) -> Result<Vec<u8, A>, ParseFault>
    ensures { Gives (λ v. v.items) result (some_octets place word.now) }
{
    if word.is_empty() {
        return Err(Fault::BadHex.at(place));
    }
    octets(alloc, word, place)
}

/// A datagram that came at a moment from an address.
#[tactic(auto, unfolding(crate::specs::Requests::rx_of))]
fn rx<A: Allocator + Copy>(
    alloc: A,
    moment: u64,
    from: Address,
    words: Option<&[u8]>,
) -> Result<Line<A>, ParseFault>
    ensures { Gives view result (rx_of moment from (words_in words.entry)) }
{
    let (word, rest) = next_word(words, 4)?;
    let octets = some_octets(alloc, word, 4)?;
    end_of_words(rest, 5)?;
    Ok(Line::Rx {
        moment,
        from,
        octets,
    })
}

/// A wait for the source of this SSRC at an address, until a moment.
fn wait<A: Allocator + Copy>(
    moment: u64,
    from: Address,
    ssrc: u32,
    words: Option<&[u8]>,
) -> Result<Line<A>, ParseFault>
    ensures { Gives view result (wait_of moment from ssrc (words_in words.entry)) }
{
    end_of_words(words, 5)?;
    Ok(Line::Wait { moment, from, ssrc })
}

fn tick<A: Allocator + Copy>(moment: u64, words: Option<&[u8]>) -> Result<Line<A>, ParseFault>
    ensures { Gives view result (tick_item moment (words_in words.entry)) }
{
    end_of_words(words, 3)?;
    Ok(Line::Tick { moment })
}

fn report<A: Allocator + Copy>(moment: u64, words: Option<&[u8]>) -> Result<Line<A>, ParseFault>
    ensures { Gives view result (report_of moment (words_in words.entry)) }
{
    end_of_words(words, 3)?;
    Ok(Line::Report { moment })
}

/// What a line of this kind asks for, with these values first.
fn line_with<A: Allocator + Copy>(
    alloc: A,
    kind: LineKind,
    values: &[Value],
    words: Option<&[u8]>,
) -> Result<Line<A>, ParseFault>
    requires shape { map field_of values.now ≡ front_of kind }
    requires short { size_of words ≤ LINE_LIMIT + 1 }
    ensures { Gives view result (request_with kind values.now (words_in words.entry)) }
{
    match kind {
        LineKind::Desk => desk(alloc, operator_at(values, 0), words),
        LineKind::Frame => {
            let head = FrameHead {
                moment: u64_at(values, 0),
                address: address_at(values, 1),
                source: u32_at(values, 2),
                epoch: u64_at(values, 3),
                ts: u32_at(values, 4),
            };
            let frame = frame(alloc, 7, head, words)?;
            Ok(Line::Frame(frame))
        }
        LineKind::Rx => rx(alloc, u64_at(values, 0), address_at(values, 1), words),
        LineKind::Wait => {
            let moment = u64_at(values, 0);
            wait(moment, address_at(values, 1), u32_at(values, 2), words)
        }
        LineKind::Tick => tick(u64_at(values, 0), words),
        LineKind::Report => report(u64_at(values, 0), words),
        LineKind::Show => show(words),
    }
}

#[tactic(auto, unfolding(crate::specs::Requests::words_request))]
fn words_line<A: Allocator + Copy>(alloc: A, words: Option<&[u8]>) -> Result<Line<A>, ParseFault>
    requires { size_of words ≤ LINE_LIMIT + 1 }
    ensures { Gives view result (words_request (words_in words.entry)) }
{
    let (word, rest) = next_word(words, 1)?;
    let Some(kind) = parse_kind(word) else {
        return Err(Fault::UnknownWord.at(1));
    };
    let (values, rest) = read_values(2, front(kind), rest)?;
    line_with(alloc, kind, values.as_slice(), rest)
}

/// What the words of a line behind the first ask for.
#[tactic(auto, using(crate::proofs::ItemLemmas::limit_most, crate::proofs::ItemLemmas::limit_other))]
fn later_line<A: Allocator + Copy>(alloc: A, line: &[u8]) -> Result<Line<A>, ParseFault>
    requires { length line.now ≤ limit_of line.now }
    ensures { Gives view result (later_request (words_of line.now)) }
{
    let (word, rest) = first_word(line);
    if word == b"item".as_slice() {
        let handed = read_item(alloc, rest)?;
        return Ok(Line::Item(handed));
    }
    words_line(alloc, Some(line))
}

/// What the words of the first line ask for.
#[tactic(auto, unfolding(crate::specs::FirstLine::first_request))]
fn first_line<A: Allocator + Copy>(alloc: A, line: &[u8]) -> Result<Line<A>, ParseFault>
    requires { length line.now ≤ limit_of line.now }
    ensures { Gives view result (first_request (words_of line.now)) }
{
    let (word, rest) = first_word(line);
    if word == b"bridge".as_slice() {
        let named = read_bridge_line(alloc, rest)?;
        return Ok(Line::Begin(named));
    }
    later_line(alloc, line)
}

/// What the words of the line of this number ask for.
fn line_at<A: Allocator + Copy>(alloc: A, number: u64, line: &[u8]) -> Result<Line<A>, ParseFault>
    requires { length line.now ≤ limit_of line.now }
    ensures { Gives view result (words_request_at number (words_of line.now)) }
{
    if number == 1 {
        first_line(alloc, line)
    } else {
        later_line(alloc, line)
    }
}

/// What the line of this number asks for, or its first fault. The first line has the number 1.
#[tactic(auto, unfolding(crate::specs::Requests::line_request))]
pub(crate) fn parse_line<A: Allocator + Copy>(
    alloc: A,
    number: u64,
    line: &[u8],
) -> Result<Line<A>, ParseFault>
    ensures { Gives view result (request_at number line.now) }
{
    if is_too_long(line) {
        return Err(Fault::LineTooLong.at(0));
    }
    if !is_printable(line) {
        return Err(Fault::BadByte.at(0));
    }
    if line.is_empty() || line[0] == b'#' {
        return Ok(Line::Nothing);
    }
    line_at(alloc, number, line)
}
