//! The tables of lines: their first words, and the fields in front.

ghost use Rattle.std.specs.Prelude.{◌≡◌, ◌≤◌, length};
ghost use Rattle.script_text.specs.Requests.{line_kind_of, front_of};
ghost use Rattle.script_text.specs.ItemLines.{item_kind_of, item_front_of};

use desk_rows::MOST_VALUES;
use desk_text::Field;

/// The first word of a line.
#[derive(Clone, Copy)]
pub(crate) enum LineKind {
    Desk,
    Frame,
    Rx,
    Wait,
    Tick,
    Report,
    Show,
}

/// The kind of line that a word begins.
pub(crate) fn parse_kind(word: &[u8]) -> Option<LineKind>
    ensures { result ≡ line_kind_of word.now }
{
    if word == b"desk".as_slice() {
        Some(LineKind::Desk)
    } else if word == b"frame".as_slice() {
        Some(LineKind::Frame)
    } else if word == b"rx".as_slice() {
        Some(LineKind::Rx)
    } else if word == b"wait".as_slice() {
        Some(LineKind::Wait)
    } else if word == b"tick".as_slice() {
        Some(LineKind::Tick)
    } else if word == b"report".as_slice() {
        Some(LineKind::Report)
    } else if word == b"show".as_slice() {
        Some(LineKind::Show)
    } else {
        None
    }
}

/// The fields that stand first behind it.
pub(crate) fn front(kind: LineKind) -> &'static [Field]
    ensures table { result.now ≡ front_of kind }
    ensures few { length result.now ≤ MOST_VALUES }
{
    match kind {
        LineKind::Desk => &[Field::Operator],
        LineKind::Frame => &[
            Field::U64,
            Field::Address,
            Field::U32,
            Field::U64,
            Field::U32,
        ],
        LineKind::Rx => &[Field::U64, Field::Address],
        LineKind::Wait => &[Field::U64, Field::Address, Field::U32],
        LineKind::Tick | LineKind::Report => &[Field::U64],
        LineKind::Show => &[],
    }
}

/// The kind of an item, the second word of its line.
#[derive(Clone, Copy)]
pub(crate) enum ItemKind {
    Frame,
    Audio,
    Tick,
    Nack,
    Block,
    Pli,
    Report,
    Renew,
}

/// The kind of item that a word names.
pub(crate) fn parse_item_kind(word: &[u8]) -> Option<ItemKind>
    ensures { result ≡ item_kind_of word.now }
{
    if word == b"frame".as_slice() {
        Some(ItemKind::Frame)
    } else if word == b"audio".as_slice() {
        Some(ItemKind::Audio)
    } else if word == b"tick".as_slice() {
        Some(ItemKind::Tick)
    } else if word == b"nack".as_slice() {
        Some(ItemKind::Nack)
    } else if word == b"block".as_slice() {
        Some(ItemKind::Block)
    } else if word == b"pli".as_slice() {
        Some(ItemKind::Pli)
    } else if word == b"report".as_slice() {
        Some(ItemKind::Report)
    } else if word == b"renew".as_slice() {
        Some(ItemKind::Renew)
    } else {
        None
    }
}

/// The fields that stand first behind it.
pub(crate) fn item_front(kind: ItemKind) -> &'static [Field]
    ensures table { result.now ≡ item_front_of kind }
    ensures few { length result.now ≤ MOST_VALUES }
{
    match kind {
        ItemKind::Frame => &[
            Field::U64,
            Field::Address,
            Field::U32,
            Field::U64,
            Field::U32,
        ],
        ItemKind::Audio | ItemKind::Nack | ItemKind::Block | ItemKind::Pli => {
            &[Field::Address, Field::U32]
        }
        ItemKind::Tick | ItemKind::Report => &[Field::U64],
        ItemKind::Renew => &[],
    }
}
