//! The values of rows: what `show` tells of a row, and what the command that puts it has.

ghost use Rattle.std.specs.Prelude.{◌≡◌, ◌≤◌, length};
ghost use Rattle.desk_rows.specs.Values.{row_values, row_with, u16_at, u32_at, address_at, codec_at, media_at};

use crate::key::Kind;
use crate::row::{Codec, Floor, Gain, Media, Member, Mute, Pin, Room, Row, Slot, Source, Sub};
use arrayvec::ArrayVec;
use rtp_codec::Address;

/// How many values a row has at most.
pub const MOST_VALUES: usize = 7;

/// The values of a row.
pub type RowValues = ArrayVec<RowValue, MOST_VALUES>;

/// The value of a field of a row.
#[derive(Clone, Copy)]
pub enum RowValue {
    U16(u16),
    U32(u32),
    Address(Address),
    Codec(Codec),
    Media(Media),
}

impl Default for RowValue {
    fn default() -> RowValue {
        RowValue::U32(0)
    }
}

/// These values.
fn list(values: &[RowValue]) -> RowValues
    requires { length values.now ≤ MOST_VALUES }
    ensures { result.items ≡ values.now }
{
    let mut list = ArrayVec::new();
    let _ = list.try_extend_from_slice(values);
    list
}

impl Member {
    fn values(&self) -> RowValues
        ensures { result.items ≡ row_values (Row.Member self.now) }
    {
        list(&[
            RowValue::U32(self.member),
            RowValue::U32(self.room),
            RowValue::Address(self.address),
            RowValue::Codec(self.codec),
            RowValue::U32(self.out_audio),
            RowValue::U16(self.first_seq),
            RowValue::U32(self.first_ts),
        ])
    }

    fn with_values(values: &[RowValue]) -> Member
        ensures { Row.Member result ≡ row_with Kind.Member values.now }
    {
        Member {
            member: u32_at(values, 0),
            room: u32_at(values, 1),
            address: address_at(values, 2),
            codec: codec_at(values, 3),
            out_audio: u32_at(values, 4),
            first_seq: u16_at(values, 5),
            first_ts: u32_at(values, 6),
        }
    }
}

impl Source {
    fn with_values(values: &[RowValue]) -> Source
        ensures { Row.Source result ≡ row_with Kind.Source values.now }
    {
        Source {
            ssrc: u32_at(values, 0),
            member: u32_at(values, 1),
            media: media_at(values, 2),
        }
    }
}

impl Slot {
    fn values(&self) -> RowValues
        ensures { result.items ≡ row_values (Row.Slot self.now) }
    {
        list(&[
            RowValue::U32(self.out_ssrc),
            RowValue::U32(self.member),
            RowValue::U32(self.index),
            RowValue::U16(self.first_seq),
            RowValue::U32(self.first_ts),
        ])
    }

    fn with_values(values: &[RowValue]) -> Slot
        ensures { Row.Slot result ≡ row_with Kind.Slot values.now }
    {
        Slot {
            out_ssrc: u32_at(values, 0),
            member: u32_at(values, 1),
            index: u32_at(values, 2),
            first_seq: u16_at(values, 3),
            first_ts: u32_at(values, 4),
        }
    }
}

impl Gain {
    fn with_values(values: &[RowValue]) -> Gain
        ensures { Row.Gain result ≡ row_with Kind.Gain values.now }
    {
        Gain {
            member: u32_at(values, 0),
            source: u32_at(values, 1),
            q8: u32_at(values, 2),
        }
    }
}

impl Row {
    /// The row's values, in the order in which `show` and the command that puts the row have them.
    // Equality, `show` and the commands that put rows all go by this list, so none of them can forget a further field.
    pub fn values(&self) -> RowValues
        ensures { result.items ≡ row_values self.now }
    {
        match self {
            Row::Room(room) => list(&[RowValue::U32(room.room), RowValue::U32(room.rate)]),
            Row::Member(member) => member.values(),
            Row::Source(source) => list(&[
                RowValue::U32(source.ssrc),
                RowValue::U32(source.member),
                RowValue::Media(source.media),
            ]),
            Row::Slot(slot) => slot.values(),
            Row::Sub(sub) => list(&[RowValue::U32(sub.out_ssrc), RowValue::U32(sub.source)]),
            Row::Mute(mute) => list(&[RowValue::U32(mute.source)]),
            Row::Gain(gain) => list(&[
                RowValue::U32(gain.member),
                RowValue::U32(gain.source),
                RowValue::U32(gain.q8),
            ]),
            Row::Pin(pin) => list(&[RowValue::U32(pin.room), RowValue::U32(pin.source)]),
            Row::Floor(floor) => list(&[RowValue::U32(floor.room), RowValue::U32(floor.member)]),
        }
    }

    /// The row of this kind with these values. In place of a value that is missing, or of another type, it has 0, or
    /// the first of its kind.
    pub fn with_values(kind: Kind, values: &[RowValue]) -> Row
        ensures { result ≡ row_with kind values.now }
    {
        match kind {
            Kind::Room => Row::Room(Room {
                room: u32_at(values, 0),
                rate: u32_at(values, 1),
            }),
            Kind::Member => Row::Member(Member::with_values(values)),
            Kind::Source => Row::Source(Source::with_values(values)),
            Kind::Slot => Row::Slot(Slot::with_values(values)),
            Kind::Sub => Row::Sub(Sub {
                out_ssrc: u32_at(values, 0),
                source: u32_at(values, 1),
            }),
            Kind::Mute => Row::Mute(Mute {
                source: u32_at(values, 0),
            }),
            Kind::Gain => Row::Gain(Gain::with_values(values)),
            Kind::Pin => Row::Pin(Pin {
                room: u32_at(values, 0),
                source: u32_at(values, 1),
            }),
            Kind::Floor => Row::Floor(Floor {
                room: u32_at(values, 0),
                member: u32_at(values, 1),
            }),
        }
    }
}

/// The number of 16 bits at this place, or 0.
fn u16_at(values: &[RowValue], place: usize) -> u16
    ensures { result ≡ u16_at place values.now }
{
    match values.get(place) {
        Some(RowValue::U16(value)) => *value,
        _ => 0,
    }
}

/// The number of 32 bits at this place, or 0.
fn u32_at(values: &[RowValue], place: usize) -> u32
    ensures { result ≡ u32_at place values.now }
{
    match values.get(place) {
        Some(RowValue::U32(value)) => *value,
        _ => 0,
    }
}

/// The address at this place, or that of zeros.
fn address_at(values: &[RowValue], place: usize) -> Address
    ensures { result ≡ address_at place values.now }
{
    match values.get(place) {
        Some(RowValue::Address(value)) => *value,
        _ => Address {
            ip: [0; 4],
            port: 0,
        },
    }
}

/// The codec at this place, or the first.
fn codec_at(values: &[RowValue], place: usize) -> Codec
    ensures { result ≡ codec_at place values.now }
{
    match values.get(place) {
        Some(RowValue::Codec(value)) => *value,
        _ => Codec::Pcmu,
    }
}

/// The kind of source at this place, or the first.
fn media_at(values: &[RowValue], place: usize) -> Media
    ensures { result ≡ media_at place values.now }
{
    match values.get(place) {
        Some(RowValue::Media(value)) => *value,
        _ => Media::Audio,
    }
}
