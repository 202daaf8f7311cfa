//! The fields of lines, and the values that words spell there.

ghost use Rattle.std.specs.Prelude.{◌≡◌, ◌≤◌, Some, length, map, slice_get, IfSome};
ghost use Rattle.desk_text.specs.Values.{value_of, fault_of, field_of, of_row, in_row, number_at, address_at};

use crate::fault::Fault;
use crate::number::parse_number;
use crate::spelling::{parse_address, parse_codec, parse_media};
use arrayvec::ArrayVec;
use desk_rows::{Codec, MOST_VALUES, Media, RowValue, RowValues};
use rtp_codec::Address;

/// The greatest number of an operator.
const LAST_OPERATOR: u64 = 15;

/// What a word has to spell.
#[derive(Clone, Copy)]
pub enum Field {
    U16,
    U32,
    U64,
    /// 0 to 15.
    Operator,
    Address,
    Codec,
    Media,
}

/// What a word spells.
#[derive(Clone, Copy)]
pub enum Value {
    U16(u16),
    U32(u32),
    U64(u64),
    Operator(u8),
    Address(Address),
    Codec(Codec),
    Media(Media),
}

impl Default for Field {
    fn default() -> Field {
        Field::U16
    }
}

impl Default for Value {
    fn default() -> Value {
        Value::U16(0)
    }
}

impl Value {
    /// The value of a row's field.
    pub(crate) fn of_row(value: RowValue) -> Value
        ensures { result ≡ of_row value }
    {
        match value {
            RowValue::U16(n) => Value::U16(n),
            RowValue::U32(n) => Value::U32(n),
            RowValue::Address(address) => Value::Address(address),
            RowValue::Codec(codec) => Value::Codec(codec),
            RowValue::Media(media) => Value::Media(media),
        }
    }

    /// The value of a row's field that this one is, or 0.
    fn in_row(self) -> RowValue
        ensures { result ≡ in_row self }
    {
        match self {
            Value::U16(n) => RowValue::U16(n),
            Value::U32(n) => RowValue::U32(n),
            Value::U64(_) | Value::Operator(_) => RowValue::U32(0),
            Value::Address(address) => RowValue::Address(address),
            Value::Codec(codec) => RowValue::Codec(codec),
            Value::Media(media) => RowValue::Media(media),
        }
    }

    /// The field that it is a value of.
    pub(crate) fn field(self) -> Field
        ensures { result ≡ field_of self }
    {
        match self {
            Value::U16(_) => Field::U16,
            Value::U32(_) => Field::U32,
            Value::U64(_) => Field::U64,
            Value::Operator(_) => Field::Operator,
            Value::Address(_) => Field::Address,
            Value::Codec(_) => Field::Codec,
            Value::Media(_) => Field::Media,
        }
    }
}

/// These values as those of a row.
pub(crate) fn in_rows(values: &[Value]) -> RowValues
    requires { length values.now ≤ MOST_VALUES }
    ensures { result.items ≡ map in_row values.now }
{
    let mut row_values = ArrayVec::new();
    for value in values {
        row_values.push(value.in_row());
    }
    row_values
}

/// The value of this field that a word spells.
pub(crate) fn parse_value(field: Field, word: &[u8]) -> Option<Value>
    ensures value { result ≡ value_of field word.now }
    ensures field { IfSome result (λ value. field_of value ≡ field) }
{
    match field {
        Field::U16 => match parse_number(word, 65_535) {
            None => None,
            Some(n) => Some(Value::U16(n as u16)),
        },
        Field::U32 => match parse_number(word, 4_294_967_295) {
            None => None,
            Some(n) => Some(Value::U32(n as u32)),
        },
        Field::U64 => match parse_number(word, u64::MAX) {
            None => None,
            Some(n) => Some(Value::U64(n)),
        },
        Field::Operator => match parse_number(word, LAST_OPERATOR) {
            None => None,
            Some(n) => Some(Value::Operator(n as u8)),
        },
        Field::Address => match parse_address(word) {
            None => None,
            Some(address) => Some(Value::Address(address)),
        },
        Field::Codec => match parse_codec(word) {
            None => None,
            Some(codec) => Some(Value::Codec(codec)),
        },
        Field::Media => match parse_media(word) {
            None => None,
            Some(media) => Some(Value::Media(media)),
        },
    }
}

/// What is wrong with a word that spells no value of this field.
pub(crate) fn word_fault(field: Field) -> Fault
    ensures { result ≡ fault_of field }
{
    match field {
        Field::U16 | Field::U32 | Field::U64 | Field::Operator => Fault::BadNumber,
        Field::Address => Fault::BadAddress,
        Field::Codec | Field::Media => Fault::UnknownWord,
    }
}

/// The number of 32 bits at this place.
pub fn u32_at(values: &[Value], place: usize) -> u32
    requires { slice_get (map field_of values.now) place ≡ Some Field.U32 }
    ensures { result ≡ number_at place values.now }
{
    match values.get(place) {
        Some(Value::U32(value)) => *value,
        _ => unreachable!(),
    }
}

/// The number of 64 bits at this place.
pub fn u64_at(values: &[Value], place: usize) -> u64
    requires { slice_get (map field_of values.now) place ≡ Some Field.U64 }
    ensures { result ≡ number_at place values.now }
{
    match values.get(place) {
        Some(Value::U64(value)) => *value,
        _ => unreachable!(),
    }
}

/// The operator at this place.
pub fn operator_at(values: &[Value], place: usize) -> u8
    requires { slice_get (map field_of values.now) place ≡ Some Field.Operator }
    ensures { result ≡ number_at place values.now }
{
    match values.get(place) {
        Some(Value::Operator(value)) => *value,
        _ => unreachable!(),
    }
}

/// The address at this place.
pub fn address_at(values: &[Value], place: usize) -> Address
    requires { slice_get (map field_of values.now) place ≡ Some Field.Address }
    ensures { result ≡ address_at place values.now }
{
    match values.get(place) {
        Some(Value::Address(value)) => *value,
        _ => unreachable!(),
    }
}
