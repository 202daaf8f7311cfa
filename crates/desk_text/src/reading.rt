//! Reading the values that words spell.

ghost use Rattle.std.specs.Prelude.{◌≡◌, ◌≢◌, ◌≤◌, ◌^◌, ◌∷◌, [], ℕ, List, true, false, length, map, IfOk};
ghost use Rattle.desk_text.specs.Words.{Gives, words_in, size_of};
ghost use Rattle.desk_text.specs.Values.{field_of, values_of};
ghost use Rattle.desk_text.specs.Calls.{shape_of, with_rate};

use crate::fault::ParseFault;
use crate::name::Name;
use crate::shaping::shape;
use crate::value::{Field, Value, parse_value, word_fault};
use crate::words::{is_one_word, next_word};
use arrayvec::ArrayVec;
use desk_rows::{DEFAULT_RATE, MOST_VALUES};

/// The values that stand first, and the text behind them.
pub type ReadPrefix<'a> = (ArrayVec<Value, MOST_VALUES>, Option<&'a [u8]>);

/// The values of these fields, of which the first stands at this place.
pub fn read_values<'a>(
    place: u32,
    shape: &[Field],
    words: Option<&'a [u8]>,
) -> Result<ReadPrefix<'a>, ParseFault>
    requires few { length shape.now ≤ MOST_VALUES }
    requires near { place ≤ 2 ^ 18 }
    ensures values { Gives (λ x. (x.0.items, words_in x.1)) result (values_of place shape.now (words_in words.entry)) }
    ensures shape { IfOk result (λ x. map field_of x.0.items ≡ shape.now) }
    ensures shorter { IfOk result (λ x. size_of x.1 ≤ size_of words.entry) }
    ensures memory { result ≢ Err ParseFault.OutOfMemory }
{
    let mut values = ArrayVec::new();
    let mut rest = words;
    let mut at = place;
    for field in shape {
        let (word, behind) = match next_word(rest, at) {
            Err(fault) => return Err(fault),
            Ok(found) => found,
        };
        let Some(value) = parse_value(*field, word) else {
            return Err(word_fault(*field).at(at));
        };
        values.push(value);
        rest = behind;
        at += 1;
    }
    Ok((values, rest))
}

/// Whether these words behind a name add a room and leave out its rate.
fn lacks_rate(name: Name, words: Option<&[u8]>) -> bool
    ensures lacking { result ≡ true
        → (room : List ℕ) × (name ≡ Name.AddRoom) × (words_in words.entry ≡ room ∷ []) }
    ensures named { result ≡ false → with_rate name (words_in words.entry) ≡ words_in words.entry }
{
    match name {
        Name::AddRoom => is_one_word(words),
        _ => false,
    }
}

/// The values behind a name, of which the first stands at this place. A room without its rate is one of 8000 Hz.
// A missing rate is filled in first, so that each line stays a fixed list of typed fields. So whatever stands behind a
// room's number is judged as a rate.
pub(crate) fn read_fields<'a>(
    place: u32,
    name: Name,
    words: Option<&'a [u8]>,
) -> Result<ReadPrefix<'a>, ParseFault>
    requires { place ≤ 2 ^ 18 }
    ensures values { Gives (λ x. (x.0.items, words_in x.1)) result
        (values_of place (shape_of name) (with_rate name (words_in words.entry))) }
    ensures shape { IfOk result (λ x. map field_of x.0.items ≡ shape_of name) }
    ensures memory { result ≢ Err ParseFault.OutOfMemory }
{
    if lacks_rate(name, words) {
        let (mut values, rest) = match read_values(place, &[Field::U32], words) {
            Err(fault) => return Err(fault),
            Ok(front) => front,
        };
        values.push(Value::U32(DEFAULT_RATE));
        Ok((values, rest))
    } else {
        read_values(place, shape(name).as_slice(), words)
    }
}
