//! Decimal numbers.

ghost use Rattle.std.specs.Prelude.{◌≡◌, ◌^◌, ◌≤◌, IfSome, true};
ghost use Rattle.std.specs.List.{list_all};
ghost use Rattle.std.specs.Char.{is_ascii_digit};
ghost use Rattle.std.specs.Str.Parse.{digits_value};
ghost use Rattle.desk_text.specs.Numbers.{is_number, below, decimal_of, negative, ext_of};

/// Whether each octet is a digit.
fn all_digits(word: &[u8]) -> bool
    ensures { result ≡ list_all is_ascii_digit word.now }
{
    word.iter().all(|b| b.is_ascii_digit())
}

/// Whether a word is digits, with no zero in front of others.
fn is_number(word: &[u8]) -> bool
    ensures { result ≡ is_number word.now }
{
    if !all_digits(word) || word.is_empty() {
        return false;
    }
    word.len() < 2 || word[0] != b'0'
}

/// What these digits are worth, below 2^64.
fn value_of(word: &[u8]) -> Option<u64>
    requires { is_number word.now ≡ true }
    ensures { result ≡ below (2 ^ 64) (digits_value 10 word.now) }
{
    match str::from_utf8(word) {
        Ok(text) => text.parse::<u64>().ok(),
        Err(_) => None,
    }
}

/// The number that a word spells, if it is at most `max`.
pub fn parse_number(word: &[u8], max: u64) -> Option<u64>
    ensures value { result ≡ decimal_of max word.now }
    ensures small { IfSome result (λ n. n ≤ max) }
{
    if !is_number(word) {
        return None;
    }
    match value_of(word) {
        Some(value) if value <= max => Some(value),
        _ => None,
    }
}

/// The negative of a number, which is at most 2^63.
fn negated(number: u64) -> i64
    requires { number ≤ 2 ^ 63 }
    ensures { result ≡ negative number }
{
    if number == 1 << 63 {
        i64::MIN
    } else {
        -(number as i64)
    }
}

/// The extended sequence number that a word spells, with a `-` in front if it is below 0.
#[tactic(auto, unfolding(crate::specs::Numbers::ext_of))]
pub fn parse_ext(word: &[u8]) -> Option<i64>
    ensures { result ≡ ext_of word.now }
{
    match word {
        [b'-', digits @ ..] => match parse_number(digits, 1 << 63) {
            None => None,
            Some(far) => Some(negated(far)),
        },
        _ => match parse_number(word, (1 << 63) - 1) {
            None => None,
            Some(far) => Some(far as i64),
        },
    }
}
