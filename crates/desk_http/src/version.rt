//! The version of the desk that a request names.

ghost use Rattle.std.specs.Prelude.{◌≡◌, true};
ghost use Rattle.std.specs.List.{list_all};
ghost use Rattle.std.specs.Char.{is_ascii_digit};
ghost use Rattle.std.specs.Str.Parse.{digits_value};
ghost use Rattle.desk_http.specs.Versions.{is_digits, in_64_bits, version_of};

fn all_digits(word: &[u8]) -> bool
    ensures { result ≡ list_all is_ascii_digit word.now }
{
    word.iter().all(|octet| octet.is_ascii_digit())
}

/// Whether a word is digits, and at least one.
fn is_digits(word: &[u8]) -> bool
    ensures { result ≡ is_digits word.now }
{
    0 < word.len() && all_digits(word)
}

/// What these digits are worth, if 64 bits hold it.
fn value_of(word: &[u8]) -> Option<u64>
    requires { is_digits word.now ≡ true }
    ensures { result ≡ in_64_bits (digits_value 10 word.now) }
{
    match str::from_utf8(word) {
        Ok(text) => text.parse::<u64>().ok(),
        Err(_) => None,
    }
}

/// The version that a word spells.
pub(crate) fn version_of(word: &[u8]) -> Option<u64>
    ensures { result ≡ version_of word.now }
{
    if is_digits(word) {
        value_of(word)
    } else {
        None
    }
}
