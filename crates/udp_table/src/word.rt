//! The words of a line, with any number of spaces between them.

ghost use Rattle.std.specs.Prelude.{◌≡◌, ◌==◌, ◌≤◌, not, length, position, IfSome};
ghost use Rattle.udp_table.specs.Words.{spaces_of, size_of, first_word, behind_word, word_at, number_with, word_number};

/// The place of the first octet of a text that is no space.
fn first_other(text: &[u8]) -> Option<usize>
    ensures place { result ≡ position (λ b. not (b == 32)) text.now }
    ensures fits { IfSome result (λ place. place ≤ length text.now) }
{
    text.iter().position(|b| *b != b' ')
}

/// The place of the first space of a text.
fn first_space(text: &[u8]) -> Option<usize>
    ensures place { result ≡ position (λ b. b == 32) text.now }
    ensures fits { IfSome result (λ place. place ≤ length text.now) }
{
    text.iter().position(|b| *b == b' ')
}

/// How many spaces a text begins with.
fn spaces_of(text: &[u8]) -> usize
    ensures count { result ≡ spaces_of text.now }
    ensures fits { result ≤ length text.now }
{
    match first_other(text) {
        None => text.len(),
        Some(place) => place,
    }
}

/// How many octets a text has before its first space.
fn size_of(text: &[u8]) -> usize
    ensures count { result ≡ size_of text.now }
    ensures fits { result ≤ length text.now }
{
    match first_space(text) {
        None => text.len(),
        Some(place) => place,
    }
}

/// The first word of a line. It is empty where there is none.
fn first_word(line: &[u8]) -> &[u8]
    ensures { result.now ≡ first_word line.now }
{
    let text = &line[spaces_of(line)..];
    &text[..size_of(text)]
}

/// What stands behind the first word of a line.
fn behind_word(line: &[u8]) -> &[u8]
    ensures { result.now ≡ behind_word line.now }
{
    let text = &line[spaces_of(line)..];
    &text[size_of(text)..]
}

/// The word of a line that stands behind so many others. It is empty where there is none.
pub(crate) fn word_at(line: &[u8], place: u32) -> &[u8]
    ensures { result.now ≡ word_at place line.now }
{
    let mut rest = line;
    for _ in 0..place {
        rest = behind_word(rest);
    }
    first_word(rest)
}

/// The number of these digits with one more, if it is below 2^64.
fn number_with(number: Option<u64>, octet: u8) -> Option<u64>
    ensures { result ≡ number_with number octet }
{
    match number {
        Some(number) if octet.is_ascii_digit() => {
            number.checked_mul(10)?.checked_add(u64::from(octet - b'0'))
        }
        _ => None,
    }
}

/// The number that a word of digits spells, if it is below 2^64.
pub(crate) fn word_number(word: &[u8]) -> Option<u64>
    ensures { result ≡ word_number word.now }
{
    if word.is_empty() {
        return None;
    }
    let mut number = Some(0);
    for octet in word {
        number = number_with(number, *octet);
    }
    number
}
