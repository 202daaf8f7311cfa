//! Lines that a page may send, by their first words.

ghost use Rattle.std.specs.Prelude.{◌≡◌, ◌≤◌, length};
ghost use Rattle.std.specs.List.{list_all, prefix_len};
ghost use Rattle.desk_http.specs.Lines.{
  is_printable,
  is_visible,
  is_person,
  is_not_space,
  first_word,
  is_names_line,
  is_events_line,
  is_file_line,
  is_change,
  is_reserved,
  is_asking,
  is_line,
};

/// The most octets of a line for the bridge.
pub const MAX_LINE: usize = 4_096;
/// The most octets of a person's name.
const LONGEST_PERSON: usize = 64;
/// The most octets of a change of names.
pub const MAX_CHANGE: usize = 262_144;

/// Whether each octet is one from a space to `~`.
fn is_printable(body: &[u8]) -> bool
    ensures { result ≡ list_all is_printable body.now }
{
    body.iter().all(|octet| 32 <= *octet && *octet <= 126)
}

/// Whether a body is a line: 1 to 4,096 printable octets.
pub(crate) fn is_line(body: &[u8]) -> bool
    ensures { result ≡ is_line body.now }
{
    0 < body.len() && body.len() <= MAX_LINE && is_printable(body)
}

/// Whether each octet is one from `!` to `~`.
fn is_visible(name: &[u8]) -> bool
    ensures { result ≡ list_all is_visible name.now }
{
    name.iter().all(|octet| 32 < *octet && *octet <= 126)
}

/// Whether a word is a person's name, as the bridge takes it: 1 to 64 visible octets.
pub(crate) fn is_person(name: &[u8]) -> bool
    ensures { result ≡ is_person name.now }
{
    0 < name.len() && name.len() <= LONGEST_PERSON && is_visible(name)
}

fn first_word_length(line: &[u8]) -> usize
    ensures value { result ≡ prefix_len is_not_space line.now }
    ensures within { result ≤ length line.now }
{
    line.iter().take_while(|octet| **octet != b' ').count()
}

fn first_word(line: &[u8]) -> &[u8]
    ensures { result.now ≡ first_word line.now }
{
    &line[..first_word_length(line)]
}

/// Whether the first word of a line is `names`. Such a line never goes to the bridge, which has no names.
pub(crate) fn is_names_line(line: &[u8]) -> bool
    ensures { result ≡ is_names_line line.now }
{
    first_word(line) == b"names".as_slice()
}

/// Whether the first word of a line is `events`. Such a line never goes to the bridge: the page itself has the stream.
pub(crate) fn is_events_line(line: &[u8]) -> bool
    ensures { result ≡ is_events_line line.now }
{
    first_word(line) == b"events".as_slice()
}

/// Whether a line is a path, which begins with a slash. Such a line never goes to the bridge: it asks for a file.
pub(crate) fn is_file_line(line: &[u8]) -> bool
    ensures { result ≡ is_file_line line.now }
{
    line.len() >= 1 && line[0] == b'/'
}

/// Whether a body is a change of names: it begins with that word, and isn't too long.
pub(crate) fn is_change(body: &[u8]) -> bool
    ensures { result ≡ is_change body.now }
{
    body.len() <= MAX_CHANGE && is_names_line(body)
}

/// Whether a line begins with a word that the page's operators may not send.
pub(crate) fn is_reserved(line: &[u8]) -> bool
    ensures { result ≡ is_reserved line.now }
{
    let word = first_word(line);
    word == b"show".as_slice()
        || word == b"history".as_slice()
        || word == b"stats".as_slice()
        || word == b"levels".as_slice()
        || word == b"watch".as_slice()
        || word == b"quit".as_slice()
        || word == b"stop".as_slice()
        || is_asking(word)
        || is_names_line(line)
        || is_events_line(line)
        || is_file_line(line)
}

/// Whether a word begins a line about the log, the desk's groups, its lease, the connection or its lines.
fn is_asking(word: &[u8]) -> bool
    ensures { result ≡ is_asking word.now }
{
    word == b"calls".as_slice()
        || word == b"groups".as_slice()
        || word == b"lease".as_slice()
        || word == b"as".as_slice()
        || word == b"why".as_slice()
        || word == b"help".as_slice()
}
