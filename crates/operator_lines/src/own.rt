//! How the lines begin that are no calls.

ghost use Rattle.std.specs.Prelude.{◌≡◌};
ghost use Rattle.operator_lines.specs.Own.{own_of, more_of};

/// The first word of a line that is no call.
#[derive(Clone, Copy)]
pub(crate) enum Own {
    Show,
    Groups,
    History,
    Calls,
    Stats,
    Levels,
    Watch,
    As,
    Lease,
    Why,
    Help,
    Quit,
    Stop,
}

/// The one that a word is.
pub(crate) fn parse_own(word: &[u8]) -> Option<Own>
    ensures { result ≡ own_of word.now }
{
    if word == b"show".as_slice() {
        Some(Own::Show)
    } else if word == b"groups".as_slice() {
        Some(Own::Groups)
    } else if word == b"history".as_slice() {
        Some(Own::History)
    } else if word == b"calls".as_slice() {
        Some(Own::Calls)
    } else if word == b"stats".as_slice() {
        Some(Own::Stats)
    } else if word == b"levels".as_slice() {
        Some(Own::Levels)
    } else if word == b"watch".as_slice() {
        Some(Own::Watch)
    } else {
        parse_more(word)
    }
}

/// The one of the others that a word is.
fn parse_more(word: &[u8]) -> Option<Own>
    ensures { result ≡ more_of word.now }
{
    if word == b"as".as_slice() {
        Some(Own::As)
    } else if word == b"lease".as_slice() {
        Some(Own::Lease)
    } else if word == b"why".as_slice() {
        Some(Own::Why)
    } else if word == b"help".as_slice() {
        Some(Own::Help)
    } else if word == b"quit".as_slice() {
        Some(Own::Quit)
    } else if word == b"stop".as_slice() {
        Some(Own::Stop)
    } else {
        None
    }
}
