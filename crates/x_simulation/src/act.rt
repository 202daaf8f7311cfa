//! The lines of a script.

use desk_text::parse_address;
use rtp_codec::Address;

/// The most lanes of a bridge.
pub const MOST_LANES: u32 = 4;

/// The bridge of a script.
#[derive(Clone, Copy)]
pub struct Plan {
    pub lanes: u32,
    /// How many nanoseconds there are between reports.
    pub reports: u64,
    /// Which datagrams the sockets of lanes refuse. By 0 they refuse none.
    pub seed: u64,
}

/// What a line of a script asks for.
#[derive(Clone, Copy)]
pub enum Act<'t> {
    Nothing,
    Connect(u64),
    Say(u64, &'t str),
    Turn(u64, u64),
    Hang(u64),
    Fail(u64),
    Datagram(Address, &'t str),
    Other,
    Begin(u64, i64),
    Round(u64, i64),
    Go(usize, u64, u64),
}

/// A text is cut into its first word and the rest.
fn first_word(text: &str) -> (&str, &str) {
    text.split_once(" ").unwrap_or((text, ""))
}

impl Plan {
    /// That of a script's first line.
    pub fn read(text: &str) -> Option<Self> {
        let (_, words) = first_word(text.lines().next()?);
        let (lanes, words) = first_word(words);
        let (reports, seed) = first_word(words);
        let reports: u64 = reports.parse().ok()?;
        let lanes: u32 = lanes.parse().ok()?;
        Some(Self {
            lanes: lanes.min(MOST_LANES),
            reports: reports.saturating_mul(1_000_000),
            seed: seed.parse().ok()?,
        })
    }
}

impl<'t> Act<'t> {
    /// What a line asks for.
    pub fn read(line: &'t str) -> Option<Self> {
        let (verb, words) = first_word(line);
        let (first, rest) = first_word(words);
        let act = match verb {
            "connect" => Act::Connect(first.parse().ok()?),
            "say" => Act::Say(first.parse().ok()?, rest),
            "turn" => Act::Turn(first.parse().ok()?, rest.parse().ok()?),
            "hang" => Act::Hang(first.parse().ok()?),
            "fail" => Act::Fail(first.parse().ok()?),
            "rx" => Act::Datagram(parse_address(first.as_bytes())?, rest),
            "other" => Act::Other,
            "begin" => Act::Begin(first.parse().ok()?, rest.parse().ok()?),
            "round" => Act::Round(first.parse().ok()?, rest.parse().ok()?),
            "go" => {
                let (stops, left) = first_word(rest);
                Act::Go(first.parse().ok()?, stops.parse().ok()?, left.parse().ok()?)
            }
            _ => Act::Nothing,
        };
        Some(act)
    }
}

/// The number of the call that stands so many calls before this version. Instead of the first call, which makes the
/// beat, it is 0.
pub fn number_back(version: u64, back: &str) -> u64 {
    let number = version.saturating_sub(back.parse().unwrap_or(0));
    if number > 1 { number } else { 0 }
}
