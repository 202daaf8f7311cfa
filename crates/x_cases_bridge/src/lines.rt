//! Lines to a bridge.

use bridge_core::Item;
use desk_text::parse_address;
use rtp_codec::Address;
use std::alloc::Global;
use std::io;
use x_refusing::Refusing;

/// More requests than any call makes.
pub const MOST: u64 = 100_000;

/// How a line was answered while a request for memory was refused.
#[derive(Clone, Copy, PartialEq, Eq)]
pub enum Answer {
    /// The bridge refuses the line: out of memory.
    Refused,
    /// The line is answered, though a request was refused: there was another way.
    Anyway,
    /// The line makes fewer requests.
    Whole,
}

impl Answer {
    /// The answer of a line that is answered, after a request was refused or not.
    pub fn after(is_refused: bool) -> Self {
        if is_refused {
            Answer::Anyway
        } else {
            Answer::Whole
        }
    }
}

/// A line that can't be read is answered so.
pub fn unread(out: &mut String) -> io::Result<Answer> {
    out.push_str("unread\n")?;
    Ok(Answer::Whole)
}

/// A line is cut into its first word and the rest.
pub fn first_word(line: &str) -> (&str, &str) {
    line.split_once(" ").unwrap_or((line, ""))
}

/// A datagram that comes.
#[derive(Drop)]
pub struct Arrival {
    /// When it comes, in nanoseconds since 1970.
    pub moment: u64,
    /// The address that it comes from.
    pub from: Address,
    /// Its octets.
    pub octets: Vec<u8>,
}

/// The datagram of `MOMENT ADDRESS HEX`.
pub fn arrival_of(alloc: Global, words: &str) -> Option<Arrival> {
    let (moment, words) = words.split_once(" ")?;
    let (from, digits) = words.split_once(" ")?;
    Some(Arrival {
        moment: moment.parse().ok()?,
        from: parse_address(from.as_bytes())?,
        octets: hex::decode(alloc, digits).ok()?,
    })
}

/// Time that passes for a source.
#[derive(Clone, Copy)]
pub struct Passing {
    /// When it has passed, in nanoseconds since 1970.
    pub moment: u64,
    /// The address of the source.
    pub from: Address,
    /// The SSRC of the source.
    pub ssrc: u32,
}

/// The wait of `MOMENT ADDRESS SSRC`.
pub fn passing_of(words: &str) -> Option<Passing> {
    let (moment, words) = words.split_once(" ")?;
    let (from, ssrc) = words.split_once(" ")?;
    Some(Passing {
        moment: moment.parse().ok()?,
        from: parse_address(from.as_bytes())?,
        ssrc: ssrc.parse().ok()?,
    })
}

/// The item of `ADDRESS OUT_SSRC NUMBER ..`: a NACK of these numbers.
pub fn nack<'a>(heap: &'a Refusing, words: &str) -> Option<Item<&'a Refusing>> {
    let (from, words) = words.split_once(" ")?;
    let (out_ssrc, words) = words.split_once(" ")?;
    let mut numbers = Vec::new(heap);
    for number in words.split(' ') {
        numbers.push(number.parse().ok()?).ok()?;
    }
    Some(Item::Nack {
        from: parse_address(from.as_bytes())?,
        out_ssrc: out_ssrc.parse().ok()?,
        numbers,
    })
}
