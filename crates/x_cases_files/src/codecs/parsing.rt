//! What is asked, as it is written. `-` is an empty list, and no octets.

use crate::codecs::untried::Untried;
use rtp_codec::Header;
use std::alloc::Global;

/// Octets in hexadecimal.
pub fn octets_of(alloc: Global, text: &str) -> Result<Vec<u8>, Untried> {
    if text == "-" {
        return Ok(Vec::new(alloc));
    }
    Ok(hex::decode(alloc, text)?)
}

/// Numbers of 16 bits with commas between them.
pub fn numbers_of(alloc: Global, text: &str) -> Result<Vec<u16>, Untried> {
    let mut numbers = Vec::new(alloc);
    if text == "-" {
        return Ok(numbers);
    }
    for number in text.split(',') {
        numbers.push(number.parse()?)?;
    }
    Ok(numbers)
}

/// Numbers of 32 bits with commas between them.
fn sources_of(alloc: Global, text: &str) -> Result<Vec<u32>, Untried> {
    let mut sources = Vec::new(alloc);
    if text == "-" {
        return Ok(sources);
    }
    for source in text.split(',') {
        sources.push(source.parse()?)?;
    }
    Ok(sources)
}

/// The two words of a text.
pub fn pair_of(text: &str) -> Result<(&str, &str), Untried> {
    match text.split_once(' ') {
        Some(pair) => Ok(pair),
        None => Err(Untried::Malformed),
    }
}

/// The value of the next word, which is NAME=VALUE, and the words behind it.
fn field<'a>(text: &'a str, name: &str) -> Result<(&'a str, &'a str), Untried> {
    let (word, behind) = text.split_once(' ').unwrap_or((text, ""));
    match word.split_once('=') {
        Some((given, value)) if given == name => Ok((value, behind)),
        _ => Err(Untried::Malformed),
    }
}

/// What is to be written, and the octets that it is written behind.
#[derive(Drop)]
pub struct ToWrite {
    /// The octets that stand before the packet.
    pub before: Vec<u8>,
    /// The packet's header.
    pub header: Header,
    /// Its contributing sources, 0 to 15.
    pub csrcs: Vec<u32>,
    /// The octets of its payload.
    pub payload: Vec<u8>,
}

/// What is to be written, by name.
pub fn to_write(alloc: Global, text: &str) -> Result<ToWrite, Untried> {
    let (before, text) = field(text, "before")?;
    let (marker, text) = field(text, "marker")?;
    let (pt, text) = field(text, "pt")?;
    let (seq, text) = field(text, "seq")?;
    let (ts, text) = field(text, "ts")?;
    let (ssrc, text) = field(text, "ssrc")?;
    let (csrcs, text) = field(text, "csrcs")?;
    let (payload, _) = field(text, "payload")?;
    let header = Header {
        marker: marker == "1",
        pt: pt.parse()?,
        seq: seq.parse()?,
        ts: ts.parse()?,
        ssrc: ssrc.parse()?,
    };
    Ok(ToWrite {
        before: octets_of(alloc, before)?,
        header,
        csrcs: sources_of(alloc, csrcs)?,
        payload: octets_of(alloc, payload)?,
    })
}
