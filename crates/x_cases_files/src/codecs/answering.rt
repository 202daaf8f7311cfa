//! The kinds of cases, and what the codecs answer to each.

use crate::codecs::parsing::{numbers_of, octets_of, pair_of, to_write};
use crate::codecs::prefixes::{Codec, outcomes};
use crate::codecs::telling::{classify_text, numbers_text, octets_text, read_text};
use crate::codecs::telling_compounds::{read_compound_text, words_text};
use crate::codecs::untried::Untried;
use rtcp_codec::{nack_numbers, nack_words};
use rtp_codec::{Class, classify, seq_distance, seq_next, write};
use sample_codecs::{decode_sample, encode_again, encode_sample};
use std::alloc::Global;

/// Reads a datagram with the codec that its class names.
fn datagram(alloc: Global, octets: &[u8]) -> Result<String, Untried> {
    Ok(match classify(octets) {
        Class::Neither => String::from_str(alloc, "Neither")?,
        Class::Rtp => {
            let text = read_text(alloc, octets)?;
            format!(in alloc; "Rtp {text}")?
        }
        Class::Rtcp => {
            let text = read_compound_text(alloc, octets)?;
            format!(in alloc; "Rtcp {text}")?
        }
    })
}

/// The numbers that `PID BLP` names, BLP in hexadecimal.
fn numbers_named(alloc: Global, input: &str) -> Result<String, Untried> {
    let (pid, blp) = pair_of(input)?;
    let mut numbers = Vec::new(alloc);
    for number in &nack_numbers(alloc, pid.parse()?, u16::from_str_radix(blp, 16)?)? {
        numbers.push(u32::from(*number))?;
    }
    Ok(numbers_text(alloc, &numbers)?)
}

/// The words that name these numbers.
fn words_of(alloc: Global, input: &str) -> Result<String, Untried> {
    let words = nack_words(alloc, &numbers_of(alloc, input)?)?;
    Ok(words_text(alloc, &words)?)
}

/// The steps between `FROM TO`.
fn distance(alloc: Global, input: &str) -> Result<String, Untried> {
    let (from, to) = pair_of(input)?;
    let steps = seq_distance(from.parse()?, to.parse()?);
    Ok(format!(in alloc; "{steps}")?)
}

/// The number behind this one.
fn next(alloc: Global, input: &str) -> Result<String, Untried> {
    let number = seq_next(input.parse()?);
    Ok(format!(in alloc; "{number}")?)
}

/// The octets that stand there behind a write, those from before included.
fn written(alloc: Global, input: &str) -> Result<String, Untried> {
    let packet = to_write(alloc, input)?;
    if packet.header.pt > 127 || packet.csrcs.len() > 15 {
        return Err(Untried::Malformed);
    }
    let mut out = packet.before;
    write(&packet.header, &packet.csrcs, &packet.payload, &mut out)?;
    Ok(octets_text(alloc, &out)?)
}

/// The code of a sample.
fn encoded(alloc: Global, input: &str) -> Result<String, Untried> {
    let code = encode_sample(input.parse()?);
    Ok(format!(in alloc; "{code:02x}")?)
}

/// The sample of a code.
fn decoded(alloc: Global, input: &str) -> Result<String, Untried> {
    let sample = decode_sample(u8::from_str_radix(input, 16)?);
    Ok(format!(in alloc; "{sample}")?)
}

/// The code that a code becomes, decoded and encoded again.
fn encoded_again(alloc: Global, input: &str) -> Result<String, Untried> {
    let code = encode_again(u8::from_str_radix(input, 16)?);
    Ok(format!(in alloc; "{code:02x}")?)
}

/// What is answered to the input of a case of this kind.
pub fn answer(alloc: Global, kind: &str, input: &str) -> Result<String, Untried> {
    match kind {
        "datagram" => datagram(alloc, &octets_of(alloc, input)?),
        "rtp" => Ok(read_text(alloc, &octets_of(alloc, input)?)?),
        "rtcp" => Ok(read_compound_text(alloc, &octets_of(alloc, input)?)?),
        "rtp-prefixes" => Ok(outcomes(alloc, Codec::Rtp, &octets_of(alloc, input)?)?),
        "rtcp-prefixes" => Ok(outcomes(alloc, Codec::Rtcp, &octets_of(alloc, input)?)?),
        "classify" => Ok(classify_text(alloc, &octets_of(alloc, input)?)?),
        "nack-numbers" => numbers_named(alloc, input),
        "nack-words" => words_of(alloc, input),
        "distance" => distance(alloc, input),
        "next" => next(alloc, input),
        "write" => written(alloc, input),
        "encode" => encoded(alloc, input),
        "decode" => decoded(alloc, input),
        "encode-again" => encoded_again(alloc, input),
        _ => Err(Untried::Malformed),
    }
}
