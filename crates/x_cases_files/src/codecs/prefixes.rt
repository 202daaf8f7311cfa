//! What the codecs say of each prefix of a datagram.

use crate::codecs::telling::fault_name;
use crate::codecs::telling_compounds::compound_fault_name;
use rtcp_codec::{RtcpFault, read_compound};
use rtp_codec::{RtpFault, read};
use std::alloc::{AllocError, Global};

/// Which codec is asked.
#[derive(Clone, Copy)]
pub enum Codec {
    Rtp,
    Rtcp,
}

/// What a codec says of octets.
#[derive(Clone, Copy, PartialEq, Eq)]
enum PrefixOutcome {
    Read,
    Rtp(RtpFault),
    Rtcp(RtcpFault),
}

fn outcome_of(alloc: Global, codec: Codec, octets: &[u8]) -> PrefixOutcome {
    match codec {
        Codec::Rtp => match read(octets) {
            Ok(_) => PrefixOutcome::Read,
            Err(fault) => PrefixOutcome::Rtp(fault),
        },
        Codec::Rtcp => match read_compound(alloc, octets) {
            Ok(_) => PrefixOutcome::Read,
            Err(fault) => PrefixOutcome::Rtcp(fault),
        },
    }
}

fn outcome_name(outcome: PrefixOutcome) -> &'static str {
    match outcome {
        PrefixOutcome::Read => "read",
        PrefixOutcome::Rtp(fault) => fault_name(fault),
        PrefixOutcome::Rtcp(fault) => compound_fault_name(fault),
    }
}

/// The outcomes of all prefixes, from the empty one to the whole: each where it begins.
pub fn outcomes(alloc: Global, codec: Codec, octets: &[u8]) -> Result<String, AllocError> {
    let mut out = String::new(alloc);
    let mut last = None;
    for len in 0..=octets.len() {
        let next = outcome_of(alloc, codec, &octets[..len]);
        if last != Some(next) {
            let comma = if out.is_empty() { "" } else { ", " };
            let name = outcome_name(next);
            out.push_str(format!(in alloc; "{comma}{len}.. {name}")?.as_str())?;
            last = Some(next);
        }
    }
    Ok(out)
}
