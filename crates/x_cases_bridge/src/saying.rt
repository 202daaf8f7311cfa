//! What is written for answers.

use crate::lines::MOST;
use bridge_core::{Egress, Outcome};
use desk_calls::Reply;
use desk_text::print_reply;
use rtp_codec::Address;
use script_text::print_egress;
use std::alloc::{AllocError, Global};
use x_refusing::Refusing;

/// Appends a text of octets.
pub fn say(octets: &[u8], out: &mut String) -> Result<(), AllocError> {
    out.push_str(std::str::from_utf8(octets).unwrap_or("no text\n"))
}

/// Appends the line of a reply.
pub fn say_reply<'a>(
    heap: &'a Refusing,
    reply: &Reply,
    out: &mut String,
) -> Result<(), AllocError> {
    let mut text = Vec::new(heap);
    print_reply(reply, &mut text)?;
    say(&text, out)
}

/// Appends the line of what goes out. Each request for memory of its printing is refused once, and may change nothing.
pub fn say_egress<'a>(
    heap: &'a Refusing,
    egress: &Egress<&'a Refusing>,
    out: &mut String,
) -> Result<(), AllocError> {
    for nth in 1..MOST {
        let mut text = Vec::new(heap);
        text.push(b'|')?;
        heap.refuse(nth);
        let is_printed = print_egress(egress, &mut text).is_ok();
        heap.end(nth);
        if is_printed {
            return say(text.get(1..).unwrap_or(b""), out);
        }
        if text.as_slice() != b"|".as_slice() {
            out.push_str("a part of ")?;
        }
    }
    out.push_str("nothing is printed\n")
}

/// Appends the line of an outcome.
pub fn say_outcome(outcome: Outcome, out: &mut String) -> Result<(), AllocError> {
    match outcome {
        Outcome::Probation => out.push_str("rx probation\n"),
        Outcome::Accepted { ext } => write!(out, "rx accepted {ext}\n"),
        Outcome::Late { ext } => write!(out, "rx late {ext}\n"),
        Outcome::Duplicate { ext } => write!(out, "rx duplicate {ext}\n"),
        Outcome::Jump => out.push_str("rx jump\n"),
        Outcome::Restarted { ext } => write!(out, "rx restarted {ext}\n"),
        Outcome::Rtcp { packets } => write!(out, "rx rtcp {packets}\n"),
        _ => out.push_str("rx dropped\n"),
    }
}

/// Appends the line of a datagram that goes up.
pub fn say_up(
    alloc: Global,
    to: &Address,
    octets: &[u8],
    out: &mut String,
) -> Result<(), AllocError> {
    let digits = hex::encode(alloc, octets)?;
    write!(out, "up {to} {digits}\n")
}
