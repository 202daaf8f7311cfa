//! The sequence numbers that a receiver asks for.

ghost use Rattle.std.specs.Prelude.{◌≡◌, IfOk};
ghost use Rattle.rtcp_codec.specs.Nack.{numbers_named};
ghost use Rattle.rtcp_codec.specs.View.{packet_of};
ghost use Rattle.sender_feedback.specs.Asked.{asked_in};

use rtcp_codec::{NackWord, Rtcp, nack_numbers};
use std::alloc::{AllocError, Allocator};

/// The numbers that words name, in order.
fn numbers_in<A: Allocator + Copy>(alloc: A, words: &[NackWord]) -> Result<Vec<u16, A>, AllocError>
    ensures { IfOk result (λ numbers. numbers.items ≡ numbers_named words.now) }
{
    let mut numbers = Vec::new(alloc);
    for word in words {
        numbers.extend_from_slice(&nack_numbers(alloc, word.pid, word.blp)?)?;
    }
    Ok(numbers)
}

/// The sequence numbers that a packet asks for (RFC 4585 section 6.2.1).
///
/// A generic NACK asks for those of its words, in their order, with repeats. No other packet asks for any. `resend` of
/// feedback answers each number once. The only error is out of memory.
pub fn numbers_of<A: Allocator + Copy, B: Allocator>(
    alloc: A,
    packet: &Rtcp<B>,
) -> Result<Vec<u16, A>, AllocError>
    ensures { IfOk result (λ numbers. numbers.items ≡ asked_in (packet_of packet.now)) }
{
    match packet {
        Rtcp::Nack(nack) => numbers_in(alloc, &nack.words),
        Rtcp::Sender(_)
        | Rtcp::Receiver(_)
        | Rtcp::Sdes(_)
        | Rtcp::Bye(_)
        | Rtcp::App(_)
        | Rtcp::Pli(_)
        | Rtcp::Other(_) => Ok(Vec::new(alloc)),
    }
}
