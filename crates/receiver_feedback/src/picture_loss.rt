//! Passes a receiver's picture loss on to the source.

ghost use Rattle.std.specs.Prelude.{◌≡◌};
ghost use Rattle.topology.specs.Looking.{slot_at};
ghost use Rattle.receiver_feedback.specs.PassedUp.{is_of_member_at, with_address, pli_up};

use desk_rows::Rows;
use rtp_codec::Address;
use std::alloc::Allocator;
use topology::{choice, member_at, member_from, sender_of, slot_at};

/// Whether the slot of this SSRC exists, and belongs to the member at this address.
fn is_of_member_at<A: Allocator + Copy>(rows: &Rows<A>, from: &Address, out_ssrc: u32) -> bool
    ensures { result ≡ is_of_member_at rows.now from.now (slot_at rows.now out_ssrc) }
{
    let Some(slot) = slot_at(rows, out_ssrc) else {
        return false;
    };
    match member_from(rows, from) {
        None => false,
        Some(member) => member == slot.member,
    }
}

/// A source with the address of its member.
fn with_address<A: Allocator + Copy>(rows: &Rows<A>, source: u32) -> Option<(Address, u32)>
    ensures { result ≡ with_address rows.now source }
{
    let sender = sender_of(rows, source)?;
    let member = member_at(rows, sender)?;
    Some((member.address, source))
}

/// Where a receiver's PLI about an outgoing stream goes (RFC 4585 section 6.3.1): the address of the source's member,
/// and the source that the stream's slot chose.
///
/// `from` must be the present address of the slot's member; else the PLI goes nowhere. The stream need not have begun.
pub fn pli_up<A: Allocator + Copy>(
    rows: &Rows<A>,
    from: &Address,
    out_ssrc: u32,
) -> Option<(Address, u32)>
    ensures { result ≡ pli_up rows.now from.now out_ssrc }
{
    if is_of_member_at(rows, from, out_ssrc) {
        with_address(rows, choice(rows, out_ssrc)?)
    } else {
        None
    }
}
