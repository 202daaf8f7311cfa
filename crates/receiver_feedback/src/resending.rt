//! Finds the packets to send again.

ghost use Rattle.std.specs.Prelude.{◌≡◌, ◌++◌, [], IfOk, OnOk, option_copied};
ghost use Rattle.std.specs.List.{filter_map, cons_option};
ghost use Rattle.retransmit.specs.Window.{resend_of};
ghost use Rattle.receiver_feedback.specs.Resends.{resends};

use crate::numbers::each_once;
use desk_rows::Rows;
use forward_rewrite::Stream;
use retransmit::{Entry, Owner};
use rtp_codec::Address;
use std::alloc::{AllocError, Allocator};
use topology::member_from;

/// Appends a copy of the packet that was found, which shares its octets.
fn append<A: Allocator + Copy>(
    entries: &mut Vec<Entry<A>, A>,
    found: Option<&Entry<A>>,
) -> Result<(), AllocError>
    ensures { OnOk result (entries.new.items ≡ entries.old.items ++ cons_option (option_copied found.entry) []) }
{
    if let Some(entry) = found {
        entries.push(entry.try_clone()?)?;
    }
    Ok(())
}

/// The owner's packets of these numbers that the stream still has, in their order.
fn copies<A: Allocator + Copy>(
    alloc: A,
    stream: &Stream<A>,
    owner: &Owner,
    numbers: &[u16],
) -> Result<Vec<Entry<A>, A>, AllocError>
    ensures { IfOk result
        (λ entries. entries.items ≡ filter_map (λ n. resend_of n owner.now stream.now.window) numbers.now) }
{
    let mut entries = Vec::new(alloc);
    for number in numbers {
        append(&mut entries, stream.find(*number, owner))?;
    }
    Ok(entries)
}

/// The packets of a stream to send again, for these sequence numbers and the address that asks.
///
/// Only the member at this address now gets any: those of the last 512 packets that went to it at this address. They
/// stand in the order of the numbers, and a repeated number counts once. The only error is out of memory.
pub fn resend<A: Allocator + Copy>(
    alloc: A,
    rows: &Rows<A>,
    stream: &Stream<A>,
    from: &Address,
    numbers: &[u16],
) -> Result<Vec<Entry<A>, A>, AllocError>
    ensures { IfOk result (λ entries. entries.items ≡ resends rows.now from.now numbers.now stream.now.window) }
{
    match member_from(rows, from) {
        None => Ok(Vec::new(alloc)),
        Some(member) => {
            let owner = Owner {
                member,
                address: *from,
            };
            let once = each_once(alloc, numbers)?;
            copies(alloc, stream, &owner, &once)
        }
    }
}
