//! The receivers of a source.

ghost use Rattle.std.specs.Prelude.{◌≡◌, ◌<◌, true, nat_eq, List, IfOk, OnOk, Some};
ghost use Rattle.std.specs.List.{All, find, filter_map};
ghost use Rattle.std.specs.Option.{option_copied};
ghost use Rattle.topology.specs.Looking.{is_this, sender_of};
ghost use Rattle.topology.specs.Choice.{shown};
ghost use Rattle.topology.specs.Receivers.{by_index, receiver, receivers};
ghost use Rattle.desk_rows.specs.declared.row.Member.{Member as MemberRow};
ghost use Rattle.desk_rows.specs.Desk.{good};
ghost use Rattle.topology.specs.inner.Takers.{sender_from, subscriber, first_slot, viewer, AreShown, takers};
ghost use Rattle.topology.specs.inner.Seating.{seat};

use crate::choosing::first_video;
use crate::looking::{
    holder, is_muted, is_this, member_at, pinned, sender_of, slot_at, subscribed,
};
use crate::seating::{Seated, by_places, seat_of};
use desk_rows::{Member, Rows, Slot, Sub};
use rtp_codec::Address;
use std::alloc::{AllocError, Allocator};

/// A receiver of a source's frames.
// A stream that begins needs the slot's first number and timestamp, and each packet needs the address.
#[derive(Clone, Copy)]
pub struct Receiver {
    /// The slot whose stream sends them.
    pub slot: Slot,
    /// The address of the slot's member.
    pub address: Address,
}

/// The receivers of what a source sends from an address: the slots that chose it, by place of the member and then by
/// index.
///
/// There are none if the source's member has another address. The only error is out of memory.
// It begins at the subscriptions that name the source, and at the first slots of the room's members where the room
// shows it: few of thousands of slots receive one source. The contract asks all slots.
pub fn receivers_of<A: Allocator + Copy>(
    alloc: A,
    rows: &Rows<A>,
    source: u32,
    address: &Address,
) -> Result<Vec<Receiver, A>, AllocError>
    ensures receivers { IfOk result (λ v. v.items ≡ receivers rows.now source address.now) }
    ensures good { good rows.now ≡ true }
{
    match sender_from(rows, source, address) {
        None => Ok(Vec::new(alloc)),
        Some(sender) => {
            let mut slots = takers(alloc, rows, source, &sender)?;
            by_index(&mut slots)?;
            let mut seats = seats(alloc, rows, &slots)?;
            by_places(alloc, &mut seats)
        }
    }
}

/// The member that sends the source from this address, unless the source is muted.
fn sender_from<A: Allocator + Copy>(
    rows: &Rows<A>,
    source: u32,
    address: &Address,
) -> Option<Member>
    ensures sender { result ≡ sender_from rows.now source address.now }
    ensures good { good rows.now ≡ true }
{
    if is_muted(rows, source) {
        return None;
    }
    let sender = member_at(rows, sender_of(rows, source)?)?;
    if sender.address == *address {
        Some(sender)
    } else {
        None
    }
}

/// The slots that get the source: by their subscription, or because their room shows it.
fn takers<A: Allocator + Copy>(
    alloc: A,
    rows: &Rows<A>,
    source: u32,
    sender: &Member,
) -> Result<Vec<Slot, A>, AllocError>
    requires { sender_of rows.now source ≡ Some sender.now.member }
    ensures { IfOk result
        (λ v. (shown : List MemberRow) × AreShown rows.now source sender.now.room shown
        × (v.items ≡ takers rows.now source sender.now shown)) }
{
    rows.subs_of(source)
        .iter()
        .filter_map(|sub| subscriber(rows, sender, sub))
        .chain(
            members_if_shown(rows, source, sender)
                .iter()
                .filter_map(|member| viewer(rows, sender, member)),
        )
        .collect(alloc)
}

/// Whether the sender's room shows the source: by its pin, or without one because the sender has the floor.
fn is_shown<A: Allocator + Copy>(rows: &Rows<A>, source: u32, sender: &Member) -> bool
    requires { sender_of rows.now source ≡ Some sender.now.member }
    ensures { result ≡ is_this source (shown rows.now sender.now.room) }
{
    match pinned(rows, sender.room) {
        Some(pin) => pin == source,
        None => {
            is_this(sender.member, holder(rows, sender.room))
                && is_this(source, first_video(rows, sender.member))
        }
    }
}

/// The members of the sender's room if it shows the source, else none.
fn members_if_shown<'a, A: Allocator + Copy>(
    rows: &'a Rows<A>,
    source: u32,
    sender: &Member,
) -> &'a [Member]
    requires { sender_of rows.now source ≡ Some sender.now.member }
    ensures { AreShown rows.now source sender.now.room result.now }
{
    if is_shown(rows, source, sender) {
        rows.members_of(sender.room)
    } else {
        &[]
    }
}

/// The slot of a subscription, unless it is the sender's.
fn subscriber<A: Allocator + Copy>(rows: &Rows<A>, sender: &Member, sub: &Sub) -> Option<Slot>
    ensures { result ≡ subscriber rows.now sender.now sub.now }
{
    let slot = slot_at(rows, sub.out_ssrc)?;
    if slot.member == sender.member {
        None
    } else {
        Some(slot)
    }
}

/// The slot of index 0 among these.
fn first_of(slots: &[Slot]) -> Option<&Slot>
    ensures { option_copied result ≡ find (λ s. nat_eq s.index 0) slots.now }
{
    slots.iter().find(|slot| slot.index == 0)
}

/// The slot of index 0 of a member.
fn first_slot<A: Allocator + Copy>(rows: &Rows<A>, member: u32) -> Option<Slot>
    ensures { result ≡ first_slot rows.now member }
{
    first_of(rows.slots_of(member)).copied()
}

/// The slot of index 0 of a member that sees what its room shows: in the sender's room, not the sender, and without a
/// subscription.
fn viewer<A: Allocator + Copy>(rows: &Rows<A>, sender: &Member, member: &Member) -> Option<Slot>
    ensures { result ≡ viewer rows.now sender.now member.now }
{
    if member.room != sender.room || member.member == sender.member {
        return None;
    }
    let slot = first_slot(rows, member.member)?;
    match subscribed(rows, slot.out_ssrc) {
        Some(_) => None,
        None => Some(slot),
    }
}

/// Sorts slots by index.
fn by_index<A: Allocator>(slots: &mut Vec<Slot, A>) -> Result<(), AllocError>
    requires { All (λ s. s.index < 16) slots.old.items }
    ensures { OnOk result (slots.new.items ≡ by_index slots.old.items) }
{
    slots.sort_by_key(|slot| slot.index)?;
    Ok(())
}

/// The slot as a receiver, at its member's place.
fn seat<A: Allocator + Copy>(rows: &Rows<A>, slot: &Slot) -> Option<Seated<Receiver>>
    ensures { result ≡ seat (λ s. s.member) receiver rows.now slot.now }
{
    let member = seat_of(rows, slot.member)?;
    Some(Seated {
        place: member.place,
        thing: Receiver {
            slot: *slot,
            address: member.thing.address,
        },
    })
}

/// The slots as receivers, at their members' places.
fn seats<A: Allocator + Copy>(
    alloc: A,
    rows: &Rows<A>,
    slots: &[Slot],
) -> Result<Vec<Seated<Receiver>, A>, AllocError>
    ensures { IfOk result (λ v. v.items ≡ filter_map (seat (λ s. s.member) receiver rows.now) slots.now) }
{
    slots
        .iter()
        .filter_map(|slot| seat(rows, slot))
        .collect(alloc)
}
