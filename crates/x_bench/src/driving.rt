//! The cases.

ghost use Rattle.std.specs.Prelude.{◌≡◌, true};
ghost use Rattle.media_items.specs.Inputs.{input_of, is_sized};

use crate::asking::{Case, Order};
use crate::coding::{decoded, encoded};
use crate::copying::{awaited, copied, kept};
use crate::datagrams::taken;
use crate::entering::entered;
use crate::items::{SEEN, UNSEEN, address_of, frame_of, nack_of};
use crate::room::{RECEIVERS, Sort, core_of_slots, last_owner};
use crate::talking::{heard, silent, unheard};
use crate::tally::Tally;
use bridge_core::{Core, Egress, Item, PacketBytes};
use forward_rewrite::{Owner, Stream};
use media_items::Stamp;
use std::alloc::{AllocError, Global};
use std::io;
use std::sync::Wait;
use std::time::{Clock, CpuClock};

/// The packets that a full window has.
const WINDOW: u16 = 512;

/// A number whose address no member has.
const NOWHERE: u16 = 60_000;

/// Does what is ordered.
pub fn driven<R: Wait + Clock + CpuClock>(
    rt: &R,
    alloc: Global,
    order: &Order,
) -> io::Result<Tally> {
    let copies = usize::from(RECEIVERS) * usize::from(order.packets);
    match order.case {
        Case::Frame => frames(alloc, order, SEEN),
        Case::Nobody => frames(alloc, order, UNSEEN),
        Case::Nack => nacks(alloc, order),
        Case::Find => Ok(finds(alloc, order)?),
        Case::Datagram => taken(alloc, order, 0),
        Case::Elsewhere => taken(alloc, order, NOWHERE),
        Case::Tick => heard(alloc, Sort::Speech, order),
        Case::Music => heard(alloc, Sort::Music, order),
        Case::Sound => unheard(alloc, Sort::Speech, order),
        Case::Played => unheard(alloc, Sort::Music, order),
        Case::Silence => silent(alloc, Sort::Speech, order),
        Case::Paused => silent(alloc, Sort::Music, order),
        Case::Encode => Ok(encoded(order.times)),
        Case::Decode => Ok(decoded(order.times)),
        Case::Copy => Ok(copied(alloc, order.times, copies)?),
        Case::Keep => Ok(kept(alloc, order.times, copies)?),
        Case::Await => Ok(awaited(alloc, order.times, order.slots, order.packets)?),
        Case::Enter => entered(rt, alloc, order),
    }
}

/// Gives an item to the lane so often, and counts what goes out.
fn drive(alloc: Global, core: &mut Core, item: &Item, times: u64) -> io::Result<Tally>
    requires { is_sized (input_of item.now) ≡ true }
{
    let mut tally = Tally::new();
    for _time in 0..times {
        give(alloc, core, item, &mut tally)?;
    }
    Ok(tally)
}

/// How many octets a packet has.
fn size(packet: &PacketBytes) -> usize {
    let (header, payload) = packet.parts();
    header.len().saturating_add(payload.len())
}

/// Gives an item to the lane, and counts what goes out.
pub fn give(alloc: Global, core: &mut Core, item: &Item, tally: &mut Tally) -> io::Result<()>
    requires { is_sized (input_of item.now) ≡ true }
{
    if core.lanes() == 0 {
        return Err(io::Error::other("there is no lane"));
    }
    let Ok(sent) = core.item(alloc, 0, item) else {
        return Err(io::Error::other("an item is refused"));
    };
    for egress in &sent {
        match egress {
            Egress::Media { bytes, .. } => tally.count(size(bytes)),
            Egress::Control { bytes, .. } => tally.count(bytes.len()),
            Egress::Note { .. } => {}
        }
    }
    Ok(())
}

/// Frames of a source.
fn frames(alloc: Global, order: &Order, source: u32) -> io::Result<Tally> {
    let mut core = core_of_slots(alloc, order.slots)?;
    let frame = Item::Frame(frame_of(alloc, source, order.packets)?);
    drive(alloc, &mut core, &frame, order.times)
}

/// NACKs of the last receiver for all that its stream's full window has.
fn nacks(alloc: Global, order: &Order) -> io::Result<Tally> {
    let mut core = core_of_slots(alloc, order.slots)?;
    let frame = Item::Frame(frame_of(alloc, SEEN, 1)?);
    let _filled = drive(alloc, &mut core, &frame, u64::from(WINDOW))?;
    let (member, stream) = last_owner(order.slots);
    let nack = nack_of(member, stream, numbers(alloc)?);
    drive(alloc, &mut core, &nack, order.times)
}

/// The numbers of a full window whose first one is 0.
fn numbers(alloc: Global) -> Result<Vec<u16>, AllocError> {
    (0..WINDOW).collect(alloc)
}

/// A stream whose window is full, and to whom all of it went.
fn full_stream(alloc: Global) -> io::Result<(Stream, Owner)> {
    let owner = Owner {
        member: 1,
        address: address_of(1),
    };
    let stamp = Stamp {
        version: 1,
        item: 1,
    };
    let frame = frame_of(alloc, SEEN, 1)?;
    let mut stream = Stream::new(alloc, 1, 0, 0)?;
    for _packet in 0..WINDOW {
        let _sent = stream.send(alloc, &frame, stamp, owner)?;
    }
    Ok((stream, owner))
}

/// Looks each number up in the stream.
fn find_all(stream: &Stream, owner: &Owner, numbers: &[u16], tally: &mut Tally) {
    for number in numbers {
        if let Some(entry) = stream.find(*number, owner) {
            tally.count(size(&entry.bytes));
        }
    }
}

/// Looks up all that a full window has, so often.
fn finds(alloc: Global, order: &Order) -> io::Result<Tally> {
    let (stream, owner) = full_stream(alloc)?;
    let numbers = numbers(alloc)?;
    let mut tally = Tally::new();
    for _time in 0..order.times {
        find_all(&stream, &owner, &numbers, &mut tally);
    }
    Ok(tally)
}
