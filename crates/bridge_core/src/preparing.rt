//! Frames that are made ready for their receivers, and sent.

ghost use Rattle.std.specs.Prelude.{◌≡◌, ℕ, ◌+◌, ◌≤◌, ◌<◌, ◌++◌, None, map, IfOk, OnOk, vec_len};
ghost use Rattle.indexmap.specs.IndexMap.{spare};
ghost use Rattle.topology.specs.Receivers.{AreDistinct};
ghost use Rattle.bridge_core.specs.Sent.{sent_of};
ghost use Rattle.bridge_core.specs.Lanes.{goes};
ghost use Rattle.bridge_core.specs.LaneState.{stream_at};
ghost use Rattle.bridge_core.specs.inner.Readies.{Fits, AllFit, IsNext};
ghost use Rattle.bridge_core.specs.inner.Readies.{AreNext, receivers_of as ready_receivers, kept_after};
ghost use Rattle.bridge_core.specs.inner.Readies.{kept_after_one, sent_for, ssrc_of};

use crate::egress::Egress;
use forward_rewrite::{PreparedFrame, Stream};
use indexmap::IndexMap;
use media_items::{MediaFrame, Stamp};
use retransmit::{Entry, Owner};
use std::alloc::{AllocError, Allocator, Global};
use std::hash::{BuildHasherDefault, FoldHasher};
use std::marker::Model;
use topology::Receiver;

/// The streams by SSRC.
// It grows before anything changes, and a new stream moves no other. A stream never ends, so a slot that an undo brings
// back finds its stream as it was. The hash has no secret key: operators choose the SSRCs, and not the network.
pub type StreamTable<A> = IndexMap<u32, Stream<A>, BuildHasherDefault<FoldHasher>, A>;

/// A frame that is ready for a receiver, with its stream if that is new.
#[derive(Drop)]
pub struct ReadyFrame<A: Allocator + Copy = Global> {
    receiver: Receiver,
    begun: Option<Stream<A>>,
    prepared: PreparedFrame<A>,
}

impl<A: Allocator + Copy> Model for ReadyFrame<A> {
    ghost use Rattle.bridge_core.specs.inner.Readies.{ReadyOf};

    ghost Value = { ReadyOf };

    ghost view = { λ r. record { receiver = r.receiver; begun = r.begun; prepared = r.prepared } };
}

fn prepare_one<A: Allocator + Copy>(
    alloc: A,
    table: &StreamTable<A>,
    receiver: &Receiver,
    frame: &MediaFrame<A>,
    stamp: Stamp,
) -> Result<ReadyFrame<A>, AllocError>
    ensures receiver { IfOk result (λ r. r.receiver ≡ receiver.now) }
    ensures fits { IfOk result (λ r. Fits (stream_at (ssrc_of r) table.now.entries) r) }
    ensures next { IfOk result (λ r. IsNext table.now.entries stamp frame.now r) }
{
    let slot = receiver.slot;
    let owner = Owner {
        member: slot.member,
        address: receiver.address,
    };
    match table.get(&slot.out_ssrc) {
        Some(stream) => {
            let prepared = stream.prepare(alloc, frame, stamp, owner)?;
            Ok(ReadyFrame {
                receiver: *receiver,
                begun: None,
                prepared,
            })
        }
        None => {
            let begun = Stream::new(alloc, slot.out_ssrc, slot.first_seq, slot.first_ts)?;
            let prepared = begun.prepare(alloc, frame, stamp, owner)?;
            Ok(ReadyFrame {
                receiver: *receiver,
                begun: Some(begun),
                prepared,
            })
        }
    }
}

/// A packet as it goes to its receiver for the first time. It shares its octets with the packet.
fn first<A: Allocator + Copy>(ssrc: u32, entry: &Entry<A>) -> Result<Egress<A>, AllocError>
    ensures { IfOk result (λ sent. sent_of sent ≡ goes ssrc None entry.now) }
{
    Ok(Egress::Media {
        version: entry.version,
        item: entry.item,
        to: entry.owner.address,
        ssrc,
        number: entry.number,
        bytes: entry.bytes.try_clone()?,
        resent_by: None,
    })
}

/// Appends packets as they go to their receiver for the first time.
fn append_first<A: Allocator + Copy>(
    ssrc: u32,
    entries: &[Entry<A>],
    out: &mut Vec<Egress<A>, A>,
) -> Result<(), AllocError>
    ensures { OnOk result
        (map sent_of out.new.items ≡ map sent_of out.old.items ++ map (goes ssrc None) entries.now) }
{
    for entry in entries {
        let one = first(ssrc, entry)?;
        out.push(one)?;
    }
    Ok(())
}

/// Prepares a frame for several receivers, and appends to `out` what goes to them. `out` takes memory only where it
/// lacks the capacity.
pub fn prepare_all<A: Allocator + Copy>(
    alloc: A,
    table: &StreamTable<A>,
    receivers: &[Receiver],
    frame: &MediaFrame<A>,
    stamp: Stamp,
    out: &mut Vec<Egress<A>, A>,
) -> Result<Vec<ReadyFrame<A>, A>, AllocError>
    ensures receivers { IfOk result (λ rs. ready_receivers rs.items ≡ receivers.now) }
    ensures fit { IfOk result (λ rs. AllFit table.now.entries rs.items) }
    ensures next { IfOk result (λ rs. AreNext table.now.entries stamp frame.now rs.items) }
    ensures out { IfOk result
        (λ rs. map sent_of out.new.items ≡ map sent_of out.old.items ++ sent_for rs.items) }
{
    let mut ready = Vec::with_capacity(alloc, receivers.len())?;
    for receiver in receivers {
        let one = prepare_one(alloc, table, receiver, frame, stamp)?;
        append_first(receiver.slot.out_ssrc, one.prepared.packets(), out)?;
        ready.push(one)?;
    }
    Ok(ready)
}

/// Commits what is ready for a receiver to its stream. The table has the capacity.
fn commit_one<A: Allocator + Copy>(table: &mut StreamTable<A>, ready: ReadyFrame<A>)
    requires fits { Fits (stream_at (ssrc_of ready) table.old.entries) ready }
    requires capacity { 0 < spare table.old }
    ensures streams { (ssrc : ℕ)
        → stream_at ssrc table.new.entries ≡ kept_after_one ssrc ready (stream_at ssrc table.old.entries) }
    ensures spare { spare table.old ≤ spare table.new + 1 }
{
    let ReadyFrame {
        receiver,
        begun,
        prepared,
    } = ready;
    let ssrc = receiver.slot.out_ssrc;
    match begun {
        Some(mut stream) => {
            stream.commit(prepared);
            if table.insert(ssrc, stream).is_err() {
                unreachable!();
            }
        }
        None => match table.get_mut(&ssrc) {
            Some(stream) => stream.commit(prepared),
            None => unreachable!(),
        },
    }
}

/// Commits what is ready for several receivers to their streams. The table has the capacity.
pub fn commit_all<A: Allocator + Copy>(table: &mut StreamTable<A>, ready: Vec<ReadyFrame<A>, A>)
    requires apart { AreDistinct (ready_receivers ready.items) }
    requires fit { AllFit table.old.entries ready.items }
    requires capacity { vec_len ready ≤ spare table.old }
    ensures { (ssrc : ℕ)
        → stream_at ssrc table.new.entries ≡ kept_after ssrc ready.items (stream_at ssrc table.old.entries) }
{
    for one in ready {
        commit_one(table, one);
    }
}
