//! What comes to a source's gate: packets and waits.

ghost use Rattle.std.specs.Prelude.{◌≡◌, ◌≤◌, IfOk, IfSome, Some, None, true, is_some, option_copied, length};
ghost use Rattle.frame_gate.specs.Epochs.{most_missing};
ghost use Rattle.frame_gate.specs.Frame.{highest_pt};
ghost use Rattle.frame_gate.specs.Packets.{IsExt, numbered};
ghost use Rattle.ingress.specs.inner.SourceEntries.{Admits, CommitsAll, base_of};
ghost use Rattle.ingress.specs.inner.Freed.{freed_by};

use frame_gate::{Admitted, Frame, Packet, PreparedPacket, WatchedGate};
use std::alloc::{AllocError, Allocator, Global};
use std::marker::Model;

/// A packet that is ready for a gate.
#[derive(Drop)]
pub(crate) struct Admission<A: Allocator + Copy = Global> {
    /// A new gate, if there was none.
    fresh: Option<WatchedGate<A>>,
    prepared: PreparedPacket<A>,
}

impl<A: Allocator + Copy> Model for Admission<A> {
    ghost use Rattle.ingress.specs.inner.SourceEntries.{AdmissionOf};

    ghost Value = { AdmissionOf };

    ghost view = { λ a. record { fresh = a.fresh; prepared = a.prepared } };
}

impl<A: Allocator + Copy> Admission<A> {
    /// The answer that the gate will give.
    pub(crate) fn answer(&self) -> &Admitted<A>
        ensures { result.now ≡ self.now.prepared.prepared.answer }
    {
        self.prepared.answer()
    }
}

/// Prepares a packet for the gate.
pub(crate) fn admit<A: Allocator + Copy>(
    alloc: A,
    gate: Option<&WatchedGate<A>>,
    ext: i64,
    packet: Packet<A>,
) -> Result<Admission<A>, AllocError>
    requires ext { IsExt ext }
    requires pt { packet.pt ≤ highest_pt }
    ensures few { IfOk result (λ a. length a.prepared.prepared.answer.nacks ≤ most_missing) }
    ensures admits { IfOk result (λ a. Admits (option_copied gate.entry) (numbered ext packet) a) }
{
    match gate {
        Some(gate) => {
            let prepared = gate.prepare(alloc, ext, packet)?;
            Ok(Admission {
                fresh: None,
                prepared,
            })
        }
        None => {
            let fresh = WatchedGate::new(alloc)?;
            let prepared = fresh.prepare(alloc, ext, packet)?;
            Ok(Admission {
                fresh: Some(fresh),
                prepared,
            })
        }
    }
}

/// Commits the prepared packet, if there is one, and gives the frames that it frees.
// Each function on a packet's way to its gate is inlined. Otherwise what is prepared, 270 octets, would be moved five
// times.
#[inline(always)]
pub(crate) fn commit_admission<A: Allocator + Copy>(
    alloc: A,
    gate: &mut Option<WatchedGate<A>>,
    admission: Option<Admission<A>>,
) -> Vec<Frame<A>, A>
    requires ready { IfSome admission (λ a. is_some (base_of gate.old a) ≡ true) }
    ensures frames { result.items ≡ freed_by admission }
    ensures commits_all { CommitsAll gate.old admission gate.new }
{
    let Some(admission) = admission else {
        return Vec::new(alloc);
    };
    let Admission { fresh, prepared } = admission;
    if let Some(fresh) = fresh {
        *gate = Some(fresh);
    }
    match gate {
        Some(gate) => {
            let admitted = gate.commit(prepared);
            admitted.frames
        }
        None => unreachable!(),
    }
}
