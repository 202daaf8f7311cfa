//! Reassembles the frames of one epoch.

ghost use Rattle.std.specs.Prelude.{◌≡◌, ℕ, ◌+◌, ◌-◌, ◌<◌, ◌≤◌, ◌^◌, ◌%◌, length, IfOk, OnErr, List, [], ◌∷◌, ◌++◌};
ghost use Rattle.std.specs.Prelude.{None, Some, slice_set, unwrap_or, nat_le, false, map};
ghost use Rattle.frame_gate.specs.inner.Cells.{held};
ghost use Rattle.frame_gate.specs.Epochs.{Epoch, resynced, taking, top, missing_above, most_missing, opened, frames_of};
ghost use Rattle.frame_gate.specs.inner.Ties.{Tied};
ghost use Rattle.frame_gate.specs.Admits.{Admits, Represents, IsAt, Takes, Commits, Prepares};
ghost use Rattle.frame_gate.specs.Packets.{NumberedPacket, numbered, ext_of, IsExt};
ghost use Rattle.frame_gate.specs.Frame.{WholeFrame, highest_pt};

use crate::cells::{CELLS, empty_cells, find_held, forget_between};
use crate::held::HeldPacket;
use crate::missing::missing;
use crate::packet::{Packet, Place};
use crate::prepared::{Admitted, PreparedAnswer};
use crate::resync::resync;
use crate::walk::{Walk, drain};
use std::alloc::{AllocError, Allocator, Global};
use std::marker::Model;

/// Reassembles the frames of one epoch: the packets of a source since it was initialised.
///
/// Give each packet to [`admit`](Self::admit). A caller that has more to prepare calls [`prepare`](Self::prepare)
/// first, which takes the memory, and [`commit`](Self::commit) last, which can't fail.
#[derive(Drop)]
pub struct Gate<A: Allocator + Copy = Global> {
    pub(crate) cells: Vec<Option<HeldPacket<A>>, A>,
    pub(crate) walk: Walk,
    pub(crate) greatest: Option<u64>,
}

impl<A: Allocator + Copy> Model for Gate<A> {
    ghost use Rattle.std.specs.Prelude.{◌≡◌, ◌<◌, ◌≤◌, ◌^◌, vec_len, unwrap_or};
    ghost use Rattle.frame_gate.specs.inner.Kept.{Kept};

    ghost Value = { Kept };

    ghost view = { λ g. record { cells = g.cells.items; walk = g.walk; greatest = g.greatest } };

    ghost invariant = { λ g. (vec_len g.cells ≡ 256) × (g.walk.next ≤ g.walk.after)
        × (unwrap_or g.greatest 0 < 2 ^ 63) };
}

/// Takes a packet whose number is neither decided nor held.
#[inline(always)]
fn take<A: Allocator + Copy>(
    alloc: A,
    cells: &[Option<HeldPacket<A>>],
    walk: Walk,
    greatest: Option<u64>,
    packet: HeldPacket<A>,
) -> Result<PreparedAnswer<A>, AllocError>
    requires cells { length cells.now ≡ 256 }
    requires ordered { walk.next ≤ walk.after }
    requires number { (walk.next ≤ packet.number) × (packet.number < 2 ^ 63) }
    requires greatest { unwrap_or greatest 0 < 2 ^ 63 }
    requires new { held cells.now None packet.number ≡ None }
    ensures tied { IfOk result (λ r. (given : List WholeFrame) (e : Epoch) → Tied (held cells.now None) given e walk []
        → greatest ≡ top e.taken
        → Tied (held (slice_set cells.now (packet.number % 256) (Some packet)) None) given
        (taking (resynced packet.number e packet.number) packet) r.walk r.answer.frames) }
    ensures nacks { IfOk result (λ r. r.answer.nacks ≡ map ext_of (missing_above greatest r.walk.next packet.number)) }
    ensures pli { IfOk result (λ r. r.answer.pli ≡ nat_le (walk.next + 256) packet.number) }
    ensures place { IfOk result (λ r. r.answer.place ≡ Place.Taken) }
    ensures packet { IfOk result (λ r. r.packet ≡ packet) }
    ensures few { IfOk result (λ r. length r.answer.nacks ≤ most_missing) }
{
    let mut frames = Vec::new(alloc);
    let near = resync(alloc, cells, walk, packet.number, &mut frames)?;
    // No number above the greatest taken one is held, so none is looked for.
    let behind = greatest.unwrap_or(0).max(packet.number) + 1;
    let to = behind.min(near.next + CELLS);
    let far = drain(alloc, cells, Some(&packet), near, to, &mut frames)?;
    let nacks = missing(alloc, greatest, far.next, packet.number)?;
    let pli = packet.number - walk.next >= CELLS;
    Ok(PreparedAnswer {
        packet,
        walk: far,
        answer: Admitted {
            place: Place::Taken,
            frames,
            nacks,
            pli,
        },
    })
}

/// The answer to a packet that changes nothing.
fn unchanged<A: Allocator + Copy>(
    alloc: A,
    walk: Walk,
    packet: HeldPacket<A>,
    place: Place,
) -> PreparedAnswer<A>
    requires ordered { walk.next ≤ walk.after }
    requires number { packet.number < 2 ^ 63 }
    ensures place { result.answer.place ≡ place }
    ensures frames { result.answer.frames ≡ [] }
    ensures nacks { result.answer.nacks ≡ [] }
    ensures pli { result.answer.pli ≡ false }
{
    PreparedAnswer {
        packet,
        walk,
        answer: Admitted {
            place,
            frames: Vec::new(alloc),
            nacks: Vec::new(alloc),
            pli: false,
        },
    }
}

impl<A: Allocator + Copy> Gate<A> {
    /// A gate without packets. The only error is out of memory.
    pub fn new(alloc: A) -> Result<Self, AllocError>
        ensures { IfOk result (λ gate. Represents gate []) }
    {
        Ok(Self {
            cells: empty_cells(alloc)?,
            walk: Walk {
                next: 0,
                after: 0,
                first: true,
                stamp: None,
            },
            greatest: None,
        })
    }

    /// The gate's walk. The first packet begins it at its number.
    fn opened(&self, packet: &HeldPacket<A>) -> Walk
        ensures tied { (e : Epoch) → IsAt self.now e
            → Tied (held self.now.cells None) (frames_of e) (opened e packet.now) result [] }
        ensures above { (e : Epoch) → IsAt self.now e → self.now.walk.next ≤ result.next }
        ensures ordered { result.next ≤ result.after }
    {
        if self.greatest.is_some() {
            self.walk
        } else {
            Walk {
                next: packet.number,
                after: packet.number,
                first: true,
                stamp: None,
            }
        }
    }

    /// The answer to a numbered packet, and what the gate would remember.
    #[inline(always)]
    fn judge(&self, alloc: A, packet: HeldPacket<A>) -> Result<PreparedAnswer<A>, AllocError>
        ensures ok { IfOk result (λ r. Prepares self.now packet r) }
        ensures few { IfOk result (λ r. length r.answer.nacks ≤ most_missing) }
    {
        let walk = self.opened(&packet);
        if packet.number < walk.next {
            return Ok(unchanged(alloc, walk, packet, Place::Late));
        }
        if find_held(&self.cells, None, packet.number).is_some() {
            return Ok(unchanged(alloc, walk, packet, Place::Duplicate));
        }
        take(alloc, &self.cells, walk, self.greatest, packet)
    }

    /// The answer to a packet, and what the gate will remember. Nothing changes until [`commit`](Self::commit).
    ///
    /// `ext` is the packet's extended sequence number, at least -65536. The answer asks for at most 255 numbers. The
    /// only error is out of memory.
    #[inline(always)]
    pub fn prepare(
        &self,
        alloc: A,
        ext: i64,
        packet: Packet<A>,
    ) -> Result<PreparedAnswer<A>, AllocError>
        requires ext { IsExt ext }
        requires pt { packet.pt ≤ highest_pt }
        ensures ok { IfOk result (λ r. Prepares self.now (numbered ext packet) r) }
        ensures few { IfOk result (λ r. length r.answer.nacks ≤ most_missing) }
    {
        self.judge(alloc, HeldPacket::new(ext, packet))
    }

    /// Holds a packet, and forgets what is decided.
    #[inline(always)]
    fn hold(&mut self, packet: HeldPacket<A>, walk: Walk)
        requires ordered { walk.next ≤ walk.after }
        requires number { packet.number < 2 ^ 63 }
        ensures { Takes self.old packet walk self.new }
    {
        let number = packet.number;
        self.cells[(number % CELLS) as usize] = Some(packet);
        forget_between(&mut self.cells, self.walk.next, walk.next);
        self.walk = walk;
        self.greatest = Some(self.greatest.unwrap_or(0).max(number));
    }

    /// Takes the prepared packet in, and gives its answer. The gate must be as it was when this was prepared.
    #[inline(always)]
    pub fn commit(&mut self, prepared: PreparedAnswer<A>) -> Admitted<A>
        ensures gate { Commits self.old prepared self.new }
        ensures answer { result ≡ prepared.answer }
    {
        let PreparedAnswer {
            packet,
            walk,
            answer,
        } = prepared;
        if answer.place == Place::Taken {
            self.hold(packet, walk);
        }
        answer
    }

    /// Takes a packet in, and tells which frames are whole now and which numbers are missing.
    ///
    /// `ext` is the packet's extended sequence number, at least -65536. The answer asks for at most 255 numbers. On out
    /// of memory, the only error, the gate is as it was.
    pub fn admit(
        &mut self,
        alloc: A,
        ext: i64,
        packet: Packet<A>,
    ) -> Result<Admitted<A>, AllocError>
        requires ext { IsExt ext }
        requires pt { packet.pt ≤ highest_pt }
        ensures ok { IfOk result (λ a. Admits self.old self.new (numbered ext packet) a) }
        ensures few { IfOk result (λ a. length a.nacks ≤ most_missing) }
        ensures err { OnErr result (self.new ≡ self.old) }
    {
        let prepared = self.prepare(alloc, ext, packet)?;
        Ok(self.commit(prepared))
    }
}
