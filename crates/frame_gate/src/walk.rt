//! Follows the run of held packets, and divides it into frames.

ghost use Rattle.std.specs.Prelude.{◌≡◌, ℕ, ◌+◌, ◌-◌, ◌<◌, ◌≤◌, ◌^◌, length, IfOk, List, Option, Some, None, true};
ghost use Rattle.std.specs.Prelude.{IsSome};
ghost use Rattle.frame_gate.specs.Runs.{Divided as AnyDivided, closes, parted, ended, with_packet, row, divide_on};
ghost use Rattle.frame_gate.specs.Runs.{is_full};
ghost use Rattle.std.specs.Option.{option_copied};
ghost use Rattle.frame_gate.specs.inner.Cells.{held};
ghost use Rattle.frame_gate.specs.Packets.{NumberedPacket};
ghost use Rattle.frame_gate.specs.Frame.{WholeFrame};
ghost use Rattle.frame_gate.specs.inner.Walks.{Stands, tells_apart_at, closed_at, joined_at, GoesOn, MayEnd};

use crate::cells::{find_held, piece};
use crate::frame::Frame;
use crate::held::HeldPacket;
use std::alloc::{AllocError, Allocator};

/// How far the run was followed since the last cut.
#[derive(Clone, Copy)]
pub struct Walk {
    /// Every number below is decided.
    pub next: u64,
    /// The number behind the packets that were followed.
    pub after: u64,
    /// The unclosed piece is the first since the cut.
    pub first: bool,
    /// The timestamp of the unclosed piece's packets with payload.
    pub stamp: Option<u32>,
}

/// Whether the packet begins a new piece behind packets of this timestamp.
fn tells_apart<A: Allocator + Copy>(ts: u32, packet: &HeldPacket<A>) -> bool
    ensures { result ≡ tells_apart_at (Some ts) packet.now }
{
    !packet.is_empty() && ts != packet.ts
}

/// Divides the run behind the packets that were followed. Their piece is a frame, unless it is the first.
fn close<A: Allocator + Copy>(
    alloc: A,
    cells: &[Option<HeldPacket<A>>],
    newcomer: Option<&HeldPacket<A>>,
    walk: Walk,
    ts: u32,
    frames: &mut Vec<Frame<A>, A>,
) -> Result<Walk, AllocError>
    requires cells { length cells.now ≡ 256 }
    requires few { walk.after ≤ walk.next + 256 }
    requires stamp { walk.stamp ≡ Some ts }
    ensures stands { IfOk result (λ w. (cut : ℕ) (given earlier : List WholeFrame) (d : AnyDivided)
        → Stands (held cells.now (option_copied newcomer.entry)) cut given earlier d walk frames.old.items
        → MayEnd d.unclosed
        → Stands (held cells.now (option_copied newcomer.entry)) cut given earlier (closes d) w frames.new.items) }
    ensures walk { IfOk result (λ w. w ≡ closed_at walk) }
{
    if !walk.first {
        let packets = piece(alloc, cells, newcomer, walk.next, walk.after)?;
        if let Ok(frame) = Frame::new(ts, packets) {
            frames.push(frame)?;
        }
    }
    Ok(Walk {
        next: walk.after,
        after: walk.after,
        first: false,
        stamp: None,
    })
}

/// Adds a packet to the unclosed piece.
fn join<A: Allocator + Copy>(walk: Walk, packet: &HeldPacket<A>) -> Walk
    requires { walk.after < 2 ^ 63 + 256 }
    ensures { result ≡ joined_at walk packet.now }
{
    Walk {
        next: if walk.first {
            walk.after + 1
        } else {
            walk.next
        },
        after: walk.after + 1,
        first: walk.first,
        stamp: if packet.is_empty() {
            walk.stamp
        } else {
            Some(packet.ts)
        },
    }
}

/// Divides before the packet, if its timestamp differs from that of the unclosed piece.
fn part<A: Allocator + Copy>(
    alloc: A,
    cells: &[Option<HeldPacket<A>>],
    newcomer: Option<&HeldPacket<A>>,
    walk: Walk,
    packet: &HeldPacket<A>,
    frames: &mut Vec<Frame<A>, A>,
) -> Result<Walk, AllocError>
    requires cells { length cells.now ≡ 256 }
    requires few { walk.after ≤ walk.next + 256 }
    ensures stands { IfOk result (λ w. (cut : ℕ) (given earlier : List WholeFrame) (d : AnyDivided)
        → Stands (held cells.now (option_copied newcomer.entry)) cut given earlier d walk frames.old.items
        → MayEnd d.unclosed
        → Stands (held cells.now (option_copied newcomer.entry)) cut given earlier
        (parted d packet.now) w frames.new.items) }
    ensures after { IfOk result (λ w. w.after ≡ walk.after) }
    ensures next { IfOk result (λ w. walk.next ≤ walk.after → (walk.next ≤ w.next) × (w.next ≤ w.after)) }
    ensures fresh { IfOk result (λ w. walk.first ≡ true → walk.stamp ≡ None → w ≡ walk) }
{
    if let Some(ts) = walk.stamp {
        if tells_apart(ts, packet) {
            return close(alloc, cells, newcomer, walk, ts, frames);
        }
    }
    Ok(walk)
}

/// Divides behind the packet, if it ends a piece.
fn end<A: Allocator + Copy>(
    alloc: A,
    cells: &[Option<HeldPacket<A>>],
    newcomer: Option<&HeldPacket<A>>,
    walk: Walk,
    packet: &HeldPacket<A>,
    frames: &mut Vec<Frame<A>, A>,
) -> Result<Walk, AllocError>
    requires cells { length cells.now ≡ 256 }
    requires few { walk.after ≤ walk.next + 256 }
    requires stamp { is_full packet.now ≡ true → walk.stamp ≡ Some packet.now.ts }
    ensures stands { IfOk result (λ w. (cut : ℕ) (given earlier : List WholeFrame) (d : AnyDivided)
        → Stands (held cells.now (option_copied newcomer.entry)) cut given earlier d walk frames.old.items
        → MayEnd d.unclosed
        → Stands (held cells.now (option_copied newcomer.entry)) cut given earlier
        (ended d packet.now) w frames.new.items) }
    ensures after { IfOk result (λ w. w.after ≡ walk.after) }
    ensures next { IfOk result (λ w. walk.next ≤ walk.after → (walk.next ≤ w.next) × (w.next ≤ w.after)) }
{
    if !packet.is_empty() && packet.marker {
        close(alloc, cells, newcomer, walk, packet.ts, frames)
    } else {
        Ok(walk)
    }
}

/// Follows the run by one packet.
fn follow<A: Allocator + Copy>(
    alloc: A,
    cells: &[Option<HeldPacket<A>>],
    newcomer: Option<&HeldPacket<A>>,
    walk: Walk,
    packet: &HeldPacket<A>,
    frames: &mut Vec<Frame<A>, A>,
) -> Result<Walk, AllocError>
    requires cells { length cells.now ≡ 256 }
    requires after { walk.after < 2 ^ 63 + 256 }
    requires ordered { walk.next ≤ walk.after }
    requires few { walk.after < walk.next + 256 }
    ensures stands { IfOk result (λ w. (cut : ℕ) (given earlier : List WholeFrame) (d : AnyDivided)
        → Stands (held cells.now (option_copied newcomer.entry)) cut given earlier d walk frames.old.items
        → GoesOn d.unclosed → held cells.now (option_copied newcomer.entry) walk.after ≡ Some packet.now
        → Stands (held cells.now (option_copied newcomer.entry)) cut given earlier
        (with_packet d packet.now) w frames.new.items) }
    ensures after { IfOk result (λ w. w.after ≡ walk.after + 1) }
    ensures next { IfOk result (λ w. walk.next ≤ walk.after → (walk.next ≤ w.next) × (w.next ≤ w.after)) }
    ensures fresh { IfOk result (λ w. walk.first ≡ true → walk.stamp ≡ None → walk.after + 1 ≤ w.next) }
{
    let parted = part(alloc, cells, newcomer, walk, packet, frames)?;
    let joined = join(parted, packet);
    end(alloc, cells, newcomer, joined, packet, frames)
}

/// Follows the run up to the first number that is not held, or to `to`.
pub fn drain<'a, A: Allocator + Copy>(
    alloc: A,
    cells: &'a [Option<HeldPacket<A>>],
    newcomer: Option<&'a HeldPacket<A>>,
    from: Walk,
    to: u64,
    frames: &mut Vec<Frame<A>, A>,
) -> Result<Walk, AllocError>
    requires cells { length cells.now ≡ 256 }
    requires to { to ≤ 2 ^ 63 + 256 }
    requires ordered { from.next ≤ from.after }
    requires few { to ≤ from.next + 256 }
    ensures stands { IfOk result (λ w. (cut : ℕ) (given earlier : List WholeFrame) (d : AnyDivided)
        → Stands (held cells.now (option_copied newcomer.entry)) cut given earlier d from frames.old.items
        → GoesOn d.unclosed
        → Stands (held cells.now (option_copied newcomer.entry)) cut given earlier
        (divide_on d
        (row (held cells.now (option_copied newcomer.entry)) from.after (to - from.after))) w frames.new.items) }
    ensures next { IfOk result (λ w. (from.next ≤ w.next) × (w.next ≤ w.after)) }
    ensures after { IfOk result
        (λ w. (from.after ≤ to → w.after ≤ to) × (from.after ≤ w.after) × (to < from.after → w.after ≡ from.after)) }
    ensures fresh { IfOk result (λ w. from.first ≡ true → from.stamp ≡ None → from.after < to
        → IsSome (held cells.now (option_copied newcomer.entry) from.after) → from.after + 1 ≤ w.next) }
{
    let mut walk = from;
    for number in from.after..to {
        match find_held(cells, newcomer, number) {
            Some(packet) => walk = follow(alloc, cells, newcomer, walk, packet, frames)?,
            None => return Ok(walk),
        }
    }
    Ok(walk)
}
