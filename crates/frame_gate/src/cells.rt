//! The cells of a gate. A packet lies in the cell of its number modulo 256, together with its number.

ghost use Rattle.std.specs.Prelude.{◌≡◌, ℕ, ◌+◌, ◌-◌, ◌<◌, ◌≤◌, ◌^◌, length, IfOk, OnOk, IsSome, List, ◌++◌, None};
ghost use Rattle.std.specs.Prelude.{vec_len, map, false, ◌%◌};
ghost use Rattle.std.specs.Option.{option_to_list, option_copied};
ghost use Rattle.frame_gate.specs.Runs.{full, IsRow};
ghost use Rattle.frame_gate.specs.inner.Cells.{held, cell, from_on, MayForget, Forgets};
ghost use Rattle.frame_gate.specs.Packets.{NumberedPacket, frame_packet};
ghost use Rattle.frame_gate.specs.Frame.{has_bad_kind};

use crate::frame::FramePacket;
use crate::held::HeldPacket;
use std::alloc::{AllocError, Allocator};

/// The cells of a gate: it can hold this many numbers from the first undecided one on.
pub const CELLS: u64 = 256;

/// Empty cells.
pub fn empty_cells<A: Allocator + Copy>(
    alloc: A,
) -> Result<Vec<Option<HeldPacket<A>>, A>, AllocError>
    ensures len { IfOk result (λ cells. vec_len cells ≡ 256) }
    ensures empty { IfOk result (λ cells. (i : ℕ) → cell cells.items i ≡ None) }
{
    let mut cells = Vec::with_capacity(alloc, CELLS as usize)?;
    for _ in 0..CELLS {
        cells.push(None)?;
    }
    Ok(cells)
}

/// The packet of this number, if it is held or is the newcomer.
pub fn find_held<'a, A: Allocator + Copy>(
    cells: &'a [Option<HeldPacket<A>>],
    newcomer: Option<&'a HeldPacket<A>>,
    number: u64,
) -> Option<&'a HeldPacket<A>>
    requires { length cells.now ≡ 256 }
    ensures { option_copied result ≡ held cells.now (option_copied newcomer.entry) number }
{
    if let Some(packet) = newcomer {
        if packet.number == number {
            return newcomer;
        }
    }
    if let Some(packet) = &cells[(number % CELLS) as usize] {
        if packet.number == number {
            return Some(packet);
        }
    }
    None
}

/// Appends the packet that was found, unless it is empty.
fn push_found<A: Allocator + Copy>(
    out: &mut Vec<FramePacket<A>, A>,
    found: Option<&HeldPacket<A>>,
) -> Result<(), AllocError>
    ensures items { OnOk result (out.new.items
        ≡ out.old.items ++ map frame_packet (full (option_to_list (option_copied found.entry)))) }
    ensures kinds { OnOk result (has_bad_kind out.old.items ≡ false → has_bad_kind out.new.items ≡ false) }
{
    if let Some(packet) = found {
        if !packet.is_empty() {
            out.push(packet.frame_packet()?)?;
        }
    }
    Ok(())
}

/// The packets with payload from number `from` up to `to`, which is left out.
pub fn piece<A: Allocator + Copy>(
    alloc: A,
    cells: &[Option<HeldPacket<A>>],
    newcomer: Option<&HeldPacket<A>>,
    from: u64,
    to: u64,
) -> Result<Vec<FramePacket<A>, A>, AllocError>
    requires { length cells.now ≡ 256 }
    ensures kinds { IfOk result (λ out. has_bad_kind out.items ≡ false) }
    ensures items { IfOk result (λ out. (packets : List NumberedPacket)
        → IsRow (held cells.now (option_copied newcomer.entry)) from packets → to ≡ from + length packets
        → out.items ≡ map frame_packet (full packets)) }
{
    let mut out = Vec::new(alloc);
    for number in from..to {
        push_found(&mut out, find_held(cells, newcomer, number))?;
    }
    Ok(out)
}

/// The least held number from `from` on. `number` if none below it is held.
pub fn least_held<A: Allocator + Copy>(
    cells: &[Option<HeldPacket<A>>],
    from: u64,
    number: u64,
) -> u64
    requires cells { length cells.now ≡ 256 }
    requires far { from + 256 ≤ number }
    ensures bounds { (from ≤ result) × (result ≤ number) }
    ensures none { (n : ℕ) → from ≤ n → n < result → n < from + 256 → held cells.now None n ≡ None }
    ensures near { result < number → result < from + 256 }
    ensures some { result < number → IsSome (held cells.now None result) }
{
    for n in from..from + CELLS {
        if find_held(cells, None, n).is_some() {
            return n;
        }
    }
    number
}

/// Empties the cell of a number, if the packet in it is numbered below `to`.
fn forget<A: Allocator + Copy>(cells: &mut [Option<HeldPacket<A>>], number: u64, to: u64)
    requires { length cells.old ≡ 256 }
    ensures len { length cells.new ≡ 256 }
    ensures here { cell cells.new (number % 256) ≡ from_on to (cell cells.old (number % 256)) }
    ensures others { (i : ℕ) → ¬ (i ≡ number % 256) → cell cells.new i ≡ cell cells.old i }
{
    let i = (number % CELLS) as usize;
    if let Some(packet) = &cells[i] {
        if packet.number < to {
            cells[i] = None;
        }
    }
}

/// Forgets the packets from number `from` up to `to`, which is left out.
pub fn forget_between<A: Allocator + Copy>(cells: &mut [Option<HeldPacket<A>>], from: u64, to: u64)
    requires { length cells.old ≡ 256 }
    ensures len { length cells.new ≡ 256 }
    ensures others { MayForget to cells.old cells.new }
    ensures gone { Forgets from to cells.old cells.new }
{
    for k in 0..to.saturating_sub(from).min(CELLS) {
        forget(cells, from + k, to);
    }
}
