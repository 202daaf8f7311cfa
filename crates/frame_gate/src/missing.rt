//! The numbers that are missing when a packet comes.

ghost use Rattle.std.specs.Prelude.{◌≡◌, ◌-◌, ◌<◌, ◌≤◌, ◌^◌, IfOk, OnOk, map, unwrap_or, ◌++◌, ◌∷◌, []};
ghost use Rattle.std.specs.List.{range_with_len};
ghost use Rattle.frame_gate.specs.Packets.{ext_of};
ghost use Rattle.frame_gate.specs.Epochs.{missing_above};

use crate::held::ext_of;
use std::alloc::{AllocError, Allocator};

/// Asks for one more number.
pub(crate) fn ask<A: Allocator + Copy>(out: &mut Vec<i64, A>, number: u64) -> Result<(), AllocError>
    requires { number < 2 ^ 63 }
    ensures { OnOk result (out.new.items ≡ out.old.items ++ ext_of number ∷ []) }
{
    out.push(ext_of(number))?;
    Ok(())
}

/// The extended numbers from `start` up to `end`, which is left out.
fn between<A: Allocator + Copy>(alloc: A, start: u64, end: u64) -> Result<Vec<i64, A>, AllocError>
    requires { end ≤ 2 ^ 63 }
    ensures { IfOk result (λ out. out.items ≡ map ext_of (range_with_len start (end - start))) }
{
    let mut out = Vec::new(alloc);
    for n in start..end {
        ask(&mut out, n)?;
    }
    Ok(out)
}

/// The extended numbers from `next` on that are above `greatest` and below `number`.
pub fn missing<A: Allocator + Copy>(
    alloc: A,
    greatest: Option<u64>,
    next: u64,
    number: u64,
) -> Result<Vec<i64, A>, AllocError>
    requires greatest { unwrap_or greatest 0 < 2 ^ 63 }
    requires number { number < 2 ^ 63 }
    ensures { IfOk result (λ out. out.items ≡ map ext_of (missing_above greatest next number)) }
{
    match greatest {
        Some(g) => between(alloc, next.max(g + 1), number),
        None => Ok(Vec::new(alloc)),
    }
}
