//! How long numbers have been missing.

ghost use Rattle.std.specs.Prelude.{◌≡◌, ◌∷◌, ◌++◌, [], ◌-◌, ◌<◌, ◌≤◌, ◌^◌, length, None, Some, map, filter};
ghost use Rattle.std.specs.Prelude.{IfOk, IfSome, OnOk, not, is_some, ◌&&◌, if◌then◌else◌};
ghost use Rattle.std.specs.List.{range_with_len};
ghost use Rattle.frame_gate.specs.inner.Cells.{held};
ghost use Rattle.frame_gate.specs.Packets.{ext_of};
ghost use Rattle.frame_gate.specs.Watched.{age, is_asked, is_lost, last_among, most_waits};

use crate::held::HeldPacket;
use crate::missing::ask;
use crate::waiting::is_held;
use std::alloc::{AllocError, Allocator};

/// How many waits a number is waited for.
pub const MOST_WAITS: u64 = 25;

/// The same, where the source does not answer.
pub const SHORT_WAITS: u64 = 5;

/// At how many waits a number was missing.
pub fn age(marks: &[u64], number: u64) -> u64
    requires { length marks.now ≤ most_waits }
    ensures { result ≡ age marks.now number }
{
    let mut age = 0;
    for i in 0..marks.len() {
        age += (number < marks[i]) as u64;
    }
    age
}

/// Whether a number is asked for again: after 40, 100, 220 and 420 ms.
fn is_asked(marks: &[u64], number: u64) -> bool
    requires { length marks.now ≤ most_waits }
    ensures { result ≡ is_asked marks.now number }
{
    let age = age(marks, number);
    age == 2 || age == 5 || age == 11 || age == 21
}

/// Whether a number was waited for long enough.
fn is_lost(limit: u64, marks: &[u64], number: u64) -> bool
    requires { length marks.now ≤ most_waits }
    ensures { result ≡ is_lost limit marks.now number }
{
    age(marks, number) >= limit
}

/// Asks for a number that is not held, if it is time.
fn ask_again<A: Allocator + Copy>(
    out: &mut Vec<i64, A>,
    cells: &[Option<HeldPacket<A>>],
    marks: &[u64],
    number: u64,
) -> Result<(), AllocError>
    requires cells { length cells.now ≡ 256 }
    requires marks { length marks.now ≤ most_waits }
    requires number { number < 2 ^ 63 }
    ensures { OnOk result (out.new.items
        ≡ (if (not (is_some (held cells.now None number)) && is_asked marks.now number)
        then out.old.items ++ ext_of number ∷ [] else out.old.items)) }
{
    if !is_held(cells, number) && is_asked(marks, number) {
        ask(out, number)?;
    }
    Ok(())
}

/// The extended numbers of those from `from` up to `to`, which is left out, that are asked for again.
pub fn asked_again<A: Allocator + Copy>(
    alloc: A,
    cells: &[Option<HeldPacket<A>>],
    marks: &[u64],
    from: u64,
    to: u64,
) -> Result<Vec<i64, A>, AllocError>
    requires cells { length cells.now ≡ 256 }
    requires marks { length marks.now ≤ most_waits }
    requires to { to ≤ 2 ^ 63 }
    ensures items { IfOk result (λ out. out.items
        ≡ map ext_of (filter (λ n. not (is_some (held cells.now None n)) && is_asked marks.now n)
        (range_with_len from (to - from)))) }
    ensures few { IfOk result (λ out. length out.items ≤ to - from) }
{
    let mut out = Vec::new(alloc);
    for number in from..to {
        ask_again(&mut out, cells, marks, number)?;
    }
    Ok(out)
}

/// The number, if it is not held and was waited for long enough, and else the last one before it.
fn later_lost<A: Allocator + Copy>(
    cells: &[Option<HeldPacket<A>>],
    limit: u64,
    marks: &[u64],
    last: Option<u64>,
    number: u64,
) -> Option<u64>
    requires cells { length cells.now ≡ 256 }
    requires marks { length marks.now ≤ most_waits }
    ensures { result
        ≡ (if (not (is_some (held cells.now None number)) && is_lost limit marks.now number)
        then Some number else last) }
{
    if !is_held(cells, number) && is_lost(limit, marks, number) {
        Some(number)
    } else {
        last
    }
}

/// The last of those from `from` up to `to`, which is left out, that was waited for long enough.
pub fn last_lost<A: Allocator + Copy>(
    cells: &[Option<HeldPacket<A>>],
    limit: u64,
    marks: &[u64],
    from: u64,
    to: u64,
) -> Option<u64>
    requires cells { length cells.now ≡ 256 }
    requires marks { length marks.now ≤ most_waits }
    ensures last { result ≡ last_among (filter (λ n. not (is_some (held cells.now None n)) && is_lost limit marks.now n)
        (range_with_len from (to - from))) }
    ensures below { IfSome result (λ n. n < to) }
{
    let mut last = None;
    for number in from..to {
        last = later_lost(cells, limit, marks, last, number);
    }
    last
}
