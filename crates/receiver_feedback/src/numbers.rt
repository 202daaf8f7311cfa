//! Numbers that are asked for, each at its first place only.

ghost use Rattle.std.specs.Prelude.{◌≡◌, [], fold, IfOk, OnOk};
ghost use Rattle.receiver_feedback.specs.Resends.{firsts};
ghost use Rattle.receiver_feedback.specs.inner.Seen.{added, Marks};

use std::alloc::{AllocError, Allocator};

/// The number of sequence numbers.
const NUMBERS: usize = 1 << 16;

/// Appends the number and marks it, unless it has a mark.
fn add<A: Allocator>(
    numbers: &mut Vec<u16, A>,
    marks: &mut [bool],
    number: u16,
) -> Result<(), AllocError>
    requires { Marks marks.old numbers.old.items }
    ensures added { OnOk result (numbers.new.items ≡ added numbers.old.items number) }
    ensures marks { OnOk result (Marks marks.new numbers.new.items) }
{
    let place = usize::from(number);
    if marks[place] {
        return Ok(());
    }
    numbers.push(number)?;
    marks[place] = true;
    Ok(())
}

/// Appends the numbers without a mark, each once.
fn add_all<A: Allocator>(
    numbers: &mut Vec<u16, A>,
    marks: &mut [bool],
    more: &[u16],
) -> Result<(), AllocError>
    requires { Marks marks.old numbers.old.items }
    ensures added { OnOk result (numbers.new.items ≡ fold added numbers.old.items more.now) }
    ensures marks { OnOk result (Marks marks.new numbers.new.items) }
{
    for number in more {
        add(numbers, marks, *number)?;
    }
    Ok(())
}

/// Marks, none of which is set.
fn unmarked<A: Allocator>(alloc: A) -> Result<Vec<bool, A>, AllocError>
    ensures { IfOk result (λ marks. Marks marks.items []) }
{
    vec![in alloc; false; NUMBERS]
}

/// The numbers, each at its first place only.
// A datagram may name 34,000 numbers, any of them many times. To look each one up among those before it takes some 600
// million steps, and marks take 64 KiB.
pub(crate) fn each_once<A: Allocator + Copy>(
    alloc: A,
    numbers: &[u16],
) -> Result<Vec<u16, A>, AllocError>
    ensures { IfOk result (λ once. once.items ≡ firsts numbers.now) }
{
    let mut marks = unmarked(alloc)?;
    let mut once = Vec::new(alloc);
    add_all(&mut once, &mut marks, numbers)?;
    Ok(once)
}
