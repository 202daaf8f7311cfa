//! Which entries are struck, and which are in force.

ghost use Rattle.std.specs.Prelude.{◌≡◌, ◌∷◌, [], true, IfOk, OnOk, if◌then◌else◌};
ghost use Rattle.desk_edit.specs.InForce.{numbers_rise, in_force, is_struck, struck_by};
ghost use Rattle.desk_edit.specs.Reverts.{is_made};

use crate::entry::DeskEntry;
use std::alloc::{AllocError, Allocator};

pub(crate) fn one_number<A: Allocator + Copy>(
    alloc: A,
    number: u64,
) -> Result<Vec<u64, A>, AllocError>
    ensures { IfOk result (λ list. list.items ≡ number ∷ []) }
{
    let mut list = Vec::with_capacity(alloc, 1)?;
    list.push_reserved(number);
    Ok(list)
}

fn is_struck(struck: &[u64], number: u64) -> bool
    ensures { result ≡ is_struck struck.now number }
{
    struck.iter().any(|taken| number == *taken)
}

/// Whether the entry is struck. If it isn't, what it takes back is noted.
pub(crate) fn pass<A: Allocator + Copy>(
    struck: &mut Vec<u64, A>,
    entry: &DeskEntry<A>,
) -> Result<bool, AllocError>
    ensures out { IfOk result (λ is_out. is_out ≡ is_struck struck.old.items entry.now.number) }
    ensures next { OnOk result (struck.new.items
        ≡ if is_struck struck.old.items entry.now.number then struck.old.items
        else struck_by entry.now.deed struck.old.items) }
{
    if is_struck(struck, entry.number()) {
        return Ok(true);
    }
    entry.strike(struck)?;
    Ok(false)
}

/// Whether the call of this number is in force. The only error is out of memory.
pub(crate) fn is_in_force<A: Allocator + Copy>(
    alloc: A,
    entries: &[DeskEntry<A>],
    number: u64,
) -> Result<bool, AllocError>
    requires { numbers_rise entries.now ≡ true }
    ensures { IfOk result (λ found. found ≡ is_made number (in_force entries.now)) }
{
    let mut struck = Vec::new(alloc);
    let mut rest = entries;
    while let Some((entry, earlier)) = rest.split_last() {
        let is_out = pass(&mut struck, entry)?;
        if entry.number() == number {
            return Ok(!is_out);
        }
        rest = earlier;
    }
    Ok(false)
}
