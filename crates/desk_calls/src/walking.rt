//! How far back a revert goes.

ghost use Rattle.std.specs.Prelude.{◌≡◌, true, false, None, Some, IfOk, IfErr, OnOk, IfSome, OnSome, IfNone, length};
ghost use Rattle.std.specs.Prelude.{reverse, nat_eq, if◌then◌else◌};
ghost use Rattle.desk_edit.specs.InForce.{numbers_rise, stay};
ghost use Rattle.desk_edit.specs.Reverts.{early_revert_refused, weight, is_made, is_far};
ghost use Rattle.desk_calls.specs.inner.Touching.{is_newest};

use crate::entry::DeskEntry;
use desk_edit::Refusal;
use std::alloc::Allocator;

/// The most commands and reverts that a revert goes past.
pub const MAX_REVERTED: usize = 256;

/// Whether one of the entries has this number.
fn is_made<A: Allocator + Copy>(entries: &[DeskEntry<A>], number: u64) -> bool
    requires { numbers_rise entries.now ≡ true }
    ensures { result ≡ is_made number entries.now }
{
    let place = entries.partition_point(|entry| entry.number() < number);
    if place >= entries.len() {
        return false;
    }
    entries[place].number() == number
}

/// Whether the newest entry has this number and carried commands out.
pub(crate) fn is_newest<A: Allocator + Copy>(entries: &[DeskEntry<A>], number: u64) -> bool
    ensures { result ≡ is_newest number (reverse entries.now) }
{
    let Some((entry, _)) = entries.split_last() else {
        return false;
    };
    entry.number() == number && !entry.is_revert()
}

/// How much the entry counts where the call of this number is taken back.
fn counted<A: Allocator + Copy>(entry: &DeskEntry<A>, number: u64) -> usize
    ensures { result ≡ if nat_eq entry.now.number number then 0 else weight entry.now.deed }
{
    if entry.number() == number {
        0
    } else {
        entry.weight()
    }
}

/// How many entries a revert of this call leaves as they are, or the reason that is judged before memory is taken.
pub(crate) fn base_of<A: Allocator + Copy>(
    entries: &[DeskEntry<A>],
    number: u64,
) -> Result<usize, Refusal>
    requires { numbers_rise entries.now ≡ true }
    ensures base { IfOk result (λ base. base ≡ length (stay number (reverse entries.now))) }
    ensures free { OnOk result (early_revert_refused entries.now number ≡ None) }
    ensures why { IfErr result (λ why. early_revert_refused entries.now number ≡ Some why) }
{
    if !is_made(entries, number) {
        return Err(Refusal::NotInForce);
    }
    match walked_back(entries, number) {
        Some(base) => Ok(base),
        None => Err(Refusal::TooFar {
            limit: MAX_REVERTED as u32,
        }),
    }
}

/// How many entries a revert of this call leaves as they are, unless it would go past too much.
fn walked_back<A: Allocator + Copy>(entries: &[DeskEntry<A>], number: u64) -> Option<usize>
    ensures base { IfSome result (λ base. base ≡ length (stay number (reverse entries.now))) }
    ensures near { OnSome result (is_far number entries.now ≡ false) }
    ensures far { IfNone result (is_far number entries.now ≡ true) }
{
    let mut low = number;
    let mut count = 0;
    let mut rest = entries;
    while let Some((entry, earlier)) = rest.split_last() {
        if entry.number() < low {
            return Some(rest.len());
        }
        let own = counted(entry, number);
        let room = MAX_REVERTED - count;
        if own > room {
            return None;
        }
        count += own;
        low = entry.lower(low);
        rest = earlier;
    }
    Some(0)
}
