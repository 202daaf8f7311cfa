//! Whether somebody else would come or go.

ghost use Rattle.std.specs.Prelude.{◌≡◌, ◌≢◌, ◌∷◌, [], not, ◌&&◌, ◌||◌, None, Some, IfOk, IfErr, OnOk, reverse};
ghost use Rattle.std.specs.Prelude.{if◌then◌else◌};
ghost use Rattle.desk_edit.specs.InForce.{carries};
ghost use Rattle.desk_edit.specs.Reverts.{told_elsewhere};
ghost use Rattle.desk_revert.specs.Moving.{bring_or_take};
ghost use Rattle.desk_calls.specs.inner.Touching.{touches, elsewhere_by};

use crate::entry::DeskEntry;
use crate::striking::{one_number, pass};
use desk_edit::{Refusal, Standing};
use desk_revert::bring_or_take;
use desk_rows::{Edit, Key};
use std::alloc::{AllocError, Allocator};
use undo_log::Edits;

/// Whether an entry with these edits brought or took the row of this key, and isn't carried out again: it is struck, or
/// carries no commands out.
fn brings<A: Allocator + Copy>(
    is_out: bool,
    entry: &DeskEntry<A>,
    edits: &Edits<Edit<A>, A>,
    key: Key,
) -> bool
    ensures { result ≡ ((is_out || not (carries entry.now.deed)) && bring_or_take edits.now key) }
{
    (is_out || entry.is_revert()) && bring_or_take(edits.items(), key)
}

/// Whether an entry that isn't carried out again brought or took the row of this key. The edits end with those of the
/// entries. The only error is out of memory.
fn is_touched<A: Allocator + Copy>(
    alloc: A,
    entries: &[DeskEntry<A>],
    edits: &[Edits<Edit<A>, A>],
    number: u64,
    key: Key,
) -> Result<bool, AllocError>
    ensures { IfOk result (λ touched.
        touched ≡ touches (number ∷ []) key (reverse entries.now) (reverse edits.now)) }
{
    let mut struck = one_number(alloc, number)?;
    let mut rest = entries;
    let mut left = edits;
    while let Some((entry, earlier)) = rest.split_last() {
        let Some((edit, before)) = left.split_last() else {
            return Ok(false);
        };
        let is_out = pass(&mut struck, entry)?;
        if brings(is_out, entry, edit, key) {
            return Ok(true);
        }
        rest = earlier;
        left = before;
    }
    Ok(false)
}

/// The refusal that names a row which others hang on.
fn told_elsewhere(key: Key) -> Option<Refusal>
    ensures { result ≡ told_elsewhere key }
{
    match key {
        Key::Room(number) => elsewhere(Standing::Room, number),
        Key::Member(number) => elsewhere(Standing::Member, number),
        Key::Source(number) => elsewhere(Standing::Source, number),
        Key::Slot(number) => elsewhere(Standing::Slot, number),
        Key::Sub(_) | Key::Mute(_) | Key::Gain { .. } | Key::Pin(_) | Key::Floor(_) => None,
    }
}

fn elsewhere(kind: Standing, number: u32) -> Option<Refusal>
    ensures { result ≡ Some (Refusal.Elsewhere kind number) }
{
    Some(Refusal::Elsewhere { kind, number })
}

/// Refuses where the row of one of these keys would come or go, though no entry that isn't carried out again brought or
/// took it.
pub(crate) fn no_other_moves<A: Allocator + Copy>(
    alloc: A,
    keys: &[Key],
    entries: &[DeskEntry<A>],
    edits: &[Edits<Edit<A>, A>],
    number: u64,
) -> Result<(), Refusal>
    ensures free { OnOk result (
        elsewhere_by number (reverse entries.now) (reverse edits.now) keys.now ≡ None) }
    ensures first { IfErr result (λ why. why ≢ Refusal.OutOfMemory
        → elsewhere_by number (reverse entries.now) (reverse edits.now) keys.now ≡ Some why) }
{
    let mut rest = keys;
    while let Some((key, later)) = rest.split_first() {
        let Ok(is_due) = is_touched(alloc, entries, edits, number, *key) else {
            return Err(Refusal::OutOfMemory);
        };
        if let Some(why) = unless(is_due, told_elsewhere(*key)) {
            return Err(why);
        }
        rest = later;
    }
    Ok(())
}

fn unless(is_due: bool, why: Option<Refusal>) -> Option<Refusal>
    ensures { result ≡ if is_due then None else why }
{
    if is_due { None } else { why }
}
