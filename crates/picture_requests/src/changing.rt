//! What waits once a desk was seen.

ghost use Rattle.std.specs.Prelude.{◌≡◌, IfOk};
ghost use Rattle.picture_requests.specs.Choices.{changed_to, chosen_sources};
ghost use Rattle.picture_requests.specs.Requests.{still_chosen, waiting_after};

use crate::choosing::SlotChoice;
use crate::collecting::{each_once, set_of};
use crate::source::VideoSource;
use std::alloc::{AllocError, Allocator};

/// The sources of these choices.
fn chosen_sources<A: Allocator + Copy>(
    alloc: A,
    choices: &[SlotChoice],
) -> Result<Vec<VideoSource, A>, AllocError>
    ensures { IfOk result (λ v. v.items ≡ chosen_sources choices.now) }
{
    choices.iter().map(|choice| choice.source).collect(alloc)
}

/// The sources to which choices changed: those of the later choices that are not among the earlier ones.
fn changed_to<A: Allocator + Copy>(
    alloc: A,
    before: &[SlotChoice],
    after: &[SlotChoice],
) -> Result<Vec<VideoSource, A>, AllocError>
    ensures { IfOk result (λ v. v.items ≡ changed_to before.now after.now) }
{
    let known = set_of(alloc, before)?;
    after
        .iter()
        .filter(|choice| !known.contains(*choice))
        .map(|choice| choice.source)
        .collect(alloc)
}

/// Those of the waiting sources that some slot still chooses.
fn still_chosen<A: Allocator + Copy>(
    alloc: A,
    choices: &[SlotChoice],
    waiting: &[VideoSource],
) -> Result<Vec<VideoSource, A>, AllocError>
    ensures { IfOk result (λ v. v.items ≡ still_chosen choices.now waiting.now) }
{
    let sources = chosen_sources(alloc, choices)?;
    let chosen = set_of(alloc, &sources)?;
    waiting
        .iter()
        .filter(|source| chosen.contains(*source))
        .copied()
        .collect(alloc)
}

/// The sources that wait after the choices changed: those that waited and that some slot still chooses, and then those
/// to which choices changed, each once.
pub(crate) fn waiting_after<A: Allocator + Copy>(
    alloc: A,
    before: &[SlotChoice],
    after: &[SlotChoice],
    waiting: &[VideoSource],
) -> Result<Vec<VideoSource, A>, AllocError>
    ensures { IfOk result (λ v. v.items ≡ waiting_after before.now after.now waiting.now) }
{
    let mut all = still_chosen(alloc, after, waiting)?;
    all.extend_from_slice(&changed_to(alloc, before, after)?)?;
    each_once(alloc, &all)
}
