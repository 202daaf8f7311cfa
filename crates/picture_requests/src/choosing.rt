//! The source that each slot chose.

ghost use Rattle.std.specs.Prelude.{◌≡◌, IfOk, option_and_then};
ghost use Rattle.std.specs.List.{filter_map};
ghost use Rattle.desk_rows.specs.Getters.{slot_in};
ghost use Rattle.picture_requests.specs.Choices.{chosen_source, choices_of, slot_choice};

use crate::source::VideoSource;
use desk_rows::{Kind, Row, Rows};
use std::alloc::{AllocError, Allocator};
use topology::{choice, member_at, sender_of};

/// A slot, and the source that it chose.
#[derive(Clone, Copy, PartialEq, Eq, Hash)]
pub(crate) struct SlotChoice {
    /// The SSRC of the slot.
    pub(crate) out_ssrc: u32,
    /// The source.
    pub(crate) source: VideoSource,
}

/// The source that the slot of this SSRC chose, at the address of its member.
fn chosen_source<A: Allocator + Copy>(rows: &Rows<A>, out_ssrc: u32) -> Option<VideoSource>
    ensures { result ≡ chosen_source rows.now out_ssrc }
{
    let ssrc = choice(rows, out_ssrc)?;
    let member = member_at(rows, sender_of(rows, ssrc)?)?;
    Some(VideoSource::at(ssrc, &member.address))
}

/// The choice of the slot in a row, if it has one.
fn choice_in<A: Allocator + Copy>(rows: &Rows<A>, row: &Row) -> Option<SlotChoice>
    ensures { result ≡ option_and_then (slot_choice rows.now) (slot_in row.now) }
{
    let slot = row.as_slot()?;
    let source = chosen_source(rows, slot.out_ssrc)?;
    Some(SlotChoice {
        out_ssrc: slot.out_ssrc,
        source,
    })
}

fn choices_in<A: Allocator + Copy>(
    alloc: A,
    rows: &Rows<A>,
    these: &[Row],
) -> Result<Vec<SlotChoice, A>, AllocError>
    ensures { IfOk result
        (λ v. v.items ≡ filter_map (λ r. option_and_then (slot_choice rows.now) (slot_in r)) these.now) }
{
    these
        .iter()
        .filter_map(|row| choice_in(rows, row))
        .collect(alloc)
}

/// The choices of all slots that have one, in the order of the slots' rows.
pub(crate) fn choices_of<A: Allocator + Copy>(
    alloc: A,
    rows: &Rows<A>,
) -> Result<Vec<SlotChoice, A>, AllocError>
    ensures { IfOk result (λ v. v.items ≡ choices_of rows.now) }
{
    choices_in(alloc, rows, rows.others_of(Kind::Slot))
}
