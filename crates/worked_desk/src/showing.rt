//! What slots send, and who gets what a source sends: the cases of `specs/ShownRooms.antt`.

ghost use Rattle.std.specs.Prelude.{◌≡◌, true, IfOk};
ghost use Rattle.desk_rows.specs.Desk.{good};
ghost use Rattle.worked_desk.specs.Cases.{Answers};
ghost use Rattle.worked_desk.specs.ShownRooms.{shown_rooms, by_subscription, by_room, by_nothing};
ghost use Rattle.worked_desk.specs.ShownRooms.{who_gets, at_addresses};

use desk_rows::Rows;
use rtp_codec::Address;
use std::alloc::{AllocError, Global};
use topology::Receiver;

/// The desk of these cases is good, so there are rows that are it.
pub fn shown_rooms_are_good()
    ensures { good shown_rooms ≡ true }
{}

pub fn choice(rows: &Rows, out_ssrc: u32) -> Option<u32>
    requires { rows.now ≡ shown_rooms }
    ensures by_subscription { Answers by_subscription out_ssrc result }
    ensures by_room { Answers by_room out_ssrc result }
    ensures by_nothing { Answers by_nothing out_ssrc result }
{
    topology::choice(rows, out_ssrc)
}

pub fn receivers_of(
    alloc: Global,
    rows: &Rows,
    source: u32,
    address: &Address,
) -> Result<Vec<Receiver>, AllocError>
    requires { rows.now ≡ shown_rooms }
    ensures { IfOk result (λ v. Answers who_gets (source, address.now) v.items) }
{
    topology::receivers_of(alloc, rows, source, address)
}

pub fn member_from(rows: &Rows, address: &Address) -> Option<u32>
    requires { rows.now ≡ shown_rooms }
    ensures { Answers at_addresses address.now result }
{
    topology::member_from(rows, address)
}
