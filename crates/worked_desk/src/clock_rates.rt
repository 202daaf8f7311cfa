//! Rooms at two clock rates: the cases of `specs/TwoRates.antt`.

ghost use Rattle.std.specs.Prelude.{◌≡◌, true};
ghost use Rattle.desk_rows.specs.Desk.{good};
ghost use Rattle.worked_desk.specs.Cases.{Answers};
ghost use Rattle.worked_desk.specs.TwoRates.{two_rates, adding_rated_rooms, joining, moving_between_rates};
ghost use Rattle.worked_desk.specs.TwoRates.{rates_of_members, rates_of_rooms};

use crate::refusing::refusal;
use desk_edit::{Command, Refusal};
use desk_rows::Rows;
use std::alloc::Global;

/// The desk of these cases is good, so there are rows that are it.
pub fn two_rates_are_good()
    ensures { good two_rates ≡ true }
{}

/// PCMU is refused at 44100 Hz, and so is a move to another rate.
pub fn refuses_between_rates(alloc: Global, rows: &Rows, command: &Command) -> Option<Refusal>
    requires { rows.now ≡ two_rates }
    ensures adding_rated_rooms { Answers adding_rated_rooms command.now result }
    ensures joining { Answers joining command.now result }
    ensures moving { Answers moving_between_rates command.now result }
{
    refusal(alloc, rows, command)
}

pub fn rate_of(rows: &Rows, member: u32) -> Option<u32>
    requires { rows.now ≡ two_rates }
    ensures { Answers rates_of_members member result }
{
    topology::rate_of(rows, member)
}

pub fn room_rate(rows: &Rows, room: u32) -> u32
    requires { rows.now ≡ two_rates }
    ensures { Answers rates_of_rooms room result }
{
    topology::room_rate(rows, room)
}
