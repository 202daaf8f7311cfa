//! A call of the desk, in its two halves.

ghost use Rattle.std.specs.Prelude.{◌≡◌, [], ◌∷◌, length, IfOk};
ghost use Rattle.desk_rows.specs.Desk.{blank};
ghost use Rattle.desk_rows.specs.declared.row.Row.{Row};

use desk_calls::Desk;
use desk_edit::{Call, Command, Refusal};
use desk_rows::{Room, Rows};
use std::alloc::Global;

/// The first call adds a room. It gets number 1, version 1 has that room and no other row, and one edit is done.
#[tactic(auto, unfolding(desk_edit::specs::Commands::desk_after))]
pub fn carries_out_the_first_call(alloc: Global, rows: Rows) -> Result<(u64, Desk), Refusal>
    requires { rows ≡ blank 1 }
    ensures number { IfOk result (λ r. r.0 ≡ 1) }
    ensures version { IfOk result (λ r. r.1.version ≡ 1) }
    ensures desk { IfOk result (λ r. r.1.desk
        ≡ record { bridge_ssrc = 1; members = []; others = Row.Room (record { room = 1; rate = 8000 }) ∷ [] }) }
    ensures done { IfOk result (λ r. length r.1.done ≡ 1) }
{
    let mut desk = Desk::new(alloc, rows);
    let call = Call::Apply(Command::AddRoom(Room {
        room: 1,
        rate: 8_000,
    }));
    let prepared = desk.prepare(alloc, &call)?;
    let no = desk.commit(&call, prepared);
    Ok((no, desk))
}
