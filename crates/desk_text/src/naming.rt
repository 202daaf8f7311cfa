//! The names of commands, and the values behind them.

ghost use Rattle.std.specs.Prelude.{◌≡◌, ◌∷◌, [], map};
ghost use Rattle.desk_rows.specs.declared.values.RowValue.TheVariants.{U32};
ghost use Rattle.desk_text.specs.Values.{of_row};
ghost use Rattle.desk_text.specs.Calls.{name_text, fields_of};

use arrayvec::ArrayVec;
use desk_edit::Command;
use desk_rows::{Row, RowValue, RowValues};

/// How a command is named.
pub(crate) fn name(command: &Command) -> &'static [u8]
    ensures { result.now ≡ name_text (fields_of command.now).name }
{
    match command {
        Command::AddRoom(_) => b"add-room",
        Command::RemoveRoom { .. } => b"remove-room",
        Command::AddMember(_) => b"add-member",
        Command::RemoveMember { .. } => b"remove-member",
        Command::MoveMember { .. } => b"move-member",
        Command::AddSource(_) => b"add-source",
        Command::RemoveSource { .. } => b"remove-source",
        Command::AddSlot(_) => b"add-slot",
        Command::RemoveSlot { .. } => b"remove-slot",
        Command::Subscribe(_) => b"subscribe",
        Command::Unsubscribe { .. } => b"unsubscribe",
        Command::SetGain(_) => b"set-gain",
        Command::Mute(_) => b"mute",
        Command::Unmute { .. } => b"unmute",
        Command::Pin(_) => b"pin",
        Command::Unpin { .. } => b"unpin",
        Command::GiveFloor(_) => b"give-floor",
        Command::TakeFloor { .. } => b"take-floor",
    }
}

fn one(number: u32) -> RowValues
    ensures { result.items ≡ U32 number ∷ [] }
{
    let mut values = ArrayVec::new();
    values.push(RowValue::U32(number));
    values
}

/// Two numbers.
fn two(first: u32, second: u32) -> RowValues
    ensures { result.items ≡ U32 first ∷ U32 second ∷ [] }
{
    let mut values = ArrayVec::new();
    values.push(RowValue::U32(first));
    values.push(RowValue::U32(second));
    values
}

/// The values behind the name of a command.
pub(crate) fn values(command: &Command) -> RowValues
    ensures { map of_row result.items ≡ (fields_of command.now).values }
{
    match *command {
        Command::AddRoom(row) => Row::Room(row).values(),
        Command::RemoveRoom { room } => one(room),
        Command::AddMember(row) => Row::Member(row).values(),
        Command::RemoveMember { member } => one(member),
        Command::MoveMember { member, room } => two(member, room),
        Command::AddSource(row) => Row::Source(row).values(),
        Command::RemoveSource { ssrc } => one(ssrc),
        Command::AddSlot(row) => Row::Slot(row).values(),
        Command::RemoveSlot { out_ssrc } => one(out_ssrc),
        Command::Subscribe(row) => Row::Sub(row).values(),
        Command::Unsubscribe { out_ssrc } => one(out_ssrc),
        Command::SetGain(row) => Row::Gain(row).values(),
        Command::Mute(row) => Row::Mute(row).values(),
        Command::Unmute { source } => one(source),
        Command::Pin(row) => Row::Pin(row).values(),
        Command::Unpin { room } => one(room),
        Command::GiveFloor(row) => Row::Floor(row).values(),
        Command::TakeFloor { room } => one(room),
    }
}
