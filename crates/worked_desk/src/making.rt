//! What commands make of a desk: the cases of `specs/DeskCases.antt`, and the two rooms themselves.

ghost use Rattle.std.specs.Prelude.{◌≡◌, IfOk, OnOk};
ghost use Rattle.desk_rows.specs.declared.key.Key.TheVariants.{Room as RoomKey};
ghost use Rattle.desk_edit.specs.Commands.{desk_after};
ghost use Rattle.desk_edit.specs.Depends.{IsDependent};
ghost use Rattle.worked_desk.specs.Cases.{Answers};
ghost use Rattle.worked_desk.specs.Rows.{member, video, sub};
ghost use Rattle.worked_desk.specs.TwoRooms.{two_rooms};
ghost use Rattle.worked_desk.specs.Commands.{add_room, add_slot, subscribe};
ghost use Rattle.worked_desk.specs.DeskCases.{carrying_out, other_source};

use desk_edit::{Command, Refusal, dependent_rows_go, plan};
use desk_rows::{Codec, Media, Member, Room, Rows, Slot, Source, Sub};
use rtp_codec::Address;
use std::alloc::Global;

/// Carries a command out.
pub fn carry_out(alloc: Global, rows: &mut Rows, command: &Command) -> Result<(), Refusal>
    ensures { OnOk result (rows.new ≡ desk_after rows.old command.now) }
{
    let edit = plan(alloc, rows, command)?;
    rows.absorb_fitting(&edit);
    Ok(())
}

pub fn carries_out(alloc: Global, rows: &mut Rows, command: &Command) -> Result<(), Refusal>
    requires { rows.old ≡ two_rooms }
    ensures { OnOk result (Answers carrying_out command.now rows.new) }
{
    carry_out(alloc, rows, command)
}

fn room(number: u32) -> Command
    ensures { result ≡ add_room number }
{
    Command::AddRoom(Room {
        room: number,
        rate: 8_000,
    })
}

fn member(number: u32, room: u32, port: u16, out_audio: u32) -> Command
    ensures { result ≡ Command.AddMember (member number room port out_audio) }
{
    Command::AddMember(Member {
        member: number,
        room,
        address: Address {
            ip: [10, 0, 0, 1],
            port,
        },
        codec: Codec::Pcmu,
        out_audio,
        first_seq: 0,
        first_ts: 0,
    })
}

fn source(ssrc: u32, member: u32, media: Media) -> Command
    ensures { result ≡ Command.AddSource (record { ssrc = ssrc; member = member; media = media }) }
{
    Command::AddSource(Source {
        ssrc,
        member,
        media,
    })
}

fn slot(out_ssrc: u32, member: u32, index: u32) -> Command
    ensures { result ≡ add_slot out_ssrc member index }
{
    Command::AddSlot(Slot {
        out_ssrc,
        member,
        index,
        first_seq: 65535,
        first_ts: 1000,
    })
}

fn subscribe(out_ssrc: u32, source: u32) -> Command
    ensures { result ≡ subscribe out_ssrc source }
{
    Command::Subscribe(Sub { out_ssrc, source })
}

/// Eleven commands make the two rooms: so there is such a desk.
pub fn make_two_rooms(alloc: Global) -> Result<Rows, Refusal>
    ensures { IfOk result (λ rows. rows ≡ two_rooms) }
{
    let Ok(mut rows) = Rows::new(alloc, 1) else {
        return Err(Refusal::OutOfMemory);
    };
    carry_out(alloc, &mut rows, &room(1))?;
    carry_out(alloc, &mut rows, &room(2))?;
    carry_out(alloc, &mut rows, &member(10, 1, 5000, 9001))?;
    carry_out(alloc, &mut rows, &member(11, 1, 5001, 9002))?;
    carry_out(alloc, &mut rows, &member(12, 2, 5002, 9003))?;
    carry_out(alloc, &mut rows, &source(103, 12, Media::Video))?;
    carry_out(alloc, &mut rows, &source(101, 10, Media::Video))?;
    carry_out(alloc, &mut rows, &source(102, 10, Media::Audio))?;
    carry_out(alloc, &mut rows, &slot(502, 12, 0))?;
    carry_out(alloc, &mut rows, &slot(501, 11, 0))?;
    carry_out(alloc, &mut rows, &subscribe(501, 101))?;
    Ok(rows)
}

/// A slot that has a source is given another one in its stead.
pub fn subscribe_anew(alloc: Global, rows: &mut Rows) -> Result<(), Refusal>
    requires { rows.old ≡ two_rooms }
    ensures { OnOk result (rows.new ≡ other_source) }
{
    carry_out(alloc, rows, &source(104, 10, Media::Video))?;
    carry_out(alloc, rows, &subscribe(501, 104))
}

/// Removing the first room removes the sub of a slot of one of its members, three steps on. A row that stays doesn't
/// depend on the room.
pub fn dependents()
    ensures sub { IsDependent two_rooms (RoomKey 1) (sub 501 101) }
    ensures other_source { ¬ (IsDependent two_rooms (RoomKey 1) (video 103 12)) }
{
    dependent_rows_go()
}
