//! What is asked of a desk.

ghost use Rattle.std.specs.Prelude.{◌≡◌, true, false, None, Some, [], ◌∷◌, IfOk, filter, nat_eq};
ghost use Rattle.desk_rows.specs.declared.row.Codec.TheVariants.{L16};
ghost use Rattle.desk_rows.specs.Desk.{blank};
ghost use Rattle.worked_desk.specs.Rows.{member, room, video, audio, slot, sub};
ghost use Rattle.worked_desk.specs.TwoRooms.{two_rooms, ten, eleven, twelve};
ghost use Rattle.worked_desk.specs.FullDesks.{of_members};

use desk_rows::{Key, Kind, Member, Row, Rows, Slot, Sub};
use rtp_codec::Address;
use std::alloc::{AllocError, Global};

/// A desk begins without rows.
pub fn new(alloc: Global) -> Result<Rows, AllocError>
    ensures { IfOk result (λ rows. rows ≡ record { bridge_ssrc = 77; members = []; others = [] }) }
{
    Rows::new(alloc, 77)
}

pub fn copy(alloc: Global, rows: &Rows) -> Result<Rows, AllocError>
    requires { rows.now ≡ two_rooms }
    ensures { IfOk result (λ copy. copy ≡ two_rooms) }
{
    rows.copy(alloc)
}

pub fn bridge_ssrc(rows: &Rows) -> u32
    requires { rows.now ≡ two_rooms }
    ensures { result ≡ 1 }
{
    rows.bridge_ssrc()
}

pub fn members(rows: &Rows) -> &[Member]
    requires { rows.now ≡ two_rooms }
    ensures { result.now ≡ ten ∷ eleven ∷ twelve ∷ [] }
{
    rows.members()
}

/// A row is found by its kind and its number, whichever of them is first or last.
pub fn find(rows: &Rows, key: &Key) -> Option<Row>
    requires { rows.now ≡ two_rooms }
    ensures room { key.now ≡ Key.Room 2 → result ≡ Some (room 2) }
    ensures first_member { key.now ≡ Key.Member 10 → result ≡ Some (Row.Member ten) }
    ensures last_member { key.now ≡ Key.Member 12 → result ≡ Some (Row.Member twelve) }
    ensures source { key.now ≡ Key.Source 102 → result ≡ Some (audio 102 10) }
    ensures slot { key.now ≡ Key.Slot 501 → result ≡ Some (slot 501 11 0) }
    ensures last_row { key.now ≡ Key.Sub 501 → result ≡ Some (sub 501 101) }
    ensures no_room { key.now ≡ Key.Room 3 → result ≡ None }
    ensures no_member { key.now ≡ Key.Member 1 → result ≡ None }
    ensures slot_is_no_source { key.now ≡ Key.Source 501 → result ≡ None }
    ensures slot_without_sub { key.now ≡ Key.Sub 502 → result ≡ None }
{
    rows.find(key)
}

pub fn find_in_an_empty_desk(rows: &Rows, key: &Key) -> Option<Row>
    requires { rows.now ≡ blank 1 }
    ensures member { key.now ≡ Key.Member 10 → result ≡ None }
    ensures room { key.now ≡ Key.Room 0 → result ≡ None }
{
    rows.find(key)
}

/// A row is held as it stands, and not with another value in any field.
pub fn holds(rows: &Rows, row: &Row) -> bool
    requires { rows.now ≡ two_rooms }
    ensures room { row.now ≡ room 1 → result ≡ true }
    ensures member { row.now ≡ Row.Member eleven → result ≡ true }
    ensures source { row.now ≡ video 101 10 → result ≡ true }
    ensures slot { row.now ≡ slot 502 12 0 → result ≡ true }
    ensures sub { row.now ≡ sub 501 101 → result ≡ true }
    ensures other_number { row.now ≡ Row.Member (member 13 1 5001 9002) → result ≡ false }
    ensures other_room { row.now ≡ Row.Member (member 11 2 5001 9002) → result ≡ false }
    ensures other_address { row.now ≡ Row.Member (member 11 1 5000 9002) → result ≡ false }
    ensures other_mix { row.now ≡ Row.Member (member 11 1 5001 9001) → result ≡ false }
    ensures other_codec { row.now ≡ Row.Member (record eleven { codec = L16 }) → result ≡ false }
    ensures other_seq { row.now ≡ Row.Member (record eleven { first_seq = 1 }) → result ≡ false }
    ensures other_ts { row.now ≡ Row.Member (record eleven { first_ts = 1 }) → result ≡ false }
    ensures audio_for_video { row.now ≡ audio 101 10 → result ≡ false }
    ensures other_sender { row.now ≡ video 101 11 → result ≡ false }
    ensures other_index { row.now ≡ slot 502 12 1 → result ≡ false }
    ensures other_receiver { row.now ≡ slot 502 11 0 → result ≡ false }
    ensures other_source { row.now ≡ sub 501 103 → result ≡ false }
{
    rows.holds(row)
}

pub fn count(rows: &Rows, kind: Kind) -> usize
    requires { rows.now ≡ two_rooms }
    ensures rooms { kind ≡ Kind.Room → result ≡ 2 }
    ensures members { kind ≡ Kind.Member → result ≡ 3 }
    ensures sources { kind ≡ Kind.Source → result ≡ 3 }
    ensures slots { kind ≡ Kind.Slot → result ≡ 2 }
    ensures subs { kind ≡ Kind.Sub → result ≡ 1 }
{
    rows.count(kind)
}

pub fn count_in_an_empty_desk(rows: &Rows, kind: Kind) -> usize
    requires { rows.now ≡ blank 1 }
    ensures rooms { kind ≡ Kind.Room → result ≡ 0 }
    ensures members { kind ≡ Kind.Member → result ≡ 0 }
{
    rows.count(kind)
}

pub fn count_of_all_members(rows: &Rows) -> usize
    requires { rows.now ≡ of_members 1024 }
    ensures { result ≡ 1024 }
{
    rows.count(Kind::Member)
}

/// Members come in joining order, all other rows by their keys, and nothing behind the last.
pub fn at(rows: &Rows, kind: Kind, i: usize) -> Option<Row>
    requires { rows.now ≡ two_rooms }
    ensures first_member { kind ≡ Kind.Member → i ≡ 0 → result ≡ Some (Row.Member ten) }
    ensures second_member { kind ≡ Kind.Member → i ≡ 1 → result ≡ Some (Row.Member eleven) }
    ensures no_fourth_member { kind ≡ Kind.Member → i ≡ 3 → result ≡ None }
    ensures second_source { kind ≡ Kind.Source → i ≡ 1 → result ≡ Some (audio 102 10) }
    ensures last_slot { kind ≡ Kind.Slot → i ≡ 1 → result ≡ Some (slot 502 12 0) }
    ensures no_third_slot { kind ≡ Kind.Slot → i ≡ 2 → result ≡ None }
    ensures far_behind { kind ≡ Kind.Sub → i ≡ 4294967296 → result ≡ None }
{
    rows.at(kind, i)
}

pub fn others_of(rows: &Rows, kind: Kind) -> &[Row]
    requires { rows.now ≡ two_rooms }
    ensures rooms { kind ≡ Kind.Room → result.now ≡ room 1 ∷ room 2 ∷ [] }
    ensures members { kind ≡ Kind.Member → result.now ≡ [] }
    ensures sources { kind ≡ Kind.Source → result.now ≡ video 101 10 ∷ audio 102 10 ∷ video 103 12 ∷ [] }
    ensures slots { kind ≡ Kind.Slot → result.now ≡ slot 501 11 0 ∷ slot 502 12 0 ∷ [] }
    ensures subs { kind ≡ Kind.Sub → result.now ≡ sub 501 101 ∷ [] }
{
    rows.others_of(kind)
}

/// Places count from 0, over the members of all rooms.
pub fn place_of(rows: &Rows, member: u32) -> Option<usize>
    requires { rows.now ≡ two_rooms }
    ensures first { member ≡ 10 → result ≡ Some 0 }
    ensures last { member ≡ 12 → result ≡ Some 2 }
    ensures none { member ≡ 13 → result ≡ None }
{
    rows.place_of(member)
}

/// A member is found at its address alone, port and all.
pub fn member_at_address(rows: &Rows, address: &Address) -> Option<Member>
    requires { rows.now ≡ two_rooms }
    ensures first { address.now ≡ ten.address → result ≡ Some ten }
    ensures last { address.now ≡ twelve.address → result ≡ Some twelve }
    ensures other_port { address.now ≡ record ten.address { port = 5003 } → result ≡ None }
    ensures other_ip { address.now ≡ record ten.address { ip = 10 ∷ 0 ∷ 1 ∷ 0 ∷ [] } → result ≡ None }
{
    rows.member_at_address(address)
}

/// The subscriptions of a source are those that name it.
pub fn subs_of(rows: &Rows, source: u32) -> &[Sub]
    requires { rows.now ≡ two_rooms }
    ensures named { source ≡ 101 → result.now ≡ record { out_ssrc = 501; source = 101 } ∷ [] }
    ensures of_a_slot { source ≡ 501 → result.now ≡ [] }
    ensures unnamed { source ≡ 103 → result.now ≡ [] }
{
    rows.subs_of(source)
}

/// The slots of a member are its own alone.
pub fn slots_of(rows: &Rows, member: u32) -> &[Slot]
    requires { rows.now ≡ two_rooms }
    ensures one { member ≡ 12
        → filter (λ s. nat_eq s.index 0) result.now
        ≡ record { out_ssrc = 502; member = 12; index = 0; first_seq = 65535; first_ts = 1000 } ∷ [] }
    ensures no_second { member ≡ 12 → filter (λ s. nat_eq s.index 1) result.now ≡ [] }
    ensures none { member ≡ 10 → filter (λ s. nat_eq s.index 0) result.now ≡ [] }
{
    rows.slots_of(member)
}

/// The members of a room are those who are in it, each once.
pub fn members_of(rows: &Rows, room: u32) -> &[Member]
    requires { rows.now ≡ two_rooms }
    ensures one { room ≡ 1 → filter (λ m. nat_eq m.member 11) result.now ≡ eleven ∷ [] }
    ensures elsewhere { room ≡ 1 → filter (λ m. nat_eq m.member 12) result.now ≡ [] }
    ensures none { room ≡ 3 → filter (λ m. nat_eq m.member 10) result.now ≡ [] }
{
    rows.members_of(room)
}

/// A roster has the numbers of a room's members in joining order.
pub fn roster(alloc: Global, rows: &Rows, room: u32) -> Result<Vec<u32>, AllocError>
    requires { rows.now ≡ two_rooms }
    ensures two { room ≡ 1 → IfOk result (λ numbers. numbers.items ≡ 10 ∷ 11 ∷ []) }
    ensures one { room ≡ 2 → IfOk result (λ numbers. numbers.items ≡ 12 ∷ []) }
    ensures no_such_room { room ≡ 10 → IfOk result (λ numbers. numbers.items ≡ []) }
{
    rows.roster(alloc, room)
}
