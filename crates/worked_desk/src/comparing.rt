//! Rows and keys one by one.

ghost use Rattle.std.specs.Prelude.{◌≡◌, true, false};
ghost use Rattle.worked_desk.specs.Rows.{member, room, video, audio, slot, sub};
ghost use Rattle.worked_desk.specs.TwoRooms.{eleven};

use desk_rows::{Claim, Key, Kind, Media, Row};

/// A row's key is its kind and its own number.
pub fn key(row: &Row) -> Key
    ensures room { row.now ≡ room 7 → result ≡ Key.Room 7 }
    ensures member { row.now ≡ Row.Member eleven → result ≡ Key.Member 11 }
    ensures source { row.now ≡ video 101 10 → result ≡ Key.Source 101 }
    ensures slot { row.now ≡ slot 501 11 0 → result ≡ Key.Slot 501 }
    ensures sub { row.now ≡ sub 501 101 → result ≡ Key.Sub 501 }
{
    row.key()
}

/// Keys are the same where kind and number are.
pub fn is_same_key(key: Key, other: Key) -> bool
    ensures same { key ≡ Key.Slot 501 → other ≡ Key.Slot 501 → result ≡ true }
    ensures other_kind { key ≡ Key.Slot 501 → other ≡ Key.Sub 501 → result ≡ false }
    ensures other_number { key ≡ Key.Slot 501 → other ≡ Key.Slot 502 → result ≡ false }
{
    key.is_same(other)
}

pub fn has_key(row: &Row, key: Key) -> bool
    requires { row.now ≡ slot 501 11 0 }
    ensures its_own { key ≡ Key.Slot 501 → result ≡ true }
    ensures other_slot { key ≡ Key.Slot 502 → result ≡ false }
    ensures its_member { key ≡ Key.Slot 11 → result ≡ false }
    ensures its_sub { key ≡ Key.Sub 501 → result ≡ false }
{
    row.has_key(key)
}

/// Rows are the same where each field is.
pub fn is_same(row: &Row, other: &Row) -> bool
    requires { row.now ≡ sub 501 101 }
    ensures same { other.now ≡ sub 501 101 → result ≡ true }
    ensures other_source { other.now ≡ sub 501 103 → result ≡ false }
    ensures other_slot { other.now ≡ sub 502 101 → result ≡ false }
    ensures other_kind { other.now ≡ room 501 → result ≡ false }
{
    row.is_same(other)
}

pub fn is_same_media(media: Media, other: Media) -> bool
    ensures audio { media ≡ Media.Audio → other ≡ Media.Audio → result ≡ true }
    ensures video { media ≡ Media.Video → other ≡ Media.Video → result ≡ true }
    ensures video_is_no_audio { media ≡ Media.Video → other ≡ Media.Audio → result ≡ false }
    ensures audio_is_no_video { media ≡ Media.Audio → other ≡ Media.Video → result ≡ false }
{
    media.is_same(other)
}

/// Rooms stand before members, members before sources, sources before slots and slots before subs,
/// and rows of one kind by their numbers.
pub fn precedes(row: &Row, other: &Row) -> bool
    ensures room_and_member { row.now ≡ room 12 → other.now ≡ Row.Member eleven → result ≡ true }
    ensures member_and_source { row.now ≡ Row.Member eleven → other.now ≡ audio 1 10 → result ≡ true }
    ensures source_and_slot { row.now ≡ audio 900 10 → other.now ≡ slot 501 11 0 → result ≡ true }
    ensures slot_and_sub { row.now ≡ slot 502 12 0 → other.now ≡ sub 501 101 → result ≡ true }
    ensures sub_and_slot { row.now ≡ sub 501 101 → other.now ≡ slot 502 12 0 → result ≡ false }
    ensures by_number { row.now ≡ slot 501 12 1 → other.now ≡ slot 502 11 0 → result ≡ true }
    ensures by_number_back { row.now ≡ slot 502 11 0 → other.now ≡ slot 501 12 1 → result ≡ false }
    ensures itself { row.now ≡ room 1 → other.now ≡ room 1 → result ≡ false }
{
    row.precedes(other)
}

pub fn is_of(row: &Row, kind: Kind) -> bool
    ensures room { row.now ≡ room 1 → kind ≡ Kind.Room → result ≡ true }
    ensures member { row.now ≡ Row.Member eleven → kind ≡ Kind.Member → result ≡ true }
    ensures source { row.now ≡ audio 102 10 → kind ≡ Kind.Source → result ≡ true }
    ensures slot { row.now ≡ slot 501 11 0 → kind ≡ Kind.Slot → result ≡ true }
    ensures sub { row.now ≡ sub 501 101 → kind ≡ Kind.Sub → result ≡ true }
    ensures slot_is_no_sub { row.now ≡ slot 501 11 0 → kind ≡ Kind.Sub → result ≡ false }
    ensures sub_is_no_slot { row.now ≡ sub 501 101 → kind ≡ Kind.Slot → result ≡ false }
{
    row.is_of(kind)
}

/// A source, a slot and a member's mix have their SSRCs to themselves, a member its address, and a
/// slot its place.
pub fn makes(row: &Row, claim: &Claim) -> bool
    ensures source { row.now ≡ video 101 10 → claim.now ≡ Claim.Ssrc 101 → result ≡ true }
    ensures slot { row.now ≡ slot 501 11 0 → claim.now ≡ Claim.Ssrc 501 → result ≡ true }
    ensures mix { row.now ≡ Row.Member eleven → claim.now ≡ Claim.Ssrc 9002 → result ≡ true }
    ensures slots_member { row.now ≡ slot 501 11 0 → claim.now ≡ Claim.Ssrc 11 → result ≡ false }
    ensures sub { row.now ≡ sub 501 101 → claim.now ≡ Claim.Ssrc 501 → result ≡ false }
    ensures place { row.now ≡ slot 501 11 3 → claim.now ≡ Claim.Place 11 3 → result ≡ true }
    ensures other_place { row.now ≡ slot 501 11 3 → claim.now ≡ Claim.Place 11 0 → result ≡ false }
    ensures key { row.now ≡ room 7 → claim.now ≡ Claim.Key (Key.Room 7) → result ≡ true }
    ensures other_key { row.now ≡ room 7 → claim.now ≡ Claim.Key (Key.Slot 7) → result ≡ false }
{
    row.makes(claim)
}

/// An address is the octets of its IP and its port.
pub fn claims_address(row: &Row, claim: &Claim) -> bool
    requires { row.now ≡ Row.Member eleven }
    ensures its_own { claim.now ≡ Claim.Address eleven.address → result ≡ true }
    ensures other_port { claim.now ≡ Claim.Address (record eleven.address { port = 5000 }) → result ≡ false }
{
    row.makes(claim)
}
