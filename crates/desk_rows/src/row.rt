//! The kinds of rows.

ghost use Rattle.std.specs.Prelude.{◌≡◌};
ghost use Rattle.desk_rows.specs.Few.{listed};
ghost use Rattle.desk_rows.specs.Kinds.{is_of};
ghost use Rattle.desk_rows.specs.Row.{key_of, has_key, names, wants, carries, suits, is_in_range, other_claims, makes};

use crate::claim::Claim;
use crate::few::Few;
use crate::key::{Key, Kind};
use crate::limits::{MAX_GAIN, MAX_INDEX};
use rtp_codec::Address;

/// The clock rate of a room's audio where none is asked for, in Hz.
pub const DEFAULT_RATE: u32 = 8_000;

/// The clock rate of the audio of a room for music, in Hz.
pub const MUSIC_RATE: u32 = 44_100;

/// How a member's mix is encoded.
#[derive(Clone, Copy, PartialEq, Eq)]
pub enum Codec {
    /// G.711 mu-law, payload type 0 (RFC 3551 section 4.5.14).
    Pcmu,
    /// 16-bit linear samples (RFC 3551 section 4.5.11).
    L16,
}

/// What a source sends.
#[derive(Clone, Copy, PartialEq, Eq)]
pub enum Media {
    /// Samples.
    Audio,
    /// Pictures.
    Video,
}

/// A room, within which members hear and see each other.
#[derive(Clone, Copy, PartialEq, Eq)]
pub struct Room {
    /// The room's number.
    pub room: u32,
    /// The clock rate of its audio, 8000 or 44100 Hz. At 44100 Hz all audio is L16.
    pub rate: u32,
}

/// A member of a room, with its address and its mix, an outgoing audio stream.
#[derive(Clone, Copy, PartialEq, Eq)]
pub struct Member {
    /// The member's number.
    pub member: u32,
    /// The room that it is in.
    pub room: u32,
    /// The address that it sends from, and that it is sent to. The port is not 0.
    pub address: Address,
    /// How its mix is encoded. A room at 44100 Hz has L16 alone.
    pub codec: Codec,
    /// The SSRC of the mix.
    pub out_audio: u32,
    /// The sequence number of the mix's first packet.
    pub first_seq: u16,
    /// The RTP timestamp of the mix's first packet, at the room's rate.
    pub first_ts: u32,
}

/// A source: what a member sends under one SSRC.
#[derive(Clone, Copy, PartialEq, Eq)]
pub struct Source {
    /// The SSRC of the source.
    pub ssrc: u32,
    /// The member that sends it.
    pub member: u32,
    /// Whether it is audio or video.
    pub media: Media,
}

/// A slot: an outgoing video stream of a member.
#[derive(Clone, Copy, PartialEq, Eq)]
pub struct Slot {
    /// The SSRC of the outgoing stream.
    pub out_ssrc: u32,
    /// The member that gets the stream.
    pub member: u32,
    /// The slot's index among those of its member, 0 to 15.
    pub index: u32,
    /// The sequence number of the stream's first packet.
    pub first_seq: u16,
    /// The RTP timestamp of the stream's first frame, at 90000 Hz.
    pub first_ts: u32,
}

/// A slot's subscription to a video source.
#[derive(Clone, Copy, PartialEq, Eq)]
pub struct Sub {
    /// The SSRC of the slot's stream.
    pub out_ssrc: u32,
    /// The SSRC of the source.
    pub source: u32,
}

/// A mute: nobody hears or sees the source.
#[derive(Clone, Copy, PartialEq, Eq)]
pub struct Mute {
    /// The SSRC of the source.
    pub source: u32,
}

/// A gain: how loud a member hears an audio source.
#[derive(Clone, Copy, PartialEq, Eq)]
pub struct Gain {
    /// The member that hears.
    pub member: u32,
    /// The SSRC of the source.
    pub source: u32,
    /// The gain in 256ths, 0 to 1,024.
    pub q8: u32,
}

/// A pin: the video source for the room's slots of index 0 that have no subscription.
#[derive(Clone, Copy, PartialEq, Eq)]
pub struct Pin {
    /// The room.
    pub room: u32,
    /// The SSRC of the source.
    pub source: u32,
}

/// A floor: the member whose first video source a room shows if it has no pin.
#[derive(Clone, Copy, PartialEq, Eq)]
pub struct Floor {
    /// The room.
    pub room: u32,
    /// The member that has the floor.
    pub member: u32,
}

/// A row of any kind.
#[derive(Clone, Copy, PartialEq, Eq)]
pub enum Row {
    Room(Room),
    Member(Member),
    Source(Source),
    Slot(Slot),
    Sub(Sub),
    Mute(Mute),
    Gain(Gain),
    Pin(Pin),
    Floor(Floor),
}

impl Codec {
    /// Whether a room of this clock rate, in Hz, carries the codec. PCMU is at 8000 Hz alone (RFC 3551 section 4.5.14).
    pub fn is_carried(self, rate: u32) -> bool
        ensures { result ≡ carries rate self }
    {
        match self {
            Codec::Pcmu => rate == DEFAULT_RATE,
            Codec::L16 => true,
        }
    }
}

impl Row {
    /// The row's key.
    pub fn key(&self) -> Key
        ensures { result ≡ key_of self.now }
    {
        match self {
            Row::Room(room) => Key::Room(room.room),
            Row::Member(member) => Key::Member(member.member),
            Row::Source(source) => Key::Source(source.ssrc),
            Row::Slot(slot) => Key::Slot(slot.out_ssrc),
            Row::Sub(sub) => Key::Sub(sub.out_ssrc),
            Row::Mute(mute) => Key::Mute(mute.source),
            Row::Gain(gain) => Key::Gain {
                member: gain.member,
                source: gain.source,
            },
            Row::Pin(pin) => Key::Pin(pin.room),
            Row::Floor(floor) => Key::Floor(floor.room),
        }
    }

    /// The keys of the rows that this row names, by rising kind.
    pub fn names(&self) -> Few<Key>
        ensures { listed result ≡ names self.now }
    {
        match self {
            Row::Room(_) => Few::Nothing,
            Row::Member(member) => Few::One(Key::Room(member.room)),
            Row::Source(source) => Few::One(Key::Member(source.member)),
            Row::Slot(slot) => Few::One(Key::Member(slot.member)),
            Row::Sub(sub) => Few::Two(Key::Source(sub.source), Key::Slot(sub.out_ssrc)),
            Row::Mute(mute) => Few::One(Key::Source(mute.source)),
            Row::Gain(gain) => Few::Two(Key::Member(gain.member), Key::Source(gain.source)),
            Row::Pin(pin) => Few::Two(Key::Room(pin.room), Key::Source(pin.source)),
            Row::Floor(floor) => Few::Two(Key::Room(floor.room), Key::Member(floor.member)),
        }
    }

    /// Whether the row that was found under a name suits this row: a subscription and a pin name video, a gain audio,
    /// and a member a room that carries its codec.
    // The definition has three wants (`Want`) and one rule that compares a want with the row that was found, so that
    // proofs on good desks have one rule for all kinds.
    pub(crate) fn suits(&self, found: Option<Row>) -> bool
        ensures { result ≡ suits (wants self.now) found }
    {
        match (self, found) {
            (Row::Sub(_) | Row::Pin(_), Some(Row::Source(source))) => source
                .media
                .is_same(Media::Video),
            (Row::Gain(_), Some(Row::Source(source))) => source.media.is_same(Media::Audio),
            (Row::Member(member), Some(Row::Room(room))) => member.codec.is_carried(room.rate),
            _ => true,
        }
    }

    /// Whether its values are in range: a room's rate is 8000 or 44100, a port is not 0, a slot's index is at most 15,
    /// and a gain is at most 1,024.
    pub fn is_in_range(&self) -> bool
        ensures { result ≡ is_in_range self.now }
    {
        match self {
            Row::Room(room) => room.rate == DEFAULT_RATE || room.rate == MUSIC_RATE,
            Row::Member(member) => member.address.port != 0,
            Row::Slot(slot) => slot.index <= MAX_INDEX,
            Row::Gain(gain) => gain.q8 <= MAX_GAIN,
            Row::Source(_) | Row::Sub(_) | Row::Mute(_) | Row::Pin(_) | Row::Floor(_) => true,
        }
    }

    /// The values beside its key that no other row may have.
    pub fn claims(&self) -> Few<Claim>
        ensures { listed result ≡ other_claims self.now }
    {
        match self {
            Row::Member(member) => {
                Few::Two(
                    Claim::Address(member.address),
                    Claim::Ssrc(member.out_audio),
                )
            }
            Row::Source(source) => Few::One(Claim::Ssrc(source.ssrc)),
            Row::Slot(slot) => Few::Two(
                Claim::Ssrc(slot.out_ssrc),
                Claim::Place {
                    member: slot.member,
                    index: slot.index,
                },
            ),
            Row::Room(_)
            | Row::Sub(_)
            | Row::Mute(_)
            | Row::Gain(_)
            | Row::Pin(_)
            | Row::Floor(_) => Few::Nothing,
        }
    }

    /// Whether this is the row's key.
    pub fn has_key(&self, key: Key) -> bool
        ensures { result ≡ has_key key self.now }
    {
        self.key().is_same(key)
    }

    /// Whether the row is of this kind.
    pub fn is_of(&self, kind: Kind) -> bool
        ensures { result ≡ is_of kind self.now }
    {
        self.key().kind().rank() == kind.rank()
    }

    /// Whether the row makes this claim.
    pub fn makes(&self, claim: &Claim) -> bool
        ensures { result ≡ makes claim.now self.now }
    {
        match claim {
            Claim::Key(key) => self.has_key(*key),
            _ => claim.is_among(self.claims()),
        }
    }
}
