//! What the arguments ask for.

use std::io;

/// What is done again and again.
#[derive(Clone, Copy)]
pub enum Case {
    /// A frame goes to 16 receivers.
    Frame,
    /// A frame of a source that no slot has.
    Nobody,
    /// A NACK asks for all 512 packets of a full window.
    Nack,
    /// The same 512 numbers are looked up in the stream alone.
    Find,
    /// Video packets of so many sources in turn come in, and the frames that they make are seen by nobody.
    Datagram,
    /// The same, from an address where there is no member.
    Elsewhere,
    /// Each of so many members speaks, and a tick sends each the mix of the others.
    Tick,
    /// The same in a room of 44100 Hz.
    Music,
    /// The same speech and tick, where nobody is in the room.
    Sound,
    /// The same music and tick, where nobody is in the room.
    Played,
    /// The tick alone, where nobody is in the room.
    Silence,
    /// The same, where music was played.
    Paused,
    /// 160 samples are encoded.
    Encode,
    /// 160 octets are decoded.
    Decode,
    /// The yardstick: as many octets as 16 receivers of a frame get are copied into fresh vectors,
    /// which are let go together.
    Copy,
    /// The yardstick where each vector is kept until 16 windows are full of later ones.
    Keep,
    /// The yardstick of datagrams: as many octets as their payloads have, copied into fresh vectors that are
    /// kept until the frame is whole.
    Await,
    /// A reader enters a published desk, and leaves it.
    Enter,
}

/// A case, how often it is done, on a desk of how many slots, sources or members, and with how many packets
/// in a frame.
#[derive(Clone, Copy)]
pub struct Order {
    /// What is done.
    pub case: Case,
    /// How often it is done, from 1 on.
    pub times: u64,
    /// How many slots, sources or members the desk has.
    pub slots: u16,
    /// How many packets a frame has, 1 to 256.
    pub packets: u16,
}

/// A few frames.
pub const FRAMES: Order = Order {
    case: Case::Frame,
    times: 3,
    slots: 20,
    packets: 4,
};

/// The case of this name.
fn case_of(word: &str) -> Option<Case> {
    match word {
        "frame" => Some(Case::Frame),
        "nobody" => Some(Case::Nobody),
        "nack" => Some(Case::Nack),
        "find" => Some(Case::Find),
        "datagram" => Some(Case::Datagram),
        "elsewhere" => Some(Case::Elsewhere),
        "tick" => Some(Case::Tick),
        "music" => Some(Case::Music),
        "sound" => Some(Case::Sound),
        "played" => Some(Case::Played),
        "silence" => Some(Case::Silence),
        "paused" => Some(Case::Paused),
        "encode" => Some(Case::Encode),
        "decode" => Some(Case::Decode),
        "copy" => Some(Case::Copy),
        "keep" => Some(Case::Keep),
        "await" => Some(Case::Await),
        "enter" => Some(Case::Enter),
        _ => None,
    }
}

/// The order in these words.
fn order_of(case: &str, times: &str, slots: &str, packets: &str) -> Option<Order> {
    Some(Order {
        case: case_of(case)?,
        times: times.parse().ok()?,
        slots: slots.parse().ok()?,
        packets: packets.parse().ok()?,
    })
}

/// The order in the words behind the program's name.
pub fn asked(
    case: Option<&str>,
    times: Option<&str>,
    slots: Option<&str>,
    packets: Option<&str>,
) -> io::Result<Order> {
    let order = match (case, times, slots, packets) {
        (Some(case), Some(times), Some(slots), Some(packets)) => {
            order_of(case, times, slots, packets)
        }
        _ => None,
    };
    order.ok_or(io::Error::other(
        "usage: x_bench check|run, or x_bench frame|nobody|nack|find|datagram|elsewhere|tick|music|sound|played|\
         silence|paused|encode|decode|copy|keep|await|enter TIMES SLOTS PACKETS",
    ))
}
