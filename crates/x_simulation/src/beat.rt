//! The beat: a picture that every lane sends in each round, so that it is known where a lane stops.

use crate::datagram::Datagram;
use rtp_codec::Address;
use std::alloc::{AllocError, Global};

/// Its source.
pub const BEAT: u32 = 10;
/// The first slot that shows it. There is one for each lane.
const BEAT_SLOT: u32 = 24;

/// The line that makes its room, its sender, and a member to whom each of so many lanes sends it.
pub fn beat_line(alloc: Global, lanes: u32) -> Result<String, AllocError> {
    let mut line = String::from_str(
        alloc,
        "group add-room 1 / add-member 1 1 10.0.0.1:5000 l16 11 0 0",
    )?;
    line.push_str(" / add-member 2 1 10.0.0.2:5000 l16 12 0 0 / add-source 10 2 video")?;
    for lane in 0..lanes {
        let slot = BEAT_SLOT.saturating_add(lane);
        let text = format!(in alloc; " / add-slot {slot} 1 {lane} 0 0 / subscribe {slot} {BEAT}")?;
        line.push_str(text.as_str())?;
    }
    Ok(line)
}

/// Its frame of this number, which is a packet.
pub fn beat_frame(alloc: Global, number: u32) -> Result<Datagram, AllocError> {
    let [_, _, high, low] = number.wrapping_add(65_530).to_be_bytes();
    let mut octets = Vec::from_slice(alloc, &[0x80, 0xe4, high, low])?;
    octets.extend_from_slice(&number.wrapping_mul(1_800).to_be_bytes())?;
    octets.extend_from_slice(&BEAT.to_be_bytes())?;
    octets.push(7)?;
    let address = Address {
        ip: [10, 0, 0, 2],
        port: 5_000,
    };
    Ok(Datagram::new(address, octets))
}
