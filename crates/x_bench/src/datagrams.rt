//! Datagrams of video sources, one after another.

use crate::asking::Order;
use crate::items::address_of;
use crate::room::{add_source, core_of_slots};
use crate::tally::Tally;
use bridge_core::{Core, Outcome};
use desk_rows::Media;
use std::alloc::Global;
use std::io;

/// The first source that sends.
const FIRST_SOURCE: u32 = 1_000;

/// The octets of a payload.
pub const PAYLOAD: usize = 1_200;

/// The octets of a datagram: the fixed header and a payload.
const DATAGRAM: usize = 12 + PAYLOAD;

/// A bridge with this many more sources of member 0.
fn core_of(alloc: Global, sources: u16) -> io::Result<Core> {
    let mut core = core_of_slots(alloc, 1)?;
    for source in 0..sources {
        let ssrc = FIRST_SOURCE + u32::from(source);
        add_source(alloc, &mut core, ssrc, 0, Media::Video)?;
    }
    Ok(core)
}

/// Writes the header of a datagram: the sources take turns, and each counts on. So many packets are a
/// frame.
fn write_header(octets: &mut [u8; DATAGRAM], time: u64, sources: u16, packets: u16) {
    let sources = u64::from(sources.max(1));
    let packets = u64::from(packets.max(1));
    let number = time / sources;
    let ends = number % packets == packets - 1;
    let seq = (number % 65_536) as u16;
    let ts = (number / packets % 1_000_000) as u32;
    let [seq_high, seq_low] = seq.to_be_bytes();
    let [ts_0, ts_1, ts_2, ts_3] = (ts * 3_000).to_be_bytes();
    let [ssrc_0, ssrc_1, ssrc_2, ssrc_3] = (FIRST_SOURCE + (time % sources) as u32).to_be_bytes();
    octets[0] = 0x80;
    octets[1] = if ends { 0xe4 } else { 0x64 };
    octets[2] = seq_high;
    octets[3] = seq_low;
    octets[4] = ts_0;
    octets[5] = ts_1;
    octets[6] = ts_2;
    octets[7] = ts_3;
    octets[8] = ssrc_0;
    octets[9] = ssrc_1;
    octets[10] = ssrc_2;
    octets[11] = ssrc_3;
}

/// Hands the core so many datagrams that come from the address of a member, and counts those that are
/// accepted.
pub fn taken(alloc: Global, order: &Order, from: u16) -> io::Result<Tally> {
    let mut core = core_of(alloc, order.slots)?;
    let mut octets = [0xee; DATAGRAM];
    let mut tally = Tally::new();
    for time in 0..order.times {
        write_header(&mut octets, time, order.slots, order.packets);
        let taken = core.datagram(alloc, &address_of(from), time, &octets)?;
        if let Outcome::Accepted { .. } = taken.received.outcome {
            tally.count(DATAGRAM);
        }
    }
    Ok(tally)
}
