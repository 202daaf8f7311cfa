//! What becomes of the datagrams of a lane's wire.

use lane_wire::SendFault;

/// What becomes of a datagram: the wire isn't ready for so many tries, and then it answers this.
#[derive(Clone, Copy)]
pub struct Fate {
    pub unready: u64,
    pub answer: Result<(), SendFault>,
}

/// Numbers that a seed gives (splitmix64).
fn mixed(seed: u64) -> u64 {
    let state = seed.wrapping_mul(0x9e37_79b9_7f4a_7c15);
    let state = (state ^ (state >> 30)).wrapping_mul(0xbf58_476d_1ce4_e5b9);
    let state = (state ^ (state >> 27)).wrapping_mul(0x94d0_49bb_1331_11eb);
    state ^ (state >> 31)
}

/// The fate of the datagram of a lane that has this number. By the seed 0 each is sent at once.
pub fn fate_of(seed: u64, number: u64) -> Fate {
    let random = mixed(seed.wrapping_add(number));
    let kind = if seed == 0 { 99 } else { random % 100 };
    let answer = match kind {
        0 => Err(SendFault::Denied),
        1 => Err(SendFault::Refused),
        2 => Err(SendFault::Unreachable),
        3 => Err(SendFault::TooLong),
        4 => Err(SendFault::Other),
        _ => Ok(()),
    };
    let unready = match kind {
        4..=9 => random / 100 % 23,
        10..=11 => 1_000,
        _ => 0,
    };
    Fate { unready, answer }
}
