//! What a bridge leaves behind, as the clause `whole` of `Front::run` has it: what its front read, was told and tried,
//! and what each of its lanes was asked to send.
//!
//! A list stands as one number, which any other list has by chance alone (FNV-1a, 64 bits).

use crate::datagram::Datagram;

/// The number of a list without elements.
pub const NOTHING: u64 = 0xcbf2_9ce4_8422_2325;

/// What a number is multiplied with.
const PRIME: u64 = 0x0000_0100_0000_01b3;

/// The number of a list with a moment behind it, by its own.
pub fn with_moment(list: u64, moment: u64) -> u64 {
    (list ^ moment).wrapping_mul(PRIME)
}

/// The number of a list with a datagram behind it, by its own.
pub fn with_datagram(list: u64, datagram: &Datagram) -> u64 {
    let address = datagram.address;
    let mut list = with_moment(list, u64::from(u32::from_be_bytes(address.ip)));
    list = with_moment(list, u64::from(address.port));
    list = with_moment(list, datagram.version);
    list = with_moment(list, datagram.octets.len() as u64);
    for octet in &datagram.octets {
        list = with_moment(list, u64::from(*octet));
    }
    list
}

/// What a front leaves behind.
#[derive(Clone, Copy, Debug, PartialEq, Eq)]
pub struct FrontLists {
    /// What it read.
    pub read: u64,
    /// The moments that its watch told.
    pub told: u64,
    /// What it tried to send.
    pub tried: u64,
}

impl FrontLists {
    /// It has done nothing.
    pub fn new() -> Self {
        Self {
            read: NOTHING,
            told: NOTHING,
            tried: NOTHING,
        }
    }
}
