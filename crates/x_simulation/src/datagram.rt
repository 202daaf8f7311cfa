//! Datagrams, as they come and go.

use bridge_core::Egress;
use rtp_codec::Address;
use std::alloc::{AllocError, Global};

/// A datagram that came, or that was tried.
#[derive(Drop)]
pub struct Datagram {
    /// Where it came from, or goes to.
    pub address: Address,
    pub octets: Vec<u8>,
    /// The version of the desk by which a lane sends it, or 0.
    pub version: u64,
}

impl Datagram {
    /// A datagram that came, or that the front tries.
    pub fn new(address: Address, octets: Vec<u8>) -> Self {
        Self {
            address,
            octets,
            version: 0,
        }
    }

    /// The datagram of an egress. A note has none.
    pub fn of_egress(alloc: Global, egress: &Egress) -> Result<Option<Self>, AllocError> {
        let (address, version, first, rest) = match egress {
            Egress::Media {
                to,
                version,
                bytes,
                ..
            } => {
                let (first, rest) = bytes.parts();
                (*to, *version, first, rest)
            }
            Egress::Control {
                to,
                version,
                bytes,
                ..
            } => (*to, *version, bytes.as_slice(), [].as_slice()),
            Egress::Note { .. } => return Ok(None),
        };
        let mut octets = Vec::from_slice(alloc, first)?;
        octets.extend_from_slice(rest)?;
        Ok(Some(Self {
            version,
            ..Self::new(address, octets)
        }))
    }

    /// Whether another is the same.
    fn is_same(&self, other: &Self) -> bool {
        self.address == other.address
            && self.version == other.version
            && self.octets.as_slice() == other.octets.as_slice()
    }
}

/// Whether these are the same datagrams, in the same order.
pub fn are_same(some: &[Datagram], others: &[Datagram]) -> bool {
    some.len() == others.len()
        && some
            .iter()
            .zip(others.iter())
            .all(|(one, other)| one.is_same(other))
}
