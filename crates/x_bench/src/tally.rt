//! What came out.

/// Packets, and their octets.
#[derive(Clone, Copy)]
pub struct Tally {
    /// How many packets.
    pub packets: u64,
    /// The octets of all of them.
    pub octets: u64,
}

impl Tally {
    pub fn new() -> Self {
        Self {
            packets: 0,
            octets: 0,
        }
    }

    /// Counts a packet of so many octets.
    pub fn count(&mut self, octets: usize) {
        self.packets = self.packets.saturating_add(1);
        self.octets = self.octets.saturating_add(octets as u64);
    }
}
