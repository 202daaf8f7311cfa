//! The verdict on a packet.

ghost use Rattle.std.specs.Prelude.{◌≡◌};
ghost use Rattle.source_valid.specs.Histories.{accepted, restarts};

/// The answer to one packet's sequence number (RFC 3550 A.1).
#[derive(Clone, Copy, PartialEq, Eq)]
pub enum Verdict {
    /// The packet does not count: the source is on probation until two numbers in a row have come.
    Probation,
    /// The packet counts.
    Accepted {
        /// Its extended sequence number, at least -65536. It can be negative shortly after an initialisation.
        ext: i64,
    },
    /// The packet does not count: its number is too far off.
    Jump,
    /// The packet counts, and initialises the source anew. It is the second of two far numbers in a row, or the first
    /// of a cycle that would make extended numbers pass 2^62 + 65535.
    Restarted {
        /// Its extended sequence number, 0 to 65535.
        ext: i64,
    },
}

impl Verdict {
    /// The extended sequence number of a packet that counts, also of one that initialises the source anew.
    ///
    /// There is none on probation and at a jump.
    pub fn accepted(&self) -> Option<i64>
        ensures { result ≡ accepted self.now }
    {
        match *self {
            Verdict::Probation => None,
            Verdict::Accepted { ext } => Some(ext),
            Verdict::Jump => None,
            Verdict::Restarted { ext } => Some(ext),
        }
    }

    /// Whether the packet initialises its source anew.
    pub fn restarts(&self) -> bool
        ensures { result ≡ restarts self.now }
    {
        matches!(*self, Verdict::Restarted { .. })
    }
}
