//! The last sender report of a source.

ghost use Rattle.std.specs.Prelude.{◌≡◌};
ghost use Rattle.source_valid.specs.Reports.{lsr_of, dlsr_of};

const NANOSECONDS: u128 = 1_000_000_000;

/// A sender report that came.
#[derive(Clone, Copy)]
pub struct Heard {
    /// Its NTP timestamp.
    pub ntp: u64,
    /// The moment when it came, in nanoseconds since 1970.
    pub moment: u64,
}

/// The middle 32 bits of the last report's NTP timestamp, 0 without a report (LSR, RFC 3550 section 6.4.1).
pub fn lsr(heard: Option<Heard>) -> u32
    ensures { result ≡ lsr_of heard }
{
    match heard {
        Some(h) => ((h.ntp >> 16) % (1 << 32)) as u32,
        None => 0,
    }
}

/// The delay since the last report in 65536ths of a second, 0 without a report (DLSR, RFC 3550 section 6.4.1).
pub fn dlsr(heard: Option<Heard>, moment: u64) -> u32
    ensures { result ≡ dlsr_of heard moment }
{
    match heard {
        Some(h) => {
            let elapsed = moment.saturating_sub(h.moment) as u128;
            (elapsed * 65536 / NANOSECONDS).min(u32::MAX as u128) as u32
        }
        None => 0,
    }
}
