//! The NTP and RTP timestamps of a report's moment.

ghost use Rattle.std.specs.Prelude.{◌≡◌};
ghost use Rattle.receiver_feedback.specs.Times.{ntp_of, ts_at};

use forward_rewrite::Counts;

/// Nanoseconds in a second, nanoseconds in a microsecond, and microseconds in a second.
const SECOND: u64 = 1_000_000_000;

const MICROSECOND: u64 = 1000;

const MICROSECONDS: u128 = 1_000_000;

/// The seconds from 1900, where NTP begins, to 1970, where moments begin.
const FROM_1900_TO_1970: u64 = 2_208_988_800;

/// The NTP timestamp of a moment in nanoseconds since 1970 (RFC 3550 section 4).
pub fn ntp_of(moment: u64) -> u64
    ensures { result ≡ ntp_of moment }
{
    let seconds = (moment / SECOND + FROM_1900_TO_1970) % (1 << 32);
    let fraction = moment % SECOND * (1 << 32) / SECOND;
    seconds * (1 << 32) + fraction
}

/// The RTP timestamp of a moment in nanoseconds since 1970: that of the last frame or tick, advanced at the clock rate.
pub fn ts_at(counts: &Counts, moment: u64) -> u32
    ensures { result ≡ ts_at counts.now moment }
{
    let elapsed = moment.saturating_sub(counts.moment) / MICROSECOND;
    let units = elapsed as u128 * counts.rate as u128 / MICROSECONDS;
    ((counts.ts as u128 + units) % (1 << 32)) as u32
}
