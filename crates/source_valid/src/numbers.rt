//! The losses of a report block (RFC 3550 A.3).

ghost use Rattle.std.specs.Prelude.{◌≡◌};
ghost use Rattle.rtcp_codec.specs.Report.{FitsLost};
ghost use Rattle.source_valid.specs.Reports.{fraction_of, lost_of};

/// The least and the greatest number of 24 bits with a sign.
const LEAST_LOST: i128 = -8_388_608;

const MOST_LOST: i128 = 8_388_607;

/// The fraction of the expected packets that was lost, in 256ths.
pub fn fraction(expected: u64, received: u64) -> u8
    ensures { result ≡ fraction_of expected received }
{
    if received >= expected {
        return 0;
    }
    let lost = (expected - received) as u128;
    (256 * lost / expected as u128).min(255) as u8
}

/// The packets lost, clamped to 24 bits.
pub fn lost(expected: u64, received: u64) -> i32
    ensures value { result ≡ lost_of expected received }
    ensures fits { FitsLost result }
{
    (expected as i128 - received as i128).clamp(LEAST_LOST, MOST_LOST) as i32
}
