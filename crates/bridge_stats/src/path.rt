//! What receivers report of the way of a stream to them.

ghost use Rattle.std.specs.Prelude.{◌≡◌};
ghost use Rattle.receiver_feedback.specs.Times.{ntp_of};
ghost use Rattle.bridge_stats.specs.Paths.{middle_of, trip_of, round_trip, path_of, stream_at};

use crate::sender::Sender;
use rtcp_codec::ReportBlock;
use rtp_codec::Address;

/// Nanoseconds in a second.
const SECOND: u64 = 1_000_000_000;

/// The seconds from 1900, where NTP begins, to 1970, where moments begin.
const FROM_1900_TO_1970: u64 = 2_208_988_800;

/// The longest round trip that is told, a minute in 65536ths of a second.
const LONGEST_TRIP: u32 = 60 * 65_536;

/// What a receiver reported of the way of a stream to it.
#[derive(Clone, Copy)]
pub struct PathReport {
    /// The fraction of packets lost since the receiver's report before, in 256ths.
    pub fraction: u8,
    /// The packets lost in all. Duplicates make it negative.
    pub lost: i32,
    /// The stream's clock rate, in Hz.
    pub rate: u32,
    /// The interarrival jitter of the stream's packets, in units of the RTP timestamp.
    pub jitter: u32,
    /// The round trip, in 65536ths of a second. `None` if the report doesn't say when it came.
    pub round_trip: Option<u32>,
}

/// The NTP timestamp of a moment in nanoseconds since 1970 (RFC 3550 section 4).
fn ntp_of(moment: u64) -> u64
    ensures { result ≡ ntp_of moment }
{
    let seconds = (moment / SECOND + FROM_1900_TO_1970) % (1 << 32);
    let fraction = moment % SECOND * (1 << 32) / SECOND;
    seconds * (1 << 32) + fraction
}

/// The middle 32 bits of the NTP timestamp of a moment.
fn middle_of(moment: u64) -> u32
    ensures { result ≡ middle_of moment }
{
    ((ntp_of(moment) >> 16) % (1 << 32)) as u32
}

/// The round trip of a difference between moments.
fn trip_of(difference: u32) -> Option<u32>
    ensures { result ≡ trip_of difference }
{
    if difference <= LONGEST_TRIP {
        Some(difference)
    } else if difference >= u32::MAX - LONGEST_TRIP + 1 {
        Some(0)
    } else {
        None
    }
}

/// The round trip by a block that came at a moment.
fn round_trip(moment: u64, block: &ReportBlock) -> Option<u32>
    ensures { result ≡ round_trip moment block.now }
{
    if block.lsr == 0 {
        return None;
    }
    let since = middle_of(moment).wrapping_sub(block.lsr);
    trip_of(since.wrapping_sub(block.dlsr))
}

impl PathReport {
    /// What a block that came at a moment reports of a stream of this clock rate.
    pub(crate) fn of(moment: u64, rate: u32, block: &ReportBlock) -> Self
        ensures { result ≡ path_of moment rate block.now }
    {
        Self {
            fraction: block.fraction,
            lost: block.lost,
            rate,
            jitter: block.jitter,
            round_trip: round_trip(moment, block),
        }
    }
}

/// A stream at the address of its receiver.
pub(crate) fn stream_at(from: &Address, ssrc: u32) -> Sender
    ensures { result ≡ stream_at from.now ssrc }
{
    Sender {
        ip: from.octets(),
        port: from.port,
        ssrc,
    }
}
