//! What others count.

ghost use Rattle.std.specs.Prelude.{◌≡◌, ◌∷◌, [], map};
ghost use Rattle.bridge_stats.specs.Shown.{fraction_part, lost_part, highest_of, highest_parts, path_in};
ghost use Rattle.bridge_stats.specs.Shown.{stream_parts, stream_line, lane_line, drops_part};
ghost use Rattle.bridge_stats.specs.Paths.{path_jitter_part, trip_part, round_trip_part, path_parts};
ghost use Rattle.bridge_stats.specs.inner.Said.{said};
ghost use Rattle.bridge_stats.specs.inner.Growing.{buffer_of, Grows};

use crate::appending::{LineField, NO_WORD, append_line, append_long_line};
use crate::lines::StatLine;
use crate::path::PathReport;
use std::alloc::{AllocError, Allocator};

/// What the receiver of an outgoing stream reported.
#[derive(Clone, Copy)]
pub struct StreamReport {
    /// The fraction of packets lost, in 256ths.
    pub fraction: u8,
    /// The packets lost in all. Duplicates make it negative.
    pub lost: i32,
    /// The source's packet with the highest number that the receiver got: its SSRC and its extended number.
    pub source: Option<(u32, i64)>,
    /// What it reported last of the way to it, if that is kept.
    pub path: Option<PathReport>,
}

/// What was sent of an outgoing stream. Each number counts since the start.
#[derive(Clone, Copy)]
pub struct StreamRow {
    /// The SSRC of the stream.
    pub out_ssrc: u32,
    /// What its receiver reported last.
    pub report: Option<StreamReport>,
    /// How many of its packets the system took, those that were sent again among them.
    pub packets: u64,
    /// How many octets these had.
    pub octets: u64,
    /// How many of these packets were sent again.
    pub resent: u64,
}

/// What a lane did. Each number but `waiting` counts since the start.
#[derive(Clone, Copy)]
pub struct LaneRow {
    /// The lane, from 0 on.
    pub lane: u32,
    /// How many items it was given.
    pub items: u64,
    /// How many were dropped for it.
    pub dropped: u64,
    /// How many datagrams the system took.
    pub packets: u64,
    /// How many octets these had.
    pub octets: u64,
    /// For how many the wire wasn't ready at once.
    pub waited: u64,
    /// How many were given up since the wire wasn't ready within 20 ms.
    pub not_ready: u64,
    /// How many were not permitted.
    pub denied: u64,
    /// How many were refused.
    pub refused: u64,
    /// How many had no way to their address.
    pub unreachable: u64,
    /// How many were too long.
    pub too_long: u64,
    /// How many failed for another reason.
    pub other: u64,
    /// How many items wait for it.
    pub waiting: u64,
}

/// What the rate limiter left out since the start.
#[derive(Clone, Copy)]
pub struct Limited {
    /// NACKs of which it left out numbers.
    pub nacks: u64,
    /// Report blocks.
    pub blocks: u64,
    /// PLIs.
    pub plis: u64,
}

/// The socket for datagrams: the buffers that the system gives it, and what it dropped there.
#[derive(Clone, Copy)]
pub struct SocketRow {
    /// How many octets of datagrams wait at most until they are read.
    pub receive_buffer: u32,
    /// How many octets of datagrams wait at most until they leave.
    pub send_buffer: u32,
    /// How many datagrams the system dropped since the socket was opened, as where the receive buffer was full. `None`
    /// where it doesn't tell.
    pub drops: Option<u64>,
}

/// The operators' seats.
#[derive(Clone, Copy)]
pub struct Seats {
    /// How many are in use.
    pub used: u32,
    /// How many there are.
    pub all: u32,
}

/// What others count, to be shown with what the datagrams are counted as.
#[derive(Clone, Copy)]
pub struct OthersShown<'a> {
    /// The outgoing streams.
    pub streams: &'a [StreamRow],
    /// How many packets and reports were not counted for their streams since memory was refused.
    pub left_out_streams: u64,
    /// The lanes, in their order.
    pub lanes: &'a [LaneRow],
    /// What the rate limiter left out.
    pub limited: Limited,
    /// The socket for datagrams.
    pub socket: SocketRow,
    /// The operators' seats.
    pub seats: Seats,
}

/// How many units of a round trip a second has.
const TRIP_UNITS: u64 = 65_536;

/// The words of a source's packet, or marks that there is none.
fn highest_fields<'a>(source: Option<(u32, i64)>) -> [LineField<'a>; 2]
    ensures { map said result ≡ highest_parts source }
{
    match source {
        None => [LineField::Words(NO_WORD), LineField::Words(NO_WORD)],
        Some((ssrc, ext)) => [LineField::Number(u64::from(ssrc)), LineField::Signed(ext)],
    }
}

/// The words of a report, or marks that there is none.
fn report_fields<'a>(report: Option<StreamReport>) -> [LineField<'a>; 4]
    ensures { map said result ≡ fraction_part report ∷ lost_part report ∷ highest_parts (highest_of report) }
{
    match report {
        None => {
            let [ssrc, ext] = highest_fields(None);
            [
                LineField::Words(NO_WORD),
                LineField::Words(NO_WORD),
                ssrc,
                ext,
            ]
        }
        Some(report) => {
            let fraction = LineField::Number(u64::from(report.fraction));
            let lost = LineField::Signed(i64::from(report.lost));
            let [ssrc, ext] = highest_fields(report.source);
            [fraction, lost, ssrc, ext]
        }
    }
}

/// A round trip in whole milliseconds, or a mark that there is none.
fn trip_field<'a>(trip: Option<u32>) -> LineField<'a>
    ensures { said result ≡ trip_part trip }
{
    match trip {
        None => LineField::Words(NO_WORD),
        Some(trip) => LineField::Number(u64::from(trip) * 1_000 / TRIP_UNITS),
    }
}

/// The drops at a socket, or a mark that the system doesn't tell them.
pub(crate) fn drops_field<'a>(drops: Option<u64>) -> LineField<'a>
    ensures { said result ≡ drops_part drops }
{
    match drops {
        None => LineField::Words(NO_WORD),
        Some(drops) => LineField::Number(drops),
    }
}

/// The jitter and the round trip in whole milliseconds, or marks that there are none.
fn path_numbers<'a>(path: Option<PathReport>) -> [LineField<'a>; 2]
    ensures { map said result ≡ path_jitter_part path ∷ round_trip_part path ∷ [] }
{
    match path {
        None => [LineField::Words(NO_WORD), LineField::Words(NO_WORD)],
        Some(path) => {
            let rate = u64::from(path.rate.max(1));
            let jitter = LineField::Number(u64::from(path.jitter) * 1_000 / rate);
            [jitter, trip_field(path.round_trip)]
        }
    }
}

/// The jitter and the round trip, each behind its word.
fn path_fields<'a>(path: Option<PathReport>) -> [LineField<'a>; 4]
    ensures { map said result ≡ path_parts path }
{
    let [jitter, round_trip] = path_numbers(path);
    [
        LineField::Words(b"jitter"),
        jitter,
        LineField::Words(b"round-trip"),
        round_trip,
    ]
}

/// What a report says of the way, if it says anything.
fn path_in(report: Option<StreamReport>) -> Option<PathReport>
    ensures { result ≡ path_in report }
{
    match report {
        None => None,
        Some(report) => report.path,
    }
}

/// What a stream's receiver reported last, and what was sent of it.
fn stream_fields<'a>(row: &StreamRow) -> [LineField<'a>; 14]
    ensures { map said result ≡ stream_parts row.now }
{
    let [fraction, lost, ssrc, ext] = report_fields(row.report);
    [
        LineField::Number(u64::from(row.out_ssrc)),
        LineField::Words(b"fraction"),
        fraction,
        LineField::Words(b"lost"),
        lost,
        LineField::Words(b"highest"),
        ssrc,
        ext,
        LineField::Words(b"packets"),
        LineField::Number(row.packets),
        LineField::Words(b"octets"),
        LineField::Number(row.octets),
        LineField::Words(b"resent"),
        LineField::Number(row.resent),
    ]
}

impl StatLine for StreamRow {
    ghost line = { stream_line };

    fn append<A: Allocator>(&self, out: &mut Vec<u8, A>) -> Result<(), AllocError> {
        let fields = stream_fields(self);
        let way = path_fields(path_in(self.report));
        append_long_line(b"stream", &fields, &way, out)
    }
}

impl StatLine for LaneRow {
    ghost line = { lane_line };

    fn append<A: Allocator>(&self, out: &mut Vec<u8, A>) -> Result<(), AllocError> {
        let fields = [
            LineField::Number(u64::from(self.lane)),
            LineField::Words(b"items"),
            LineField::Number(self.items),
            LineField::Words(b"dropped"),
            LineField::Number(self.dropped),
            LineField::Words(b"packets"),
            LineField::Number(self.packets),
            LineField::Words(b"octets"),
            LineField::Number(self.octets),
            LineField::Words(b"waited"),
            LineField::Number(self.waited),
            LineField::Words(b"not-ready"),
            LineField::Number(self.not_ready),
            LineField::Words(b"denied"),
            LineField::Number(self.denied),
            LineField::Words(b"refused"),
            LineField::Number(self.refused),
            LineField::Words(b"unreachable"),
            LineField::Number(self.unreachable),
            LineField::Words(b"too-long"),
            LineField::Number(self.too_long),
            LineField::Words(b"other"),
            LineField::Number(self.other),
            LineField::Words(b"waiting"),
            LineField::Number(self.waiting),
        ];
        append_line(b"lane", &fields, out)
    }
}
