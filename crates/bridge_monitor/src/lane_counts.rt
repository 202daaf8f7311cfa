//! What each lane did so far, and what was sent of each outgoing stream.

ghost use Rattle.std.specs.Prelude.{◌≡◌, IfOk, vec_len};
ghost use Rattle.bridge_stats.specs.Stats.{no_stats};
ghost use Rattle.bridge_monitor.specs.Told.{lane_row, report_row, way_row, way_from, report_of, stream_row};

use bridge_stats::{BridgeStats, LaneRow, PathReport, StreamReport, StreamRow};
use lane_wire::{Reported, SendCounts, SharedCounts, StreamNumbers};
use media_front::MediaFront;
use media_workers::{Pace, PublisherName, Sink};
use rtp_codec::Address;
use std::alloc::{AllocError, Global};
use std::sync::{Arc, Wait};

/// How many lanes there are at most.
const MOST_LANES: usize = 16;

/// Of how many streams there are rows at most: as many as a desk has slots and mixes.
const MOST_STREAMS: usize = 5_120;

/// What is shown of lanes and streams.
#[derive(Drop)]
pub(crate) struct LanesShown {
    pub(crate) lanes: Vec<LaneRow>,
    pub(crate) streams: Vec<StreamRow>,
    /// How many packets and reports were not counted for their streams since memory was refused.
    pub(crate) left_out_streams: u64,
}

impl LanesShown {
    /// Nothing is shown. There is memory for the most rows. The only error is out of memory.
    pub(crate) fn new(alloc: Global) -> Result<Self, AllocError> {
        Ok(Self {
            lanes: Vec::with_capacity(alloc, MOST_LANES)?,
            streams: Vec::with_capacity(alloc, MOST_STREAMS)?,
            left_out_streams: 0,
        })
    }

    /// Shows the same. The only error is out of memory.
    pub(crate) fn copy(&mut self, others: &LanesShown) -> Result<(), AllocError> {
        self.left_out_streams = others.left_out_streams;
        self.lanes.clear();
        self.lanes.extend_from_slice(&others.lanes)?;
        self.streams.clear();
        self.streams.extend_from_slice(&others.streams)
    }
}

/// What each lane has sent so far, and what not, with memory to show it.
#[derive(Drop)]
pub struct LaneCounts {
    /// Where each lane counts what it sends, from lane 0 on.
    pub counts: Vec<Arc<SharedCounts, Global>>,
    /// The streams of a lane, as they were copied last.
    copied: Vec<(u32, StreamNumbers)>,
    /// What was shown last.
    pub(crate) shown: LanesShown,
}

/// Counts of so many lanes. The only error is out of memory.
fn counts_for(alloc: Global, count: usize) -> Result<Vec<Arc<SharedCounts, Global>>, AllocError>
    ensures { IfOk result (λ counts. vec_len counts ≡ count) }
{
    let mut counts = Vec::with_capacity(alloc, count)?;
    for _ in 0..count {
        counts.push_reserved(Arc::new(alloc, SharedCounts::new(alloc)?)?);
    }
    Ok(counts)
}

/// Counts of so many lanes, and of the datagrams that come: nothing was counted. The only error is out of memory.
pub fn fresh_counts(alloc: Global, lanes: usize) -> Result<(LaneCounts, BridgeStats), AllocError>
    ensures many { IfOk result (λ r. vec_len r.0.counts ≡ lanes) }
    ensures fresh { IfOk result (λ r. r.1 ≡ no_stats) }
{
    let counts = counts_for(alloc, lanes)?;
    let copied = Vec::with_capacity(alloc, MOST_STREAMS)?;
    let shown = LanesShown::new(alloc)?;
    let stats = BridgeStats::new(alloc)?;
    Ok((
        LaneCounts {
            counts,
            copied,
            shown,
        },
        stats,
    ))
}

/// What a lane did.
fn lane_row(lane: u32, items: u64, dropped: u64, waiting: u64, sent: &SendCounts) -> LaneRow
    ensures { result ≡ lane_row lane items dropped waiting sent.now }
{
    LaneRow {
        lane,
        items,
        dropped,
        packets: sent.packets,
        octets: sent.octets,
        waited: sent.waited,
        not_ready: sent.not_ready,
        denied: sent.denied,
        refused: sent.refused,
        unreachable: sent.unreachable,
        too_long: sent.too_long,
        other: sent.other,
        waiting,
    }
}

/// Shows what each lane did so far, by what each has sent.
pub(crate) fn show_lanes<N: PublisherName, P: Pace, S: Sink>(
    media: &mut MediaFront<N, P, S>,
    lanes: &mut LaneCounts,
)
    ensures media { media.new ≡ media.old }
{
    let rows = &mut lanes.shown.lanes;
    rows.clear();
    for lane in 0..media.lanes() {
        if let Some(sent) = lanes.counts.get(lane as usize) {
            let items = media.given(lane);
            let waiting = media.waiting(lane) as u64;
            let row = lane_row(lane, items, media.dropped(lane), waiting, &sent.read());
            // There is capacity for the most lanes.
            let _ = rows.push(row);
        }
    }
}

/// What a receiver's report says. Of the way to it is told what came last from its address, if that is kept.
fn report_row(stats: &BridgeStats, reported: &Reported) -> StreamReport
    ensures { result ≡ report_row stats.now reported.now }
{
    let note = &reported.note;
    StreamReport {
        fraction: note.fraction,
        lost: note.lost,
        source: note.source,
        path: stats.path(&reported.from, note.out_ssrc),
    }
}

/// A report by what came last of the way of a stream.
fn way_row(path: Option<PathReport>) -> Option<StreamReport>
    ensures { result ≡ way_row path }
{
    match path {
        None => None,
        Some(path) => Some(StreamReport {
            fraction: path.fraction,
            lost: path.lost,
            source: None,
            path: Some(path),
        }),
    }
}

/// What came last from the address to which the last packet of a stream went.
fn way_from(stats: &BridgeStats, to: Option<Address>, ssrc: u32) -> Option<StreamReport>
    ensures { result ≡ way_from stats.now to ssrc }
{
    match to {
        None => None,
        Some(to) => way_row(stats.path(&to, ssrc)),
    }
}

/// What the receiver of a stream reported last. Lanes note no reports on mixes, so of a mix it is what came last of
/// the way to its member.
fn report_of(
    stats: &BridgeStats,
    ssrc: u32,
    to: Option<Address>,
    reported: Option<Reported>,
) -> Option<StreamReport>
    ensures { result ≡ report_of stats.now ssrc to reported }
{
    match reported {
        None => way_from(stats, to, ssrc),
        Some(reported) => Some(report_row(stats, &reported)),
    }
}

/// What was sent of a stream, and what its receiver reported last.
fn stream_row(stats: &BridgeStats, ssrc: u32, numbers: &StreamNumbers) -> StreamRow
    ensures { result ≡ stream_row stats.now ssrc numbers.now }
{
    StreamRow {
        out_ssrc: ssrc,
        report: report_of(stats, ssrc, numbers.to, numbers.report),
        packets: numbers.packets,
        octets: numbers.octets,
        resent: numbers.resent,
    }
}

/// How many rows lanes have, if each may have so many.
fn rows_within<R: Wait>(rt: &R, counts: &[Arc<SharedCounts, Global>], share: usize) -> usize {
    let mut rows = 0;
    for lane in counts {
        let (streams, _) = lane.streams(rt);
        rows = streams.min(share).saturating_add(rows);
    }
    rows
}

/// Shows what was sent of each stream, and what its receiver reported, lane by lane, in each the one that began first
/// before the others. Where the lanes keep more than 5,120 streams together, each lane has an equal share of the rows,
/// and what others leave of theirs. It has no rows then for those that began first.
pub(crate) fn show_streams<R: Wait>(rt: &R, stats: &BridgeStats, lanes: &mut LaneCounts) {
    let LaneCounts {
        counts,
        copied,
        shown,
    } = lanes;
    shown.streams.clear();
    shown.left_out_streams = 0;
    let share = MOST_STREAMS / counts.len().max(1);
    let mut kept = rows_within(rt, counts, share);
    for lane in &*counts {
        let (streams, left_out) = lane.streams(rt);
        shown.left_out_streams = shown.left_out_streams.saturating_add(left_out);
        // What is left of this lane's share is for the others.
        kept = kept.saturating_sub(streams.min(share));
        let most = MOST_STREAMS
            .saturating_sub(shown.streams.len())
            .saturating_sub(kept);
        if lane.copy_streams(rt, most, copied).is_ok() {
            show_lane(stats, copied, &mut shown.streams);
        }
    }
}

/// Shows what was sent of a lane's streams, as they were copied.
fn show_lane(stats: &BridgeStats, copied: &[(u32, StreamNumbers)], rows: &mut Vec<StreamRow>) {
    for (ssrc, numbers) in copied {
        // There is capacity for the most streams.
        let _ = rows.push(stream_row(stats, *ssrc, numbers));
    }
}
