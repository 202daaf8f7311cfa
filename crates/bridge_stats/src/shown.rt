//! What is shown of what a bridge counts.

ghost use Rattle.std.specs.Prelude.{◌≡◌, ◌+◌, ◌<◌, ◌++◌, [], codes, length, IfOk, OnOk, OnErr, vec_len, vec_capacity};
ghost use Rattle.std.specs.List.{flat_map};
ghost use Rattle.bridge_stats.specs.Shown.{kind_text, source_line, stranger_line, left_out_line, stream_line};
ghost use Rattle.bridge_stats.specs.Shown.{lane_line, limited_line, socket_line, seats_line};
ghost use Rattle.bridge_stats.specs.Shown.{left_out_text, limited_text, others_text, stats_text};
ghost use Rattle.bridge_stats.specs.inner.Growing.{buffer_of, Grows};

use crate::appending::{LineField, append, append_line};
use crate::kind::KINDS;
use crate::lines::append_lines;
use crate::others::{Limited, OthersShown, Seats, SocketRow, drops_field};
use crate::rows::{KindRow, SourceRow, StrangerRow};
use crate::source_table::MOST_SOURCES;
use crate::stranger::MOST_STRANGERS;
use std::alloc::{AllocError, Allocator, Global};

/// What is shown of what a bridge counts.
#[derive(Drop)]
pub struct StatsShown {
    /// The outcomes, in the order of their lines.
    pub kinds: Vec<KindRow>,
    /// The sources that are kept, the latest first.
    pub sources: Vec<SourceRow>,
    /// The senders that are no source, the latest first.
    pub strangers: Vec<StrangerRow>,
    /// How many datagrams of sources were left out since memory was refused.
    pub left_out_sources: u64,
    /// How many datagrams of senders that are no source.
    pub left_out_strangers: u64,
    /// How many reports of the way of streams.
    pub left_out_reports: u64,
}

impl StatsShown {
    /// Nothing is shown. There is memory for the most rows. The only error is out of memory.
    pub fn new(alloc: Global) -> Result<Self, AllocError>
        ensures kinds { IfOk result (λ shown. shown.kinds.items ≡ []) }
        ensures sources { IfOk result (λ shown. shown.sources.items ≡ []) }
        ensures strangers { IfOk result (λ shown. shown.strangers.items ≡ []) }
    {
        let kinds = Vec::with_capacity(alloc, KINDS)?;
        let sources = Vec::with_capacity(alloc, MOST_SOURCES)?;
        let strangers = Vec::with_capacity(alloc, MOST_STRANGERS)?;
        Ok(Self {
            kinds,
            sources,
            strangers,
            left_out_sources: 0,
            left_out_strangers: 0,
            left_out_reports: 0,
        })
    }
}

/// Appends the line of what was left out.
fn append_left_out_line<A: Allocator>(
    sources: u64,
    strangers: u64,
    streams: u64,
    reports: u64,
    out: &mut Vec<u8, A>,
) -> Result<(), AllocError>
    ensures { Grows (buffer_of out.old) (buffer_of out.new) (left_out_line sources strangers streams reports) result }
{
    let fields = [
        LineField::Words(b"sources"),
        LineField::Number(sources),
        LineField::Words(b"strangers"),
        LineField::Number(strangers),
        LineField::Words(b"streams"),
        LineField::Number(streams),
        LineField::Words(b"reports"),
        LineField::Number(reports),
    ];
    append_line(b"left-out", &fields, out)
}

/// Appends the line of what was left out, if anything was.
fn append_left_out<A: Allocator>(
    shown: &StatsShown,
    others: &OthersShown<'_>,
    out: &mut Vec<u8, A>,
) -> Result<(), AllocError>
    ensures { Grows (buffer_of out.old) (buffer_of out.new) (left_out_text shown.now others.now) result }
{
    let sources = shown.left_out_sources;
    let strangers = shown.left_out_strangers;
    let streams = others.left_out_streams;
    let reports = shown.left_out_reports;
    if sources == 0 && strangers == 0 && streams == 0 && reports == 0 {
        append(b"", out)
    } else {
        append_left_out_line(sources, strangers, streams, reports, out)
    }
}

/// Appends the line of what the rate limiter left out.
fn append_limited_line<A: Allocator>(
    limited: &Limited,
    out: &mut Vec<u8, A>,
) -> Result<(), AllocError>
    ensures { Grows (buffer_of out.old) (buffer_of out.new) (limited_line limited.now) result }
{
    let fields = [
        LineField::Words(b"nacks"),
        LineField::Number(limited.nacks),
        LineField::Words(b"blocks"),
        LineField::Number(limited.blocks),
        LineField::Words(b"plis"),
        LineField::Number(limited.plis),
    ];
    append_line(b"limited", &fields, out)
}

/// Appends the line of what the rate limiter left out, if that is anything.
fn append_limited<A: Allocator>(limited: &Limited, out: &mut Vec<u8, A>) -> Result<(), AllocError>
    ensures { Grows (buffer_of out.old) (buffer_of out.new) (limited_text limited.now) result }
{
    if limited.nacks == 0 && limited.blocks == 0 && limited.plis == 0 {
        append(b"", out)
    } else {
        append_limited_line(limited, out)
    }
}

/// Appends the line of the socket for datagrams.
fn append_socket<A: Allocator>(socket: &SocketRow, out: &mut Vec<u8, A>) -> Result<(), AllocError>
    ensures { Grows (buffer_of out.old) (buffer_of out.new) (socket_line socket.now) result }
{
    let fields = [
        LineField::Words(b"receive-buffer"),
        LineField::Number(u64::from(socket.receive_buffer)),
        LineField::Words(b"send-buffer"),
        LineField::Number(u64::from(socket.send_buffer)),
        LineField::Words(b"drops"),
        drops_field(socket.drops),
    ];
    append_line(b"socket", &fields, out)
}

/// Appends the line of the seats.
fn append_seats<A: Allocator>(seats: &Seats, out: &mut Vec<u8, A>) -> Result<(), AllocError>
    ensures { Grows (buffer_of out.old) (buffer_of out.new) (seats_line seats.now) result }
{
    let fields = [
        LineField::Number(u64::from(seats.used)),
        LineField::Words(b"of"),
        LineField::Number(u64::from(seats.all)),
    ];
    append_line(b"seats", &fields, out)
}

/// Appends the line of the seats and the last line.
fn append_end<A: Allocator>(seats: &Seats, out: &mut Vec<u8, A>) -> Result<(), AllocError>
    ensures { Grows (buffer_of out.old) (buffer_of out.new) (seats_line seats.now ++ codes "end\n") result }
{
    append_seats(seats, out)?;
    append(b"end\n", out)
}

/// Appends the line of the socket, and the lines behind it.
fn append_behind_limited<A: Allocator>(
    others: &OthersShown<'_>,
    out: &mut Vec<u8, A>,
) -> Result<(), AllocError>
    ensures { Grows (buffer_of out.old) (buffer_of out.new)
        (socket_line others.now.socket ++ (seats_line others.now.seats ++ codes "end\n")) result }
{
    append_socket(&others.socket, out)?;
    append_end(&others.seats, out)
}

/// Appends what the rate limiter left out, and the lines behind it.
fn append_behind_lanes<A: Allocator>(
    others: &OthersShown<'_>,
    out: &mut Vec<u8, A>,
) -> Result<(), AllocError>
    ensures { Grows (buffer_of out.old) (buffer_of out.new)
        (limited_text others.now.limited
        ++ (socket_line others.now.socket ++ (seats_line others.now.seats ++ codes "end\n"))) result }
{
    append_limited(&others.limited, out)?;
    append_behind_limited(others, out)
}

/// Appends the lines of the lanes, and the lines behind them.
fn append_behind_streams<A: Allocator>(
    others: &OthersShown<'_>,
    out: &mut Vec<u8, A>,
) -> Result<(), AllocError>
    ensures { Grows (buffer_of out.old) (buffer_of out.new)
        (flat_map lane_line others.now.lanes.now ++ (limited_text others.now.limited
        ++ (socket_line others.now.socket ++ (seats_line others.now.seats ++ codes "end\n")))) result }
{
    append_lines(others.lanes, out)?;
    append_behind_lanes(others, out)
}

/// Appends what others count.
fn append_others<A: Allocator>(
    others: &OthersShown<'_>,
    out: &mut Vec<u8, A>,
) -> Result<(), AllocError>
    ensures { Grows (buffer_of out.old) (buffer_of out.new) (others_text others.now) result }
{
    append_lines(others.streams, out)?;
    append_behind_streams(others, out)
}

/// Appends what was left out, and the lines behind it.
fn append_behind_strangers<A: Allocator>(
    shown: &StatsShown,
    others: &OthersShown<'_>,
    out: &mut Vec<u8, A>,
) -> Result<(), AllocError>
    ensures { Grows (buffer_of out.old) (buffer_of out.new)
        (left_out_text shown.now others.now ++ others_text others.now) result }
{
    append_left_out(shown, others, out)?;
    append_others(others, out)
}

/// Appends the senders that are no source, and the lines behind them.
fn append_behind_sources<A: Allocator>(
    shown: &StatsShown,
    others: &OthersShown<'_>,
    out: &mut Vec<u8, A>,
) -> Result<(), AllocError>
    ensures { Grows (buffer_of out.old) (buffer_of out.new)
        (flat_map stranger_line shown.now.strangers.items
        ++ (left_out_text shown.now others.now ++ others_text others.now)) result }
{
    append_lines(&shown.strangers, out)?;
    append_behind_strangers(shown, others, out)
}

/// Appends the sources, and the lines behind them.
fn append_behind_kinds<A: Allocator>(
    shown: &StatsShown,
    others: &OthersShown<'_>,
    out: &mut Vec<u8, A>,
) -> Result<(), AllocError>
    ensures { Grows (buffer_of out.old) (buffer_of out.new)
        (flat_map source_line shown.now.sources.items
        ++ (flat_map stranger_line shown.now.strangers.items
        ++ (left_out_text shown.now others.now ++ others_text others.now))) result }
{
    append_lines(&shown.sources, out)?;
    append_behind_sources(shown, others, out)
}

/// Appends all lines. Out of memory leaves what was appended before.
fn append_stats<A: Allocator>(
    shown: &StatsShown,
    others: &OthersShown<'_>,
    out: &mut Vec<u8, A>,
) -> Result<(), AllocError>
    ensures { Grows (buffer_of out.old) (buffer_of out.new) (stats_text shown.now others.now) result }
{
    append_lines(&shown.kinds, out)?;
    append_behind_kinds(shown, others, out)
}

/// Appends a line for each outcome, source, sender that is no source, stream and lane, for what was left out, for the
/// socket, for the seats, and last `end`. On out of memory, the only error, nothing changes.
pub fn print_stats<A: Allocator>(
    shown: &StatsShown,
    others: &OthersShown<'_>,
    out: &mut Vec<u8, A>,
) -> Result<(), AllocError>
    ensures ok { OnOk result (out.new.items ≡ out.old.items ++ stats_text shown.now others.now) }
    ensures err { OnErr result (out.new.items ≡ out.old.items) }
    ensures full { OnErr result (vec_capacity out.old < vec_len out.old + length (stats_text shown.now others.now)) }
{
    let before = out.len();
    let answer = append_stats(shown, others, out);
    if answer.is_err() {
        out.truncate(before);
    }
    answer
}
