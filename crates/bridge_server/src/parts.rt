//! What a front has before its lanes are started.
//!
//! Each function owns two or three values where it can fail: the prover drops all that is owned at each `?`.

ghost use Rattle.std.specs.Prelude.{◌≡◌, [], length, All, IfOk, vec_len};
ghost use Rattle.bridge_stats.specs.Stats.{no_stats};
ghost use Rattle.event_loop.specs.Logs.{read_list, tried_list};

use crate::front::Front;
use crate::listener::OperatorListener;
use crate::sinks::{LaneSocket, sinks_for};
use crate::sockets::{Sockets, chunk};
use crate::tracing::{Tracer, tracing};
use crate::waking::{FrontWaker, front_waker};
use bridge_core::Settings;
use bridge_monitor::{LaneCounts, Teller, TraceStream, fresh_counts};
use bridge_stats::BridgeStats;
use event_loop::FrontTold;
use front_settings::FrontSettings;
use lane_wire::{SharedCounts, WireSink};
use mio::net::UdpSocket;
use operator_threads::Lobby;
use std::alloc::{AllocError, Global};
use std::sync::{Arc, Wait};
use std::time::Clock;
use trace_ring::TraceSender;
use udp_wire::{FrontFault, Moments};

/// What a front has besides its socket for datagrams, and its settings.
#[derive(Drop)]
pub(crate) struct FrontParts {
    pub(crate) listener: OperatorListener,
    /// What ends a wait at the sockets.
    pub(crate) waker: FrontWaker,
    pub(crate) moments: Moments,
    /// Where octets are read to.
    pub(crate) chunk: Vec<u8>,
    pub(crate) settings: FrontSettings,
}

/// What is counted, and where the front hands on what it does, with what writes the trace, if there is one.
#[derive(Drop)]
pub(crate) struct Records {
    pub(crate) lanes: LaneCounts,
    pub(crate) stats: BridgeStats,
    pub(crate) trace: TraceSender<FrontTold>,
    pub(crate) tracer: Option<Tracer>,
}

/// The socket for datagrams of a front, the connection of its trace, if there is one, and its other parts.
pub(crate) fn sockets_of<R: Wait + Clock + Copy + Drop>(
    rt: &R,
    alloc: Global,
    front: Front,
    teller: &Teller,
) -> Result<(Sockets<R>, Option<TraceStream>, FrontParts), FrontFault>
    ensures settings { IfOk result (λ r. r.2.settings ≡ front.settings) }
    ensures read { IfOk result (λ r. read_list (r.0).inlet.log ≡ []) }
    ensures tried { IfOk result (λ r. tried_list (r.0).wire.log ≡ []) }
{
    let waker = front_waker(rt, alloc, &front, teller)?;
    let chunk = chunk(alloc)?;
    let lobby = Lobby::new(alloc)?;
    let Front {
        poll,
        udp,
        buffers: _,
        tcp,
        moments,
        trace,
        settings,
    } = front;
    let parts = FrontParts {
        listener: OperatorListener {
            tcp,
            has_callers: true,
            lobby,
            moments: moments.again(),
        },
        waker,
        moments,
        chunk,
        settings,
    };
    let sockets = Sockets::new(rt, alloc, poll, udp, parts.settings.udp)?;
    Ok((sockets, trace, parts))
}

/// Where the front hands on what it does, what writes the trace, and a sink for each of these counts.
fn traced_sinks(
    alloc: Global,
    socket: &Arc<UdpSocket, Global>,
    counts: &[Arc<SharedCounts, Global>],
    stream: Option<TraceStream>,
    settings: &Settings,
    teller: &Teller,
) -> Result<
    (
        TraceSender<FrontTold>,
        Option<Tracer>,
        Vec<WireSink<LaneSocket>>,
    ),
    AllocError,
>
    ensures len { IfOk result (λ r. vec_len r.2 ≡ length counts.now) }
    ensures untaken { IfOk result (λ r. All (λ sink. sink.taken ≡ []) r.2.items) }
{
    let (trace, mut tracer) = tracing(alloc, settings, stream, teller)?;
    let sinks = sinks_for(alloc, socket, counts, &mut tracer, settings)?;
    Ok((trace, tracer, sinks))
}

/// The records of a bridge with so many lanes, and a sink for each lane, which sends from this socket. `stream` is the
/// connection of its trace, if there is one. The only error is out of memory.
pub(crate) fn records_of(
    alloc: Global,
    socket: &Arc<UdpSocket, Global>,
    stream: Option<TraceStream>,
    settings: &Settings,
    lanes: usize,
    teller: &Teller,
) -> Result<(Records, Vec<WireSink<LaneSocket>>), AllocError>
    ensures fresh { IfOk result (λ r. (r.0).stats ≡ no_stats) }
    ensures len { IfOk result (λ r. vec_len r.1 ≡ lanes) }
    ensures untaken { IfOk result (λ r. All (λ sink. sink.taken ≡ []) r.1.items) }
{
    let (lanes, stats) = fresh_counts(alloc, lanes)?;
    let (trace, tracer, sinks) = traced_sinks(
        alloc,
        socket,
        &lanes.counts,
        stream,
        settings,
        teller,
    )?;
    let records = Records {
        lanes,
        stats,
        trace,
        tracer,
    };
    Ok((records, sinks))
}
