//! The sinks of lanes, which all send from the one socket for datagrams.

ghost use Rattle.std.specs.Prelude.{◌≡◌, [], length, All, IfOk, vec_len};
ghost use Rattle.lane_wire.specs.Logs.{step_list};
ghost use Rattle.lane_wire.specs.Handlings.{HasAll};

use crate::system_socket::SystemSocket;
use crate::tracing::{Tracer, lane_trace};
use bridge_core::{Egress, Settings};
use lane_wire::{LaneTrace, LaneWire, SendFault, SharedCounts, WireLog, WireSink, send_egress};
use mio::net::UdpSocket;
use std::alloc::{AllocError, Global};
use std::sync::{Arc, Wait};
use std::thread::Parker;
use std::time::Duration;

/// How many octets of a datagram are joined without taking memory.
const WHOLE: usize = 9_000;
/// How many milliseconds a pause lasts.
const PAUSE: u64 = 1;

/// The socket for datagrams as the wire of a lane.
#[derive(Drop)]
pub(crate) struct LaneSocket {
    socket: Arc<UdpSocket, Global>,
    /// Where a datagram's parts are joined before it is sent.
    whole: Vec<u8>,
    /// What a pause waits at. Nobody wakes it.
    parker: Parker,
    /// What was done on it, in proofs alone.
    log: WireLog,
}

impl LaneSocket {
    /// Tries once to send the datagram of an egress.
    fn send_once(&mut self, egress: &Egress) -> Result<(), SendFault>
        ensures { self.new.log ≡ self.old.log }
    {
        let mut socket = SystemSocket(&self.socket);
        send_egress(&mut socket, &mut self.whole, egress)
    }
}

impl LaneWire for LaneSocket {
    ghost use Rattle.lane_wire.specs.Logs.{step_list};

    ghost steps = { λ wire. step_list wire.log };

    fn send(&mut self, egress: &Egress) -> Result<(), SendFault> {
        let answer = self.send_once(egress);
        self.log.note_try(egress, &answer);
        answer
    }

    fn pause<R: Wait>(&mut self, rt: &R) {
        self.parker.park_timeout(rt, Duration::from_millis(PAUSE));
        self.log.note_pause();
    }

    fn into_log(self) -> WireLog {
        self.log
    }
}

/// A sink over a wire on which nothing was done. It shows its counts, and hands on what its lane handles, if there is a
/// trace.
fn sink_of(
    wire: LaneSocket,
    shown: Arc<SharedCounts, Global>,
    trace: Option<LaneTrace>,
) -> WireSink<LaneSocket>
    requires trace { HasAll [] trace }
    requires unused { step_list wire.log ≡ [] }
    ensures { result.taken ≡ [] }
{
    match trace {
        None => WireSink::new(wire, shown),
        Some(trace) => WireSink::traced(wire, shown, trace),
    }
}

/// A sink for each of these counts, which sends from a socket, and hands on what its lane handles, if the bridge has a
/// trace. The only error is out of memory.
pub(crate) fn sinks_for(
    alloc: Global,
    socket: &Arc<UdpSocket, Global>,
    counts: &[Arc<SharedCounts, Global>],
    tracer: &mut Option<Tracer>,
    settings: &Settings,
) -> Result<Vec<WireSink<LaneSocket>>, AllocError>
    ensures len { IfOk result (λ sinks. vec_len sinks ≡ length counts.now) }
    ensures untaken { IfOk result (λ sinks. All (λ sink. sink.taken ≡ []) sinks.items) }
{
    let mut sinks = Vec::with_capacity(alloc, counts.len())?;
    for shown in counts {
        let trace = lane_trace(alloc, tracer, settings)?;
        let wire = LaneSocket {
            socket: Arc::try_clone(socket)?,
            whole: Vec::with_capacity(alloc, WHOLE)?,
            parker: Parker::new(),
            log: WireLog::new(),
        };
        let sink = sink_of(wire, Arc::try_clone(shown)?, trace);
        sinks.push_reserved(sink);
    }
    Ok(sinks)
}
