//! The trace of a bridge that runs: the thread that writes it.

ghost use Rattle.std.specs.Prelude.{◌≡◌, [], IfOk};
ghost use Rattle.lane_wire.specs.Handlings.{handed_on, HasAll};

use bridge_core::Settings;
use bridge_monitor::{Teller, TraceStream};
use event_lines::Event;
use event_loop::FrontTold;
use lane_wire::{Handled, LaneTrace};
use operator_desk::DeskBrand;
use operator_threads::{Follower, Operators};
use std::alloc::{AllocError, Global};
use std::sync::Wait;
use std::thread;
use std::time::{Clock, Duration};
use trace_ring::{TraceReceiver, TraceSender, trace_ring};
use trace_scripts::{Deed, Speaking};
use trace_text::Speaker;

/// How many items the ring of a lane holds: as many as wait for the lane itself.
const LANE_PLACES: usize = 1_024;
/// How many deeds the ring of the front holds. In one round time may pass for each of a desk's 2,048 video sources, and
/// a batch of datagrams may come.
const FRONT_PLACES: usize = 4_096;
/// How many milliseconds it sleeps where nothing has come.
const PAUSE: u64 = 2;
/// How many pauses the reader has at the end of the bridge: 2 s.
const LAST_PAUSES: u32 = 1_000;

/// What writes the trace of a bridge.
#[derive(Drop)]
pub(crate) struct Tracer {
    stream: TraceStream,
    front: Speaking<FrontTold>,
    lanes: Vec<Speaking<Handled>>,
    teller: Teller,
}

/// A speaker that has told its first line.
fn begin<T: Deed>(
    speaker: Speaker,
    settings: &Settings,
    from: TraceReceiver<T>,
    text: &mut Vec<u8>,
) -> Result<Speaking<T>, AllocError> {
    Speaking::begin(speaker, settings.bridge_ssrc, &settings.cname, from, text)
}

/// Where the front of a bridge hands on what it does, and what writes that over this connection. The only error is out
/// of memory.
fn traced(
    alloc: Global,
    settings: &Settings,
    stream: TraceStream,
    teller: Teller,
) -> Result<(TraceSender<FrontTold>, Tracer), AllocError> {
    let mut stream = stream;
    let (sender, from) = trace_ring(alloc, FRONT_PLACES)?;
    let front = begin(Speaker::Front, settings, from, &mut stream.text)?;
    let tracer = Tracer {
        stream,
        front,
        lanes: Vec::new(alloc),
        teller,
    };
    Ok((sender, tracer))
}

/// The same, if the bridge has a trace.
pub(crate) fn tracing(
    alloc: Global,
    settings: &Settings,
    stream: Option<TraceStream>,
    teller: &Teller,
) -> Result<(TraceSender<FrontTold>, Option<Tracer>), AllocError> {
    match stream {
        None => Ok((TraceSender::off(), None)),
        Some(stream) => {
            let (sender, tracer) = traced(alloc, settings, stream, teller.clone()?)?;
            Ok((sender, Some(tracer)))
        }
    }
}

impl Tracer {
    /// Where the sink of the next lane hands on what the lane handled. The only error is out of memory.
    fn begin_lane(&mut self, alloc: Global, settings: &Settings) -> Result<LaneTrace, AllocError>
        ensures { IfOk result (λ trace. handed_on trace ≡ []) }
    {
        let (trace, ring, is_lost) = LaneTrace::new(alloc, LANE_PLACES)?;
        let from = TraceReceiver::new(ring, is_lost);
        let Ok(lane) = u32::try_from(self.lanes.len()) else {
            return Err(AllocError);
        };
        let speaker = Speaker::Lane(lane);
        let voice = begin(speaker, settings, from, &mut self.stream.text)?;
        self.lanes.push(voice)?;
        Ok(trace)
    }
}

/// Where the sink of the next lane hands on what the lane handled, if the bridge has a trace.
pub(crate) fn lane_trace(
    alloc: Global,
    tracer: &mut Option<Tracer>,
    settings: &Settings,
) -> Result<Option<LaneTrace>, AllocError>
    ensures { IfOk result (HasAll []) }
{
    match tracer {
        None => Ok(None),
        Some(tracer) => {
            let trace = tracer.begin_lane(alloc, settings)?;
            Ok(Some(trace))
        }
    }
}

/// What a look at all speakers led to.
#[derive(Clone, Copy, PartialEq, Eq)]
enum TraceLook {
    /// Something had come.
    Some,
    /// Nothing had come.
    Nothing,
    /// The trace is lost: the reader or the tracer fell behind, memory ran out, or the connection is over.
    Lost,
}

impl Tracer {
    /// Appends what all have handed on. Returns whether there was anything. An `Err`: memory ran out, the desk has no
    /// such version, or too much waits for the reader.
    fn take_all<'b, 'a, H: DeskBrand, R: Wait>(
        &mut self,
        rt: &R,
        alloc: Global,
        follower: &mut Follower<'b, 'a, H>,
    ) -> Result<bool, AllocError> {
        if !self.stream.has_room() {
            return Err(AllocError);
        }
        let text = &mut self.stream.text;
        let mut any = self.front.take(rt, alloc, follower, text)?;
        for voice in &mut self.lanes {
            any = voice.take(rt, alloc, follower, text)? || any;
        }
        Ok(any)
    }

    /// Whether a speaker has given its trace up.
    fn is_lost(&self) -> bool {
        self.front.is_lost() || self.lanes.iter().any(|voice| voice.is_lost())
    }

    /// Takes what has come, and writes what the reader takes.
    fn look<'b, 'a, H: DeskBrand, R: Wait>(
        &mut self,
        rt: &R,
        alloc: Global,
        follower: &mut Follower<'b, 'a, H>,
    ) -> TraceLook {
        let is_lost = self.is_lost();
        let Ok(any) = self.take_all(rt, alloc, follower) else {
            return TraceLook::Lost;
        };
        if self.stream.write().is_err() || is_lost {
            return TraceLook::Lost;
        }
        if any {
            TraceLook::Some
        } else {
            TraceLook::Nothing
        }
    }

    /// Writes what waits, for two seconds at most. Returns whether all was written.
    fn finish<R: Clock>(&mut self, rt: &R) -> bool {
        for _ in 0..LAST_PAUSES {
            if self.stream.write().is_err() {
                return false;
            }
            if self.stream.is_clear() {
                return true;
            }
            thread::sleep(rt, Duration::from_millis(PAUSE));
        }
        false
    }

    /// Ends a whole trace by its last line. Returns whether all was written.
    fn end<R: Clock>(&mut self, rt: &R) -> bool {
        self.stream.end().is_ok() && self.finish(rt)
    }

    /// Writes the trace until the bridge is stopped. Returns whether it is whole.
    fn run<'b, 'a, H: DeskBrand, R: Wait + Clock>(
        &mut self,
        rt: &R,
        alloc: Global,
        operators: &Operators<'a, H>,
        follower: &mut Follower<'b, 'a, H>,
    ) -> bool {
        for _ in rt.forever() {
            let is_over = operators.has_stopped();
            match self.look(rt, alloc, follower) {
                TraceLook::Lost => {
                    let _ = self.stream.lose();
                    return false;
                }
                TraceLook::Nothing if is_over => return true,
                TraceLook::Nothing => thread::sleep(rt, Duration::from_millis(PAUSE)),
                TraceLook::Some => {}
            }
        }
        true
    }
}

/// Writes the trace of a bridge until it is stopped: the body of a thread. Where the trace is lost before, or its
/// reader takes too long for the end of it, that is told, and the bridge goes on.
pub(crate) fn trace_calls<'a, H: DeskBrand, R: Wait + Clock>(
    rt: &R,
    alloc: Global,
    operators: &Operators<'a, H>,
    mut tracer: Tracer,
) {
    let mut is_whole = false;
    if let Some(mut follower) = operators.follow(rt) {
        is_whole = tracer.run(rt, alloc, operators, &mut follower);
        follower.leave(rt);
    } else {
        let _ = tracer.stream.lose();
    }
    if is_whole && tracer.end(rt) {
        return;
    }
    let to = tracer.stream.to;
    tracer.teller.tell(rt, Event::TraceLost { to });
    if !is_whole {
        tracer.finish(rt);
    }
}
