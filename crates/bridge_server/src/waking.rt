//! How other threads wake the front, and what they ask it.

ghost use Rattle.std.specs.Prelude.{◌≡◌, IfOk};

use crate::buffers::SocketBuffers;
use crate::causes::started;
use crate::front::{Front, WAKER};
use bridge_monitor::{StatsDesk, Teller};
use bridge_stats::Seats;
use event_lines::{Event, ServerPart, WhyFailed};
use mio::Waker;
use operator_threads::Wake;
use rtp_codec::Address;
use std::alloc::{AllocError, Global};
use std::sync::{Arc, Wait};
use udp_wire::FrontFault;

/// Ends the front's wait, and takes what there is to tell and to ask.
#[derive(Drop)]
pub(crate) struct FrontWaker {
    pub(crate) waker: Arc<Waker, Global>,
    pub(crate) teller: Teller,
    /// Where the front is asked what the bridge counts.
    pub(crate) stats: Arc<StatsDesk, Global>,
    /// The buffers of the socket for datagrams.
    pub(crate) socket: SocketBuffers,
    /// How many operators' seats there are.
    pub(crate) seats: u32,
    /// Where the trace goes to, if there is one.
    pub(crate) trace: Option<Address>,
}

impl Clone for FrontWaker {
    fn clone(&self) -> Result<Self, AllocError> {
        Ok(Self {
            waker: Arc::try_clone(&self.waker)?,
            teller: self.teller.clone()?,
            stats: Arc::try_clone(&self.stats)?,
            socket: self.socket,
            seats: self.seats,
            trace: self.trace,
        })
    }
}

/// What ends a wait of this front. The system's failure is told.
pub(crate) fn front_waker<R: Wait>(
    rt: &R,
    alloc: Global,
    front: &Front,
    teller: &Teller,
) -> Result<FrontWaker, FrontFault>
    ensures { IfOk result (λ waker. waker.seats ≡ front.now.settings.operators) }
{
    let waker = Waker::new(front.poll.registry(), WAKER);
    let waker = Arc::new(alloc, started(rt, teller, ServerPart::Poll, waker)?)?;
    let teller = teller.clone()?;
    let stats = Arc::new(alloc, StatsDesk::new(alloc)?)?;
    Ok(FrontWaker {
        waker,
        teller,
        stats,
        socket: front.buffers,
        seats: front.settings.operators,
        trace: front.settings.trace,
    })
}

impl FrontWaker {
    /// Tells that a connection is refused.
    pub(crate) fn note_refused<R: Wait>(&self, rt: &R, from: Address, why: WhyFailed) {
        self.teller.tell(rt, Event::Refused { from, why });
    }

    /// Tells that the trace is lost since no thread could be started for it, unless one was.
    pub(crate) fn note_trace<R: Wait>(&self, rt: &R, is_started: bool) {
        if let (Some(to), false) = (self.trace, is_started) {
            self.teller.tell(rt, Event::TraceLost { to });
        }
    }
}

/// Ends the front's wait for one connection. The thread of its operator does so after an accepted call, after `stop`,
/// and where it asks what the bridge counts.
#[derive(Drop)]
pub(crate) struct CallerWaker {
    pub(crate) front: FrontWaker,
    /// Where the connection comes from.
    pub(crate) from: Address,
}

impl CallerWaker {
    /// Asks the front what the bridge counts, and waits until it has answered.
    fn ask<R: Wait>(&self, rt: &R) {
        let desk = &self.front.stats;
        let answers = desk.ask(rt);
        self.wake();
        desk.wait(rt, answers);
    }

    /// Tells that the connection is refused.
    pub(crate) fn note_refused<R: Wait>(&self, rt: &R, why: WhyFailed) {
        self.front.note_refused(rt, self.from, why);
    }
}

impl Wake for CallerWaker {
    ghost use Rattle.bridge_monitor.specs.Told.{TellsLevels};
    ghost use Rattle.bridge_server.specs.Asked.{TellsCountsNow};

    ghost counts = { λ waker used text. TellsCountsNow waker.front.socket.receive waker.front.socket.send
        (record { used = used; all = waker.front.seats }) text };

    ghost levels = { λ waker text. TellsLevels text };

    fn wake(&self) {
        // If a wake fails, the next round comes at most 20 ms later.
        let _ = self.front.waker.wake();
    }

    fn note_busy<R: Wait>(&self, rt: &R) {
        self.note_refused(rt, WhyFailed::Busy);
    }

    fn tell_stats<R: Wait>(
        &self,
        rt: &R,
        _alloc: Global,
        used: u32,
        out: &mut Vec<u8>,
    ) -> Result<(), AllocError> {
        self.ask(rt);
        let all = self.front.seats;
        let row = self.front.socket.row();
        let desk = &self.front.stats;
        desk.print(rt, row, Seats { used, all }, out)
    }

    fn tell_levels<R: Wait>(
        &self,
        rt: &R,
        _alloc: Global,
        out: &mut Vec<u8>,
    ) -> Result<(), AllocError> {
        self.ask(rt);
        self.front.stats.print_levels(rt, out)
    }
}
