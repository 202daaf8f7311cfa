//! A front, and each thing that it does.

ghost use Rattle.std.specs.Prelude.{◌≡◌, ◌∷◌, [], ◌≤◌, if◌then◌else◌, ℕ, List, length, IfOk, OnOk, OnErr};
ghost use Rattle.udp_wire.specs.Pacing.{is_behind};
ghost use Rattle.event_loop.specs.Came.{came_by};
ghost use Rattle.event_loop.specs.Counted.{all_pass};
ghost use Rattle.event_loop.specs.Kept.{asked_origin};
ghost use Rattle.event_loop.specs.Turns.{Turn, Does, HaveDone, HasTicked, HasCaughtUp, is_late, owed, passed, looked};
ghost use Rattle.event_loop.specs.Turns.{gave_ticks, let_wait, asked_picture, made_report, signalled};
ghost use Rattle.event_loop.specs.inner.Reading.{IsTakenBy, octets_taken};

use crate::inlet::{Inlet, Read};
use crate::kept::FrontKept;
use crate::watch::Watch;
use bridge_stats::{BridgeStats, Limited};
use desk_rows::Rows;
use ingress::Received;
use media_front::{MediaFront, ended_by};
use media_workers::{Pace, PublisherName, Sink};
use picture_requests::VideoSource;
use published_desk::Notice;
use std::alloc::Global;
use std::marker::Model;
use std::sync::Wait;
use udp_wire::{FrontFault, Wire};

/// From how many nanoseconds without a tick on the bridge stood still: 1 s, whose 50 ticks it makes up for.
const STOOD_STILL: u64 = 1_000_000_000;

/// A front: where datagrams come from and go out to, its watch, the receive side with the lanes, what it counts, and
/// what it keeps from round to round. Each method does one thing, which is one turn.
///
/// Contracts see the front with its history: what was read, the moments that the watch told, and what was tried on the
/// wire.
// Sockets, clocks and threads have no contract that says what came or was sent. Their three traits have: each has a
// history that only its methods extend, and one relation says what each turn changes in the front and in these. So a
// round that drops, repeats or reorders a datagram is refused, and so is one that stops reading while datagrams wait,
// since a read that finds nothing is in the history too.
pub struct FrontState<N: PublisherName, P: Pace, S: Sink, I: Inlet, W: Wire, C: Watch> {
    /// Where datagrams come from.
    pub inlet: I,
    /// Where datagrams go out.
    pub wire: W,
    /// What tells the time.
    pub watch: C,
    /// The receive side and the lanes.
    pub media: MediaFront<N, P, S>,
    /// When the ticks that were due were given last, in nanoseconds since 1970.
    pub ticked: u64,
    /// What is counted of the datagrams that were taken in.
    pub stats: BridgeStats,
    /// Whom it is to ask for pictures, and when it wakes its lanes.
    pub kept: FrontKept,
}

impl<N: PublisherName, P: Pace, S: Sink, I: Inlet, W: Wire, C: Watch> Model
    for FrontState<N, P, S, I, W, C> {
    ghost use Rattle.event_loop.specs.Turns.{History, history};

    ghost Value = { History P S };

    ghost view = { λ f.
        history f.media (I.came f.inlet) (C.told f.watch) (W.attempts f.wire) f.ticked f.stats f.kept };
}

/// What a front did at a read.
#[derive(Drop)]
pub(crate) enum ReadTurn {
    /// It took a datagram in, which stands in the chunk's first octets.
    Datagram {
        /// What the datagram was.
        received: Received,
        /// The video source whose probation the datagram ended.
        ended: Option<u32>,
        /// How many octets it has.
        octets: usize,
    },
    /// It read something else.
    Other,
    /// Nothing waited.
    Nothing,
}

/// Whether the rate limiter left out no report block, by what it had left out before and afterwards.
fn all_pass(before: Limited, after: Limited) -> bool
    ensures { result ≡ all_pass before after }
{
    after.blocks == before.blocks
}

/// Gives each lane the ticks that are due at this moment, and notes the moment. Returns whether any was due.
fn give_ticks<N: PublisherName, P: Pace, S: Sink>(
    media: &mut MediaFront<N, P, S>,
    ticked: &mut u64,
    now: u64,
) -> bool
    ensures due { result ≡ is_behind media.old.ticks now }
    ensures did { HasTicked now media.old media.new }
    ensures last { ticked.new ≡ now }
{
    *ticked = now;
    media.tick(now)
}

/// Gives each lane the ticks that are due at this moment, where the bridge stood still for over a second, so that they
/// don't run past the sound that waits. Returns whether it did.
fn catch_up<N: PublisherName, P: Pace, S: Sink>(
    media: &mut MediaFront<N, P, S>,
    ticked: &mut u64,
    moment: u64,
) -> bool
    ensures did { HasCaughtUp result moment media.old media.new }
    ensures late { result ≡ is_late moment ticked.old }
    ensures last { ticked.new ≡ (if result then moment else ticked.old) }
{
    let is_late = moment.saturating_sub(*ticked) > STOOD_STILL;
    if is_late {
        give_ticks(media, ticked, moment);
    }
    is_late
}

impl<N: PublisherName, P: Pace, S: Sink, I: Inlet, W: Wire, C: Watch> FrontState<N, P, S, I, W, C> {
    /// Owes each lane this notice.
    pub(crate) fn owe(&mut self, notice: Notice)
        requires { notice.publisher ≡ N.publisher }
        ensures { Does self.old (owed notice) self.new }
    {
        self.media.tell(notice);
    }

    /// The present moment, by its watch.
    pub(crate) fn look(&mut self) -> Result<u64, FrontFault>
        ensures ok { IfOk result (λ now. Does self.old (looked now) self.new) }
        ensures err { OnErr result (self.new ≡ self.old) }
    {
        self.watch.now()
    }

    /// Waits until something has come, or a tick is due. Returns whether connections may wait. A lane that has ended is
    /// a fault.
    pub(crate) fn wait(&mut self) -> Result<bool, FrontFault>
        ensures { (turns : List Turn) × HaveDone turns self.old self.new
            × OnOk result ((moment : ℕ) × (turns ≡ looked moment ∷ [])) }
    {
        if self.media.has_ended() {
            return Err(FrontFault::LaneEnded);
        }
        let now = self.watch.now()?;
        self.inlet.wait(self.media.until_tick(now))
    }

    /// Reads the next datagram into a chunk, takes it in and counts it.
    pub(crate) fn take_next(
        &mut self,
        alloc: Global,
        rows: &Rows,
        chunk: &mut Vec<u8>,
    ) -> Result<ReadTurn, FrontFault>
        ensures done { (turns : List Turn) × HaveDone turns self.old self.new
            × IfOk result (λ taken. IsTakenBy rows.now taken turns) }
        ensures few { IfOk result (λ taken. octets_taken taken ≤ length chunk.new.items) }
    {
        let (from, octets) = match self.inlet.read(chunk)? {
            Read::Datagram { from, octets } => (from, octets),
            Read::Other => return Ok(ReadTurn::Other),
            Read::Nothing => return Ok(ReadTurn::Nothing),
        };
        let moment = self.watch.now()?;
        catch_up(&mut self.media, &mut self.ticked, moment);
        let datagram = &chunk[..octets];
        let before = self.media.limited();
        let received = self
            .media
            .datagram(alloc, rows, &from, moment, datagram, &mut self.wire)?;
        let all_pass = all_pass(before, self.media.limited());
        self.stats.note(rows, &received, all_pass);
        let ended = ended_by(&received);
        Ok(ReadTurn::Datagram {
            received,
            ended,
            octets,
        })
    }

    /// Reads the next datagram into a chunk, and drops it. Returns whether one waited, or something else.
    pub(crate) fn drop_next(&mut self, chunk: &mut Vec<u8>) -> Result<Read, FrontFault>
        ensures ok { IfOk result (λ read. Does self.old (passed (came_by read chunk.new.items)) self.new) }
        ensures err { OnErr result (self.new ≡ self.old) }
    {
        self.inlet.read(chunk)
    }

    /// Gives each lane the ticks that are due at this moment. Returns whether any was due.
    pub(crate) fn tick(&mut self, now: u64) -> bool
        ensures { Does self.old (gave_ticks result now) self.new }
    {
        give_ticks(&mut self.media, &mut self.ticked, now)
    }

    /// Tells the receive side that time has passed for each video source.
    pub(crate) fn wait_all(
        &mut self,
        alloc: Global,
        rows: &Rows,
        now: u64,
    ) -> Result<(), FrontFault>
        ensures { (turns : List Turn) × HaveDone turns self.old self.new
            × OnOk result (turns ≡ let_wait rows.now now ∷ []) }
    {
        self.media.wait_all(alloc, rows, now, &mut self.wire)
    }

    /// Makes the reports, if they are due. Returns whether they were.
    pub(crate) fn report(
        &mut self,
        alloc: Global,
        rows: &Rows,
        now: u64,
    ) -> Result<bool, FrontFault>
        ensures ok { IfOk result (λ due. Does self.old (made_report due rows.now now) self.new) }
        ensures err { OnErr result (self.new ≡ self.old) }
    {
        let due = self.media.report(alloc, rows, now, &mut self.wire)?;
        Ok(due)
    }

    /// Asks a sender for a picture, if its address has tokens for the request, and then notes that it was asked at this
    /// moment. Returns whether it had.
    pub(crate) fn ask_picture(
        &mut self,
        alloc: Global,
        source: &VideoSource,
        now: u64,
    ) -> Result<bool, FrontFault>
        ensures ok { IfOk result (λ sent. Does self.old (asked_picture (asked_origin source.now) now sent) self.new) }
        ensures err { OnErr result (self.new ≡ self.old) }
    {
        let to = source.address();
        let sent = self
            .media
            .ask_picture(alloc, &to, source.ssrc, &mut self.wire)?;
        self.kept.note_picture(source, now, sent);
        Ok(sent)
    }

    /// Raises the signals of the lanes whose signals are due.
    pub(crate) fn signal<R: Wait>(&mut self, rt: &R)
        ensures { Does self.old signalled self.new }
    {
        self.media.signal(rt);
    }
}
