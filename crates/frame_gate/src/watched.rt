//! A gate that is told when time passes. Begin with [`WatchedGate::new`].

ghost use Rattle.std.specs.Prelude.{◌≡◌, ◌+◌, ◌≤◌, ◌∷◌, [], ◌||◌, ◌&&◌, IfOk, length, take, true, not, nat_le};
ghost use Rattle.std.specs.Vec.{vec_len, vec_capacity};
ghost use Rattle.frame_gate.specs.Admits.{Represents};
ghost use Rattle.frame_gate.specs.Epochs.{most_missing};
ghost use Rattle.frame_gate.specs.Frame.{highest_pt};
ghost use Rattle.frame_gate.specs.Packets.{numbered, IsExt};
ghost use Rattle.frame_gate.specs.Watched.{Watch, most_waits, limit_of, age, waits_in, one_more_if};
ghost use Rattle.frame_gate.specs.Waits.{CommitsWait, PreparesWait, CommitsPacket, PreparesPacket, answer_in};
ghost use Rattle.frame_gate.specs.Waits.{Watches, so_many};

use crate::aging::{MOST_WAITS, SHORT_WAITS, age, asked_again, last_lost};
use crate::frame::Frame;
use crate::gate::Gate;
use crate::held::number_of;
use crate::packet::Packet;
use crate::prepared::{Admitted, GaveUp, PreparedAnswer, PreparedCuts, Waited};
use crate::waiting::first_unheld;
use std::alloc::{AllocError, Allocator, Global};
use std::marker::Model;

/// A prepared wait. [`WatchedGate::prepare_wait`] makes it.
#[derive(Drop)]
pub struct PreparedWait<A: Allocator + Copy = Global> {
    cuts: PreparedCuts<A>,
    nacks: Vec<i64, A>,
}

impl<A: Allocator + Copy> Model for PreparedWait<A> {
    ghost use Rattle.frame_gate.specs.Waits.{PreparedWaitOf};

    ghost Value = { PreparedWaitOf };

    ghost view = { λ r. record { cuts = r.cuts; nacks = r.nacks.items } };
}

/// A gate that is also told that time passes, by a wait every 20 ms.
///
/// At a wait it asks again for each number that was missing at 2, 5, 11 or 21 waits before. It gives up the numbers
/// that were missing at 25 waits before, or at 5 while the source is thought not to answer requests. That is so once a
/// number was given up, until a packet comes that was missing at a wait.
///
/// It counts the frames that it gave, and how often it gave up. Each count ends at 2^64 - 1.
///
/// Contracts see the gate, its greatest number at each of the last 25 waits, whether the source answers, and the
/// counts.
#[derive(Drop)]
pub struct WatchedGate<A: Allocator + Copy = Global> {
    gate: Gate<A>,
    /// The greatest number at each of the last 25 waits, the last wait first.
    marks: Vec<u64, A>,
    /// Whether the source is thought to answer requests.
    answers: bool,
    /// How many frames it gave.
    frames: u64,
    /// How often it gave up.
    gaps: u64,
}

/// A prepared packet. [`WatchedGate::prepare`] makes it.
#[derive(Drop)]
pub struct PreparedPacket<A: Allocator + Copy = Global> {
    prepared: PreparedAnswer<A>,
    answers: bool,
}

impl<A: Allocator + Copy> Model for PreparedPacket<A> {
    ghost use Rattle.frame_gate.specs.Waits.{PreparedPacketOf};

    ghost Value = { PreparedPacketOf };

    ghost view = { λ r. record { prepared = r.prepared; answers = r.answers } };
}

impl<A: Allocator + Copy> Model for WatchedGate<A> {
    ghost use Rattle.std.specs.Prelude.{◌≤◌};
    ghost use Rattle.std.specs.Vec.{vec_len, vec_capacity};
    ghost use Rattle.frame_gate.specs.Watched.{most_waits};
    ghost use Rattle.frame_gate.specs.Waits.{WatchedOf};

    ghost Value = { WatchedOf };

    ghost view = { λ w. record {
      gate = w.gate;
      marks = w.marks.items;
      answers = w.answers;
      frames = w.frames;
      gaps = w.gaps;
    } };

    ghost invariant = { λ w. (vec_len w.marks ≤ most_waits) × (most_waits ≤ vec_capacity w.marks) };
}

impl<A: Allocator + Copy> PreparedPacket<A> {
    /// The answer that committing will give.
    pub fn answer(&self) -> &Admitted<A>
        ensures { result.now ≡ self.now.prepared.answer }
    {
        self.prepared.answer()
    }
}

impl<A: Allocator + Copy> PreparedWait<A> {
    /// The frames that committing will give.
    pub fn frames(&self) -> &[Frame<A>]
        ensures { result.now ≡ self.now.cuts.answer.frames }
    {
        &self.cuts.answer.frames
    }

    /// The extended numbers that are asked for again, rising; at most 255.
    pub fn nacks(&self) -> &[i64]
        ensures { result.now ≡ self.now.nacks }
    {
        &self.nacks
    }

    /// Whether a number is given up, so that a new picture is needed.
    pub fn gives_up(&self) -> bool
        ensures { result ≡ self.now.cuts.answer.pli }
    {
        self.cuts.answer.pli
    }
}

/// Puts a mark before the others, and drops the last one of 25.
fn put_mark<A: Allocator>(marks: &mut Vec<u64, A>, mark: u64)
    requires len { vec_len marks.old ≤ most_waits }
    requires capacity { most_waits ≤ vec_capacity marks.old }
    ensures items { marks.new.items ≡ take most_waits (mark ∷ marks.old.items) }
    ensures len { vec_len marks.new ≤ most_waits }
    ensures capacity { most_waits ≤ vec_capacity marks.new }
{
    if marks.len() == MOST_WAITS as usize {
        marks.truncate(MOST_WAITS as usize - 1);
    }
    let Ok(()) = marks.insert(0, mark) else {
        unreachable!()
    };
}

/// Whether a prepared packet makes its gate give up.
fn gives_up<A: Allocator + Copy>(prepared: &PreparedAnswer<A>) -> bool
    ensures { result ≡ prepared.now.answer.pli }
{
    prepared.answer().pli
}

impl<A: Allocator + Copy> WatchedGate<A> {
    /// A gate without packets and without waits. The only error is out of memory.
    pub fn new(alloc: A) -> Result<Self, AllocError>
        ensures gate { IfOk result (λ w. Represents w.gate []) }
        ensures marks { IfOk result (λ w. w.marks ≡ []) }
        ensures answers { IfOk result (λ w. w.answers ≡ true) }
        ensures frames { IfOk result (λ w. w.frames ≡ 0) }
        ensures gaps { IfOk result (λ w. w.gaps ≡ 0) }
    {
        let gate = Gate::new(alloc)?;
        let marks = Vec::with_capacity(alloc, MOST_WAITS as usize)?;
        Ok(Self {
            gate,
            marks,
            answers: true,
            frames: 0,
            gaps: 0,
        })
    }

    /// How many frames it gave.
    pub fn frames(&self) -> u64
        ensures { result ≡ self.now.frames }
    {
        self.frames
    }

    /// How often it gave up: at a packet or at a wait, once however many numbers it gave up there.
    pub fn gaps(&self) -> u64
        ensures { result ≡ self.now.gaps }
    {
        self.gaps
    }

    /// At how many of the last 25 waits the first missing number was missing. None where no number is missing.
    pub fn waits(&self) -> Option<u64>
        ensures { (w : Watch) → Watches self.now w → result ≡ waits_in w }
    {
        let to = self.gate.missing_end();
        match first_unheld(&self.gate.cells, self.gate.walk.next, to) {
            None => None,
            Some(number) => Some(age(&self.marks, number)),
        }
    }

    /// Counts frames, and that it gave up if it did.
    fn count(&mut self, frames: usize, gives_up: bool)
        ensures { self.new
            ≡ record self.old {
              frames = so_many (self.old.frames + frames);
              gaps = so_many (one_more_if gives_up self.old.gaps);
            } }
    {
        self.frames = self.frames.saturating_add(frames as u64);
        self.gaps = self.gaps.saturating_add(gives_up as u64);
    }

    /// Whether a number was missing at a wait, or was decided before one.
    fn came_late(&self, number: u64) -> bool
        ensures { result ≡ nat_le 1 (age self.now.marks number) }
    {
        age(&self.marks, number) >= 1
    }

    /// Whether the source answers, after the packet of this number.
    fn answers_with(&self, number: u64, gives_up: bool) -> bool
        ensures { result ≡ ((self.now.answers || nat_le 1 (age self.now.marks number)) && not gives_up) }
    {
        (self.answers || self.came_late(number)) && !gives_up
    }

    /// The answer to a packet, as [`Gate::prepare`] gives it. Nothing changes until [`commit`](Self::commit).
    pub fn prepare(
        &self,
        alloc: A,
        ext: i64,
        packet: Packet<A>,
    ) -> Result<PreparedPacket<A>, AllocError>
        requires ext { IsExt ext }
        requires pt { packet.pt ≤ highest_pt }
        ensures ok { IfOk result (λ r. PreparesPacket self.now (numbered ext packet) r) }
        ensures few { IfOk result (λ r. length r.prepared.answer.nacks ≤ most_missing) }
    {
        let number = number_of(ext);
        let prepared = self.gate.prepare(alloc, ext, packet)?;
        let pli = gives_up(&prepared);
        let answers = self.answers_with(number, pli);
        Ok(PreparedPacket { prepared, answers })
    }

    /// Takes the prepared packet in, as [`Gate::commit`] does. The gate must be as it was when this was prepared.
    pub fn commit(&mut self, prepared: PreparedPacket<A>) -> Admitted<A>
        ensures gate { CommitsPacket self.old prepared self.new }
        ensures answer { result ≡ prepared.prepared.answer }
    {
        let PreparedPacket { prepared, answers } = prepared;
        self.answers = answers;
        let admitted = self.gate.commit(prepared);
        self.count(admitted.frames.len(), admitted.pli);
        admitted
    }

    /// How many waits a number is waited for.
    fn limit(&self) -> u64
        ensures limit { result ≡ limit_of self.now.answers }
        ensures most { result ≤ most_waits }
    {
        if self.answers {
            MOST_WAITS
        } else {
            SHORT_WAITS
        }
    }

    /// The answer to a wait, and what the gate will remember. Nothing changes until [`wait`](Self::wait). The only
    /// error is out of memory.
    pub fn prepare_wait(&self, alloc: A) -> Result<PreparedWait<A>, AllocError>
        ensures ok { IfOk result (λ r. PreparesWait self.now r) }
        ensures few { IfOk result (λ r. length r.nacks ≤ most_missing) }
    {
        let from = self.gate.walk.next;
        let to = self.gate.missing_end();
        let nacks = asked_again(alloc, &self.gate.cells, &self.marks, from, to)?;
        let limit = self.limit();
        let lost = last_lost(&self.gate.cells, limit, &self.marks, from, to);
        let cuts = self.gate.cuts_for(alloc, lost)?;
        Ok(PreparedWait { cuts, nacks })
    }

    /// Commits the prepared wait, and gives its answer. The gate must be as it was when this was prepared. It takes no
    /// memory.
    pub fn wait(&mut self, prepared: PreparedWait<A>) -> Waited<A>
        ensures gate { CommitsWait self.old prepared self.new }
        ensures answer { result ≡ answer_in prepared }
    {
        let PreparedWait { cuts, nacks } = prepared;
        put_mark(&mut self.marks, self.gate.greatest.unwrap_or(0));
        let GaveUp { frames, pli } = self.gate.give_up(cuts);
        self.answers = self.answers && !pli;
        self.count(frames.len(), pli);
        Waited { frames, nacks, pli }
    }
}
