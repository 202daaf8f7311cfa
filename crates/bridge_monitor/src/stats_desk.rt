//! Where operators' threads ask what the bridge counts, and the front answers.

ghost use Rattle.std.specs.Prelude.{◌≡◌, ◌++◌, ℕ, List, OnOk, OnErr};
ghost use Rattle.bridge_monitor.specs.Told.{TellsCounts, TellsLevels};

use crate::lane_counts::{LaneCounts, show_lanes, show_streams};
use crate::stats_rows::{FrontCounts, StatsRows};
use bridge_stats::{BridgeStats, Seats, SocketRow};
use media_front::MediaFront;
use media_workers::{Pace, PublisherName, Sink};
use std::alloc::{AllocError, Global};
use std::sync::atomic::{AtomicBool, Ordering};
use std::sync::{Condvar, Mutex, MutexGuard, Wait};

/// What the front answered last.
#[derive(Drop)]
struct LastAnswer {
    rows: StatsRows,
    /// How often it answered.
    answers: u64,
    /// Whether it answers no more.
    is_over: bool,
}

/// Where operators' threads ask what the bridge counts, and the front answers once a round. While nobody asks, the
/// front only looks at a flag. It waits for no thread that prints.
#[derive(Drop)]
pub struct StatsDesk {
    asked: AtomicBool,
    answer: Mutex<LastAnswer>,
    /// The front has answered, or answers no more.
    answered: Condvar,
    /// Held while lines are printed. Operators who keep asking take one processor together.
    printed: Mutex<StatsRows>,
}

impl StatsDesk {
    /// Nobody has asked. The only error is out of memory.
    pub fn new(alloc: Global) -> Result<Self, AllocError> {
        let answer = LastAnswer {
            rows: StatsRows::new(alloc)?,
            answers: 0,
            is_over: false,
        };
        Ok(Self {
            asked: AtomicBool::new(false),
            answer: Mutex::new(answer),
            answered: Condvar::new(),
            printed: Mutex::new(StatsRows::new(alloc)?),
        })
    }

    /// Asks the front, which has to be woken then. Returns how often it had answered.
    pub fn ask<R: Wait>(&self, rt: &R) -> u64 {
        let answer = self.answer.lock(rt);
        let answers = answer.answers;
        MutexGuard::unlock(answer);
        self.asked.store(true, Ordering::SeqCst);
        answers
    }

    /// Waits until the front has answered, since it had answered so often, or answers no more.
    pub fn wait<R: Wait>(&self, rt: &R, answers: u64) {
        let answer = self
            .answered
            .wait_while(rt, self.answer.lock(rt), |answer| {
                answer.answers == answers && !answer.is_over
            });
        MutexGuard::unlock(answer);
    }

    /// Appends the lines of the front's last answer, with these buffers of the socket, and these seats. An `Err`, out
    /// of memory, appends nothing. It comes, too, where the front has never answered.
    pub fn print<R: Wait>(
        &self,
        rt: &R,
        socket: SocketRow,
        seats: Seats,
        out: &mut Vec<u8>,
    ) -> Result<(), AllocError>
        ensures ok { OnOk result ((text : List ℕ)
            × (out.new.items ≡ out.old.items ++ text) × TellsCounts socket seats text) }
        ensures err { OnErr result (out.new.items ≡ out.old.items) }
    {
        let mut rows = self.printed.lock(rt);
        self.copy_answer(rt, &mut rows);
        let done = rows.print(socket, seats, out);
        MutexGuard::unlock(rows);
        done
    }

    /// Appends the levels of the front's last answer. An `Err`, out of memory, appends nothing. It comes, too, where
    /// the front has never answered.
    pub fn print_levels<R: Wait>(&self, rt: &R, out: &mut Vec<u8>) -> Result<(), AllocError>
        ensures ok { OnOk result ((text : List ℕ)
            × (out.new.items ≡ out.old.items ++ text) × TellsLevels text) }
        ensures err { OnErr result (out.new.items ≡ out.old.items) }
    {
        let mut rows = self.printed.lock(rt);
        self.copy_answer(rt, &mut rows);
        let done = rows.print_levels(out);
        MutexGuard::unlock(rows);
        done
    }

    /// Copies the front's last answer.
    fn copy_answer<R: Wait>(&self, rt: &R, rows: &mut StatsRows) {
        let answer = self.answer.lock(rt);
        rows.show_again(&answer.rows);
        MutexGuard::unlock(answer);
    }

    /// Answers the threads that ask what the bridge counts, as of a moment in nanoseconds since 1970: what its front
    /// counted, and what its lanes did. Where none asks, it does nothing.
    pub fn answer<N: PublisherName, P: Pace, S: Sink, R: Wait>(
        &self,
        rt: &R,
        moment: u64,
        stats: &BridgeStats,
        media: &mut MediaFront<N, P, S>,
        lanes: &mut LaneCounts,
    )
        ensures media { media.new ≡ media.old }
    {
        if !self.asked.load(Ordering::SeqCst) {
            return;
        }
        show_lanes(media, lanes);
        show_streams(rt, stats, lanes);
        let counts = FrontCounts {
            moment,
            stats,
            ingress: media.ingress(),
            limited: media.limited(),
            lanes: &lanes.shown,
        };
        self.show(rt, &counts);
    }

    /// Answers all threads that ask: what the front counted.
    // A thread that asks from here on is answered in the next round, too.
    fn show<R: Wait>(&self, rt: &R, counts: &FrontCounts<'_>) {
        self.asked.store(false, Ordering::SeqCst);
        let mut answer = self.answer.lock(rt);
        answer.rows.show(counts);
        answer.answers = answer.answers.wrapping_add(1);
        MutexGuard::unlock(answer);
        self.answered.notify_all();
    }

    /// Answers no more: threads that ask get the last answer.
    pub fn close<R: Wait>(&self, rt: &R) {
        let mut answer = self.answer.lock(rt);
        answer.is_over = true;
        MutexGuard::unlock(answer);
        self.answered.notify_all();
    }
}
