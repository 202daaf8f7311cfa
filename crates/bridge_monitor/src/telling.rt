//! What a bridge tells while it runs and as it ends, on its way to the thread that writes lines.

use event_lines::{Cause, Causes, Event, EventQueue, LineBudget};
use std::alloc::{AllocError, Global};
use std::sync::{Arc, Condvar, CondvarTimeouts, Mutex, MutexGuard, Wait};
use std::time::{Clock, Duration};
use std::{io, thread};
use udp_wire::Moments;

/// How many milliseconds the thread that writes lines waits for an event at most, while all events were told.
const QUIET: u64 = 1_000;
/// How many it waits while some were not.
const BUSY: u64 = 50;
/// How often it looks at most once the bridge has ended, while some were not: two seconds let it write another line.
const LAST_LOOKS: u32 = 40;

/// What threads have to tell.
#[derive(Drop)]
struct Tidings {
    queue: EventQueue,
    causes: Causes,
    /// Whether the bridge has ended.
    is_over: bool,
}

/// What threads share to tell.
#[derive(Drop)]
struct Noticeboard {
    tidings: Mutex<Tidings>,
    /// An event waits, or the bridge has ended.
    news: Condvar,
}

/// Takes what a bridge has to tell. No thread that tells something waits for the one that writes it.
#[derive(Drop)]
pub struct Teller(Arc<Noticeboard, Global>);

impl Clone for Teller {
    fn clone(&self) -> Result<Self, AllocError> {
        Ok(Self(Arc::try_clone(&self.0)?))
    }
}

impl Teller {
    /// One that was told nothing. The only error is out of memory.
    pub fn new(alloc: Global) -> Result<Self, AllocError> {
        let tidings = Tidings {
            queue: EventQueue::new(alloc)?,
            causes: Causes::new(alloc)?,
            is_over: false,
        };
        let board = Noticeboard {
            tidings: Mutex::new(tidings),
            news: Condvar::new(),
        };
        Ok(Self(Arc::new(alloc, board)?))
    }

    /// Tells an event.
    pub fn tell<R: Wait>(&self, rt: &R, event: Event) {
        let mut tidings = self.0.tidings.lock(rt);
        tidings.queue.put(event);
        MutexGuard::unlock(tidings);
        self.0.news.notify_one();
    }

    /// Tells why the bridge ends.
    pub fn note<R: Wait>(&self, rt: &R, cause: Cause) {
        let mut tidings = self.0.tidings.lock(rt);
        tidings.causes.note(cause);
        MutexGuard::unlock(tidings);
    }

    /// Tells that the bridge has ended: once all events were told, [`EventLines::next`] answers `None`.
    pub fn end<R: Wait>(&self, rt: &R) {
        let mut tidings = self.0.tidings.lock(rt);
        tidings.is_over = true;
        MutexGuard::unlock(tidings);
        self.0.news.notify_one();
    }

    /// Why the bridge ended: the cause at this place, from 0 on, if there are so many.
    pub fn cause<R: Wait>(&self, rt: &R, place: usize) -> Option<Cause> {
        let tidings = self.0.tidings.lock(rt);
        let cause = tidings.causes.all().get(place).copied();
        MutexGuard::unlock(tidings);
        cause
    }
}

/// What there was to tell at a moment.
#[derive(Drop)]
struct News {
    /// The oldest event that waited.
    event: Option<Event>,
    /// How many events were lost since the last look.
    lost: u64,
    is_over: bool,
}

/// The lines of the events of a bridge, for the thread that writes them: at most ten in any second.
#[derive(Drop)]
pub struct EventLines {
    board: Arc<Noticeboard, Global>,
    budget: LineBudget,
    moments: Moments,
    /// How often it looked since the bridge has ended.
    looks: u32,
}

impl EventLines {
    /// The lines of what this teller is told. The line that tells the bridge's start counts as one of them. An `Err` is
    /// out of memory, or the system's: its clock failed.
    pub fn begin<R: Clock>(rt: &R, alloc: Global, teller: &Teller) -> io::Result<Self> {
        let moments = Moments::begin(rt)?;
        let mut budget = LineBudget::new(alloc)?;
        budget.take(moments.start());
        Ok(Self {
            board: Arc::try_clone(&teller.0)?,
            budget,
            moments,
            looks: 0,
        })
    }

    /// Waits for news, so many milliseconds at most.
    fn news<R: Wait + Clock>(&self, rt: &R, longest: u64) -> News {
        let mut tidings = self.board.tidings.lock(rt);
        let mut event = tidings.queue.take();
        if event.is_none() && !tidings.is_over {
            let longest = Duration::from_millis(longest);
            tidings = self.board.news.wait_timeout(rt, tidings, longest).0;
            event = tidings.queue.take();
        }
        let lost = tidings.queue.take_lost();
        let is_over = tidings.is_over;
        MutexGuard::unlock(tidings);
        News {
            event,
            lost,
            is_over,
        }
    }

    /// The present moment. Where the clock fails, it is that of the last line.
    fn now<R: Clock>(&self, rt: &R) -> u64 {
        self.moments.now(rt).unwrap_or(0)
    }

    /// What the next line is to tell. It waits for it. `None`: the bridge has ended, and all was told.
    pub fn next<R: Wait + Clock>(&mut self, rt: &R) -> Option<Event> {
        for _ in rt.forever() {
            let now = self.now(rt);
            if let Some(events) = self.budget.tell(now) {
                return Some(Event::LeftOut { events });
            }
            let longest = if self.budget.untold() > 0 {
                BUSY
            } else {
                QUIET
            };
            let news = self.news(rt, longest);
            if news.lost > 0 {
                self.budget.leave_out(news.lost);
            }
            if let Some(event) = news.event {
                let now = self.now(rt);
                if self.budget.take(now) {
                    return Some(event);
                }
            } else if news.is_over && !self.looks_again(rt) {
                return None;
            }
        }
        None
    }

    /// Whether it looks once more, where the bridge has ended and no event waits: as long as some were not told, for
    /// two seconds at most.
    fn looks_again<R: Clock>(&mut self, rt: &R) -> bool {
        if self.budget.untold() == 0 || self.looks >= LAST_LOOKS {
            return false;
        }
        self.looks = self.looks.saturating_add(1);
        thread::sleep(rt, Duration::from_millis(BUSY));
        true
    }
}
