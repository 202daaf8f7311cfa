//! The operators of a bridge.

ghost use Rattle.std.specs.Prelude.{◌≡◌, ◌≤◌, [], None};
ghost use mathlib.Core.List.{IsPrefix};
ghost use Rattle.operator_desk.specs.Answers.{IsNotice};
ghost use Rattle.operator_desk.specs.Opening.{most_operators};

use crate::at_desk::AtDesk;
use crate::latest::Latest;
use crate::lease::Lease;
use crate::leases::Leases;
use crate::printed::Printed;
use crate::printed_past::PrintedPast;
use crate::seats::{FreeSeats, TakenSeat};
use crate::threads::ThreadCount;
use crate::wake::Wake;
use operator_desk::{DeskBrand, MAX_OPERATORS, Seat, SharedDesk};
use published_desk::Notice;
use std::alloc::Global;
use std::sync::atomic::{AtomicBool, Ordering};
use std::sync::{Mutex, MutexGuard, Wait};

/// The operators of a bridge, at one desk. It is not `Drop`: end it by [`Operators::end`].
///
/// One reference to it is all that a connection's thread borrows.
pub struct Operators<'a, H: DeskBrand> {
    pub(crate) desk: SharedDesk<'a, H>,
    /// How many seats there are.
    all: usize,
    seats: Mutex<FreeSeats<'a, H>>,
    threads: Mutex<ThreadCount>,
    latest: Mutex<Latest<H>>,
    /// Held while a call is judged and answered.
    pub(crate) lease: Mutex<Lease>,
    /// Held while the rows are printed, which takes milliseconds for a full desk, or copied as they were printed last.
    /// Operators who keep asking take one processor together, and the others' calls have the rest.
    pub(crate) printed: Mutex<Printed<H>>,
    /// The same for the calls in force.
    pub(crate) printed_past: Mutex<PrintedPast<'a, H>>,
    pub(crate) stopped: AtomicBool,
    pub(crate) failed: AtomicBool,
}

impl<'a, H: DeskBrand> Operators<'a, H> {
    /// The operators of a desk with these seats, all of them free.
    pub fn new<R: Wait>(
        rt: &R,
        alloc: Global,
        desk: SharedDesk<'a, H>,
        seats: Vec<Seat<'a, H>>,
    ) -> Self {
        let latest = Latest::new(desk.notice(rt));
        let all = seats.len();
        Self {
            desk,
            all,
            seats: Mutex::new(FreeSeats { seats }),
            threads: Mutex::new(ThreadCount::new(all)),
            latest: Mutex::new(latest),
            lease: Mutex::new(Lease::none()),
            printed: Mutex::new(Printed::nothing(alloc)),
            printed_past: Mutex::new(PrintedPast::nothing(alloc)),
            stopped: AtomicBool::new(false),
            failed: AtomicBool::new(false),
        }
    }

    /// Whether a seat is free. Without one a new connection is to be turned away.
    pub fn has_seat<R: Wait>(&self, rt: &R) -> bool {
        let seats = self.seats.lock(rt);
        let is_empty = seats.is_empty();
        MutexGuard::unlock(seats);
        !is_empty
    }

    /// How many seats are in use.
    pub(crate) fn used<R: Wait>(&self, rt: &R) -> u32
        ensures { result ≤ most_operators }
    {
        let seats = self.seats.lock(rt);
        let free = seats.count();
        MutexGuard::unlock(seats);
        let used = self.all.saturating_sub(free);
        used.min(MAX_OPERATORS as usize) as u32
    }

    /// Asks for a thread for a connection. Returns whether it may have one: no more connections have one than there are
    /// seats. End it by [`Operators::end_thread`].
    pub fn begin_thread<R: Wait>(&self, rt: &R) -> bool {
        let mut threads = self.threads.lock(rt);
        let begins = threads.begin();
        MutexGuard::unlock(threads);
        begins
    }

    /// The thread of a connection has ended.
    pub fn end_thread<R: Wait>(&self, rt: &R) {
        let mut threads = self.threads.lock(rt);
        threads.end();
        MutexGuard::unlock(threads);
    }

    /// Takes the lowest free seat.
    pub(crate) fn take<R: Wait>(&self, rt: &R) -> Option<TakenSeat<'a, H>> {
        let mut seats = self.seats.lock(rt);
        let taken = seats.take();
        MutexGuard::unlock(seats);
        taken
    }

    /// Takes the last free seat: that of the highest operator, while all are free.
    pub(crate) fn take_last<R: Wait>(&self, rt: &R) -> Option<TakenSeat<'a, H>> {
        let mut seats = self.seats.lock(rt);
        let taken = seats.take_last();
        MutexGuard::unlock(seats);
        taken
    }

    /// Gives a seat back.
    pub(crate) fn give<R: Wait>(&self, rt: &R, taken: TakenSeat<'a, H>) {
        let mut seats = self.seats.lock(rt);
        seats.give(taken);
        MutexGuard::unlock(seats);
    }

    /// The operator of a taken seat. End it by [`AtDesk::leave`].
    pub(crate) fn at_desk<'b, R: Wait, F: Wake>(
        &'b self,
        rt: &'b R,
        alloc: Global,
        front: &'b F,
        taken: TakenSeat<'a, H>,
    ) -> AtDesk<'b, 'a, H, R, F>
        ensures taken { result.taken ≡ taken.entry }
        ensures watch { result.told ≡ None }
        ensures name { result.name.items ≡ [] }
        ensures trouble { result.trouble ≡ None }
    {
        let known = self.latest(rt);
        let learnt = self.leases(rt);
        AtDesk {
            operators: self,
            rt,
            front,
            taken,
            known,
            told: None,
            is_named: false,
            name: Vec::new(alloc),
            trouble: None,
            learnt,
        }
    }

    /// The leases that the desk was told so far.
    fn leases<R: Wait>(&self, rt: &R) -> Leases {
        let lease = self.lease.lock(rt);
        let leases = lease.told().again();
        MutexGuard::unlock(lease);
        leases
    }

    /// Learns the notice of an accepted call, and returns the latest one.
    pub(crate) fn learn<R: Wait>(&self, rt: &R, notice: &Notice) -> Notice
        requires tells { IsNotice H.start H.publisher notice.now }
        ensures that { IsPrefix notice.now.lists result.lists }
        ensures tells { IsNotice H.start H.publisher result }
    {
        let mut latest = self.latest.lock(rt);
        let learnt = latest.learn(notice);
        MutexGuard::unlock(latest);
        learnt
    }

    /// The latest notice of an accepted call, or of the desk's beginning. It does not wait for the desk.
    pub fn latest<R: Wait>(&self, rt: &R) -> Notice
        ensures { IsNotice H.start H.publisher result }
    {
        let latest = self.latest.lock(rt);
        let notice = latest.again();
        MutexGuard::unlock(latest);
        notice
    }

    /// Stops the bridge: each connection's thread ends within two seconds.
    pub fn stop(&self) {
        self.stopped.store(true, Ordering::SeqCst);
    }

    /// Whether the bridge is stopped.
    pub fn has_stopped(&self) -> bool {
        self.stopped.load(Ordering::SeqCst)
    }

    /// Whether the desk had no answer for one of its own seats, which has stopped the bridge.
    pub fn has_failed(&self) -> bool {
        self.failed.load(Ordering::SeqCst)
    }

    /// The desk, and the seats that were given back, as [`SharedDesk::gather`] takes them.
    pub fn end(self) -> (SharedDesk<'a, H>, Vec<Seat<'a, H>>) {
        let Operators {
            desk,
            all: _,
            seats,
            threads: _,
            latest: _,
            lease: _,
            printed: _,
            printed_past: _,
            stopped: _,
            failed: _,
        } = self;
        (desk, seats.into_inner().seats)
    }
}
