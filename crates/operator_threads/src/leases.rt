//! The leases that a desk was told.
//!
//! They stand in a book of `logbook`, which exists in proofs alone: what is known of them is a beginning of that book
//! that was seen, with its length.

ghost use Rattle.std.specs.Prelude.{◌≡◌, []};
ghost use Rattle.std.specs.Bool.{OnTrue};
ghost use Rattle.published_desk.specs.inner.BookRule.{head_of};
ghost use Rattle.operator_threads.specs.Lease.{HasLearnt, told_lease};

use crate::learning::learn_same;
use crate::lease::Held;
use logbook::{Gain, Offer, Plain, Play, Rule, Seen, Start, Word};
use std::marker::Model;

/// The rule of the book.
pub(crate) struct LeaseLaw;

impl Rule<Option<Held>, u64> for LeaseLaw {
    ghost use Rattle.std.specs.Prelude.{[]};
    ghost use base.Fml.{ftrue};
    ghost use Rattle.published_desk.specs.inner.BookRule.{IsKept};

    ghost holds = { λ cells log. IsKept cells log };

    ghost first = { [] };

    ghost hinted = { λ n log. Unit {0} };

    ghost shows = { λ log. [] };

    ghost keeps = { λ names log. ftrue };

    ghost moves = { λ ask before after answer. Unit {0} };
}

/// No client of the book trades anything.
pub(crate) struct NoGain;

impl Gain<Option<Held>, u64> for NoGain {
    ghost use base.Fml.{ftrue};

    ghost after = { λ names about answer. ftrue };
}

/// A step that adds a lease to the book.
pub(crate) struct AddLease;

impl Play<Option<Held>, u64> for AddLease {
    ghost use Rattle.published_desk.specs.inner.BookRule.{Adds};

    ghost then = { Adds };
}

impl Plain<Option<Held>, Option<Held>, u64> for AddLease {
    ghost use Rattle.std.specs.Prelude.{None};

    ghost ask = { λ lease. lease };

    ghost state = { λ lease. None };
}

/// How many leases the book has.
pub(crate) type LeaseHead = Word<Option<Held>, u64, LeaseLaw>;

/// The first leases of a book, as far as they are known: each was given, or was `None` where the one before was taken
/// back. Contracts see the list and the book.
#[derive(Drop)]
pub(crate) struct Leases {
    count: u64,
    seen: Seen<Option<Held>, u64, LeaseLaw>,
}

impl Model for Leases {
    ghost use Rattle.std.specs.Prelude.{◌≡◌, length};
    ghost use Rattle.operator_threads.specs.Lease.{LeasesOf};

    ghost Value = { LeasesOf };

    ghost view = { λ l. record { book = l.seen.book; list = l.seen.log } };

    ghost invariant = { λ l. l.count ≡ length l.seen.log };
}

impl Leases {
    /// None, of a new book. It takes no memory.
    pub fn none() -> (LeaseHead, Self)
        ensures head { result.0 ≡ head_of result.1.book }
        ensures list { result.1.list ≡ [] }
    {
        let (seen, mut first, _second) = Seen::open(Start::alone(), 0, 0);
        (Word::tracked(0, &mut first), Self { count: 0, seen })
    }

    /// The same again, which takes no memory.
    pub fn again(&self) -> Self
        ensures { result ≡ self.now }
    {
        Self {
            count: self.count,
            seen: self.seen.again(),
        }
    }

    /// Whether these are as many as those that are known, or more.
    fn go_on_from(&self, known: &Leases) -> bool
        ensures { OnTrue result (HasLearnt known.now self.now) }
    {
        let mut both = known.seen.again();
        learn_same(&mut both, &self.seen);
        known.count <= self.count
    }

    /// Learns of all that were told, and returns whether it did. It doesn't if it knows of more.
    pub fn learn(&mut self, told: &Leases) -> bool
        ensures learnt { OnTrue result (HasLearnt self.old self.new) }
        ensures all { OnTrue result (self.new ≡ told.now) }
    {
        if !told.go_on_from(self) {
            return false;
        }
        *self = told.again();
        true
    }

    /// Adds a lease to the book, and returns whether it did. It doesn't if a lease of the book isn't known.
    pub fn add(&mut self, head: &LeaseHead, lease: &Option<Held>) -> bool
        requires head { head.now ≡ head_of self.old.book }
        ensures { OnTrue result (self.new ≡ told_lease lease.now self.old) }
    {
        let count = self.count;
        if count == u64::MAX {
            return false;
        }
        let mut seen = self.seen.again();
        let mut offer: Offer<Option<Held>, u64, LeaseLaw, NoGain> = seen.plain::<
            NoGain,
            Option<Held>,
            AddLease,
        >(lease);
        let mut pen = seen.no_pen();
        let found = head.compare_exchange::<AddLease, NoGain>(
            count,
            count + 1,
            &mut seen,
            &mut offer,
            &mut pen,
        );
        if found != count {
            return false;
        }
        self.seen = seen;
        self.count = count + 1;
        true
    }
}
