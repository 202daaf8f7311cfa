//! Notices: what is known of the lists that one publisher has published.
//!
//! The lists stand in a book of `logbook`, which exists in proofs alone: a notice is a beginning of that
//! book that was seen, with its length.

ghost use Rattle.std.specs.Prelude.{◌≡◌, ◌⊎◌, ◌-◌, ◌^◌, ◌<◌, ◌≤◌, ◌++◌, ◌∷◌, [], length, MatchBool};
ghost use mathlib.Core.List.{IsPrefix};
ghost use Rattle.published_desk.specs.inner.BookRule.{head_of};

use desk_rows::Edit;
use logbook::{Gain, Offer, Plain, Play, Rule, Seen, Start, Word};
use std::marker::Model;
use undo_log::Edits;

/// The rule of the book.
pub struct Law;

impl Rule<Edits<Edit>, u64> for Law {
    ghost use Rattle.std.specs.Prelude.{[]};
    ghost use base.Fml.{ftrue};
    ghost use Rattle.published_desk.specs.inner.BookRule.{IsKept};

    ghost holds = { λ cells log. IsKept cells log };

    ghost first = { [] };

    ghost hinted = { λ n log. Unit {0} };

    ghost shows = { λ log. [] };

    ghost keeps = { λ names log. ftrue };

    ghost moves = { λ ask before after answer. Unit {0} };
}

/// No client of the book trades anything.
pub struct Nothing;

impl Gain<Edits<Edit>, u64> for Nothing {
    ghost use base.Fml.{ftrue};

    ghost after = { λ names about answer. ftrue };
}

/// A step that adds a list to the book.
pub struct Add;

impl Play<Edits<Edit>, u64> for Add {
    ghost use Rattle.published_desk.specs.inner.BookRule.{Adds};

    ghost then = { Adds };
}

impl Plain<Edits<Edit>, Edits<Edit>, u64> for Add {
    ghost use Rattle.std.specs.Prelude.{None};

    ghost ask = { λ edits. edits };

    ghost state = { λ edits. None };
}

pub(crate) type LogHead = Word<Edits<Edit>, u64, Law>;

/// A book without lists, for one publisher to be started with.
///
/// Contracts see the name of the publisher.
#[derive(Drop)]
pub struct Opened {
    head: Word<Edits<Edit>, u64, Law>,
    notice: Notice,
}

impl Model for Opened {
    ghost use Rattle.std.specs.Prelude.{◌≡◌, []};
    ghost use Rattle.logbook.specs.Pages.{Book};
    ghost use Rattle.published_desk.specs.inner.BookRule.{head_of};

    ghost Value = { Book };

    ghost view = { λ o. o.notice.publisher };

    ghost invariant = { λ o. (o.head ≡ head_of o.notice.publisher) × (o.notice.lists ≡ []) };
}

impl Opened {
    /// A book in which nothing is published. It takes no memory.
    pub fn new() -> Opened {
        let (seen, mut first, _second) = Seen::open(Start::alone(), 0, 0);
        Opened {
            head: Word::tracked(0, &mut first),
            notice: Notice { version: 0, seen },
        }
    }

    pub(crate) fn into_parts(self) -> (LogHead, Notice)
        ensures { (result.0 ≡ head_of self) × (result.1 ≡ record { publisher = self; lists = [] }) }
    {
        let Opened { head, notice } = self;
        (head, notice)
    }
}

/// What a publisher tells of a version: a reader that learnt it enters that version or a later one.
///
/// Contracts see the publisher's name and the lists of edits that lead to the version.
// The lists stand in proofs alone, so that a notice is copied and learnt without memory, and without a step that others
// see.
#[derive(Drop)]
pub struct Notice {
    version: u64,
    seen: Seen<Edits<Edit>, u64, Law>,
}

impl Model for Notice {
    ghost use Rattle.std.specs.Prelude.{◌≡◌, length};
    ghost use Rattle.published_desk.specs.Published.{NoticeOf};

    ghost Value = { NoticeOf };

    ghost view = { λ n. record { publisher = n.seen.book; lists = n.seen.log } };

    ghost invariant = { λ n. n.version ≡ length n.seen.log };
}

impl Notice {
    /// The version that it tells of.
    pub fn version(&self) -> u64
        ensures { result ≡ length self.now.lists }
    {
        self.version
    }

    /// A copy, which takes no memory.
    pub fn again(&self) -> Notice
        ensures { result ≡ self.now }
    {
        Notice {
            version: self.version,
            seen: self.seen.again(),
        }
    }

    /// The later one of two notices of one publisher.
    pub fn later(&self, other: &Notice) -> Notice
        requires publisher { other.now.publisher ≡ self.now.publisher }
        ensures one { (result ≡ self.now) ⊎ (result ≡ other.now) }
        ensures this { IsPrefix self.now.lists result.lists }
        ensures that { IsPrefix other.now.lists result.lists }
    {
        let mut both = self.seen.again();
        both.learn(&other.seen);
        if self.version < other.version {
            other.again()
        } else {
            self.again()
        }
    }

    /// A law: of two notices of one publisher, the lists of the earlier one are the first lists of the later one. The
    /// call does nothing when it runs.
    pub fn agrees(&self, earlier: &Notice)
        requires publisher { earlier.now.publisher ≡ self.now.publisher }
        requires earlier { length earlier.now.lists ≤ length self.now.lists }
        ensures { IsPrefix earlier.now.lists self.now.lists }
    {
        let mut both = self.seen.again();
        both.learn(&earlier.seen);
    }

    /// Adds a list to the book, and returns whether it did. It doesn't if the notice lacks a list of the book.
    pub(crate) fn add(&mut self, head: &LogHead, edits: &Edits<Edit>) -> bool
        requires below { length self.old.lists < 2 ^ 64 - 1 }
        requires head { head.now ≡ head_of self.old.publisher }
        ensures { MatchBool result
            (self.new ≡ record self.old { lists = self.old.lists ++ edits.now ∷ [] }) (Unit {0}) }
    {
        let mut seen = self.seen.again();
        let mut offer: Offer<Edits<Edit>, u64, Law, Nothing> = seen.plain::<
            Nothing,
            Edits<Edit>,
            Add,
        >(edits);
        let mut pen = seen.no_pen();
        let version = self.version;
        let found = head.compare_exchange::<Add, Nothing>(
            version,
            version + 1,
            &mut seen,
            &mut offer,
            &mut pen,
        );
        if found != version {
            return false;
        }
        self.seen = seen;
        self.version = version + 1;
        true
    }
}
