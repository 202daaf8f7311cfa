//! How many lines may be written, and how many events have none.

ghost use Rattle.std.specs.Prelude.{◌≡◌, ◌↔◌, ◌+◌, ◌<◌, ◌≤◌, [], ◌∷◌, ◌++◌, true, filter, max, min};
ghost use Rattle.std.specs.Prelude.{vec_len, vec_capacity, IfOk, IfSome, IfNone, IsSome};
ghost use Rattle.event_lines.specs.Lines.{most_events, left, told, moments, left_events, told_events, AreFew};
ghost use Rattle.event_lines.specs.Lines.{is_recent, has_room, answer_at};

use crate::answered::Answered;
use std::alloc::{AllocError, Global};
use std::marker::Model;

/// How many lines are written in a second at most.
const MOST_LINES: usize = 10;
/// How many nanoseconds a second has.
const SECOND: u64 = 1_000_000_000;

/// Decides which events have a line: at most ten lines are written in any second. The other events are counted until a
/// line tells how many they are, which is one of the ten. Only [`new`](Self::new) takes memory.
///
/// Contracts see all that it answered. A moment is one of nanoseconds since 1970. One before the latest counts as the
/// latest.
#[derive(Drop)]
pub struct LineBudget {
    /// The moments of the lines that were less than a second old at the latest one, and perhaps of some older ones.
    recent: Vec<u64>,
    latest: u64,
    untold: u64,
    /// What it answered, in proofs alone.
    answered: Answered,
}

impl Model for LineBudget {
    ghost use Rattle.std.specs.Prelude.{vec_capacity};
    ghost use Rattle.event_lines.specs.Answers.{answer_list};
    ghost use Rattle.event_lines.specs.Lines.{BudgetOf};
    ghost use Rattle.event_lines.specs.inner.Kept.{IsKept};

    ghost Value = { BudgetOf };

    ghost view = { λ b. record { answers = answer_list b.answered; latest = b.latest; untold = b.untold } };

    ghost invariant = { λ b.
        IsKept b.recent.items (vec_capacity b.recent) (answer_list b.answered) b.latest b.untold };
}

/// Whether a moment is less than a second old.
fn is_recent(now: u64, at: u64) -> bool
    ensures { result ≡ is_recent now at }
{
    now.saturating_sub(at) < SECOND
}

/// Keeps the moments that are less than a second old.
fn keep_recent(moments: &mut Vec<u64>, now: u64)
    ensures kept { moments.new.items ≡ filter (is_recent now) moments.old.items }
    ensures bound { vec_len moments.new ≤ vec_len moments.old }
    ensures capacity { vec_capacity moments.new ≡ vec_capacity moments.old }
{
    moments.retain(|at| is_recent(now, *at));
}

impl LineBudget {
    /// A budget of which nothing was asked. The only error is out of memory.
    pub fn new(alloc: Global) -> Result<Self, AllocError>
        ensures answers { IfOk result (λ budget. budget.answers ≡ []) }
        ensures untold { IfOk result (λ budget. budget.untold ≡ 0) }
    {
        let recent = Vec::with_capacity(alloc, MOST_LINES)?;
        Ok(Self {
            recent,
            latest: 0,
            untold: 0,
            answered: Answered::new(),
        })
    }

    /// Whether the line of an event that happens now is written now. If not, the event is counted.
    pub fn take(&mut self, now: u64) -> bool
        ensures room { result ≡ has_room (max self.old.latest now) self.old.answers }
        ensures answers { self.new.answers ≡ self.old.answers ++ answer_at result (max self.old.latest now) ∷ [] }
        ensures latest { self.new.latest ≡ max self.old.latest now }
    {
        let now = self.latest.max(now);
        self.latest = now;
        keep_recent(&mut self.recent, now);
        if self.recent.len() < MOST_LINES {
            self.recent.push_reserved(now);
            self.answered.note_line(now);
            true
        } else {
            self.untold = self.untold.saturating_add(1);
            self.answered.note_left(1);
            false
        }
    }

    /// Counts so many more events without a line, up to 2^64 - 1 in all.
    pub fn leave_out(&mut self, events: u64)
        ensures answers { self.new.answers ≡ self.old.answers ++ left events ∷ [] }
        ensures untold { self.new.untold ≡ min (self.old.untold + events) most_events }
        ensures latest { self.new.latest ≡ self.old.latest }
    {
        self.untold = self.untold.saturating_add(events);
        self.answered.note_left(events);
    }

    /// How many events without a line are told by a line that is written now: all that no line told of yet, if there
    /// are any and a line may be written.
    pub fn tell(&mut self, now: u64) -> Option<u64>
        ensures when { IsSome result ↔ ((0 < self.old.untold)
            × (has_room (max self.old.latest now) self.old.answers ≡ true)) }
        ensures all { IfSome result (λ events. events ≡ self.old.untold) }
        ensures told { IfSome result (λ events.
            self.new.answers ≡ self.old.answers ++ told (max self.old.latest now) events ∷ []) }
        ensures none { IfNone result (self.new.answers ≡ self.old.answers) }
        ensures latest { self.new.latest ≡ max self.old.latest now }
    {
        let now = self.latest.max(now);
        self.latest = now;
        keep_recent(&mut self.recent, now);
        if self.untold == 0 || self.recent.len() >= MOST_LINES {
            return None;
        }
        let events = self.untold;
        self.untold = 0;
        self.recent.push_reserved(now);
        self.answered.note_told(now, events);
        Some(events)
    }

    /// How many events without a line no line told of yet.
    ///
    /// Whatever was asked, no second has more than ten lines, and each event without a line was told of, or is counted
    /// here.
    pub fn untold(&self) -> u64
        ensures untold { result ≡ self.now.untold }
        ensures few { AreFew (moments self.now.answers) }
        ensures counted { left_events self.now.answers ≤ most_events
            → left_events self.now.answers ≡ told_events self.now.answers + result }
    {
        self.untold
    }
}
