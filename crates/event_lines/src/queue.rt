//! Events that wait for the thread that writes lines.

ghost use Rattle.std.specs.Prelude.{◌≡◌, [], ◌∷◌, IfOk, IfSome, IfNone};
ghost use Rattle.event_lines.specs.Queues.{no_events, with_event};

use crate::event::Event;
use std::alloc::{AllocError, Global};
use std::collections::VecDeque;
use std::marker::Model;

/// How many events wait at most.
const MOST_WAITING: usize = 64;

/// Events that wait for the thread that writes lines, 64 at most. Those that come while so many wait are counted. Only
/// [`new`](Self::new) takes memory.
///
/// Contracts see what waits, oldest first, and how many were lost since that was asked last.
#[derive(Drop)]
pub struct EventQueue {
    waiting: VecDeque<Event>,
    lost: u64,
}

impl Model for EventQueue {
    ghost use Rattle.std.specs.Prelude.{◌≤◌};
    ghost use Rattle.std.specs.VecDeque.{deque_len, deque_capacity};
    ghost use Rattle.event_lines.specs.Queues.{QueueOf, most_waiting};

    ghost Value = { QueueOf };

    ghost view = { λ q. record { waiting = q.waiting.items; lost = q.lost } };

    ghost invariant = { λ q. (deque_len q.waiting ≤ most_waiting) × (most_waiting ≤ deque_capacity q.waiting) };
}

impl EventQueue {
    /// Nothing waits. The only error is out of memory.
    pub fn new(alloc: Global) -> Result<Self, AllocError>
        ensures { IfOk result (λ queue. queue ≡ no_events) }
    {
        let waiting = VecDeque::with_capacity(alloc, MOST_WAITING)?;
        Ok(Self { waiting, lost: 0 })
    }

    /// One more event: it waits, or is counted as lost where 64 wait.
    pub fn put(&mut self, event: Event)
        ensures { self.new ≡ with_event event self.old }
    {
        if self.waiting.len() >= MOST_WAITING || self.waiting.push_back(event).is_err() {
            self.lost = self.lost.saturating_add(1);
        }
    }

    /// Takes the oldest event that waits.
    pub fn take(&mut self) -> Option<Event>
        ensures some { IfSome result (λ event. self.old.waiting ≡ event ∷ self.new.waiting) }
        ensures none { IfNone result ((self.old.waiting ≡ []) × (self.new.waiting ≡ [])) }
        ensures lost { self.new.lost ≡ self.old.lost }
    {
        self.waiting.pop_front()
    }

    /// How many events were lost since this was asked last.
    pub fn take_lost(&mut self) -> u64
        ensures lost { result ≡ self.old.lost }
        ensures after { self.new ≡ record self.old { lost = 0 } }
    {
        let lost = self.lost;
        self.lost = 0;
        lost
    }
}
