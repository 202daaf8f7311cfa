//! How many connections have a thread.

ghost use Rattle.std.specs.Prelude.{◌≡◌, ◌+◌, ◌-◌, nat_lt};
ghost use Rattle.operator_threads.specs.Threads.{after_begin};

use std::marker::Model;

/// How many connections have a thread, and how many may. Contracts see both.
#[derive(Drop)]
pub(crate) struct ThreadCount {
    running: usize,
    most: usize,
}

impl Model for ThreadCount {
    ghost use Rattle.std.specs.Prelude.{◌≤◌};
    ghost use Rattle.operator_threads.specs.Threads.{ThreadsOf};

    ghost Value = { ThreadsOf };

    ghost view = { λ t. record { running = t.running; most = t.most } };

    ghost invariant = { λ t. t.running ≤ t.most };
}

impl ThreadCount {
    /// No connection has a thread, and so many may.
    pub fn new(most: usize) -> Self
        ensures { result ≡ record { running = 0; most = most } }
    {
        Self { running: 0, most }
    }

    /// A thread begins, if one more may. Returns whether it does.
    pub fn begin(&mut self) -> bool
        ensures begins { result ≡ nat_lt self.old.running self.old.most }
        ensures after { self.new ≡ after_begin result self.old }
    {
        if self.running >= self.most {
            return false;
        }
        self.running += 1;
        true
    }

    /// A thread has ended.
    pub fn end(&mut self)
        ensures { self.new ≡ record self.old { running = self.old.running - 1 } }
    {
        self.running = self.running.saturating_sub(1);
    }
}
