//! What an operator has not read yet.

ghost use Rattle.std.specs.Prelude.{◌≡◌, ◌++◌, ◌≤◌, ◌+◌, ℕ, List, [], length, take, drop, nat_eq, OnOk, OnErr};
ghost use Rattle.operator_lines.specs.Outbound.{piece, is_too_much};

use std::alloc::{AllocError, Allocator, Global};
use std::marker::Model;

/// How many octets an operator may leave unread. A `show` of a full desk takes under 2,700,000.
const UNREAD_LIMIT: usize = 4_194_304;

/// How many octets are written at a time at most.
const PIECE: usize = 65_536;

/// The octets that wait to be written to an operator. The buffer holds no more written octets than waiting ones.
/// Contracts see those that wait, oldest first.
#[derive(Drop)]
pub struct Outgoing<A: Allocator + Copy = Global> {
    octets: Vec<u8, A>,
    /// How many of them are written.
    written: usize,
}

impl<A: Allocator + Copy> Model for Outgoing<A> {
    ghost Value = { List ℕ };

    ghost view = { λ o. drop o.written o.octets.items };

    ghost invariant = { λ o. o.written + o.written ≤ length o.octets.items };
}

impl<A: Allocator + Copy> Outgoing<A> {
    /// Nothing waits.
    pub fn new(alloc: A) -> Self
        ensures { result ≡ [] }
    {
        Self {
            octets: Vec::new(alloc),
            written: 0,
        }
    }

    /// What waits.
    fn waiting(&self) -> &[u8]
        ensures { result.now ≡ self.now }
    {
        &self.octets[self.written..]
    }

    /// What is to be written next: what waits, or its first 65,536 octets.
    pub fn next(&self) -> &[u8]
        ensures { result.now ≡ take piece self.now }
    {
        let waiting = self.waiting();
        if waiting.len() > PIECE {
            &waiting[..PIECE]
        } else {
            waiting
        }
    }

    /// Whether nothing waits.
    pub fn is_empty(&self) -> bool
        ensures { result ≡ nat_eq (length self.now) 0 }
    {
        self.waiting().is_empty()
    }

    /// Whether more waits than an operator may leave unread.
    pub fn is_over(&self) -> bool
        ensures { result ≡ is_too_much self.now }
    {
        self.waiting().len() > UNREAD_LIMIT
    }

    /// Appends octets to those that wait. On out of memory, the only error, nothing changes.
    pub fn append(&mut self, text: &[u8]) -> Result<(), AllocError>
        ensures ok { OnOk result (self.new ≡ self.old ++ text.now) }
        ensures err { OnErr result (self.new ≡ self.old) }
    {
        self.octets.extend_from_slice(text)
    }

    /// Notes that the first `count` octets were written.
    pub fn took(&mut self, count: usize)
        ensures { self.new ≡ drop count self.old }
    {
        let waiting = self.waiting().len();
        let left = waiting.saturating_sub(count);
        let written = self.octets.len() - left;
        // This moves no more octets than were written.
        if written > left {
            self.octets.copy_within(written.., 0);
            self.octets.truncate(left);
            self.written = 0;
        } else {
            self.written = written;
        }
    }
}
