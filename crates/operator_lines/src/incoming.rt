//! What has come from an operator and was not heard yet.

ghost use Rattle.std.specs.Prelude.{◌≡◌, ◌==◌, ◌++◌, [], length, take, drop, nat_eq, position, OnOk, OnErr};
ghost use Rattle.operator_lines.specs.Inbound.{end_of_line, next_piece};

use std::alloc::{AllocError, Allocator, Global};
use std::marker::Model;

/// The octets that have come from an operator and were not heard yet. They are handed on line by line, so that a line
/// is answered before the next one is heard. Contracts see them, oldest first.
#[derive(Drop)]
pub struct Incoming<A: Allocator + Copy = Global> {
    octets: Vec<u8, A>,
    /// How many of them were heard.
    heard: usize,
}

/// The place of the first LF.
fn first_lf(octets: &[u8]) -> Option<usize>
    ensures { result ≡ position (λ octet. octet == 10) octets.now }
{
    octets.iter().position(|octet| *octet == b'\n')
}

impl<A: Allocator + Copy> Model for Incoming<A> {
    ghost use Rattle.std.specs.Prelude.{◌≤◌, ℕ, List, length, drop};

    ghost Value = { List ℕ };

    ghost view = { λ i. drop i.heard i.octets.items };

    ghost invariant = { λ i. i.heard ≤ length i.octets.items };
}

impl<A: Allocator + Copy> Incoming<A> {
    /// Nothing has come.
    pub fn new(alloc: A) -> Self
        ensures { result ≡ [] }
    {
        Self {
            octets: Vec::new(alloc),
            heard: 0,
        }
    }

    /// What was not heard.
    fn waiting(&self) -> &[u8]
        ensures { result.now ≡ self.now }
    {
        &self.octets[self.heard..]
    }

    /// Whether all was heard.
    pub fn is_empty(&self) -> bool
        ensures { result ≡ nat_eq (length self.now) 0 }
    {
        self.waiting().is_empty()
    }

    /// How many octets the next line has with its LF, or how many there are, where no LF has come.
    fn next_len(&self) -> usize
        ensures { result ≡ end_of_line self.now }
    {
        let waiting = self.waiting();
        match first_lf(waiting) {
            Some(at) => at + 1,
            None => waiting.len(),
        }
    }

    /// The next line with its LF, or all octets, where no LF has come.
    pub fn next(&self) -> &[u8]
        ensures { result.now ≡ next_piece self.now }
    {
        &self.waiting()[..self.next_len()]
    }

    /// Appends what has come. On out of memory, the only error, nothing changes.
    pub fn append(&mut self, octets: &[u8]) -> Result<(), AllocError>
        ensures ok { OnOk result (self.new ≡ self.old ++ octets.now) }
        ensures err { OnErr result (self.new ≡ self.old) }
    {
        self.octets.extend_from_slice(octets)
    }

    /// Notes that the first `count` octets were heard.
    pub fn took(&mut self, count: usize)
        ensures { self.new ≡ drop count self.old }
    {
        let left = self.waiting().len().saturating_sub(count);
        self.heard = self.octets.len() - left;
        if left == 0 {
            self.octets.clear();
            self.heard = 0;
        }
    }
}
