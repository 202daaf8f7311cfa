//! Senders that are no source.

ghost use Rattle.std.specs.Prelude.{◌≡◌, [], IfOk};
ghost use Rattle.std.specs.Map.{lookup};
ghost use Rattle.bridge_stats.specs.Senders.{same_sender};
ghost use Rattle.bridge_stats.specs.Tables.{IsMet, packets_before};

use crate::sender::Sender;
use lru::LruCache;
use std::alloc::{AllocError, Allocator, Global};
use std::hash::{BuildHasherDefault, FoldHasher};
use std::marker::Model;
use std::num::NonZeroUsize;

/// How many senders are kept at most.
pub(crate) const MOST_STRANGERS: usize = 64;

/// What is counted of a sender that is no source.
#[derive(Clone, Copy)]
pub struct StrangerNumbers {
    /// The payload type of its last packet, at most 127.
    pub pt: u8,
    /// How many packets came.
    pub packets: u64,
}

/// The senders that are kept.
pub(crate) type StrangerCache<A> = LruCache<
    Sender,
    StrangerNumbers,
    BuildHasherDefault<FoldHasher>,
    A,
>;

/// The 64 senders that are no source whose packets came last.
///
/// Contracts see them, the latest first.
#[derive(Drop)]
pub(crate) struct Strangers<A: Allocator + Copy = Global> {
    pub(crate) cache: StrangerCache<A>,
    pub(crate) left_out: u64,
}

impl<A: Allocator + Copy> Model for Strangers<A> {
    ghost use Rattle.std.specs.Prelude.{◌≡◌};
    ghost use Rattle.bridge_stats.specs.declared.stranger.StrangerNumbers.{StrangerNumbers as NumbersOf};
    ghost use Rattle.bridge_stats.specs.Tables.{TableOf, most_strangers};

    ghost Value = { TableOf NumbersOf };

    ghost view = { λ s. record { entries = s.cache.entries; left_out = s.left_out } };

    ghost invariant = { λ s. s.cache.cap ≡ most_strangers };
}

impl<A: Allocator + Copy> Strangers<A> {
    /// Nobody sent. The only error is out of memory.
    pub(crate) fn new(alloc: A) -> Result<Self, AllocError>
        ensures { IfOk result (λ strangers. strangers ≡ record { entries = []; left_out = 0 }) }
    {
        let Some(most) = NonZeroUsize::new(MOST_STRANGERS) else {
            unreachable!()
        };
        let cache = LruCache::new(alloc, most)?;
        Ok(Self { cache, left_out: 0 })
    }

    /// How many packets came of a sender.
    fn packets(&self, sender: &Sender) -> u64
        ensures { result ≡ packets_before (lookup (same_sender sender.now) self.now.entries) }
    {
        match self.cache.peek(sender) {
            Some(numbers) => numbers.packets,
            None => 0,
        }
    }

    /// Notes a packet of a sender with this payload type.
    pub(crate) fn note(&mut self, sender: Sender, pt: u8)
        ensures { IsMet sender pt self.old self.new }
    {
        let packets = self.packets(&sender).saturating_add(1);
        match self.cache.put(sender, StrangerNumbers { pt, packets }) {
            Ok(_) => {}
            Err(_) => self.left_out = self.left_out.saturating_add(1),
        }
    }
}
