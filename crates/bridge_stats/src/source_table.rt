//! What came of each source.

ghost use Rattle.std.specs.Prelude.{◌≡◌, [], ◌∷◌, None, IfOk};
ghost use Rattle.std.specs.Map.{lookup};
ghost use Rattle.bridge_stats.specs.Senders.{same_sender};
ghost use Rattle.bridge_stats.specs.Tables.{most_sources, IsKept, IsSourceNoted};

use crate::sender::Sender;
use crate::source_count::SourceCount;
use crate::taken::TakenIn;
use lru::LruCache;
use std::alloc::{AllocError, Allocator, Global};
use std::hash::{BuildHasherDefault, FoldHasher};
use std::marker::Model;
use std::num::NonZeroUsize;

/// How many sources are kept at most.
pub(crate) const MOST_SOURCES: usize = 5_120;

/// The sources that are kept.
pub(crate) type SourceCache<A> = LruCache<Sender, SourceCount, BuildHasherDefault<FoldHasher>, A>;

/// What came of each of the 5,120 sources whose datagrams came last. Only a source that isn't kept takes memory. Where
/// that is refused, its datagram is left out, and counted.
///
/// Contracts see the datagrams of each, those of the latest source first.
#[derive(Drop)]
pub(crate) struct SourceTable<A: Allocator + Copy = Global> {
    pub(crate) cache: SourceCache<A>,
    pub(crate) left_out: u64,
}

impl<A: Allocator + Copy> Model for SourceTable<A> {
    ghost use Rattle.std.specs.Prelude.{◌≡◌, List};
    ghost use Rattle.bridge_stats.specs.declared.taken.TakenIn.{TakenIn as TakenOf};
    ghost use Rattle.bridge_stats.specs.Tables.{TableOf, most_sources};

    ghost Value = { TableOf (List TakenOf) };

    ghost view = { λ s. record { entries = s.cache.entries; left_out = s.left_out } };

    ghost invariant = { λ s. s.cache.cap ≡ most_sources };
}

impl<A: Allocator + Copy> SourceTable<A> {
    /// Nothing came. The only error is out of memory.
    pub(crate) fn new(alloc: A) -> Result<Self, AllocError>
        ensures { IfOk result (λ table. table ≡ record { entries = []; left_out = 0 }) }
    {
        let Some(most) = NonZeroUsize::new(MOST_SOURCES) else {
            unreachable!()
        };
        let cache = LruCache::new(alloc, most)?;
        Ok(Self { cache, left_out: 0 })
    }

    /// Notes the first datagram of a source.
    fn begin(&mut self, sender: Sender, taken: &TakenIn)
        requires { lookup (same_sender sender) self.old.entries ≡ None }
        ensures { IsKept most_sources sender (taken.now ∷ []) self.old self.new }
    {
        let mut count = SourceCount::new();
        count.note(taken);
        match self.cache.put(sender, count) {
            Ok(_) => {}
            Err(_) => self.left_out = self.left_out.saturating_add(1),
        }
    }

    /// Notes a datagram of a source.
    pub(crate) fn note(&mut self, sender: Sender, taken: &TakenIn)
        ensures { IsSourceNoted sender taken.now self.old self.new }
    {
        match self.cache.get_mut(&sender) {
            Some(count) => count.note(taken),
            None => self.begin(sender, taken),
        }
    }
}
