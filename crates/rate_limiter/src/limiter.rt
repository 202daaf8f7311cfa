//! The buckets of the addresses that were used last.

ghost use Rattle.std.specs.Prelude.{◌≡◌, [], IfOk, OnOk, OnErr, IsOk, IfSome, IsSome};
ghost use Rattle.rate_limiter.specs.Buckets.{bucket_at, bucket_of, used};
ghost use Rattle.rate_limiter.specs.Steps.{buckets_after, refill, spend, ask, may_spend, may_ask};

use crate::bucket::{Bucket, window_of};
use crate::draft::Draft;
use crate::key::{AddressKey, key_of};
use crate::quota::Quota;
use lru::LruCache;
use rtp_codec::Address;
use std::alloc::{AllocError, Allocator, Global};
use std::hash::{BuildHasherDefault, FoldHasher};
use std::marker::Model;
use std::num::NonZeroUsize;

/// The most addresses that have a bucket.
const MOST_ADDRESSES: usize = 1_024;

type Buckets<A> = LruCache<AddressKey, Bucket, BuildHasherDefault<FoldHasher>, A>;

/// The buckets of at most 1,024 addresses. Entering a new address takes memory, and using a known one takes none.
///
/// An address is entered when a datagram comes from it. Once 1,024 are kept, the least recently used address is
/// forgotten, with its tokens and with what it asked for. A datagram from an address is a use, and so is a grant to it.
///
/// To see what would be granted to one address before it counts, make a [`Draft`].
#[derive(Drop)]
pub struct RateLimiter<A: Allocator + Copy = Global> {
    cache: Buckets<A>,
}

impl<A: Allocator + Copy> Model for RateLimiter<A> {
    ghost use Rattle.std.specs.Prelude.{◌≡◌, ◌≤◌, List, length};
    ghost use Rattle.rate_limiter.specs.Buckets.{most_addresses};
    ghost use Rattle.rate_limiter.specs.declared.bucket.Bucket.{Bucket as BucketOf};
    ghost use Rattle.rate_limiter.specs.inner.Keyed.{AreKeyed, buckets_in};

    ghost Value = { List BucketOf };

    ghost view = { λ limiter. buckets_in limiter.cache.entries };

    ghost invariant = { λ limiter. (limiter.cache.cap ≡ most_addresses)
        × (length limiter.cache.entries ≤ most_addresses)
        × AreKeyed limiter.cache.entries };
}

impl<A: Allocator + Copy> RateLimiter<A> {
    /// A limiter without buckets. The only error is out of memory.
    pub fn new(alloc: A) -> Result<Self, AllocError>
        ensures { IfOk result (λ limiter. limiter ≡ []) }
    {
        let Some(most) = NonZeroUsize::new(MOST_ADDRESSES) else {
            unreachable!()
        };
        let cache = LruCache::new(alloc, most)?;
        Ok(Self { cache })
    }

    /// The bucket of an address.
    pub(crate) fn bucket_at(&self, address: &Address) -> Option<Bucket>
        ensures bucket { result ≡ bucket_at address.now self.now }
        ensures address { IfSome result (λ bucket. bucket.address ≡ address.now) }
    {
        self.cache.peek(&key_of(address)).copied()
    }

    /// The bucket of an address, or a new one.
    fn bucket_of(&self, address: &Address) -> Bucket
        ensures bucket { result ≡ bucket_of address.now self.now }
        ensures address { result.address ≡ address.now }
    {
        match self.bucket_at(address) {
            Some(bucket) => bucket,
            None => Bucket::opened(address),
        }
    }

    /// Keeps a bucket as the most recently used. Only a new address takes memory.
    pub(crate) fn keep(&mut self, bucket: Bucket) -> Result<(), AllocError>
        ensures kept { OnOk result (self.new ≡ used bucket self.old) }
        ensures err { OnErr result (self.new ≡ self.old) }
        ensures known { IsSome (bucket_at bucket.address self.old) → IsOk result }
    {
        self.cache.put(key_of(&bucket.address), bucket)?;
        Ok(())
    }

    /// Notes that a datagram of this many octets came from an address. Each octet refills 1.5 octets of tokens, up to
    /// 65,536 in all. A new address begins with 256.
    ///
    /// The only error is out of memory, where the address is new. Then nothing changes.
    pub fn refill(&mut self, from: &Address, octets: u64) -> Result<(), AllocError>
        ensures after { OnOk result (self.new ≡ buckets_after (refill from.now octets) self.old) }
        ensures err { OnErr result (self.new ≡ self.old) }
        ensures known { IsSome (bucket_at from.now self.old) → IsOk result }
    {
        self.keep(self.bucket_of(from).refilled(octets))
    }

    /// Whether an address may cause this many octets of control: a datagram to it, or one to another address because of
    /// what it asks for. If so, the octets are taken off its tokens.
    ///
    /// An address without a bucket may cause nothing. A refusal changes nothing.
    pub fn spend(&mut self, to: &Address, octets: u64) -> bool
        ensures answer { result ≡ may_spend to.now octets self.old }
        ensures after { self.new ≡ buckets_after (spend to.now octets) self.old }
    {
        let Some(bucket) = self.bucket_at(to) else {
            return false;
        };
        if bucket.tokens < octets {
            return false;
        }
        let Ok(()) = self.keep(bucket.paid(octets)) else {
            unreachable!()
        };
        true
    }

    /// Grants as much of a request as the address's quota still has in this window of 20 ms, and returns how much. A
    /// quota is 512 numbers, or 64 report blocks and PLIs together.
    ///
    /// The moment is in nanoseconds since 1970. A new address is entered. The only error is out of memory, where the
    /// address is new. Then nothing changes.
    pub fn ask(
        &mut self,
        from: &Address,
        moment: u64,
        quota: Quota,
        count: u64,
    ) -> Result<u64, AllocError>
        ensures answer { IfOk result (λ granted. granted ≡ may_ask from.now moment quota count self.old) }
        ensures after { OnOk result (self.new ≡ buckets_after (ask from.now moment quota count) self.old) }
        ensures err { OnErr result (self.new ≡ self.old) }
        ensures known { IsSome (bucket_at from.now self.old) → IsOk result }
    {
        let bucket = self.bucket_of(from);
        let window = window_of(moment);
        let granted = count.min(bucket.left_in(window, quota));
        self.keep(bucket.counted(window, quota, granted))?;
        Ok(granted)
    }

    /// A draft of an address's bucket, with which nothing was done yet.
    pub fn draft(&self, address: &Address) -> Draft<A>
        ensures { result ≡ record { address = address.now; before = self.now; after = self.now } }
    {
        Draft::of(self, address)
    }

    /// Does here what was done with a draft. Nothing else was done here since the draft was made.
    ///
    /// The only error is out of memory, where the address is new. Then nothing changes.
    pub fn put_back(&mut self, draft: Draft<A>) -> Result<(), AllocError>
        requires { draft.before ≡ self.old }
        ensures after { OnOk result (self.new ≡ draft.after) }
        ensures err { OnErr result (self.new ≡ self.old) }
        ensures known { IsSome (bucket_at draft.address self.old) → IsOk result }
    {
        match draft.into_used() {
            None => Ok(()),
            Some(bucket) => self.keep(bucket),
        }
    }
}
