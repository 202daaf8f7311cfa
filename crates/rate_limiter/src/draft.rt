//! A draft of one bucket.

ghost use Rattle.std.specs.Prelude.{◌≡◌, IfSome};
ghost use Rattle.rate_limiter.specs.Buckets.{bucket_at, bucket_of, used};
ghost use Rattle.rate_limiter.specs.Steps.{buckets_after, refill, spend, ask, may_spend, may_ask};
ghost use Rattle.rate_limiter.specs.inner.Keyed.{drafted};

use crate::bucket::{Bucket, window_of};
use crate::limiter::RateLimiter;
use crate::quota::Quota;
use rtp_codec::Address;
use std::alloc::{Allocator, Global};
use std::marker::Model;
use std::snapshot::Snapshot;

/// A copy of one address's bucket in a limiter. It answers as the limiter would, and the limiter stays as it is until
/// [`RateLimiter::put_back`]. It takes no memory.
///
/// Contracts see its address, the limiter's buckets before, and those that the limiter would have after what was done.
#[derive(Drop)]
pub struct Draft<A: Allocator + Copy = Global> {
    address: Address,
    /// The bucket that the limiter has.
    found: Option<Bucket>,
    /// The bucket after what was done. `None` where that was no use of the address.
    used: Option<Bucket>,
    before: Snapshot<RateLimiter<A>>,
}

impl<A: Allocator + Copy> Model for Draft<A> {
    ghost use Rattle.std.specs.Prelude.{◌≡◌, IfSome};
    ghost use Rattle.rate_limiter.specs.Buckets.{bucket_at};
    ghost use Rattle.rate_limiter.specs.Drafts.{DraftOf};
    ghost use Rattle.rate_limiter.specs.inner.Keyed.{drafted};

    ghost Value = { DraftOf };

    ghost view = { λ draft. record {
      address = draft.address;
      before = draft.before.value;
      after = drafted draft.used draft.before.value;
    } };

    ghost invariant = { λ draft. (draft.found ≡ bucket_at draft.address draft.before.value)
        × IfSome draft.used (λ bucket. bucket.address ≡ draft.address) };
}

impl<A: Allocator + Copy> Draft<A> {
    /// A draft of an address's bucket, with which nothing was done yet.
    pub(crate) fn of(limiter: &RateLimiter<A>, address: &Address) -> Self
        ensures { result ≡ record { address = address.now; before = limiter.now; after = limiter.now } }
    {
        Self {
            address: *address,
            found: limiter.bucket_at(address),
            used: None,
            before: Snapshot::of(limiter),
        }
    }

    /// The bucket after what was done, if that was a use of the address.
    pub(crate) fn into_used(self) -> Option<Bucket>
        ensures after { self.after ≡ drafted result self.before }
        ensures address { IfSome result (λ bucket. bucket.address ≡ self.address) }
    {
        self.used
    }

    /// The bucket after what was done.
    fn bucket_at(&self) -> Option<Bucket>
        ensures bucket { result ≡ bucket_at self.now.address self.now.after }
        ensures address { IfSome result (λ bucket. bucket.address ≡ self.now.address) }
    {
        match self.used {
            Some(bucket) => Some(bucket),
            None => self.found,
        }
    }

    /// The bucket after what was done, or a new one.
    fn bucket_of(&self) -> Bucket
        ensures bucket { result ≡ bucket_of self.now.address self.now.after }
        ensures address { result.address ≡ self.now.address }
    {
        match self.bucket_at() {
            Some(bucket) => bucket,
            None => Bucket::opened(&self.address),
        }
    }

    /// Keeps the bucket as the most recently used.
    fn keep(&mut self, bucket: Bucket)
        requires { bucket.address ≡ self.old.address }
        ensures { self.new ≡ record self.old { after = used bucket self.old.after } }
    {
        self.used = Some(bucket);
    }

    /// What [`RateLimiter::refill`] does for the draft's address.
    pub fn refill(&mut self, octets: u64)
        ensures { self.new ≡ record self.old { after = buckets_after (refill self.old.address octets) self.old.after } }
    {
        self.keep(self.bucket_of().refilled(octets));
    }

    /// What [`RateLimiter::spend`] does for the draft's address.
    pub fn spend(&mut self, octets: u64) -> bool
        ensures answer { result ≡ may_spend self.old.address octets self.old.after }
        ensures after { self.new
            ≡ record self.old { after = buckets_after (spend self.old.address octets) self.old.after } }
    {
        let Some(bucket) = self.bucket_at() else {
            return false;
        };
        if bucket.tokens < octets {
            return false;
        }
        self.keep(bucket.paid(octets));
        true
    }

    /// What [`RateLimiter::ask`] does for the draft's address.
    pub fn ask(&mut self, moment: u64, quota: Quota, count: u64) -> u64
        ensures answer { result ≡ may_ask self.old.address moment quota count self.old.after }
        ensures after { self.new
            ≡ record self.old { after = buckets_after (ask self.old.address moment quota count) self.old.after } }
    {
        let bucket = self.bucket_of();
        let window = window_of(moment);
        let granted = count.min(bucket.left_in(window, quota));
        self.keep(bucket.counted(window, quota, granted));
        granted
    }
}
