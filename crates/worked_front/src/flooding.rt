//! What an address may be sent, and what it may ask for.

ghost use Rattle.std.specs.Prelude.{◌≡◌, [], ◌∷◌, true, false, None, length, take, IfOk, OnOk, IsOk, IsSome};
ghost use Rattle.rate_limiter.specs.Buckets.{bucket_at, bucket_of};

use rate_limiter::{Quota, RateLimiter};
use rtp_codec::Address;
use std::alloc::AllocError;

/// A new address has 256 octets, and 100 octets refill 150 more. Of these 406 it is sent 400, but not 7 more.
pub fn a_new_address_has_256_octets(
    limiter: &mut RateLimiter,
    member: &Address,
) -> Result<(bool, bool), AllocError>
    requires { limiter.old ≡ [] }
    ensures first { IfOk result (λ r. r.0 ≡ true) }
    ensures second { IfOk result (λ r. r.1 ≡ false) }
{
    limiter.refill(member, 100)?;
    let first = limiter.spend(member, 400);
    let second = limiter.spend(member, 7);
    Ok((first, second))
}

/// Of 600 numbers in a window 512 are granted. Of 70 items in the same window 64 are, asked on a draft.
pub fn a_window_has_512_numbers(
    limiter: &mut RateLimiter,
    member: &Address,
) -> Result<(u64, u64), AllocError>
    requires { limiter.old ≡ [] }
    ensures numbers { IfOk result (λ r. r.0 ≡ 512) }
    ensures items { IfOk result (λ r. r.1 ≡ 64) }
{
    let numbers = limiter.ask(member, 40_000_000, Quota::Numbers, 600)?;
    let mut draft = limiter.draft(member);
    let items = draft.ask(40_000_000, Quota::Items, 70);
    limiter.put_back(draft)?;
    Ok((numbers, items))
}

/// An address was granted 512 numbers in the window from 40 ms on. A nanosecond before 60 ms it is granted no more.
pub fn a_window_lasts_until_60_ms(
    limiter: &mut RateLimiter,
    member: &Address,
) -> Result<u64, AllocError>
    requires { bucket_of member.now limiter.old
        ≡ record { address = member.now; tokens = 256; window = 2; numbers = 512; items = 0 } }
    ensures { IfOk result (λ granted. granted ≡ 0) }
{
    limiter.ask(member, 59_999_999, Quota::Numbers, 1)
}

/// At 60 ms the next window begins, and it is.
pub fn a_window_begins_at_60_ms(
    limiter: &mut RateLimiter,
    member: &Address,
) -> Result<u64, AllocError>
    requires { bucket_of member.now limiter.old
        ≡ record { address = member.now; tokens = 256; window = 2; numbers = 512; items = 0 } }
    ensures { IfOk result (λ granted. granted ≡ 1) }
{
    limiter.ask(member, 60_000_000, Quota::Numbers, 1)
}

/// An address has 65,536 octets of tokens at most, however many came from it.
pub fn an_address_has_64_kib_at_most(
    limiter: &mut RateLimiter,
    member: &Address,
) -> Result<(bool, bool), AllocError>
    requires { limiter.old ≡ [] }
    ensures first { IfOk result (λ r. r.0 ≡ true) }
    ensures second { IfOk result (λ r. r.1 ≡ false) }
{
    limiter.refill(member, 65_536)?;
    let first = limiter.spend(member, 65_536);
    let second = limiter.spend(member, 1);
    Ok((first, second))
}

/// The 1,024th address: the 1,023 others keep their buckets.
pub fn the_1024th_address_pushes_none_out(
    limiter: &mut RateLimiter,
    member: &Address,
) -> Result<(), AllocError>
    requires many { length limiter.old ≡ 1023 }
    requires new { bucket_at member.now limiter.old ≡ None }
    ensures { OnOk result (limiter.new
        ≡ record { address = member.now; tokens = 406; window = 0; numbers = 0; items = 0 } ∷ limiter.old) }
{
    limiter.refill(member, 100)
}

/// One address more than 1,024: the one that was used the longest time ago is forgotten.
pub fn the_1025th_address_pushes_one_out(
    limiter: &mut RateLimiter,
    member: &Address,
) -> Result<(), AllocError>
    requires many { length limiter.old ≡ 1024 }
    requires new { bucket_at member.now limiter.old ≡ None }
    ensures { OnOk result (limiter.new
        ≡ record { address = member.now; tokens = 406; window = 0; numbers = 0; items = 0 } ∷ take 1023 limiter.old) }
{
    limiter.refill(member, 100)
}

/// An address that is kept can always refill: that takes no memory.
pub fn a_known_address_refills(
    limiter: &mut RateLimiter,
    member: &Address,
) -> Result<(), AllocError>
    requires { IsSome (bucket_at member.now limiter.old) }
    ensures { IsOk result }
{
    limiter.refill(member, 100)
}
