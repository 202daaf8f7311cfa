//! A rate limiter: a token bucket for each address, of which the 1,024 that were used last are kept. It bounds the
//! control that the bridge sends to an address, and what an address asks for and reports.
//!
//! Begin with [`RateLimiter::new`]. Each datagram that comes refills tokens for its address, and control that is sent
//! there spends them. A [`Draft`] shows what the limiter would grant to one address, before anything counts. A contract
//! sees a [`RateLimiter`] as its buckets, the most recently used first, and a draft as the buckets before and after.
//!
//! ```rust
//! let member = Address { ip: [127, 0, 0, 1], port: 7 };
//! let mut limiter = RateLimiter::new(alloc)?;
//! limiter.refill(&member, 100)?; // the 256 octets of a new address, and 150
//! let first = limiter.spend(&member, 400); // true
//! let second = limiter.spend(&member, 7); // false: 6 octets are left
//! let numbers = limiter.ask(&member, 40_000_000, Quota::Numbers, 600)?; // 512, the most in a window of 20 ms
//! let mut draft = limiter.draft(&member);
//! let items = draft.ask(40_000_000, Quota::Items, 70); // 64, the most in a window of 20 ms
//! limiter.put_back(draft)?; // only now the limiter has counted them
//! ```
//!
//! `a_new_address_has_256_octets` and `a_window_has_512_numbers` of worked_front are these calls, with their answers
//! proved.
#![tactic(auto)]

mod bucket;
mod draft;
mod key;
mod laws;
mod limiter;
mod quota;

pub use draft::Draft;
pub use laws::{amplification_is_bounded, asks_are_bounded};
pub use limiter::RateLimiter;
pub use quota::Quota;
