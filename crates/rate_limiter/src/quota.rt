//! What a limiter counts of an address.

ghost use Rattle.std.specs.Prelude.{◌≡◌};
ghost use Rattle.rate_limiter.specs.Buckets.{most_of};

/// What an address has a quota of, in each window of 20 ms.
#[derive(Clone, Copy, Debug, PartialEq, Eq)]
pub enum Quota {
    /// The numbers of its NACKs (RFC 4585 section 6.2.1): 512.
    Numbers,
    /// Its report blocks (RFC 3550 section 6.4.1) and its PLIs (RFC 4585 section 6.3.1), together: 64.
    Items,
}

impl Quota {
    /// The most that is granted to one address in a window.
    pub(crate) fn most(self) -> u64
        ensures { result ≡ most_of self }
    {
        match self {
            Quota::Numbers => 512,
            Quota::Items => 64,
        }
    }
}
