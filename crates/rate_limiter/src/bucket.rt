//! The bucket of an address.

ghost use Rattle.std.specs.Prelude.{◌≡◌, ◌≤◌};
ghost use Rattle.rate_limiter.specs.Buckets.{opened, refilled, paid, counted, counted_in, left_in, window_of};

use crate::quota::Quota;
use rtp_codec::Address;

/// The tokens of a new address, in octets.
const NEW_TOKENS: u64 = 256;
/// The most tokens, in octets.
const MOST_TOKENS: u64 = 65_536;
/// The length of a window, in nanoseconds.
const WINDOW: u64 = 20_000_000;

/// What control an address may still cause, and how much it asked for.
#[derive(Clone, Copy)]
pub(crate) struct Bucket {
    /// The address.
    pub(crate) address: Address,
    /// The octets of control that it may still cause, 0 to 65,536.
    pub(crate) tokens: u64,
    /// The number of the last window in which it asked. Window 0 begins in 1970, and each has 20 ms.
    pub(crate) window: u64,
    /// How many numbers it was granted in that window, 0 to 512.
    pub(crate) numbers: u64,
    /// How many items it was granted in that window, 0 to 64.
    pub(crate) items: u64,
}

/// The number of the window that a moment lies in. The moment is in nanoseconds since 1970.
pub(crate) fn window_of(moment: u64) -> u64
    ensures { result ≡ window_of moment }
{
    moment / WINDOW
}

impl Bucket {
    /// The bucket of a new address.
    pub(crate) fn opened(address: &Address) -> Self
        ensures { result ≡ opened address.now }
    {
        Self {
            address: *address,
            tokens: NEW_TOKENS,
            window: 0,
            numbers: 0,
            items: 0,
        }
    }

    /// The bucket after a datagram of so many octets came.
    pub(crate) fn refilled(self, octets: u64) -> Self
        ensures { result ≡ refilled octets self }
    {
        let more = octets.min(MOST_TOKENS) * 3 / 2;
        Self {
            tokens: self.tokens.saturating_add(more).min(MOST_TOKENS),
            ..self
        }
    }

    /// The bucket after so many octets were sent to it.
    pub(crate) fn paid(self, octets: u64) -> Self
        ensures { result ≡ paid octets self }
    {
        Self {
            tokens: self.tokens.saturating_sub(octets),
            ..self
        }
    }

    /// How much of a quota was granted in a window.
    fn counted_in(&self, window: u64, quota: Quota) -> u64
        ensures { result ≡ counted_in window quota self.now }
    {
        if self.window != window {
            return 0;
        }
        match quota {
            Quota::Numbers => self.numbers,
            Quota::Items => self.items,
        }
    }

    /// How much of a quota may still be granted in a window.
    pub(crate) fn left_in(&self, window: u64, quota: Quota) -> u64
        ensures { result ≡ left_in window quota self.now }
    {
        quota.most().saturating_sub(self.counted_in(window, quota))
    }

    /// The bucket after so much of a quota was granted in a window.
    pub(crate) fn counted(self, window: u64, quota: Quota, granted: u64) -> Self
        requires { granted ≤ left_in window quota self }
        ensures { result ≡ counted window quota granted self }
    {
        let numbers = self.counted_in(window, Quota::Numbers);
        let items = self.counted_in(window, Quota::Items);
        match quota {
            Quota::Numbers => Self {
                window,
                numbers: numbers + granted,
                items,
                ..self
            },
            Quota::Items => Self {
                window,
                numbers,
                items: items + granted,
                ..self
            },
        }
    }
}
