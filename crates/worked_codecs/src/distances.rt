//! Sequence numbers, which wrap round.

ghost use Rattle.std.specs.Prelude.{◌≡◌};

use rtp_codec::{seq_distance, seq_next};

/// The next number.
pub fn behind_7() -> u16
    ensures { result ≡ 8 }
{
    seq_next(7)
}

/// The wrap.
pub fn behind_65535() -> u16
    ensures { result ≡ 0 }
{
    seq_next(65_535)
}

/// A number is no step from itself.
pub fn from_a_number_to_itself() -> u16
    ensures { result ≡ 0 }
{
    seq_distance(10, 10)
}

/// Forward over the wrap.
pub fn over_the_wrap() -> u16
    ensures { result ≡ 11 }
{
    seq_distance(65_530, 5)
}

/// Back over the wrap is nearly all the way round.
pub fn back_over_the_wrap() -> u16
    ensures { result ≡ 65525 }
{
    seq_distance(5, 65_530)
}

/// The most steps that there are.
pub fn one_step_back() -> u16
    ensures { result ≡ 65535 }
{
    seq_distance(0, 65_535)
}
