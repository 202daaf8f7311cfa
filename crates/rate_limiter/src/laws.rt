//! Laws of the definitions: functions that do nothing when they run.

ghost use Rattle.std.specs.Prelude.{◌≤◌, ◌+◌, ◌*◌, ℕ, List, []};
ghost use Rattle.rtp_codec.specs.declared.address.Address.{Address};
ghost use Rattle.rate_limiter.specs.declared.quota.Quota.{Quota};
ghost use Rattle.rate_limiter.specs.Buckets.{most_of, new_tokens};
ghost use Rattle.rate_limiter.specs.Steps.{LimiterStep, all_from, all_to, all_asked, entries, AreInOrder};

/// A law over all steps of a new limiter. The octets that may be sent to an address are at most 1.5 times those that
/// came from it, and 256 for each time that it was entered.
///
/// An address that is forgotten and comes again is entered again, with 256 octets. It is forgotten only once 1,024
/// other addresses were used since its own last use. So a sender with more than 1,024 addresses, used in turn, gets 256
/// octets for each datagram.
pub fn amplification_is_bounded()
    ensures { (address : Address) (steps : List LimiterStep) → all_to address steps [] * 2
        ≤ all_from address steps * 3 + entries address steps [] * new_tokens * 2 }
{}

/// A law over all steps of a new limiter whose moments never go back. What an address is granted of a quota in one
/// window is at most that quota for each time that it was entered: 512 numbers, and 64 report blocks and PLIs.
///
/// An address that is forgotten loses the counts of its window. If it is entered again in the same window, it may ask
/// for each quota once more. If moments go back, a window can begin again, and its counts with it.
pub fn asks_are_bounded()
    ensures { (address : Address) (quota : Quota) (window : ℕ) (steps : List LimiterStep) → AreInOrder 0 steps
        → all_asked address quota window steps [] ≤ entries address steps [] * most_of quota }
{}
