//! Generic NACKs.

ghost use Rattle.std.specs.Prelude.{◌≡◌, ◌≤◌, List, [], ◌∷◌, ◌++◌, length, if◌then◌else◌, IfOk, IsOk, IsTrue, ◌↔◌};
ghost use Rattle.rtcp_codec.specs.Nack.{numbers_of, numbers_named, ArePacked, IsPacking, AreRising, AreApart};
ghost use Rattle.rtcp_codec.specs.inner.Greedy.{TakesAll};
ghost use Rattle.rtcp_codec.specs.Packet.{Begin};

use std::alloc::{AllocError, Allocator, Global};

/// The most numbers that a word names: its PID, and one for each bit.
const MOST_NUMBERS: u16 = 17;

/// A word of a NACK: a lost packet, and which of the 16 behind it were lost too (RFC 4585 section 6.2.1).
#[derive(Clone, Copy, PartialEq, Eq)]
pub struct NackWord {
    /// The sequence number of a lost packet.
    pub pid: u16,
    /// Bit i names the packet `pid + i`, modulo 65536. The least significant bit is bit 1.
    pub blp: u16,
}

/// A generic NACK (RFC 4585 section 6.2.1).
#[derive(Drop)]
pub struct Nack<A: Allocator = Global> {
    /// The SSRC that asks.
    pub sender: u32,
    /// The SSRC whose packets were lost.
    pub media: u32,
    /// The words, at least one.
    pub words: Vec<NackWord, A>,
}

/// The sequence numbers that a word names: `pid` first, then one for each bit that is set (RFC 4585 section 6.2.1).
/// They are 1 to 17. The only error is out of memory.
pub fn nack_numbers<A: Allocator>(alloc: A, pid: u16, blp: u16) -> Result<Vec<u16, A>, AllocError>
    ensures { IfOk result (λ v. v.items ≡ numbers_of pid blp) }
{
    let mut numbers = Vec::with_capacity(alloc, usize::from(MOST_NUMBERS))?;
    numbers.push(pid)?;
    for i in 1..MOST_NUMBERS {
        if (blp >> (i - 1)) % 2 == 1 {
            numbers.push(pid.wrapping_add(i))?;
        }
    }
    Ok(numbers)
}

/// The words of a NACK that names these sequence numbers, in their order (RFC 4585 section 6.2.1).
///
/// Each word names as many numbers as it can. A number that is up to 16 ahead of the word's PID fits into it, counted
/// modulo 65536: 0 is 1 ahead of 65535. The only error is out of memory.
pub fn nack_words<A: Allocator>(alloc: A, numbers: &[u16]) -> Result<Vec<NackWord, A>, AllocError>
    ensures names { IfOk result (λ v. numbers_named v.items ≡ numbers.now) }
    ensures packed { IfOk result (λ v. ArePacked v.items) }
    // No other packed words name these numbers.
    ensures only { (words : List NackWord) → IsPacking numbers.now words → IfOk result (λ v. v.items ≡ words) }
    ensures apart { AreRising numbers.now → IfOk result (λ v. AreApart v.items) }
    // An empty list takes no memory.
    ensures none { numbers.now ≡ [] → IsOk result }
{
    let mut words = Vec::new(alloc);
    let mut rest = numbers;
    while let [pid, after @ ..] = rest {
        let (blp, after) = blp_from(*pid, after);
        words.push(NackWord { pid: *pid, blp })?;
        rest = after;
    }
    Ok(words)
}

/// The bits for the numbers at the front that a word of `pid` can name, and the numbers behind them.
fn blp_from(pid: u16, numbers: &[u16]) -> (u16, &[u16])
    ensures names { numbers_of pid result.0 ++ result.1.now ≡ pid ∷ numbers.now }
    ensures packed { TakesAll pid result.0 result.1.now }
    ensures left { length result.1.now ≤ length numbers.now }
{
    let mut blp: u32 = 0;
    let mut bit: u32 = 1;
    let mut rest = numbers;
    for i in 1..MOST_NUMBERS {
        let (is_set, after) = without(pid.wrapping_add(i), rest);
        if is_set {
            blp += bit;
        }
        rest = after;
        bit *= 2;
    }
    (blp as u16, rest)
}

/// Whether the number stands at the front, and the numbers behind it.
fn without(number: u16, numbers: &[u16]) -> (bool, &[u16])
    ensures parts { numbers.now ≡ (if result.0 then number ∷ [] else []) ++ result.1.now }
    ensures first { IsTrue result.0 ↔ Begin (number ∷ []) numbers.now }
    ensures left { length result.1.now ≤ length numbers.now }
{
    match numbers {
        [first, after @ ..] if *first == number => (true, after),
        _ => (false, numbers),
    }
}
