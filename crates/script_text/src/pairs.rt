//! Numbers of two octets each, in hexadecimal.

ghost use Rattle.std.specs.Prelude.{◌≡◌, ◌*◌, true, ◌&&◌, length, nat_le, nat_eq, ◌%◌, IfOk};
ghost use Rattle.media_items.specs.Inputs.{most_at};
ghost use Rattle.sample_codecs.specs.L16.{samples_of};
ghost use Rattle.desk_text.specs.Words.{Gives};
ghost use Rattle.script_text.specs.ItemLines.{is_sound, samples_or, samples_at, pair_numbers, numbers_or, numbers_at};

use crate::packet::octets;
use desk_text::{Fault, ParseFault};
use sample_codecs::decode_l16;
use std::alloc::{AllocError, Allocator};

/// Whether these octets are samples of this rate: one at least, and 200 ms at most.
fn is_sound(rate: u32, octets: &[u8]) -> bool
    ensures { result ≡ is_sound rate octets.now }
{
    octets.len() % 2 == 0 && 2 <= octets.len() && octets.len() <= 2 * (rate as usize / 5)
}

/// The samples that octets are, two octets each.
#[tactic(auto, using(crate::proofs::PairLemmas::sound_even, crate::proofs::PairLemmas::sound_halves))]
fn decoded<A: Allocator + Copy>(
    alloc: A,
    rate: u32,
    octets: &[u8],
) -> Result<Vec<i16, A>, AllocError>
    requires { is_sound rate octets.now ≡ true }
    ensures samples { IfOk result (λ v. v.items ≡ samples_of octets.now) }
    ensures sized { IfOk result (λ v. (nat_le 1 (length v.items) && nat_le (length v.items) (most_at rate)) ≡ true) }
{
    let mut samples = vec![in alloc; 0i16; octets.len() / 2]?;
    decode_l16(octets, &mut samples);
    Ok(samples)
}

/// The samples that the word at this place spells in hexadecimal.
#[tactic(auto, unfolding(crate::specs::ItemLines::samples_at))]
pub(crate) fn samples<A: Allocator + Copy>(
    alloc: A,
    rate: u32,
    word: &[u8],
    place: u32,
) -> Result<Vec<i16, A>, ParseFault>
    ensures samples { Gives (λ v. v.items) result (samples_at place rate word.now) }
    ensures sized { IfOk result (λ v. (nat_le 1 (length v.items) && nat_le (length v.items) (most_at rate)) ≡ true) }
{
    let octets = octets(alloc, word, place)?;
    if !is_sound(rate, &octets) {
        return Err(Fault::BadHex.at(place));
    }
    let samples = decoded(alloc, rate, &octets)?;
    Ok(samples)
}

/// The numbers that octets are, two octets each.
fn paired<A: Allocator + Copy>(alloc: A, octets: &[u8]) -> Result<Vec<u16, A>, AllocError>
    requires { length octets.now % 2 ≡ 0 }
    ensures { IfOk result (λ v. v.items ≡ pair_numbers octets.now) }
{
    let mut numbers = Vec::new(alloc);
    for i in 0..octets.len() / 2 {
        numbers.push(u16::from(octets[2 * i]) * 256 + u16::from(octets[2 * i + 1]))?;
    }
    Ok(numbers)
}

/// The numbers that the word at this place spells in hexadecimal. There is one at least.
#[tactic(auto, unfolding(crate::specs::ItemLines::numbers_at))]
pub(crate) fn numbers<A: Allocator + Copy>(
    alloc: A,
    word: &[u8],
    place: u32,
) -> Result<Vec<u16, A>, ParseFault>
    ensures { Gives (λ v. v.items) result (numbers_at place word.now) }
{
    let octets = octets(alloc, word, place)?;
    if octets.len() % 2 != 0 || octets.len() < 2 {
        return Err(Fault::BadHex.at(place));
    }
    let numbers = paired(alloc, &octets)?;
    Ok(numbers)
}
