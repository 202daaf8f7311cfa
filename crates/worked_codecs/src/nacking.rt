//! The words of NACKs, and the numbers that they name.
#![tactic(auto, unfolding(rtcp_codec::specs::Nack::numbers_of))]

ghost use Rattle.std.specs.Prelude.{◌≡◌, [], ◌∷◌, ◌++◌, IfOk, IsOk};
ghost use Rattle.std.specs.List.{range_with_len};
ghost use Rattle.worked_codecs.specs.Packets.{word};

use rtcp_codec::{NackWord, nack_numbers, nack_words};
use std::alloc::{AllocError, Global};

/// A word without bits names its PID alone.
pub fn no_bits(alloc: Global) -> Result<Vec<u16>, AllocError>
    ensures { IfOk result (λ v. v.items ≡ 7 ∷ []) }
{
    nack_numbers(alloc, 7, 0)
}

/// The least bit names the number behind, over the wrap.
pub fn the_least_bit(alloc: Global) -> Result<Vec<u16>, AllocError>
    ensures { IfOk result (λ v. v.items ≡ 65535 ∷ 0 ∷ []) }
{
    nack_numbers(alloc, 65_535, 1)
}

/// The greatest bit names the number 16 ahead.
pub fn the_greatest_bit(alloc: Global) -> Result<Vec<u16>, AllocError>
    ensures { IfOk result (λ v. v.items ≡ 65530 ∷ 65531 ∷ 10 ∷ []) }
{
    nack_numbers(alloc, 65_530, 0x8001)
}

/// All bits.
pub fn all_bits(alloc: Global) -> Result<Vec<u16>, AllocError>
    ensures { IfOk result (λ v. v.items ≡ range_with_len 65530 6 ++ range_with_len 0 11) }
{
    nack_numbers(alloc, 65_530, 0xffff)
}

/// An empty list needs no word, and so no memory.
pub fn no_numbers(alloc: Global) -> Result<Vec<NackWord>, AllocError>
    ensures same { IfOk result (λ v. v.items ≡ []) }
    ensures ok { IsOk result }
{
    nack_words(alloc, &[])
}

/// One number is a word without bits.
pub fn one_number(alloc: Global) -> Result<Vec<NackWord>, AllocError>
    ensures { IfOk result (λ v. v.items ≡ word 7 0 ∷ []) }
{
    nack_words(alloc, &[7])
}

/// Over the wrap: 0 lies one ahead of 65535, 15 lies 16 ahead, and 16 begins a word.
pub fn over_the_wrap(alloc: Global) -> Result<Vec<NackWord>, AllocError>
    ensures { IfOk result (λ v. v.items ≡ word 65535 0x8001 ∷ word 16 0 ∷ []) }
{
    nack_words(alloc, &[65_535, 0, 15, 16])
}

/// All numbers that a word can name, and one more.
pub fn a_full_word(alloc: Global) -> Result<Vec<NackWord>, AllocError>
    ensures { IfOk result (λ v. v.items ≡ word 1 0xffff ∷ word 18 0 ∷ []) }
{
    nack_words(
        alloc,
        &[
            1, 2, 3, 4, 5, 6, 7, 8, 9, 10, 11, 12, 13, 14, 15, 16, 17, 18,
        ],
    )
}

/// A number that lies behind the one before, or is the same again, begins a word.
pub fn numbers_that_do_not_rise(alloc: Global) -> Result<Vec<NackWord>, AllocError>
    ensures { IfOk result (λ v. v.items ≡ word 7 2 ∷ word 8 0 ∷ word 8 0 ∷ []) }
{
    nack_words(alloc, &[7, 9, 8, 8])
}
