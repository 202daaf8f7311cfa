//! The ranges of samples, for proofs. A contract knows the range of a sample that was read. So these functions only
//! read, and the compiler removes them.

ghost use Rattle.std.specs.Prelude.{ℕ, ◌<◌, length, slice_index_or};
ghost use Rattle.mix_minus.specs.declared.input.Input.{Input as InputOf};
ghost use Rattle.mix_minus.specs.Mix.{sample_at};
ghost use Rattle.mix_minus.specs.Sums.{IsWithin, at};

use crate::input::Input;

/// Samples have 16 bits.
fn know_samples(samples: &[i16])
    ensures { (i : ℕ) → IsWithin 32768 (at samples.now i) }
{
    for i in 0..samples.len() {
        let _sample = samples[i];
    }
}

/// The samples of inputs have 16 bits.
pub fn know_inputs(inputs: &[Input])
    ensures { (k : ℕ) (d : InputOf) (i : ℕ) → k < length inputs.now
        → IsWithin 32768 (sample_at (slice_index_or inputs.now k d) i) }
{
    for k in 0..inputs.len() {
        know_samples(inputs[k].samples);
    }
}
