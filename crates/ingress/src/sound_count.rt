//! Counts sound.

ghost use Rattle.std.specs.Prelude.{◌≡◌, ◌*◌, ◌^◌, ◌≤◌, length, sum_by};
ghost use Rattle.ingress.specs.Energy.{square, count_of_samples, no_sound};

/// How many squares of samples one unit of energy is.
// So 64 bits last for 13 years of the loudest sound at 44100 Hz. They would last for five days of it without a unit.
const ENERGY_UNIT: u64 = 1_024;

/// What is counted of sound.
#[derive(Clone, Copy)]
pub struct SoundCount {
    /// How many samples it has.
    pub samples: u64,
    /// The energy of these: the sum of their squares in units of 1,024, rounded down.
    pub energy: u64,
}

/// The square of a sample.
#[tactic(auto, using(crate::proofs::Squares::small_square))]
fn square(sample: i16) -> u64
    ensures square { result ≡ square sample }
    ensures small { result ≤ 2 ^ 30 }
{
    let size = u64::from(sample.unsigned_abs());
    size * size
}

/// The sum of the squares of these samples. There are at most 8,820.
fn sum_of_squares(samples: &[i16]) -> u64
    requires { length samples.now ≤ 8820 }
    ensures { result ≡ sum_by square samples.now }
{
    let mut sum = 0;
    for sample in samples {
        sum += square(*sample);
    }
    sum
}

impl SoundCount {
    /// No sound.
    pub(crate) fn nothing() -> Self
        ensures { result ≡ no_sound }
    {
        Self {
            samples: 0,
            energy: 0,
        }
    }

    /// That of these samples. There are at most 8,820, as a packet has.
    pub(crate) fn of(samples: &[i16]) -> Self
        requires { length samples.now ≤ 8820 }
        ensures { result ≡ count_of_samples samples.now }
    {
        Self {
            samples: samples.len() as u64,
            energy: sum_of_squares(samples) / ENERGY_UNIT,
        }
    }
}
