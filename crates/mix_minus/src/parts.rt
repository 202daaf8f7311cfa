//! Passes over the sums of a tick.

ghost use Rattle.std.specs.Prelude.{◌≡◌, ℕ, ◌+◌, ◌<◌, ◌≤◌, pos, neg_ℤ, ◌+ℤ◌, ◌-ℤ◌, ◌≤ℤ◌, length};
ghost use Rattle.mix_minus.specs.Mix.{scaled, clamped};
ghost use Rattle.mix_minus.specs.Sums.{AreSmall, at};
ghost use Rattle.mix_minus.specs.inner.Passes.{Passes, four_at};

/// A sample at a gain.
fn scale(sample: i16, gain: u32) -> i32
    requires { gain ≤ 1024 }
    ensures value { result ≡ scaled sample gain }
    ensures low { neg_ℤ (pos 131072) ≤ℤ result }
    ensures high { result ≤ℤ pos 131072 }
{
    (sample as i32 * gain as i32) >> 8
}

/// The change of a sample by a gain.
fn change(sample: i16, gain: u32) -> i32
    requires { gain ≤ 1024 }
    ensures value { result ≡ scaled sample gain -ℤ sample }
    ensures low { neg_ℤ (pos 262144) ≤ℤ result }
    ensures high { result ≤ℤ pos 262144 }
{
    scale(sample, gain) - sample as i32
}

/// Clamps a sum to 16 bits.
pub fn clamp(sum: i32) -> i16
    ensures { result ≡ clamped sum }
{
    sum.clamp(-32768, 32767) as i16
}

/// Adds a source's samples.
pub fn add(sums: &mut [i32], samples: &[i16], start: usize)
    requires len { start + length sums.old ≤ length samples.now }
    requires small { AreSmall 1073741824 sums.old }
    ensures { Passes (λ i. at samples.now (start + i)) sums.old sums.new }
{
    for i in 0..sums.len() {
        sums[i] += samples[start + i] as i32;
    }
}

/// Takes a source's samples off the sums.
pub fn take_off(sums: &mut [i32], samples: &[i16], start: usize)
    requires len { start + length sums.old ≤ length samples.now }
    requires small { AreSmall 1073741824 sums.old }
    ensures { Passes (λ i. neg_ℤ (at samples.now (start + i))) sums.old sums.new }
{
    for i in 0..sums.len() {
        sums[i] -= samples[start + i] as i32;
    }
}

/// Adds a source's samples at a gain.
pub fn add_scaled(sums: &mut [i32], samples: &[i16], start: usize, gain: u32)
    requires len { start + length sums.old ≤ length samples.now }
    requires gain { gain ≤ 1024 }
    requires small { AreSmall 1073741824 sums.old }
    ensures { Passes (λ i. scaled (at samples.now (start + i)) gain) sums.old sums.new }
{
    for i in 0..sums.len() {
        sums[i] += scale(samples[start + i], gain);
    }
}

/// Replaces a source's samples in the sums by its samples at a gain.
pub fn correct(sums: &mut [i32], samples: &[i16], start: usize, gain: u32)
    requires len { start + length sums.old ≤ length samples.now }
    requires gain { gain ≤ 1024 }
    requires small { AreSmall 1073741824 sums.old }
    ensures { Passes (λ i. scaled (at samples.now (start + i)) gain -ℤ at samples.now (start + i)) sums.old sums.new }
{
    for i in 0..sums.len() {
        sums[i] += change(samples[start + i], gain);
    }
}

/// Writes the sums without a source's samples, clamped.
pub fn write_without(sums: &[i32], samples: &[i16], out: &mut [i16])
    requires sums { length out.old ≤ length sums.now }
    requires samples { length out.old ≤ length samples.now }
    requires small { AreSmall 1073741824 sums.now }
    ensures { (i : ℕ) → i < length out.old → at out.new i ≡ clamped (at sums.now i -ℤ at samples.now i) }
{
    for i in 0..out.len() {
        out[i] = clamp(sums[i] - samples[i] as i32);
    }
}

/// Writes the sums, clamped.
pub fn write_all(sums: &[i32], out: &mut [i16])
    requires { length out.old ≤ length sums.now }
    ensures { (i : ℕ) → i < length out.old → at out.new i ≡ clamped (at sums.now i) }
{
    for i in 0..out.len() {
        out[i] = clamp(sums[i]);
    }
}

/// The sum of two samples.
fn pair(first: i16, second: i16) -> i32
    ensures value { result ≡ first +ℤ second }
    ensures low { neg_ℤ (pos 65536) ≤ℤ result }
    ensures high { result ≤ℤ pos 65536 }
{
    first as i32 + second as i32
}

/// The sum of four samples.
fn four(first: i16, second: i16, third: i16, fourth: i16) -> i32
    ensures value { result ≡ (first +ℤ second) +ℤ (third +ℤ fourth) }
    ensures low { neg_ℤ (pos 131072) ≤ℤ result }
    ensures high { result ≤ℤ pos 131072 }
{
    pair(first, second) + pair(third, fourth)
}

/// Adds the samples of four sources. Each sum is read and written once.
pub fn add_four(sums: &mut [i32], first: &[i16], second: &[i16], third: &[i16], fourth: &[i16])
    requires first { length sums.old ≤ length first.now }
    requires second { length sums.old ≤ length second.now }
    requires third { length sums.old ≤ length third.now }
    requires fourth { length sums.old ≤ length fourth.now }
    requires small { AreSmall 1073741824 sums.old }
    ensures { Passes (λ i. four_at first.now second.now third.now fourth.now i) sums.old sums.new }
{
    for i in 0..sums.len() {
        sums[i] += four(first[i], second[i], third[i], fourth[i]);
    }
}
