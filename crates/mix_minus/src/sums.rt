//! The sums of a tick over all inputs.

ghost use Rattle.std.specs.Prelude.{◌≡◌, ℕ, ◌+◌, ◌<◌, ◌≤◌, pos, ◌+ℤ◌, ◌-ℤ◌, length};
ghost use Rattle.mix_minus.specs.Mix.{heard, heard_sum, sample_at, sample_sum, AreMixable, ReachTo};
ghost use Rattle.mix_minus.specs.Sums.{AreSmall, at};
ghost use Rattle.mix_minus.specs.inner.Passes.{Passes, Raised};

use crate::input::Input;
use crate::parts::{add, add_four, add_scaled, correct, take_off};

/// Adds what the receiver hears of an input.
fn add_heard(sums: &mut [i32], input: &Input, gain: u32, receiver: u32, start: usize)
    requires len { start + length sums.old ≤ length input.now.samples.now }
    requires gain { gain ≤ 1024 }
    requires small { AreSmall 1073741824 sums.old }
    ensures { Passes (λ i. heard receiver (start + i) input.now gain) sums.old sums.new }
{
    if input.member != receiver {
        if gain == 256 {
            add(sums, input.samples, start);
        } else {
            add_scaled(sums, input.samples, start, gain);
        }
    }
}

/// Replaces an input's samples in the sums by what the receiver hears of it.
fn turn(sums: &mut [i32], input: &Input, gain: u32, receiver: u32, start: usize)
    requires len { start + length sums.old ≤ length input.now.samples.now }
    requires gain { gain ≤ 1024 }
    requires small { AreSmall 1073741824 sums.old }
    ensures { Passes
        (λ i. heard receiver (start + i) input.now gain -ℤ sample_at input.now (start + i)) sums.old sums.new }
{
    if input.member == receiver {
        take_off(sums, input.samples, start);
    } else if gain != 256 {
        correct(sums, input.samples, start, gain);
    }
}

/// Adds what the receiver hears of all inputs.
pub fn add_all_heard(sums: &mut [i32], inputs: &[Input], gains: &[u32], receiver: u32, start: usize)
    requires mixable { AreMixable inputs.now gains.now }
    requires reach { ReachTo (start + length sums.old) inputs.now }
    requires small { AreSmall 0 sums.old }
    ensures { Raised (λ i. heard_sum receiver (start + i) inputs.now gains.now) sums.old sums.new }
{
    for k in 0..inputs.len() {
        add_heard(sums, &inputs[k], gains[k], receiver, start);
    }
}

/// Turns the sums of all samples into the sums of what the receiver hears.
pub fn turn_all(sums: &mut [i32], inputs: &[Input], gains: &[u32], receiver: u32, start: usize)
    requires mixable { AreMixable inputs.now gains.now }
    requires reach { ReachTo (start + length sums.old) inputs.now }
    requires small { AreSmall 16777216 sums.old }
    ensures { (i : ℕ) → i < length sums.old
        → at sums.new i +ℤ sample_sum (start + i) inputs.now
        ≡ at sums.old i +ℤ heard_sum receiver (start + i) inputs.now gains.now }
{
    for k in 0..inputs.len() {
        turn(sums, &inputs[k], gains[k], receiver, start);
    }
}

/// Adds all samples of all inputs.
pub fn add_all(sums: &mut [i32], inputs: &[Input])
    requires few { length inputs.now ≤ 64 }
    requires reach { ReachTo (length sums.old) inputs.now }
    requires small { AreSmall 0 sums.old }
    ensures sums { Raised (λ i. sample_sum i inputs.now) sums.old sums.new }
    ensures small { AreSmall 16777216 sums.new }
{
    let mut next = 0;
    while inputs.len() - next >= 4 {
        add_four(
            sums,
            inputs[next].samples,
            inputs[next + 1].samples,
            inputs[next + 2].samples,
            inputs[next + 3].samples,
        );
        next += 4;
    }
    for k in next..inputs.len() {
        add(sums, inputs[k].samples, 0);
    }
}

/// Takes all samples of some inputs off.
pub fn take_all_off(sums: &mut [i32], own: &[Input], start: usize)
    requires few { length own.now ≤ 64 }
    requires reach { ReachTo (start + length sums.old) own.now }
    requires small { AreSmall 16777216 sums.old }
    ensures { (i : ℕ) → i < length sums.old → at sums.new i ≡ at sums.old i -ℤ sample_sum (start + i) own.now }
{
    for k in 0..own.len() {
        take_off(sums, own[k].samples, start);
    }
}
