//! Mixes a few samples of a tick at a time, in an array on the stack. A place is the index of a sample in its tick.

ghost use Rattle.std.specs.Prelude.{◌≡◌, ℕ, ◌+◌, ◌<◌, ◌≤◌, pos, ◌-ℤ◌, length};
ghost use Rattle.mix_minus.specs.Mix.{clamped, heard_sum, sample_sum, AreMixable, ReachTo, IsTotal};
ghost use Rattle.mix_minus.specs.Sums.{AreSmall, at};

use crate::input::Input;
use crate::parts::clamp;
use crate::sums::{add_all_heard, take_all_off, turn_all};

/// The most places that are summed at a time.
pub const PLACES: usize = 256;

/// Sets each sum to 0.
pub fn clear(sums: &mut [i32])
    ensures { (i : ℕ) → i < length sums.old → at sums.new i ≡ pos 0 }
{
    for i in 0..sums.len() {
        sums[i] = 0;
    }
}

/// Copies the totals from a place on into the sums.
fn load(sums: &mut [i32], total: &[i32], start: usize)
    requires { start + length sums.old ≤ length total.now }
    ensures { (i : ℕ) → i < length sums.old → at sums.new i ≡ at total.now (start + i) }
{
    for i in 0..sums.len() {
        sums[i] = total[start + i];
    }
}

/// Writes the clamped sums as samples, from a place on.
fn write(sums: &[i32], start: usize, out: &mut [i16])
    requires { start + length sums.now ≤ length out.old }
    ensures written { (i : ℕ) → i < length sums.now → at out.new (start + i) ≡ clamped (at sums.now i) }
    ensures before { (i : ℕ) → i < start → at out.new i ≡ at out.old i }
{
    for i in 0..sums.len() {
        out[start + i] = clamp(sums[i]);
    }
}

/// A listener, and what it listens to.
#[derive(Clone, Copy)]
pub struct Listener<'a, 'b> {
    /// The member that listens.
    pub receiver: u32,
    /// The inputs of its room.
    pub inputs: &'a [Input<'b>],
    /// Its gain for each input, in 256ths.
    pub gains: &'a [u32],
}

/// Mixes `count` places from `start` on.
pub fn mix_places(listener: Listener<'_, '_>, start: usize, count: usize, out: &mut [i16])
    requires mixable { AreMixable listener.inputs.now listener.gains.now }
    requires reach { ReachTo (start + count) listener.inputs.now }
    requires count { count ≤ 256 }
    requires out { start + count ≤ length out.old }
    ensures written { (i : ℕ) → i < count
        → at out.new (start + i)
        ≡ clamped (heard_sum listener.entry.receiver (start + i) listener.entry.inputs.now listener.entry.gains.now) }
    ensures before { (i : ℕ) → i < start → at out.new i ≡ at out.old i }
{
    let mut block = [0; PLACES];
    let sums = &mut block[..count];
    clear(sums);
    let Listener {
        receiver,
        inputs,
        gains,
    } = listener;
    add_all_heard(sums, inputs, gains, receiver, start);
    write(sums, start, out);
}

/// Mixes `count` places from `start` on, from the room's total.
pub fn turn_places(
    total: &[i32],
    listener: Listener<'_, '_>,
    start: usize,
    count: usize,
    out: &mut [i16],
)
    requires mixable { AreMixable listener.inputs.now listener.gains.now }
    requires reach { ReachTo (start + count) listener.inputs.now }
    requires total { IsTotal listener.inputs.now total.now }
    requires small { AreSmall 16777216 total.now }
    requires count { count ≤ 256 }
    requires out { start + count ≤ length out.old }
    requires long { start + count ≤ length total.now }
    ensures written { (i : ℕ) → i < count
        → at out.new (start + i)
        ≡ clamped (heard_sum listener.entry.receiver (start + i) listener.entry.inputs.now listener.entry.gains.now) }
    ensures before { (i : ℕ) → i < start → at out.new i ≡ at out.old i }
{
    let mut block = [0; PLACES];
    let sums = &mut block[..count];
    load(sums, total, start);
    let Listener {
        receiver,
        inputs,
        gains,
    } = listener;
    turn_all(sums, inputs, gains, receiver, start);
    write(sums, start, out);
}

/// Takes the samples of some inputs off the total, and writes what is left, clamped: `count` places from `start` on.
pub fn leave_places(total: &[i32], own: &[Input], start: usize, count: usize, out: &mut [i16])
    requires few { length own.now ≤ 64 }
    requires reach { ReachTo (start + count) own.now }
    requires small { AreSmall 16777216 total.now }
    requires count { count ≤ 256 }
    requires out { start + count ≤ length out.old }
    requires long { start + count ≤ length total.now }
    ensures written { (i : ℕ) → i < count
        → at out.new (start + i) ≡ clamped (at total.now (start + i) -ℤ sample_sum (start + i) own.now) }
    ensures before { (i : ℕ) → i < start → at out.new i ≡ at out.old i }
{
    let mut block = [0; PLACES];
    let sums = &mut block[..count];
    load(sums, total, start);
    take_all_off(sums, own, start);
    write(sums, start, out);
}
