//! Mixes one tick.

ghost use Rattle.std.specs.Prelude.{◌≡◌, ℕ, ◌+◌, ◌<◌, ◌≤◌, length, take};
ghost use Rattle.mix_minus.specs.Mix.{IsMix, IsTotal, IsLeft, AreMixable, ReachTo, contributing};
ghost use Rattle.mix_minus.specs.Sums.{AreSmall};

use crate::contributors::{Contributors, first_heard};
use crate::input::Input;
use crate::parts::{write_all, write_without};
use crate::places::{Listener, PLACES, clear, leave_places, mix_places, turn_places};
use crate::ranges::know_inputs;
use crate::sums::add_all;

/// Writes what the receiver hears: the sum of all other members' inputs at their gains, clamped once to 16 bits.
///
/// There are at most 64 inputs, each at least as long as `out`. Each has a gain in 256ths, 0 to 1024. Returns the first
/// 15 contributors: other members' inputs with a gain above 0 and a sample present.
pub fn mix(inputs: &[Input], gains: &[u32], receiver: u32, out: &mut [i16]) -> Contributors
    requires mixable { AreMixable inputs.now gains.now }
    requires reach { ReachTo (length out.old) inputs.now }
    ensures mix { IsMix inputs.now gains.now receiver out.new }
    ensures count { result.count ≤ 15 }
    ensures ssrcs { take result.count result.ssrcs ≡ take 15 (contributing receiver inputs.now gains.now) }
{
    let mut start = 0;
    while start < out.len() {
        let count = (out.len() - start).min(PLACES);
        let listener = Listener {
            receiver,
            inputs,
            gains,
        };
        mix_places(listener, start, count, out);
        start += count;
    }
    first_heard(inputs, gains, receiver)
}

/// Writes the plain sum of all inputs' samples, once for all receivers of a room. There are at most 64 inputs.
pub fn room_total(inputs: &[Input], total: &mut [i32])
    requires few { length inputs.now ≤ 64 }
    requires reach { ReachTo (length total.old) inputs.now }
    ensures total { IsTotal inputs.now total.new }
    ensures small { AreSmall 16777216 total.new }
{
    clear(total);
    add_all(total, inputs);
}

/// Writes the same as [`mix`], from the room's total.
///
/// The receiver's own samples come off before the clamp. A gain other than 256 corrects its input's part.
pub fn mix_by_total(
    total: &[i32],
    inputs: &[Input],
    gains: &[u32],
    receiver: u32,
    out: &mut [i16],
) -> Contributors
    requires mixable { AreMixable inputs.now gains.now }
    requires reach { ReachTo (length out.old) inputs.now }
    requires total { IsTotal inputs.now total.now }
    requires long { length out.old ≤ length total.now }
    ensures mix { IsMix inputs.now gains.now receiver out.new }
    ensures count { result.count ≤ 15 }
    ensures ssrcs { take result.count result.ssrcs ≡ take 15 (contributing receiver inputs.now gains.now) }
{
    know_inputs(inputs);
    let mut start = 0;
    while start < out.len() {
        let count = (out.len() - start).min(PLACES);
        let listener = Listener {
            receiver,
            inputs,
            gains,
        };
        turn_places(total, listener, start, count, out);
        start += count;
    }
    first_heard(inputs, gains, receiver)
}

/// Writes the same as [`mix`] for a receiver without gains, from the room's total and the receiver's own inputs alone.
///
/// There are at most 64 own inputs, each at least as long as `out`. The law [`is_the_mix`](crate::is_the_mix) ties it
/// to the mix, and [`others_contribute`](crate::others_contribute) tells who contributes.
pub fn mix_of_others(total: &[i32], own: &[Input], out: &mut [i16])
    requires few { length own.now ≤ 64 }
    requires reach { ReachTo (length out.old) own.now }
    requires small { AreSmall 16777216 total.now }
    requires long { length out.old ≤ length total.now }
    ensures { IsLeft total.now own.now out.new }
{
    match own.len() {
        0 => write_all(total, out),
        1 => write_without(total, own[0].samples, out),
        _ => leave(total, own, out),
    }
}

/// Writes what is left of the total without some inputs, some places at a time.
fn leave(total: &[i32], own: &[Input], out: &mut [i16])
    requires few { length own.now ≤ 64 }
    requires reach { ReachTo (length out.old) own.now }
    requires small { AreSmall 16777216 total.now }
    requires long { length out.old ≤ length total.now }
    ensures { IsLeft total.now own.now out.new }
{
    let mut start = 0;
    while start < out.len() {
        let count = (out.len() - start).min(PLACES);
        leave_places(total, own, start, count, out);
        start += count;
    }
}
