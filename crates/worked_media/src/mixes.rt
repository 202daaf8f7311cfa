//! What members of a room hear.

ghost use Rattle.std.specs.Prelude.{◌≡◌, pos, negsuc, take, [], ◌∷◌};

use mix_minus::{Contributors, Input, mix, mix_by_total, room_total};

/// The first member hears the second and the third.
pub fn the_first_hears_the_other_two() -> i16
    ensures { result ≡ pos 1500 }
{
    let inputs = [
        Input {
            ssrc: 21,
            member: 1,
            samples: &[1000],
            filled: 1,
        },
        Input {
            ssrc: 22,
            member: 2,
            samples: &[2000],
            filled: 1,
        },
        Input {
            ssrc: 23,
            member: 3,
            samples: &[-500],
            filled: 1,
        },
    ];
    let mut out = [0; 1];
    mix(&inputs, &[256, 256, 256], 1, &mut out);
    out[0]
}

/// The second hears the first and the third.
pub fn the_second_hears_the_other_two() -> i16
    ensures { result ≡ pos 500 }
{
    let inputs = [
        Input {
            ssrc: 21,
            member: 1,
            samples: &[1000],
            filled: 1,
        },
        Input {
            ssrc: 22,
            member: 2,
            samples: &[2000],
            filled: 1,
        },
        Input {
            ssrc: 23,
            member: 3,
            samples: &[-500],
            filled: 1,
        },
    ];
    let mut out = [0; 1];
    mix(&inputs, &[256, 256, 256], 2, &mut out);
    out[0]
}

/// The third hears the first and the second.
pub fn the_third_hears_the_other_two() -> i16
    ensures { result ≡ pos 3000 }
{
    let inputs = [
        Input {
            ssrc: 21,
            member: 1,
            samples: &[1000],
            filled: 1,
        },
        Input {
            ssrc: 22,
            member: 2,
            samples: &[2000],
            filled: 1,
        },
        Input {
            ssrc: 23,
            member: 3,
            samples: &[-500],
            filled: 1,
        },
    ];
    let mut out = [0; 1];
    mix(&inputs, &[256, 256, 256], 3, &mut out);
    out[0]
}

/// A gain of 128 is half as loud.
pub fn half_a_gain_is_half_as_loud() -> i16
    ensures { result ≡ pos 500 }
{
    let inputs = [
        Input {
            ssrc: 21,
            member: 1,
            samples: &[1000],
            filled: 1,
        },
        Input {
            ssrc: 22,
            member: 2,
            samples: &[2000],
            filled: 1,
        },
        Input {
            ssrc: 23,
            member: 3,
            samples: &[-500],
            filled: 1,
        },
    ];
    let mut out = [0; 1];
    mix(&inputs, &[256, 128, 256], 1, &mut out);
    out[0]
}

/// A sample of -1 at half the gain stays -1.
pub fn a_sample_below_0_is_rounded_down() -> i16
    ensures { result ≡ negsuc 0 }
{
    let inputs = [
        Input {
            ssrc: 21,
            member: 1,
            samples: &[0],
            filled: 1,
        },
        Input {
            ssrc: 22,
            member: 2,
            samples: &[-1],
            filled: 1,
        },
        Input {
            ssrc: 23,
            member: 3,
            samples: &[0],
            filled: 1,
        },
    ];
    let mut out = [0; 1];
    mix(&inputs, &[256, 128, 256], 1, &mut out);
    out[0]
}

/// Two sources of 30000 are as loud as can be.
pub fn a_loud_sum_is_clamped() -> i16
    ensures { result ≡ pos 32767 }
{
    let inputs = [
        Input {
            ssrc: 21,
            member: 1,
            samples: &[30000],
            filled: 1,
        },
        Input {
            ssrc: 22,
            member: 2,
            samples: &[30000],
            filled: 1,
        },
        Input {
            ssrc: 23,
            member: 3,
            samples: &[0],
            filled: 1,
        },
    ];
    let mut out = [0; 1];
    mix(&inputs, &[256, 256, 256], 3, &mut out);
    out[0]
}

/// By the room's total too, where the receiver itself speaks against them.
pub fn an_own_sample_is_taken_off_before_the_clamp() -> i16
    ensures { result ≡ pos 32767 }
{
    let inputs = [
        Input {
            ssrc: 21,
            member: 1,
            samples: &[30000],
            filled: 1,
        },
        Input {
            ssrc: 22,
            member: 2,
            samples: &[30000],
            filled: 1,
        },
        Input {
            ssrc: 23,
            member: 3,
            samples: &[-30000],
            filled: 1,
        },
    ];
    let mut out = [0; 1];
    let mut total = [0; 1];
    room_total(&inputs, &mut total);
    mix_by_total(&total, &inputs, &[256, 256, 256], 3, &mut out);
    out[0]
}

/// A mix names the others that have a gain and a sample. It doesn't name the receiver's own source, one at gain 0, or
/// one without a sample.
pub fn only_who_is_heard_is_named() -> Contributors
    ensures { take result.count result.ssrcs ≡ 24 ∷ [] }
{
    let inputs = [
        Input {
            ssrc: 21,
            member: 1,
            samples: &[5],
            filled: 1,
        },
        Input {
            ssrc: 22,
            member: 2,
            samples: &[5],
            filled: 1,
        },
        Input {
            ssrc: 23,
            member: 3,
            samples: &[0],
            filled: 0,
        },
        Input {
            ssrc: 24,
            member: 4,
            samples: &[5],
            filled: 1,
        },
    ];
    let mut out = [0; 1];
    mix(&inputs, &[256, 0, 256, 1], 1, &mut out)
}
