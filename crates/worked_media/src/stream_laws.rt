//! What the laws of streams tell a caller, however much was sent.

ghost use Rattle.std.specs.Prelude.{◌≡◌, ◌+◌, ◌%◌, ◌^◌, ℕ, Bool, true, List, [], ◌∷◌, length, map, IfSome, IfOk};
ghost use Rattle.forward_rewrite.specs.Sending.{Sending};
ghost use Rattle.forward_rewrite.specs.Streams.{HasSent};
ghost use Rattle.forward_rewrite.specs.declared.tick_time.TickTime.{TickTime};
ghost use Rattle.forward_rewrite.specs.Mixes.{MixTick, HasMixed, mix_list, mix_packet, sound_of};
ghost use Rattle.forward_rewrite.specs.laws.Laws.{ts_behind};
ghost use Rattle.forward_rewrite.specs.laws.MixLaws.{silent_at};

use forward_rewrite::{
    Counts, MixStream, OutPacket, Stream, mix_numbers_in_a_row, mix_time_goes_on, time_goes_on,
};
use media_items::Format;
use std::alloc::{AllocError, Global};

/// A stream that has sent one frame stands at its first timestamp.
pub fn begins_with_its_first_timestamp(stream: &Stream) -> Option<Counts>
    ensures { (first_seq first_ts : ℕ) (s : Sending) → HasSent stream.now first_seq first_ts (s ∷ [])
        → IfSome result (λ c. c.ts ≡ first_ts % 2 ^ 32) }
{
    time_goes_on();
    stream.counts()
}

/// Behind a second frame it stands as far on as the law says, be both of one run or not.
pub fn goes_on_to_the_second_frame(stream: &Stream) -> Option<Counts>
    ensures { (first_seq first_ts : ℕ) (s next : Sending) → HasSent stream.now first_seq first_ts (s ∷ next ∷ [])
        → IfSome result (λ c. c.ts ≡ ts_behind (record { sending = s; ts = first_ts % 2 ^ 32 }) next) }
{
    time_goes_on();
    stream.counts()
}

/// One more packet of a mix has its first number, and as many more as packets were sent before it.
pub fn numbers_the_next_packet(
    mix: &mut MixStream,
    alloc: Global,
    samples: &[i16],
) -> Result<OutPacket, AllocError>
    ensures { IfOk result (λ out. (first_seq first_ts : ℕ) (before : List MixTick)
        → HasMixed mix.old first_seq first_ts before
        → out.number ≡ (first_seq + length (mix_list mix.old.ssrc first_seq first_ts before)) % 2 ^ 16) }
{
    mix_numbers_in_a_row();
    mix.send(alloc, Format::Pcmu, &[], samples, 0)
}

/// A mix that was silent in all its ticks begins with its first number, its first timestamp and the marker.
pub fn begins_with_the_marker(
    mix: &mut MixStream,
    alloc: Global,
    samples: &[i16],
) -> Result<OutPacket, AllocError>
    ensures { IfOk result (λ out. (first_seq first_ts : ℕ) (silences : List TickTime)
        → HasMixed mix.old first_seq first_ts (map silent_at silences)
        → out ≡ mix_packet mix.old.ssrc first_seq first_ts true (sound_of Format.Pcmu [] samples.now)) }
{
    mix_time_goes_on();
    mix.send(alloc, Format::Pcmu, &[], samples, 0)
}

/// A silent tick at 44100 Hz takes the timestamp on by 882, and a packet of PCMU behind it by 160. That packet has the
/// next number and the marker.
pub fn goes_on_behind_a_silent_tick(
    mix: &mut MixStream,
    alloc: Global,
    samples: &[i16],
) -> Result<(OutPacket, OutPacket), AllocError>
    ensures { IfOk result (λ two. (first_seq first_ts : ℕ) (before : List MixTick)
        → HasMixed mix.old first_seq first_ts before
        → (ts : ℕ) × (marker : Bool)
        × (let sound = sound_of Format.Pcmu [] samples.now in
        let number = first_seq + length (mix_list mix.old.ssrc first_seq first_ts before) in
        (two.0 ≡ mix_packet mix.old.ssrc number ts marker sound)
        × (two.1 ≡ mix_packet mix.old.ssrc (number + 1) (ts + 1042) true sound))) }
{
    mix_time_goes_on();
    let first = mix.send(alloc, Format::Pcmu, &[], samples, 0)?;
    mix.pass(44_100, 20_000_000);
    let second = mix.send(alloc, Format::Pcmu, &[], samples, 40_000_000)?;
    Ok((first, second))
}
