//! Laws of the definitions: functions that do nothing when they run.

ghost use Rattle.std.specs.Prelude.{◌≡◌, ℕ, ◌+◌, ◌%◌, ◌^◌, true, List, [], ◌∷◌, ◌++◌, map, IfSome};
ghost use Rattle.std.specs.List.{slice_get};
ghost use Rattle.retransmit.specs.Window.{AreInARow};
ghost use Rattle.forward_rewrite.specs.Sending.{Sending};
ghost use Rattle.forward_rewrite.specs.Timestamps.{Stamped, stamped};
ghost use Rattle.forward_rewrite.specs.RoutedList.{Part, octets, packets_of};
ghost use Rattle.forward_rewrite.specs.laws.Laws.{GoesWhole, KeepsTime, FindsOnlyWhatWasSent, FindsEach, by_parts};
ghost use Rattle.forward_rewrite.specs.Mixes.{Sound, MixTick, silent, sounding, mix_packet, mix_list};
ghost use Rattle.forward_rewrite.specs.declared.tick_time.TickTime.{TickTime};
ghost use Rattle.forward_rewrite.specs.laws.MixLaws.{silent_at, KeepsPace, SendsMore};

use retransmit::{found_is_the_only_one, owners_are_told_apart};

/// A law: each frame goes out whole, behind all frames before it. It goes out as as many packets as it has, under one
/// timestamp. Each has the marker, payload type and payload of the frame's packet, and its source as contributing
/// source.
pub fn each_frame_goes_whole()
    ensures whole { (ssrc first_seq first_ts : ℕ) (before : List Sending) (next : Sending)
        → GoesWhole ssrc first_seq first_ts before next }
    ensures octets { (ssrc number : ℕ) (part : Part) → octets ssrc number part ≡ by_parts ssrc number part }
{}

/// A law: whatever the frames, the packets of a stream are numbered in a row, from its first number on.
pub fn numbers_in_a_row()
    ensures row { (ssrc first_seq first_ts : ℕ) (sendings : List Sending)
        → AreInARow (packets_of ssrc first_seq first_ts sendings) }
    ensures first { (ssrc first_seq first_ts : ℕ) (sendings : List Sending)
        → IfSome (slice_get (packets_of ssrc first_seq first_ts sendings) 0) (λ p. p.number ≡ first_seq % 2 ^ 16) }
{}

/// A law of a stream's timestamps. They begin with the first timestamp. Within a run of one source they advance as the
/// source's do. Where a run begins, they advance by the pause between both frames.
pub fn time_goes_on()
    ensures all { (first_ts : ℕ) (sendings : List Sending)
        → map (λ (s : Stamped). s.sending) (stamped first_ts sendings) ≡ sendings }
    ensures first { (first_ts : ℕ) (sendings : List Sending)
        → IfSome (slice_get (stamped first_ts sendings) 0) (λ s. s.ts ≡ first_ts % 2 ^ 32) }
    ensures neighbours { (first_ts : ℕ) (sendings : List Sending) → KeepsTime (stamped first_ts sendings) }
{}

/// A law: a packet that is found is one of the last 512 of its stream, has the number that was asked for, and went to
/// the owner who asks. Each of the last 512 is found by its number and owner.
pub fn found_is_what_was_sent()
    ensures found { (ssrc first_seq first_ts : ℕ) (sendings : List Sending)
        → FindsOnlyWhatWasSent (packets_of ssrc first_seq first_ts sendings) }
    ensures all { (ssrc first_seq first_ts : ℕ) (sendings : List Sending)
        → FindsEach (packets_of ssrc first_seq first_ts sendings) }
{
    numbers_in_a_row();
    found_is_the_only_one();
    owners_are_told_apart();
}

/// A law: whatever the ticks, the packets of a mix stream are numbered in a row, from its first number on.
pub fn mix_numbers_in_a_row()
    ensures { (ssrc first_seq first_ts : ℕ) (ticks : List MixTick) (k : ℕ)
        → IfSome (slice_get (mix_list ssrc first_seq first_ts ticks) k) (λ p. p.number ≡ (first_seq + k) % 2 ^ 16) }
{}

/// A law of a mix stream. Its first packet has its first number, its first timestamp and the marker. A silent tick
/// sends nothing. The timestamp advances by the samples of each tick: 160 at 8000 Hz, 882 at 44100 Hz. A later packet
/// has the marker exactly if the tick before it was silent.
pub fn mix_time_goes_on()
    ensures first { (ssrc first_seq first_ts : ℕ) (silences : List TickTime) (sound : Sound) (moment : ℕ)
        → mix_list ssrc first_seq first_ts (map silent_at silences ++ sounding sound moment ∷ [])
        ≡ mix_packet ssrc first_seq first_ts true sound ∷ [] }
    ensures silence { (ssrc first_seq first_ts : ℕ) (before : List MixTick) (rate moment : ℕ)
        → mix_list ssrc first_seq first_ts (before ++ silent rate moment ∷ [])
        ≡ mix_list ssrc first_seq first_ts before }
    ensures more { (ssrc first_seq first_ts : ℕ) (before : List MixTick) (tick : MixTick)
        → SendsMore ssrc first_seq first_ts before tick }
    ensures pace { (ssrc first_seq first_ts : ℕ) (before : List MixTick) (sound : Sound) (moment : ℕ)
        (pauses : List TickTime) (later : Sound) (later_moment : ℕ)
        → KeepsPace ssrc first_seq first_ts before sound moment pauses later later_moment }
{}
