//! How a source is received, as the line of the source has it.

ghost use Rattle.std.specs.Prelude.{◌≡◌, ◌∷◌, [], map};
ghost use Rattle.bridge_stats.specs.Received.{jitter_ms, waits_part};
ghost use Rattle.bridge_stats.specs.Received.{jitter_part, frames_part, given_up_part, waiting_part};
ghost use Rattle.bridge_stats.specs.Received.{sound_part, reception_parts};
ghost use Rattle.bridge_stats.specs.inner.Said.{said};

use crate::appending::{LineField, NO_WORD};
use crate::numbers::SourceNumbers;
use ingress::Reception;

/// The clock rate of video, in Hz.
const VIDEO_RATE: u32 = 90_000;

/// How many milliseconds lie between two waits.
const WAIT_MS: u64 = 20;

/// The jitter in whole milliseconds.
fn jitter_ms(reception: &Reception) -> u64
    ensures { result ≡ jitter_ms reception.now }
{
    u64::from(reception.jitter) * 1_000 / u64::from(reception.rate.max(1))
}

/// For how many milliseconds a packet has been missing, or a mark that none is missing.
fn waits_field<'a>(waits: Option<u64>) -> LineField<'a>
    ensures { said result ≡ waits_part waits }
{
    match waits {
        None => LineField::Words(NO_WORD),
        Some(waits) => LineField::Number(waits.saturating_mul(WAIT_MS)),
    }
}

/// The jitter, and what the gate of video tells; marks where it isn't known.
fn reception_numbers<'a>(reception: Option<Reception>) -> [LineField<'a>; 4]
    ensures { map said result
        ≡ jitter_part reception ∷ frames_part reception ∷ given_up_part reception ∷ waiting_part reception ∷ [] }
{
    let none = LineField::Words(NO_WORD);
    let Some(reception) = reception else {
        return [none, none, none, none];
    };
    let jitter = LineField::Number(jitter_ms(&reception));
    if reception.rate != VIDEO_RATE {
        return [jitter, none, none, none];
    }
    [
        jitter,
        LineField::Number(reception.frames),
        LineField::Number(reception.gaps),
        waits_field(reception.waits),
    ]
}

/// What is counted of sound, or a mark where no sample has come.
fn sound_field<'a>(samples: u64, count: u64) -> LineField<'a>
    ensures { said result ≡ sound_part samples count }
{
    if samples == 0 {
        LineField::Words(NO_WORD)
    } else {
        LineField::Number(count)
    }
}

/// How a source is received, and what is counted of its sound, each number behind its word.
pub(crate) fn reception_fields<'a>(
    reception: Option<Reception>,
    numbers: &SourceNumbers,
) -> [LineField<'a>; 12]
    ensures { map said result ≡ reception_parts reception numbers.now }
{
    let [jitter, frames, given_up, waiting] = reception_numbers(reception);
    [
        LineField::Words(b"jitter"),
        jitter,
        LineField::Words(b"frames"),
        frames,
        LineField::Words(b"given-up"),
        given_up,
        LineField::Words(b"waiting"),
        waiting,
        LineField::Words(b"samples"),
        sound_field(numbers.samples, numbers.samples),
        LineField::Words(b"energy"),
        sound_field(numbers.samples, numbers.energy),
    ]
}
