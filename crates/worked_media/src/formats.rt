//! Formats of audio.

ghost use Rattle.std.specs.Prelude.{◌≡◌};

use media_items::Format;

/// A tick of music is 20 ms at 44100 Hz: 882 samples, in 1,764 octets.
pub fn a_tick_of_music_has_882_samples() -> (usize, usize)
    ensures samples { result.0 ≡ 882 }
    ensures octets { result.1 ≡ 1764 }
{
    let format = Format::L16At44100;
    let samples = format.tick();
    (samples, format.octets() * samples)
}
