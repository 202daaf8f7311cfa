//! How long a source of sound has been silent.

ghost use Rattle.std.specs.Prelude.{◌≡◌};
ghost use Rattle.bridge_stats.specs.Silence.{is_faint, silent_after};

use ingress::SoundCount;

/// The energy of the loudest sample.
const LOUDEST: u128 = 1_048_576;

/// -60 dBov is a millionth of it.
const QUIET: u128 = 1_000_000;

/// Whether the sound of a packet is at most -60 dBov.
fn is_faint(sound: &SoundCount) -> bool
    ensures { result ≡ is_faint sound.now }
{
    u128::from(sound.energy) * QUIET <= u128::from(sound.samples) * LOUDEST
}

/// For how many samples there was silence, after the sound of one more packet.
pub(crate) fn silent_after(before: u64, sound: &SoundCount) -> u64
    ensures { result ≡ silent_after before sound.now }
{
    if is_faint(sound) {
        before.saturating_add(sound.samples)
    } else {
        0
    }
}
