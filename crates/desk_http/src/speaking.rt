//! Who speaks.

ghost use Rattle.std.specs.Prelude.{◌≡◌, ◌+◌, ◌∷◌, [], min, true, false, nat_eq, if◌then◌else◌, List};
ghost use Rattle.desk_http.specs.declared.speaking.Quarter.{Quarter as QuarterOf};
ghost use Rattle.desk_http.specs.Speaking.{is_loud, is_quiet, IsSpeechState};

/// The energy of the loudest sample, in the bridge's units.
const LOUDEST: u128 = 1_048_576;

/// How much less energy than the loudest samples those at -45 dBov have.
const LOUD: u128 = 31_623;

/// The same at -52 dBov.
const QUIET: u128 = 158_489;

/// After so many loud quarters in a row one speaks.
const LOUD_ROW: u8 = 2;

/// After so many quiet quarters in a row one doesn't.
const QUIET_ROW: u8 = 4;

/// The sound of a source in a quarter of a second: the difference of two of its `level` lines.
#[derive(Clone, Copy)]
pub struct Quarter {
    /// How many samples came.
    pub samples: u64,
    /// Their energy, in the bridge's units.
    pub energy: u64,
}

/// Whether the sound is over -45 dBov.
fn is_loud(quarter: &Quarter) -> bool
    ensures { result ≡ is_loud quarter.now }
{
    u128::from(quarter.energy) * LOUD > u128::from(quarter.samples) * LOUDEST
}

/// Whether the sound is under -52 dBov, or there was none.
fn is_quiet(quarter: &Quarter) -> bool
    ensures { result ≡ is_quiet quarter.now }
{
    quarter.samples == 0
        || u128::from(quarter.energy) * QUIET < u128::from(quarter.samples) * LOUDEST
}

/// How many quarters in a row were so, at most so many, with one more.
fn row_after(row: u8, goes_on: bool, most: u8) -> u8
    ensures { result ≡ (if goes_on then min most (row + 1) else 0) }
{
    if !goes_on {
        0
    } else if row < most {
        row + 1
    } else {
        most
    }
}

/// Whether one speaks after so many loud and quiet quarters in a row, where this was so before.
fn speaks_after(loud: u8, quiet: u8, before: bool) -> bool
    ensures { result ≡ (if nat_eq loud 2 then true else if nat_eq quiet 4 then false else before) }
{
    if loud == LOUD_ROW {
        true
    } else if quiet == QUIET_ROW {
        false
    } else {
        before
    }
}

/// Whether a source speaks: from two loud quarters of a second in a row on, until four quiet ones in a row.
///
/// It doesn't matter whether the source is muted. The members of a muted source that speaks can be told so.
#[derive(Clone, Copy)]
pub struct SpeechState {
    /// Whether it speaks.
    pub is_speaking: bool,
    /// How many of the last quarters in a row were loud, at most 2.
    loud: u8,
    /// How many were quiet, at most 4.
    quiet: u8,
}

impl SpeechState {
    /// A source that had no quarter.
    pub fn new() -> Self
        ensures { IsSpeechState result [] }
    {
        Self {
            is_speaking: false,
            loud: 0,
            quiet: 0,
        }
    }

    /// After one more quarter.
    pub fn after(self, quarter: &Quarter) -> Self
        ensures { (before : List QuarterOf) → IsSpeechState self before → IsSpeechState result (quarter.now ∷ before) }
    {
        let loud = row_after(self.loud, is_loud(quarter), LOUD_ROW);
        let quiet = row_after(self.quiet, is_quiet(quarter), QUIET_ROW);
        Self {
            is_speaking: speaks_after(loud, quiet, self.is_speaking),
            loud,
            quiet,
        }
    }
}
