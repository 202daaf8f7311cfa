//! Why a source isn't heard, as the line of the source has it.

ghost use Rattle.std.specs.Prelude.{◌≡◌, map};
ghost use Rattle.bridge_stats.specs.Why.{type_part, silent_ms, silent_part, why_parts};
ghost use Rattle.bridge_stats.specs.inner.Said.{said};

use crate::appending::{LineField, NO_WORD};
use crate::numbers::SourceNumbers;
use ingress::Reception;

/// A payload type, or a mark where none came.
fn type_field<'a>(pt: Option<u8>) -> LineField<'a>
    ensures { said result ≡ type_part pt }
{
    match pt {
        None => LineField::Words(NO_WORD),
        Some(pt) => LineField::Number(u64::from(pt)),
    }
}

/// So many samples of a source in whole milliseconds.
fn silent_ms(samples: u64, reception: &Reception) -> u64
    ensures { result ≡ silent_ms samples reception.now }
{
    samples.saturating_mul(1_000) / u64::from(reception.rate.max(1))
}

/// For how long a source has been silent, or a mark where no sample has come.
fn silent_field<'a>(reception: Option<Reception>, samples: u64, silent: u64) -> LineField<'a>
    ensures { said result ≡ silent_part reception samples silent }
{
    match reception {
        None => LineField::Words(NO_WORD),
        Some(reception) => {
            if samples == 0 {
                LineField::Words(NO_WORD)
            } else {
                LineField::Number(silent_ms(silent, &reception))
            }
        }
    }
}

/// Why packets were dropped, and for how long there was silence, each number behind its word.
pub(crate) fn why_fields<'a>(
    reception: Option<Reception>,
    numbers: &SourceNumbers,
) -> [LineField<'a>; 12]
    ensures { map said result ≡ why_parts reception numbers.now }
{
    let drops = &numbers.drops;
    [
        LineField::Words(b"bad-payload"),
        LineField::Number(drops.bad_payload),
        LineField::Words(b"bad-type"),
        type_field(drops.bad_type),
        LineField::Words(b"spent"),
        LineField::Number(drops.spent),
        LineField::Words(b"probation"),
        LineField::Number(drops.probation),
        LineField::Words(b"jump"),
        LineField::Number(drops.jump),
        LineField::Words(b"silent"),
        silent_field(reception, numbers.samples, numbers.silent),
    ]
}
