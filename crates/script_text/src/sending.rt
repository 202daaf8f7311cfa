//! Writing all of some octets, with what went out before an error known.

ghost use Rattle.std.specs.Prelude.{◌≡◌, ◌≢◌, ◌⊎◌, ◌^◌};
ghost use Rattle.script_text.specs.inner.Steps.{Sends};

use crate::fault::RunFault;
use crate::sink::{Portion, TextSink};

/// The most calls of a source or a sink for one thing.
pub(crate) const MOST_CALLS: u64 = 1 << 32;

/// Writes the octets. On an error only the first ones may be written. On out of memory none are: if some were written
/// before it, the fault is `Write`.
pub(crate) fn send<T: TextSink>(writer: &mut T, octets: &[u8]) -> Result<(), RunFault>
    ensures sends { Sends octets.now (T.held writer.old) (T.held writer.new) result }
    ensures read { result ≢ Err RunFault.Read }
    ensures write { result ≡ Err RunFault.Write →
        T.may_fail ⊎ (T.may_starve × T.may_split) ⊎ ((first : T) × T.goes_on (2 ^ 32) first writer.new) }
{
    let mut at = 0;
    for _ in 0..MOST_CALLS {
        if at >= octets.len() {
            return Ok(());
        }
        match writer.write_some(&octets[at..]) {
            Portion::Octets(n) => at += n,
            Portion::Interrupted => {}
            Portion::OutOfMemory => {
                return Err(if at == 0 {
                    RunFault::OutOfMemory
                } else {
                    RunFault::Write
                });
            }
            Portion::Failed => return Err(RunFault::Write),
        }
    }
    if at >= octets.len() {
        Ok(())
    } else {
        Err(RunFault::Write)
    }
}
