//! What the laws of the receive side tell a caller.

ghost use Rattle.std.specs.Prelude.{◌≡◌, false, List, map, IfOk};
ghost use Rattle.topology.specs.Looking.{comes_from};
ghost use Rattle.ingress.specs.Readings.{Reading, IsReading};
ghost use Rattle.ingress.specs.Sources.{Origin, Sources, story_at};
ghost use Rattle.ingress.specs.Ingresses.{Knows};

use desk_rows::Rows;
use ingress::{Ingress, datagrams_are_read, readings_agree, reports_begin_intervals};
use rtp_codec::Address;
use std::alloc::{AllocError, Global};

/// The octets of a datagram are read in one way, and in no other.
pub fn octets_are_one_thing(octets: &[u8])
    ensures { (r : Reading) × IsReading octets.now r × ((s : Reading) → IsReading octets.now s → s ≡ r) }
{
    readings_agree();
    datagrams_are_read();
}

/// Reports leave the order of use as it is, and sources alone that no member sends.
pub fn reports_leave_others_alone(
    ingress: &mut Ingress,
    alloc: Global,
    rows: &Rows,
    moment: u64,
) -> Result<Vec<(Address, Vec<u8>)>, AllocError>
    ensures { IfOk result (λ up. (s : Sources) → Knows ingress.old s
        → (t : Sources) × Knows ingress.new t
        × (map (λ k. k.origin) t.known ≡ map (λ k. k.origin) s.known)
        × ((o : Origin) → comes_from rows.now o.ssrc o.address ≡ false → story_at o t.known ≡ story_at o s.known)) }
{
    reports_begin_intervals();
    ingress.reports(alloc, rows, moment)
}
