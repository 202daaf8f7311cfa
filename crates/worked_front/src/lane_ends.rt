//! Why a bridge ends, by how its lanes ended.

ghost use Rattle.std.specs.Prelude.{◌≡◌, [], ◌∷◌, None, Some, map};
ghost use Rattle.media_workers.specs.declared.fault.HandleFault.TheVariants.{NoEntry, Spent, OutOfMemory as RanOut};
ghost use Rattle.media_workers.specs.declared.lane_item.LaneItem.{LaneItem};
ghost use Rattle.udp_wire.specs.declared.ending.FrontFault.TheVariants.{OutOfMemory, ItemsSpent};

use media_front::fault_of;
use media_workers::{LaneEnd, PublisherName};
use udp_wire::FrontFault;

/// Three lanes: none refused an item, or two did since the desk had ended, or one had no numbers left, or memory ran
/// out for another beside it.
pub fn three_lanes_have_ended<N: PublisherName, S>(ends: &[LaneEnd<N, S>]) -> Option<FrontFault>
    ensures well { map (λ end. end.refused) ends.now ≡ None ∷ None ∷ None ∷ [] → result ≡ None }
    ensures stopped { (item other : LaneItem)
        → map (λ end. end.refused) ends.now ≡ None ∷ Some (item, NoEntry) ∷ Some (other, NoEntry) ∷ []
        → result ≡ None }
    ensures failed { (item other : LaneItem)
        → map (λ end. end.refused) ends.now ≡ Some (other, NoEntry) ∷ Some (item, Spent) ∷ None ∷ []
        → result ≡ Some ItemsSpent }
    ensures ran_out { (item other : LaneItem)
        → map (λ end. end.refused) ends.now ≡ Some (item, Spent) ∷ None ∷ Some (other, RanOut) ∷ []
        → result ≡ Some OutOfMemory }
{
    fault_of(ends)
}
