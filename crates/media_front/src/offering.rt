//! How an item is offered to a lane.

ghost use Rattle.std.specs.Prelude.{◌≡◌};
ghost use Rattle.media_items.specs.Inputs.{input_of};
ghost use Rattle.media_workers.specs.declared.parcel.Parcel.TheVariants.{Work};
ghost use Rattle.media_workers.specs.Parcels.{item_in};
ghost use Rattle.media_front.specs.PlacesLeft.{places_left};

use bridge_core::Item;
use media_workers::{Bridge, LaneItem, Pace, Parcel, PublisherName, Sink};
use published_desk::Notice;

/// How many of the 1,024 places of a lane's ring a NACK, a report block or a PLI leaves free.
const LEFT_BY_REQUESTS: usize = 512;

/// How many a frame or sound leaves free: more than the 50 ticks and the report that one round gives at most.
const LEFT_BY_MEDIA: usize = 64;

/// How many places of a lane's ring an item leaves free. What members ask for and report leaves places for frames and
/// sound, and these leave places for ticks. The mixes of a lane that misses a tick are 20 ms late from then on.
pub fn places_left(item: &Item) -> usize
    ensures { result ≡ places_left (input_of item.now) }
{
    match item {
        Item::Nack { .. } | Item::Block { .. } | Item::Pli { .. } => LEFT_BY_REQUESTS,
        Item::Frame(_) | Item::Audio { .. } => LEFT_BY_MEDIA,
        Item::Tick { .. } | Item::Report { .. } | Item::Renew => 0,
    }
}

/// Lanes that are offered parcels. Of lanes on threads nobody can say how many places their rings have, so no clause on
/// a [`Bridge`] tells how many a parcel leaves free. What is proved of any such lanes tells it.
pub(crate) trait OfferedLanes {
    ghost use Rattle.std.specs.Prelude.{ℕ, Result};
    ghost use Rattle.media_workers.specs.declared.parcel.Parcel.{Parcel};

    /// The lane of this number may be offered this parcel.
    ghost may_take: { Self → ℕ → Parcel → Type 0 };

    /// The lane of this number was offered this parcel once, which leaves so many places free, and this was the answer.
    ghost was_offered: { Self → ℕ → Parcel → ℕ → Result (Unit {0}) Parcel → Self → Type 0 };

    /// Gives a lane a parcel, or hands it back if the lane's ring has no more than `free` places left.
    fn offer(&mut self, lane: u32, parcel: Parcel, free: usize) -> Result<(), Parcel>
        requires { may_take self.old lane parcel }
        ensures { was_offered self.old lane parcel free result self.new };
}

impl<N: PublisherName, P: Pace, S: Sink> OfferedLanes for Bridge<N, P, S> {
    ghost use Rattle.std.specs.Prelude.{◌<◌, length};
    ghost use Rattle.media_workers.specs.Parcels.{IsFit};
    ghost use Rattle.media_front.specs.inner.Offers.{IsOffered};

    ghost may_take = { λ ports lane parcel. (lane < length ports) × IsFit N.publisher parcel };

    ghost was_offered = { λ old lane parcel free answer new. IsOffered old lane parcel answer new };

    fn offer(&mut self, lane: u32, parcel: Parcel, free: usize) -> Result<(), Parcel> {
        self.push_leaving(lane, parcel, free)
    }
}

/// Offers a lane an item once, in a parcel with this notice. It leaves as many places of the lane's ring free as
/// `places_left` says.
pub(crate) fn offer_item<L: OfferedLanes>(
    lanes: &mut L,
    lane: u32,
    item: LaneItem,
    notice: Option<Notice>,
) -> Result<(), Parcel>
    requires { L.may_take lanes.old lane (Work item notice) }
    ensures { L.was_offered lanes.old lane (Work item notice) (places_left (input_of (item_in item)))
        result lanes.new }
{
    let free = places_left(item.item());
    lanes.offer(lane, Parcel::Work { item, notice }, free)
}
