//! Whether member rows can be taken from their places and put at places.

ghost use Rattle.std.specs.Prelude.{◌≡◌, ◌+◌, ◌<◌, ◌^◌, ◌&&◌, length, nat_lt};
ghost use Rattle.std.specs.List.{list_all};
ghost use Rattle.desk_rows.specs.Places.{is_at, places_rise, can_take};
ghost use Rattle.desk_rows.specs.inner.judging.Within.{put_within};

use desk_rows::{Member, Placed, Row};

fn all_above(placed: &[Placed], place: usize) -> bool
    ensures { result ≡ list_all (λ p. nat_lt place p.place) placed.now }
{
    placed.iter().all(|one| place < one.place)
}

fn rise(placed: &[Placed]) -> bool
    ensures { result ≡ places_rise placed.now }
{
    let mut rest = placed;
    while let Some((first, later)) = rest.split_first() {
        if !all_above(later, first.place) {
            return false;
        }
        rest = later;
    }
    true
}

fn stands_at(members: &[Member], place: usize, row: &Member) -> bool
    ensures { result ≡ is_at members.now place row.now }
{
    place < members.len() && Row::Member(members[place]).is_same(&Row::Member(*row))
}

fn all_stand(placed: &[Placed], members: &[Member]) -> bool
    ensures { result ≡ list_all (λ p. is_at members.now p.place p.row) placed.now }
{
    placed
        .iter()
        .all(|one| stands_at(members, one.place, &one.row))
}

/// Whether these rows stand at their places, which rise.
#[tactic(auto, using(desk_rows::specs::laws::PlaceLaws::can_take_places))]
pub(crate) fn can_be_taken(placed: &[Placed], members: &[Member]) -> bool
    ensures { result ≡ (places_rise placed.now && can_take placed.now members.now) }
{
    rise(placed) && all_stand(placed, members)
}

/// Whether these rows, whose places rise, can be put into a list of this length.
pub(crate) fn can_be_put(placed: &[Placed], start: usize) -> bool
    requires { start + length placed.now < 2 ^ 64 }
    ensures { result ≡ (places_rise placed.now && put_within start placed.now) }
{
    if !rise(placed) {
        return false;
    }
    let mut rest = placed;
    let mut end = start;
    while let Some((first, later)) = rest.split_first() {
        if first.place > end {
            return false;
        }
        rest = later;
        end += 1;
    }
    true
}
