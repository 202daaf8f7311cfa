//! The streams of which something is kept.

ghost use Rattle.std.specs.Prelude.{◌≡◌, ◌+◌, ◌≤◌, ◌<◌, ◌∷◌, ◌++◌, [], nat_eq, length, None};
ghost use Rattle.std.specs.Prelude.{IfSome, IfNone, OnOk, OnErr};
ghost use Rattle.std.specs.Bool.{OnTrue};
ghost use Rattle.std.specs.Map.{lookup};
ghost use Rattle.indexmap.specs.IndexMap.{spare};
ghost use Rattle.lane_wire.specs.Streams.{most_streams, HasSpace, IsRenewed, IsKeptBehind};
ghost use Rattle.lane_wire.specs.inner.Places.{Stands, HasLast, AreLater};

use crate::stream_numbers::{KeptStream, StreamNews};
use indexmap::IndexMap;
use std::alloc::{AllocError, Global};
use std::hash::{BuildHasherDefault, FoldHasher};

/// How many streams are kept: as many as a desk has slots and mixes.
const MOST_STREAMS: usize = 5_120;

/// What is kept of streams, by their SSRCs.
// The hash has no secret key: operators choose the SSRCs, and not the network.
pub(crate) type KeptStreams = IndexMap<u32, KeptStream, BuildHasherDefault<FoldHasher>, Global>;

/// Whether a stream stands at a place.
fn stands_at(streams: &KeptStreams, place: usize, ssrc: u32) -> bool
    ensures { OnTrue result (Stands ssrc place streams.now.entries) }
{
    match streams.get_index(place) {
        Some((found, _)) => *found == ssrc,
        None => false,
    }
}

/// Where a stream stands, by its SSRC.
fn place_by_ssrc(streams: &KeptStreams, ssrc: u32) -> Option<usize>
    ensures found { IfSome result (λ place. Stands ssrc place streams.now.entries) }
    ensures none { IfNone result (lookup (nat_eq ssrc) streams.now.entries ≡ None) }
{
    let (place, _, _) = streams.get_full(&ssrc)?;
    Some(place)
}

/// Where a stream stands: mostly at the last place, or at the one behind it.
pub(crate) fn place_of(streams: &KeptStreams, last: usize, ssrc: u32) -> Option<usize>
    ensures found { IfSome result (λ place. Stands ssrc place streams.now.entries) }
    ensures none { IfNone result (lookup (nat_eq ssrc) streams.now.entries ≡ None) }
{
    if stands_at(streams, last, ssrc) {
        return Some(last);
    }
    let behind = last.wrapping_add(1);
    let next = if behind < streams.len() { behind } else { 0 };
    if stands_at(streams, next, ssrc) {
        return Some(next);
    }
    place_by_ssrc(streams, ssrc)
}

/// Counts what is new of the stream at a place, and has this number.
#[tactic(auto, using(crate::proofs::Places::renewed, crate::proofs::Places::long_as_ever))]
pub(crate) fn renew(
    streams: &mut KeptStreams,
    place: usize,
    ssrc: u32,
    news: StreamNews,
    number: u64,
)
    requires { Stands ssrc place streams.old.entries }
    ensures renewed { IsRenewed ssrc news number streams.old.entries streams.new.entries }
    ensures many { length streams.new.entries ≡ length streams.old.entries }
{
    match streams.get_index_mut(place) {
        Some(kept) => kept.count(news, number),
        None => unreachable!(),
    }
}

/// The number of the last news of the stream at a place.
fn last_at(streams: &KeptStreams, place: usize) -> u64
    requires { place < length streams.now.entries }
    ensures { HasLast place result streams.now.entries }
{
    match streams.get_index(place) {
        Some((_, kept)) => kept.last,
        None => unreachable!(),
    }
}

/// The older one of two: the oldest stream before a place with the number of its last news, and the one at the place.
fn older(streams: &KeptStreams, so_far: (usize, u64), place: usize) -> (usize, u64)
    requires within { place < length streams.now.entries }
    requires found { HasLast so_far.0 so_far.1 streams.now.entries }
    requires oldest { AreLater place so_far.1 streams.now.entries }
    ensures found { HasLast result.0 result.1 streams.now.entries }
    ensures oldest { AreLater (place + 1) result.1 streams.now.entries }
{
    let last = last_at(streams, place);
    if last < so_far.1 {
        (place, last)
    } else {
        so_far
    }
}

/// Where the stream stands of which nothing new came for longest, and the number of its last news.
fn oldest(streams: &KeptStreams) -> (usize, u64)
    requires { 0 < length streams.now.entries }
    ensures found { HasLast result.0 result.1 streams.now.entries }
    ensures oldest { AreLater (length streams.now.entries) result.1 streams.now.entries }
{
    let mut oldest = (0, last_at(streams, 0));
    for place in 0..streams.len() {
        oldest = older(streams, oldest, place);
    }
    oldest
}

/// Forgets the stream of which nothing new came for longest, if as many are kept as may be.
fn make_space(streams: &mut KeptStreams)
    requires { length streams.old.entries ≤ most_streams }
    ensures space { HasSpace streams.old.entries streams.new.entries }
    ensures few { length streams.new.entries < most_streams }
    ensures room { spare streams.old ≤ spare streams.new }
{
    if streams.len() >= MOST_STREAMS {
        let (place, _) = oldest(streams);
        let Some(_) = streams.shift_remove_index(place) else {
            unreachable!()
        };
    }
}

/// Inserts a stream behind the others. There is memory for it.
fn insert_last(streams: &mut KeptStreams, ssrc: u32, kept: KeptStream)
    requires reserved { 0 < spare streams.old }
    requires absent { lookup (nat_eq ssrc) streams.old.entries ≡ None }
    ensures { streams.new.entries ≡ streams.old.entries ++ (ssrc, kept) ∷ [] }
{
    let Ok(_) = streams.insert(ssrc, kept) else {
        unreachable!()
    };
}

/// Keeps a stream of which nothing is kept behind the others. An `Err`, out of memory, changes nothing.
#[tactic(auto, using(crate::proofs::Places::absent_in_space))]
pub(crate) fn begin(
    streams: &mut KeptStreams,
    ssrc: u32,
    kept: KeptStream,
) -> Result<(), AllocError>
    requires few { length streams.old.entries ≤ most_streams }
    requires absent { lookup (nat_eq ssrc) streams.old.entries ≡ None }
    ensures kept { OnOk result (IsKeptBehind ssrc kept streams.old.entries streams.new.entries) }
    ensures err { OnErr result (streams.new.entries ≡ streams.old.entries) }
    ensures few { length streams.new.entries ≤ most_streams }
{
    streams.reserve(1)?;
    make_space(streams);
    insert_last(streams, ssrc, kept);
    Ok(())
}
