//! Reads source descriptions.

ghost use Rattle.std.specs.Prelude.{◌≡◌, ℕ, ◌%◌, ◌<◌, ◌++◌, ◌∷◌, List, length, slice_index, map, IfOk};
ghost use Rattle.std.specs.List.{flat_map, AllByRecursion};
ghost use Rattle.rtcp_codec.specs.Description.{item_octets, chunk_octets, IsFill, Describe, FitsItem, FitsChunk};
ghost use Rattle.rtcp_codec.specs.Description.{HasChunks};
ghost use Rattle.rtcp_codec.specs.inner.Reading.{HasItems, HasChunk};
ghost use Rattle.rtcp_codec.specs.View.{item_of, chunk_of};

use crate::description::{SdesChunk, SdesItem};
use crate::fields::u32_from;
use std::alloc::{AllocError, Allocator};

/// The item at the front, and what follows it. It is no null.
fn item_from<A: Allocator>(alloc: A, octets: &[u8]) -> Result<(SdesItem<A>, &[u8]), AllocError>
    requires no_null { 0 < length octets.now → 0 < slice_index octets.now 0 }
    requires whole { HasItems octets.now }
    ensures parts { IfOk result (λ r. octets.now ≡ item_octets (item_of r.0) ++ r.1.now) }
    ensures fits { IfOk result (λ r. FitsItem (item_of r.0)) }
{
    let (front, rest) = octets.split_at(2);
    let (text, rest) = rest.split_at(usize::from(front[1]));
    let text = Vec::from_slice(alloc, text)?;
    let kind = front[0];
    Ok((SdesItem { kind, text }, rest))
}

/// The items up to the null that ends them, and what follows it.
fn items_from<A: Allocator + Copy>(
    alloc: A,
    octets: &[u8],
) -> Result<(Vec<SdesItem<A>, A>, &[u8]), AllocError>
    requires { HasItems octets.now }
    ensures parts { IfOk result (λ r. octets.now ≡ flat_map item_octets (map item_of r.0.items) ++ 0 ∷ r.1.now) }
    ensures fits { IfOk result (λ r. AllByRecursion FitsItem (map item_of r.0.items)) }
{
    let mut items = Vec::new(alloc);
    let mut rest = octets;
    loop {
        if let [0, after @ ..] = rest {
            return Ok((items, after));
        }
        let (item, after) = item_from(alloc, rest)?;
        items.push(item)?;
        rest = after;
    }
}

/// The chunk at the front, and what follows its fill.
fn chunk_from<A: Allocator + Copy>(
    alloc: A,
    octets: &[u8],
) -> Result<(SdesChunk<A>, &[u8]), AllocError>
    requires words { length octets.now % 4 ≡ 0 }
    requires whole { HasChunk octets.now }
    ensures parts { IfOk result
        (λ r. (fill : List ℕ) × IsFill (length (chunk_octets (chunk_of r.0))) fill
        × (octets.now ≡ chunk_octets (chunk_of r.0) ++ (fill ++ r.1.now))) }
    ensures fits { IfOk result (λ r. FitsChunk (chunk_of r.0)) }
    ensures words { IfOk result (λ r. length r.1.now % 4 ≡ 0) }
{
    let (ssrc, rest) = u32_from(octets);
    let (items, rest) = items_from(alloc, rest)?;
    // All octets are whole words, so those up to the boundary are what is over in the rest.
    let (_, rest) = rest.split_at(rest.len() % 4);
    Ok((SdesChunk { ssrc, items }, rest))
}

/// `count` chunks at the front.
pub(crate) fn chunks_from<A: Allocator + Copy>(
    alloc: A,
    count: u8,
    octets: &[u8],
) -> Result<Vec<SdesChunk<A>, A>, AllocError>
    requires words { length octets.now % 4 ≡ 0 }
    requires whole { HasChunks count octets.now }
    ensures count { IfOk result (λ v. length v.items ≡ count) }
    ensures fits { IfOk result (λ v. AllByRecursion FitsChunk (map chunk_of v.items)) }
    ensures parts { IfOk result (λ v. Describe (map chunk_of v.items) octets.now) }
{
    let mut chunks = Vec::with_capacity(alloc, usize::from(count))?;
    let mut rest = octets;
    for _ in 0..count {
        let (chunk, after) = chunk_from(alloc, rest)?;
        chunks.push(chunk)?;
        rest = after;
    }
    Ok(chunks)
}
