//! Judges source descriptions.

ghost use Rattle.std.specs.Prelude.{◌≡◌, ℕ, ◌%◌, ◌<◌, ◌++◌, ◌∷◌, true, false, List, length, slice_index, IfSome};
ghost use Rattle.std.specs.Prelude.{IfNone};
ghost use Rattle.std.specs.List.{flat_map, AllByRecursion};
ghost use Rattle.rtcp_codec.specs.Description.{Item, Chunk, item_octets, chunk_octets, IsFill, FitsItem, FitsChunk};
ghost use Rattle.rtcp_codec.specs.Description.{HasChunks};
ghost use Rattle.rtcp_codec.specs.inner.Reading.{HasItems, HasChunk};

use crate::fields::u32_from;

/// What follows the item at the front, if it is whole. It is no null.
fn behind_item(octets: &[u8]) -> Option<&[u8]>
    requires { 0 < length octets.now → 0 < slice_index octets.now 0 }
    ensures some { IfSome result (λ rest. (i : Item) × FitsItem i × (octets.now ≡ item_octets i ++ rest.now)) }
    ensures none { IfNone result (¬ HasItems octets.now) }
{
    if octets.len() < 2 {
        return None;
    }
    let size = 2 + usize::from(octets[1]);
    if octets.len() < size {
        return None;
    }
    let (_, rest) = octets.split_at(size);
    Some(rest)
}

/// What follows the items and the null that ends them, if they are whole.
fn behind_items(octets: &[u8]) -> Option<&[u8]>
    ensures some { IfSome result
        (λ rest. (items : List Item) × AllByRecursion FitsItem items
        × (octets.now ≡ flat_map item_octets items ++ 0 ∷ rest.now)) }
    ensures none { IfNone result (¬ HasItems octets.now) }
{
    let mut rest = octets;
    loop {
        if let [0, after @ ..] = rest {
            return Some(after);
        }
        rest = behind_item(rest)?;
    }
}

/// What follows the chunk at the front and its fill, if it is whole.
fn behind_chunk(octets: &[u8]) -> Option<&[u8]>
    requires { length octets.now % 4 ≡ 0 }
    ensures some { IfSome result
        (λ rest. (c : Chunk) × (fill : List ℕ) × FitsChunk c × IsFill (length (chunk_octets c)) fill
        × (octets.now ≡ chunk_octets c ++ (fill ++ rest.now))) }
    ensures words { IfSome result (λ rest. length rest.now % 4 ≡ 0) }
    ensures none { IfNone result (¬ HasChunk octets.now) }
{
    if octets.len() < 4 {
        return None;
    }
    let (_, rest) = u32_from(octets);
    let rest = behind_items(rest)?;
    // All octets are whole words, so those up to the boundary are what is over in the rest.
    let (_, rest) = rest.split_at(rest.len() % 4);
    Some(rest)
}

/// Whether `count` whole chunks stand at the front.
pub(crate) fn has_chunks(count: u8, octets: &[u8]) -> bool
    requires { length octets.now % 4 ≡ 0 }
    ensures good { result ≡ true → HasChunks count octets.now }
    ensures bad { result ≡ false → ¬ HasChunks count octets.now }
{
    let mut rest = octets;
    for _ in 0..count {
        let Some(after) = behind_chunk(rest) else {
            return false;
        };
        rest = after;
    }
    true
}
