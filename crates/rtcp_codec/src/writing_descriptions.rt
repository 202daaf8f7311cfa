//! Writes source descriptions.

ghost use Rattle.std.specs.Prelude.{◌≡◌, ◌+◌, ◌^◌, ◌<◌, ◌≤◌, ◌++◌, length, map, vec_len, vec_capacity};
ghost use Rattle.std.specs.List.{flat_map, AllByRecursion};
ghost use Rattle.rtcp_codec.specs.Description.{item_octets, chunk_octets, filled, most_text, TextsFit};
ghost use Rattle.rtcp_codec.specs.Packet.{FitsTypesOfChunk};
ghost use Rattle.rtcp_codec.specs.View.{item_of, chunk_of};

use crate::appending::{append, append_fill};
use crate::description::{SdesChunk, SdesItem};
use std::alloc::Allocator;

/// Appends an item. The buffer has the capacity.
fn append_item<A: Allocator, B: Allocator>(item: &SdesItem<A>, out: &mut Vec<u8, B>)
    requires text { length item.now.text.items ≤ most_text }
    requires capacity { vec_len out.old + length (item_octets (item_of item.now)) ≤ vec_capacity out.old }
    ensures items { out.new.items ≡ out.old.items ++ item_octets (item_of item.now) }
    ensures len { vec_len out.new ≡ vec_len out.old + length (item_octets (item_of item.now)) }
    ensures capacity { vec_capacity out.old ≤ vec_capacity out.new }
    ensures kind { item.now.kind < 2 ^ 8 }
{
    append(&[item.kind, item.text.len() as u8], out);
    append(&item.text, out);
}

/// Appends items. The buffer has the capacity.
fn append_items<A: Allocator, B: Allocator>(items: &[SdesItem<A>], out: &mut Vec<u8, B>)
    requires texts { TextsFit (map item_of items.now) }
    requires capacity { vec_len out.old + length (flat_map item_octets (map item_of items.now)) ≤ vec_capacity out.old }
    ensures items { out.new.items ≡ out.old.items ++ flat_map item_octets (map item_of items.now) }
    ensures len { vec_len out.new ≡ vec_len out.old + length (flat_map item_octets (map item_of items.now)) }
    ensures capacity { vec_capacity out.old ≤ vec_capacity out.new }
    ensures kinds { AllByRecursion (λ i. i.kind < 2 ^ 8) (map item_of items.now) }
{
    for item in items {
        append_item(item, out);
    }
}

/// Appends a chunk and its fill. The buffer has the capacity.
fn append_chunk<A: Allocator, B: Allocator>(chunk: &SdesChunk<A>, out: &mut Vec<u8, B>)
    requires texts { TextsFit (chunk_of chunk.now).items }
    requires capacity { vec_len out.old + length (filled (chunk_octets (chunk_of chunk.now))) ≤ vec_capacity out.old }
    ensures items { out.new.items ≡ out.old.items ++ filled (chunk_octets (chunk_of chunk.now)) }
    ensures len { vec_len out.new ≡ vec_len out.old + length (filled (chunk_octets (chunk_of chunk.now))) }
    ensures capacity { vec_capacity out.old ≤ vec_capacity out.new }
    ensures types { FitsTypesOfChunk (chunk_of chunk.now) }
{
    let before = out.len();
    append(&chunk.ssrc.to_be_bytes(), out);
    append_items(&chunk.items, out);
    append(&[0], out);
    append_fill(out.len() - before, out);
}

/// Appends chunks. The buffer has the capacity.
pub(crate) fn append_chunks<A: Allocator, B: Allocator>(
    chunks: &[SdesChunk<A>],
    out: &mut Vec<u8, B>,
)
    requires texts { AllByRecursion (λ c. TextsFit c.items) (map chunk_of chunks.now) }
    requires capacity { vec_len out.old + length (flat_map (λ c. filled (chunk_octets c)) (map chunk_of chunks.now))
        ≤ vec_capacity out.old }
    ensures items { out.new.items ≡ out.old.items ++ flat_map (λ c. filled (chunk_octets c)) (map chunk_of chunks.now) }
    ensures len { vec_len out.new
        ≡ vec_len out.old + length (flat_map (λ c. filled (chunk_octets c)) (map chunk_of chunks.now)) }
    ensures capacity { vec_capacity out.old ≤ vec_capacity out.new }
    ensures types { AllByRecursion FitsTypesOfChunk (map chunk_of chunks.now) }
{
    for chunk in chunks {
        append_chunk(chunk, out);
    }
}
