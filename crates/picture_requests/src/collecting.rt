//! Collects items, each once.

ghost use Rattle.std.specs.Prelude.{◌≡◌, [], IfOk};
ghost use Rattle.indexmap.specs.IndexSet.{insert_all};
ghost use Rattle.picture_requests.specs.Sources.{each_once};

use crate::source::VideoSource;
use indexmap::IndexSet;
use std::alloc::{AllocError, Allocator};
use std::hash::{BuildHasherDefault, FoldHasher, Hash};

/// A set of items, in the order of their first places.
pub(crate) type Items<T, A> = IndexSet<T, BuildHasherDefault<FoldHasher>, A>;

/// The set of these items.
pub(crate) fn set_of<T: Copy + Eq + Hash + Drop, A: Allocator + Copy>(
    alloc: A,
    items: &[T],
) -> Result<Items<T, A>, AllocError>
    ensures { IfOk result (λ set. set.keys ≡ insert_all T.eq [] items.now) }
{
    let mut set = IndexSet::with_capacity(alloc, items.len())?;
    for item in items {
        set.insert(*item)?;
    }
    Ok(set)
}

/// These sources, each once, in the order of their first places.
pub(crate) fn each_once<A: Allocator + Copy>(
    alloc: A,
    sources: &[VideoSource],
) -> Result<Vec<VideoSource, A>, AllocError>
    ensures { IfOk result (λ v. v.items ≡ each_once sources.now) }
{
    let set = set_of(alloc, sources)?;
    Vec::from_slice(alloc, set.as_slice())
}
