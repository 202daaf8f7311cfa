//! Places in two arrays: whether a sample is there, and the sample.

ghost use Rattle.std.specs.Prelude.{◌≡◌, ◌+◌, ◌<◌, ◌≤◌, length, slice_index_or, is_none, is_some, None};
ghost use Rattle.std.specs.Prelude.{map, take, drop};
ghost use Rattle.std.specs.Prelude.{count_by};
ghost use Rattle.playout.specs.inner.Agrees.{filled};
ghost use Rattle.playout.specs.inner.Cells.{cells_of, heard, fills, news, emptied};

use std::alloc::Allocator;

/// Counts those present.
fn count(present: &[bool]) -> u32
    requires few { length present.now ≤ 48000 }
    ensures { result ≡ count_by (λ b. b) present.now }
{
    let mut count = 0;
    for i in 0..present.len() {
        count += present[i] as u32;
    }
    count
}

/// Puts a sample at a place that has none.
fn fill(present: &mut [bool], samples: &mut [i16], at: usize, sample: i16) -> bool
    requires alike { length samples.old ≡ length present.old }
    requires within { at < length present.old }
    ensures cells { cells_of present.new samples.new ≡ filled (cells_of present.old samples.old) at sample }
    ensures new { result ≡ is_none (slice_index_or (cells_of present.old samples.old) at None) }
    ensures long { length present.new ≡ length present.old }
    ensures alike { length samples.new ≡ length present.new }
{
    if present[at] {
        return false;
    }
    present[at] = true;
    samples[at] = sample;
    true
}

/// Puts samples place by place. Returns the number of those kept.
fn fill_each(present: &mut [bool], samples: &mut [i16], at: usize, new: &[i16]) -> u32
    requires alike { length samples.old ≡ length present.old }
    requires within { at + length new.now ≤ length present.old }
    requires few { length present.old ≤ 48000 }
    ensures cells { cells_of present.new samples.new ≡ fills (cells_of present.old samples.old) at new.now }
    ensures count { result ≡ news (cells_of present.old samples.old) at new.now }
    ensures most { result ≤ length new.now }
    ensures long { length present.new ≡ length present.old }
    ensures alike { length samples.new ≡ length present.new }
{
    let mut count = 0;
    for k in 0..new.len() {
        if fill(present, samples, at + k, new[k]) {
            count += 1;
        }
    }
    count
}

/// Puts samples at places none of which has one.
fn fill_whole(present: &mut [bool], samples: &mut [i16], at: usize, new: &[i16])
    requires alike { length samples.old ≡ length present.old }
    requires within { at + length new.now ≤ length present.old }
    requires free { count_by (λ b. b) (take (length new.now) (drop at present.old)) ≡ 0 }
    ensures cells { cells_of present.new samples.new ≡ fills (cells_of present.old samples.old) at new.now }
    ensures count { news (cells_of present.old samples.old) at new.now ≡ length new.now }
    ensures long { length present.new ≡ length present.old }
    ensures alike { length samples.new ≡ length present.new }
{
    present[at..at + new.len()].fill(true);
    samples[at..at + new.len()].copy_from_slice(new);
}

/// Puts samples from a place on. A place that has a sample keeps it. Returns the number of those kept.
pub fn fill_from<A: Allocator>(
    present: &mut Vec<bool, A>,
    samples: &mut Vec<i16, A>,
    at: usize,
    new: &[i16],
) -> u32
    requires alike { length samples.old.items ≡ length present.old.items }
    requires within { at + length new.now ≤ length present.old.items }
    requires few { length present.old.items ≤ 48000 }
    ensures cells { cells_of present.new.items samples.new.items
        ≡ fills (cells_of present.old.items samples.old.items) at new.now }
    ensures count { result ≡ news (cells_of present.old.items samples.old.items) at new.now }
    ensures most { result ≤ length new.now }
    ensures long { length present.new.items ≡ length present.old.items }
    ensures alike { length samples.new.items ≡ length present.new.items }
{
    if count(&present[at..at + new.len()]) == 0 {
        fill_whole(present, samples, at, new);
        return new.len() as u32;
    }
    fill_each(present, samples, at, new)
}

/// Empties `count` places.
fn clear(present: &mut [bool], samples: &[i16], at: usize, count: usize)
    requires alike { length samples.now ≡ length present.old }
    requires within { at + count ≤ length present.old }
    ensures cells { cells_of present.new samples.now ≡ emptied at count (cells_of present.old samples.now) }
    ensures long { length present.new ≡ length present.old }
{
    present[at..at + count].fill(false);
}

/// Empties `count` places from a place on.
pub fn clear_from<A: Allocator>(
    present: &mut Vec<bool, A>,
    samples: &Vec<i16, A>,
    at: usize,
    count: usize,
)
    requires alike { length samples.now.items ≡ length present.old.items }
    requires within { at + count ≤ length present.old.items }
    ensures cells { cells_of present.new.items samples.now.items
        ≡ emptied at count (cells_of present.old.items samples.now.items) }
    ensures long { length present.new.items ≡ length present.old.items }
{
    clear(present, samples, at, count);
}

/// Copies the samples of these places one by one. A missing sample is 0.
fn read_each(present: &[bool], samples: &[i16], out: &mut [i16])
    requires alike { length samples.now ≡ length present.now }
    requires all { length out.old ≡ length present.now }
    ensures { out.new ≡ map heard (cells_of present.now samples.now) }
{
    for i in 0..out.len() {
        out[i] = if present[i] { samples[i] } else { 0 };
    }
}

/// Copies the samples of these places, and counts those present. A missing sample is 0.
fn read(present: &[bool], samples: &[i16], out: &mut [i16]) -> u32
    requires alike { length samples.now ≡ length present.now }
    requires all { length out.old ≡ length present.now }
    requires few { length present.now ≤ 48000 }
    ensures samples { out.new ≡ map heard (cells_of present.now samples.now) }
    ensures count { result ≡ count_by is_some (cells_of present.now samples.now) }
    ensures most { result ≤ length present.now }
{
    let there = count(present);
    if there as usize == present.len() {
        out.copy_from_slice(samples);
    } else if there == 0 {
        out.fill(0);
    } else {
        read_each(present, samples, out);
    }
    there
}

/// Copies the samples from a place on, and counts those present. A missing sample is 0.
pub fn read_from<A: Allocator>(
    present: &Vec<bool, A>,
    samples: &Vec<i16, A>,
    at: usize,
    out: &mut [i16],
) -> u32
    requires alike { length samples.now.items ≡ length present.now.items }
    requires within { at + length out.old ≤ length present.now.items }
    requires few { length present.now.items ≤ 48000 }
    ensures samples { out.new
        ≡ map heard (take (length out.old) (drop at (cells_of present.now.items samples.now.items))) }
    ensures count { result
        ≡ count_by is_some (take (length out.old) (drop at (cells_of present.now.items samples.now.items))) }
    ensures most { result ≤ length out.old }
{
    let end = at + out.len();
    read(&present[at..end], &samples[at..end], out)
}
