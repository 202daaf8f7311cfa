//! Appends octets to a buffer that has the capacity for them.

ghost use Rattle.std.specs.Prelude.{◌≡◌, ◌+◌, ◌-◌, ◌%◌, ◌<◌, ◌≤◌, ◌++◌, length, replicate, slice_set, vec_len};
ghost use Rattle.std.specs.Prelude.{vec_capacity};

use std::alloc::Allocator;

/// Appends octets. The buffer has the capacity.
pub(crate) fn append<A: Allocator>(octets: &[u8], out: &mut Vec<u8, A>)
    requires { vec_len out.old + length octets.now ≤ vec_capacity out.old }
    ensures items { out.new.items ≡ out.old.items ++ octets.now }
    ensures len { vec_len out.new ≡ vec_len out.old + length octets.now }
    ensures capacity { vec_capacity out.old ≤ vec_capacity out.new }
{
    // The buffer has the capacity, so this takes no memory and can't fail.
    let _ = out.extend_from_slice(octets);
}

/// Appends nulls up to the next 32-bit boundary behind `size` octets. The buffer has the capacity.
pub(crate) fn append_fill<A: Allocator>(size: usize, out: &mut Vec<u8, A>)
    requires { vec_len out.old + (4 - size % 4) % 4 ≤ vec_capacity out.old }
    ensures items { out.new.items ≡ out.old.items ++ replicate ((4 - size % 4) % 4) 0 }
    ensures len { vec_len out.new ≡ vec_len out.old + (4 - size % 4) % 4 }
    ensures capacity { vec_capacity out.old ≤ vec_capacity out.new }
{
    match size % 4 {
        1 => append(&[0, 0, 0], out),
        2 => append(&[0, 0], out),
        3 => append(&[0], out),
        _ => {}
    }
}

/// Puts an octet in the place of another.
pub(crate) fn put<A: Allocator>(at: usize, octet: u8, out: &mut Vec<u8, A>)
    requires { at < vec_len out.old }
    ensures items { out.new.items ≡ slice_set out.old.items at octet }
    ensures len { vec_len out.new ≡ vec_len out.old }
    ensures capacity { vec_capacity out.old ≤ vec_capacity out.new }
{
    out[at] = octet;
}
