//! An allocator for tests that refuses memory once: the request that it is told to refuse gets `AllocError`, and all
//! others go to the allocator below.
//!
//! Begin with [`Refusing::new`]. A collection holds a `&Refusing`. Contracts say nothing of which request is refused.
//!
//! ```rust
//! let heap = Refusing::new(alloc);
//! heap.refuse(2); // the second request from now on
//! let rows = Rows::new(&heap, 1); // Err(AllocError)
//! let was_refused = heap.end(2); // true
//! ```
//!
//! `push_refused` of x_tests_desk makes these calls over a history.
#![tactic(auto)]

use std::alloc::{AllocError, Allocator, Global};
use std::cell::Cell;

/// An allocator that refuses one request, the Nth from when it is told so. A collection holds a `&` to it.
pub struct Refusing<B: Allocator = Global> {
    inner: B,
    left: Cell<u64>,
}

impl<B: Allocator> Refusing<B> {
    /// An allocator that hands each request to this one, until `refuse` is called.
    pub fn new(inner: B) -> Self {
        Self {
            inner,
            left: Cell::new(0),
        }
    }

    /// From now on the request of this number is refused, the next one being 1. At 0 none is.
    pub fn refuse(&self, nth: u64) {
        self.left.set(nth);
    }

    /// From now on none is refused. Tells whether the request of this number was, which `refuse` was called with last.
    pub fn end(&self, nth: u64) -> bool {
        let asked = nth.wrapping_sub(self.left.get());
        self.left.set(0);
        nth != 0 && nth <= asked
    }
}

impl<B: Allocator> Drop for Refusing<B> {
    fn drop(self) {
        let Self { inner: _, left: _ } = self;
    }
}

/// Counts a request down, and tells whether it is the one to refuse.
fn is_due(left: &Cell<u64>) -> bool {
    let rest = left.get().wrapping_sub(1);
    left.set(rest);
    rest == 0
}

unsafe impl<B: Allocator> Allocator for Refusing<B> {
    ghost dealloc_token = { λ heap ty ptr. B.dealloc_token heap.inner ty ptr };

    fn allocate(&self, size: usize, align: usize) -> Result<*mut u8, AllocError> {
        if is_due(&self.left) {
            return Err(AllocError);
        }
        self.inner.allocate(size, align)
    }

    unsafe fn deallocate(&self, ptr: *mut u8, size: usize, align: usize) {
        self.inner.deallocate(ptr, size, align);
    }
}
