// An allocator that runs out.
use std::alloc::{AllocError, Allocator};
use std::cell::Cell;

/// An allocator that returns a number of blocks and then refuses. A block that is freed is not returned again.
pub struct Sparing<B: Allocator> {
    inner: B,
    left: Cell<u64>,
}

impl<B: Allocator> Sparing<B> {
    /// Takes this many blocks from this allocator. No clause says what a cell holds, so tests show what it does.
    pub fn new(inner: B, blocks: u64) -> Sparing<B> {
        Sparing {
            inner,
            left: Cell::new(blocks),
        }
    }

    /// Allows this many more blocks from now on, in place of the remaining ones.
    pub fn give(&self, blocks: u64) {
        self.left.set(blocks);
    }
}

impl<B: Allocator> Drop for Sparing<B> {
    fn drop(self) {
        let Self { inner: _, left: _ } = self;
    }
}

// Whether none remains. If one does, takes it.
fn is_spent(left: &Cell<u64>) -> bool {
    match left.get().checked_sub(1) {
        Some(fewer) => {
            left.set(fewer);
            false
        }
        None => true,
    }
}

unsafe impl<B: Allocator> Allocator for Sparing<B> {
    ghost dealloc_token = { λ heap ty ptr. B.dealloc_token heap.inner ty ptr };

    fn allocate(&self, size: usize, align: usize) -> Result<*mut u8, AllocError> {
        if is_spent(&self.left) {
            return Err(AllocError);
        }
        self.inner.allocate(size, align)
    }

    unsafe fn deallocate(&self, ptr: *mut u8, size: usize, align: usize) {
        self.inner.deallocate(ptr, size, align);
    }
}
