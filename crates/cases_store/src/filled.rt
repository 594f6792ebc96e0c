// Arrays that are filled from the front.
ghost use Rattle.std.specs.Prelude.{◌≡◌, ◌↔◌, ◌+◌, ◌-◌, ◌<◌, ◌≤◌, min, take, slice_get, IsSome, IsOk, MatchResult, set};
ghost use Rattle.std.specs.Iterator.{IsFinite};

use cases_scan::Unreadable;
use std::alloc::AllocError;

// At most N elements, in an array of that size.
// kept: no heap, so a length stands beside the array; no plainer by the toolchain's ArrayVec, in one more crate to read
#[derive(Copy)]
pub struct Filled<T, const N: usize> {
    items: [T; N],
    len: usize,
    ghost within: { len ≤ N },
}

impl<T: Copy, const N: usize> Clone for Filled<T, N> {
    ghost use Rattle.std.specs.Prelude.{◌≡◌};

    ghost is_clone = { λ x y. y ≡ x };

    ghost is_infallible = { λ _. Unit {0} };

    fn clone(&self) -> Result<Filled<T, N>, AllocError> {
        Ok(*self)
    }
}

impl<T: Copy + Default, const N: usize> Filled<T, N> {
    pub fn new() -> Filled<T, N> {
        Filled {
            items: [T::default(); N],
            len: 0,
        }
    }

    pub fn len(&self) -> usize
        ensures { result ≡ self.now.len }
    {
        self.len
    }

    pub fn as_slice(&self) -> &[T] {
        &self.items[..self.len]
    }

    // Adds an element, where there is room.
    pub fn push(&mut self, item: T) -> Result<(), Unreadable>
        ensures len { MatchResult result (λ _. self.new.len ≡ self.old.len + 1) (λ _. (self.old.len ≡ N) × (self.new ≡ self.old)) }
        ensures items { IsOk result → self.new.items ≡ set self.old.items self.old.len item }
    {
        if self.len == N {
            return Err(Unreadable);
        }
        self.items[self.len] = item;
        self.len += 1;
        Ok(())
    }

    // Drops the last element, and gives it.
    pub fn pop(&mut self) -> Option<T>
        ensures some { IsSome result ↔ (0 < self.old.len) }
        ensures last { result ≡ slice_get (take self.old.len self.old.items) (self.old.len - 1) }
        ensures len { self.new.len ≡ self.old.len - 1 }
        ensures items { self.new.items ≡ self.old.items }
    {
        self.len = self.len.checked_sub(1)?;
        Some(self.items[self.len])
    }

    // Adds elements, as far as there is room.
    pub fn extend<I: Iterator<Item = T> + Drop>(&mut self, items: I) -> Result<(), Unreadable>
        requires can { I.can_next items }
        requires ends { IsFinite (I.remaining items) }
    {
        for item in items {
            self.push(item)?;
        }
        Ok(())
    }

    // Drops the elements from an index on.
    pub fn truncate(&mut self, len: usize)
        ensures len { self.new.len ≡ min self.old.len len }
        ensures items { self.new.items ≡ self.old.items }
    {
        self.len = self.len.min(len);
    }
}
