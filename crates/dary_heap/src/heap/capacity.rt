//! How many items a heap has room for.
ghost use Rattle.std.specs.Prelude.{◌≡◌, ◌≤◌, [], length, max, IfOk, IsOk};
ghost use Rattle.dary_heap.specs.Room.{Reserves, ReservesExactly, Shrinks};

use super::DaryHeap;
use crate::sift::{ByOrd, Judge};
use std::alloc::{AllocError, Global};

impl<T: Ord, const D: usize> DaryHeap<T, D> {
    /// Returns an empty heap with room for at least `capacity` items.
    ///
    /// # Errors
    ///
    /// Returns `AllocError` if memory allocation fails. With a capacity of 0 nothing is allocated,
    /// and the call doesn't fail.
    ///
    /// # Examples
    ///
    /// ```
    /// use dary_heap::QuaternaryHeap;
    /// let heap = QuaternaryHeap::<i32>::with_capacity(alloc, 10)?;
    /// assert!(rt; heap.capacity() >= 10);
    /// ```
    pub fn with_capacity(alloc: Global, capacity: usize) -> Result<Self, AllocError>
        ensures items { IfOk result (λ heap. heap.items ≡ []) }
        ensures capacity { IfOk result (λ heap. capacity ≤ heap.capacity) }
        ensures uncounted { IfOk result (λ heap. heap.comparisons ≡ 0) }
        ensures succeeds { capacity ≡ 0 → IsOk result }
        ensures no_room { capacity ≡ 0 → IfOk result (λ heap. heap.capacity ≡ 0) }
    {
        Ok(DaryHeap {
            items: Vec::with_capacity(alloc, capacity)?,
            judge: ByOrd::new(),
        })
    }
}

impl<T, const D: usize, J: Judge<T>> DaryHeap<T, D, J> {
    /// Reserves room for at least `additional` more items.
    ///
    /// After `Ok` that many pushes allocate no memory, and don't fail. If there is room already, it does nothing.
    ///
    /// # Errors
    ///
    /// Returns `AllocError` if memory allocation fails, which happens only if that room was
    /// missing. The heap is then as it was.
    ///
    /// # Examples
    ///
    /// ```
    /// use dary_heap::BinaryHeap;
    /// let mut heap = BinaryHeap::<i32>::new(alloc);
    /// heap.reserve(100)?;
    /// assert!(rt; heap.capacity() >= 100);
    /// ```
    pub fn reserve(&mut self, additional: usize) -> Result<(), AllocError>
        ensures { Reserves J.order D additional self.old self.new result }
    {
        if additional <= self.items.capacity() - self.items.len() {
            return Ok(());
        }
        self.items.reserve(additional)
    }

    /// Reserves room for `additional` more items, and for no more than that if it has to allocate.
    /// Prefer [`reserve`](DaryHeap::reserve) if more items may follow.
    ///
    /// # Errors
    ///
    /// As [`reserve`](DaryHeap::reserve).
    ///
    /// # Examples
    ///
    /// ```
    /// use dary_heap::BinaryHeap;
    /// let mut heap = BinaryHeap::<i32>::new(alloc);
    /// heap.reserve_exact(100)?;
    /// assert_eq!(rt; heap.capacity(), 100);
    /// ```
    pub fn reserve_exact(&mut self, additional: usize) -> Result<(), AllocError>
        ensures { ReservesExactly J.order D additional self.old self.new result }
    {
        self.items.reserve_exact(additional)
    }

    /// Does the same as [`reserve`](DaryHeap::reserve).
    ///
    /// # Errors
    ///
    /// As [`reserve`](DaryHeap::reserve).
    ///
    /// # Examples
    ///
    /// ```
    /// use dary_heap::TernaryHeap;
    /// let mut heap = TernaryHeap::<i32>::new(alloc);
    /// heap.try_reserve(3)?;
    /// assert!(rt; heap.capacity() >= 3);
    /// ```
    pub fn try_reserve(&mut self, additional: usize) -> Result<(), AllocError>
        ensures { Reserves J.order D additional self.old self.new result }
    {
        self.reserve(additional)
    }

    /// Does the same as [`reserve_exact`](DaryHeap::reserve_exact).
    ///
    /// # Errors
    ///
    /// As [`reserve`](DaryHeap::reserve).
    ///
    /// # Examples
    ///
    /// ```
    /// use dary_heap::TernaryHeap;
    /// let mut heap = TernaryHeap::<i32>::new(alloc);
    /// heap.try_reserve_exact(3)?;
    /// assert_eq!(rt; heap.capacity(), 3);
    /// ```
    pub fn try_reserve_exact(&mut self, additional: usize) -> Result<(), AllocError>
        ensures { ReservesExactly J.order D additional self.old self.new result }
    {
        self.reserve_exact(additional)
    }

    /// Shrinks the capacity to `min_capacity`, or to the length if that is greater. If the capacity
    /// is no greater than that, it does nothing.
    ///
    /// # Errors
    ///
    /// Returns `AllocError` if the allocator can't provide the smaller block. The items stay as
    /// they are, and the capacity has not grown.
    ///
    /// # Examples
    ///
    /// ```
    /// use dary_heap::BinaryHeap;
    /// let mut heap = BinaryHeap::<i32>::with_capacity(alloc, 100)?;
    /// heap.shrink_to(10)?;
    /// assert_eq!(rt; heap.capacity(), 10);
    /// ```
    pub fn shrink_to(&mut self, min_capacity: usize) -> Result<(), AllocError>
        ensures { Shrinks J.order D
            (max (length self.old.items) min_capacity) self.old self.new result }
    {
        let wanted = self.items.len().max(min_capacity);
        self.items.shrink_to(min_capacity);
        if wanted < self.items.capacity() {
            return Err(AllocError);
        }
        Ok(())
    }

    /// Shrinks the capacity to the length.
    ///
    /// # Errors
    ///
    /// As [`shrink_to`](DaryHeap::shrink_to).
    ///
    /// # Examples
    ///
    /// ```
    /// use dary_heap::BinaryHeap;
    /// let mut heap = BinaryHeap::with_capacity(alloc, 100)?;
    /// heap.push(7)?;
    /// heap.shrink_to_fit()?;
    /// assert_eq!(rt; heap.capacity(), 1);
    /// ```
    pub fn shrink_to_fit(&mut self) -> Result<(), AllocError>
        ensures { Shrinks J.order D (length self.old.items) self.old self.new result }
    {
        self.shrink_to(0)
    }
}
