//! How many entries a heap has room for, and below which number keys have a place.
ghost use Rattle.std.specs.Prelude.{◌≡◌, ℕ, ◌+◌, ◌<◌, ◌≤◌, ◌⊎◌, [], length, max, min, slice_get, IfOk, IsOk, OnOk, OnErr, Some};
ghost use Rattle.dary_heap.specs.Room.{Shrinks};
ghost use Rattle.indexed_heap.specs.Entries.{AreSound, IsEntry, by_item};
ghost use Rattle.indexed_heap.specs.Iterating.{contents};
ghost use Rattle.indexed_heap.specs.Keys.{key_bound};

use super::IndexedHeap;
use super::table::widen;
use crate::judge::ByItem;
use dary_heap::DaryHeap;
use dary_heap::sift::{ByOrd, Judge};
use std::alloc::{AllocError, Global};

impl<T: Ord, const D: usize> IndexedHeap<T, D> {
    /// Returns an empty heap with room for at least `entries` entries, of keys below `keys`.
    ///
    /// # Errors
    ///
    /// Returns `AllocError` if memory allocation fails. For no entries and no keys nothing is allocated, and the call
    /// doesn't fail.
    ///
    /// # Examples
    ///
    /// ```
    /// use indexed_heap::IndexedHeap;
    /// let heap = IndexedHeap::<i32, 4>::with_capacity(alloc, 10, 1000)?;
    /// assert!(rt; heap.capacity() >= 10);
    /// assert_eq!(rt; heap.key_capacity(), 1000);
    /// ```
    pub fn with_capacity(alloc: Global, entries: usize, keys: usize) -> Result<Self, AllocError>
        ensures entries { IfOk result (λ heap. heap.entries ≡ []) }
        ensures capacity { IfOk result (λ heap. entries ≤ heap.capacity) }
        ensures keys { IfOk result (λ heap. heap.keys ≡ keys) }
        ensures uncounted { IfOk result (λ heap. heap.comparisons ≡ 0) }
        ensures succeeds { entries ≡ 0 → keys ≡ 0 → IsOk result }
        ensures no_room { entries ≡ 0 → IfOk result (λ heap. heap.capacity ≡ 0) }
    {
        let mut places = Vec::new(alloc);
        places.resize(keys, 0)?;
        let judge = ByItem {
            items: ByOrd::new(),
        };
        let entries = Vec::with_capacity(alloc, entries)?;
        Ok(IndexedHeap {
            entries: DaryHeap::from_raw_vec_with(entries, judge),
            places,
        })
    }
}

impl<T, const D: usize, J: Judge<T>> IndexedHeap<T, D, J> {
    /// Returns the number of entries that there is room for. It is never less than the length. Takes *O*(1), without
    /// a comparison.
    ///
    /// # Examples
    ///
    /// ```
    /// use indexed_heap::IndexedHeap;
    /// let heap = IndexedHeap::<i32, 4>::with_capacity(alloc, 100, 0)?;
    /// assert!(rt; heap.capacity() >= 100);
    /// ```
    pub fn capacity(&self) -> usize
        ensures capacity { result ≡ self.now.capacity }
        ensures holds { length self.now.entries ≤ result }
    {
        self.entries.capacity()
    }

    /// Returns the number below which keys need no room in the table of places. Each key that has an item is below it.
    /// Takes *O*(1).
    ///
    /// An insert allocates memory only if its key has no item, and the length has reached the
    /// [`capacity`](IndexedHeap::capacity) or the key this number.
    ///
    /// # Examples
    ///
    /// ```
    /// use indexed_heap::IndexedHeap;
    /// let mut heap = IndexedHeap::<_, 4>::with_capacity(alloc, 0, 50)?;
    /// assert_eq!(rt; heap.key_capacity(), 50);
    /// heap.insert(60, 1)?;
    /// assert_eq!(rt; heap.key_capacity(), 61);
    /// ```
    pub fn key_capacity(&self) -> usize
        ensures keys { result ≡ self.now.keys }
        ensures holds { (at key : ℕ) → IsEntry self.now.entries at key → key < result }
    {
        self.places.len()
    }

    /// Reserves room for at least `additional` more entries, and for the keys below `keys`.
    ///
    /// After `Ok` that many inserts of such keys allocate no memory, and don't fail. [`key_capacity`] is then
    /// `keys`, or stays if it was more. If there is room already, the call does nothing.
    ///
    /// [`key_capacity`]: IndexedHeap::key_capacity
    ///
    /// # Errors
    ///
    /// Returns `AllocError` if memory allocation fails, which happens only if some of that room was missing. The
    /// entries stay as they are, and there is as much room or more.
    ///
    /// # Examples
    ///
    /// ```
    /// use indexed_heap::IndexedHeap;
    /// let mut heap = IndexedHeap::<i32, 4>::new(alloc);
    /// heap.reserve(10, 1000)?;
    /// assert!(rt; heap.capacity() >= 10);
    /// assert_eq!(rt; heap.key_capacity(), 1000);
    /// ```
    pub fn reserve(&mut self, additional: usize, keys: usize) -> Result<(), AllocError>
        ensures entries { self.new.entries ≡ self.old.entries }
        ensures sound { AreSound J.order D self.new.entries }
        ensures uncounted { self.new.comparisons ≡ self.old.comparisons }
        ensures room { OnOk result (length self.new.entries + additional ≤ self.new.capacity) }
        ensures keyed { OnOk result (self.new.keys ≡ max self.old.keys keys) }
        ensures capacity { self.old.capacity ≤ self.new.capacity }
        ensures keys { self.old.keys ≤ self.new.keys }
        ensures kept { length self.old.entries + additional ≤ self.old.capacity
            → self.new.capacity ≡ self.old.capacity }
        ensures kept_keys { keys ≤ self.old.keys → self.new.keys ≡ self.old.keys }
        ensures same_keys { OnErr result (self.new.keys ≡ self.old.keys) }

        // It fails only if some of that room was missing.
        ensures succeeds { length self.old.entries + additional ≤ self.old.capacity
            → keys ≤ self.old.keys → IsOk result }
        ensures full { OnErr result ((self.old.capacity < length self.old.entries + additional)
            ⊎ (self.old.keys < keys)) }
    {
        self.entries.reserve(additional)?;
        widen(&mut self.places, keys)
    }

    /// Gives room back. There stays room for `min_capacity` entries, or for those that are there if they are more, and
    /// for the keys below `min_keys`, or up to the greatest one if that is greater. Of less room than that none is made.
    /// Takes *O*(*n*).
    ///
    /// # Errors
    ///
    /// Returns `AllocError` if the allocator can't provide a smaller block for the entries. They stay as they are, their
    /// room has not grown, and [`key_capacity`](IndexedHeap::key_capacity) is as after `Ok`. If there is no smaller block for the table
    /// of places, the table keeps the one that it has.
    ///
    /// # Examples
    ///
    /// ```
    /// use indexed_heap::IndexedHeap;
    /// let mut heap = IndexedHeap::<_, 4>::with_capacity(alloc, 100, 1000)?;
    /// heap.insert(30, 7)?;
    /// heap.shrink_to(10, 50)?;
    /// assert_eq!(rt; (heap.capacity(), heap.key_capacity()), (10, 50));
    /// heap.shrink_to(0, 20)?;
    /// assert_eq!(rt; (heap.capacity(), heap.key_capacity()), (1, 31));
    /// ```
    pub fn shrink_to(&mut self, min_capacity: usize, min_keys: usize) -> Result<(), AllocError>
        ensures room { Shrinks (by_item J.order) D (max (length self.old.entries) min_capacity)
            (contents self.old) (contents self.new) result }
        ensures keys { self.new.keys ≡ min self.old.keys
            (max (key_bound self.old.entries) min_keys) }
        ensures covers { key_bound self.new.entries ≤ self.new.keys }
        ensures sound { AreSound J.order D self.new.entries }
    {
        let keys = bound_of(self.entries.as_slice()).max(min_keys);
        self.places.truncate(keys);
        self.places.shrink_to_fit();
        self.entries.shrink_to(min_capacity)
    }

    /// Gives back all room for entries that aren't there, and for keys above the greatest one. Takes *O*(*n*), without
    /// a comparison.
    ///
    /// # Errors
    ///
    /// As [`shrink_to`](IndexedHeap::shrink_to).
    ///
    /// # Examples
    ///
    /// ```
    /// use indexed_heap::IndexedHeap;
    /// let mut heap = IndexedHeap::<_, 4>::with_capacity(alloc, 100, 1000)?;
    /// heap.insert(30, 7)?;
    /// heap.insert(90, 2)?;
    /// heap.remove(90);
    /// heap.shrink_to_fit()?;
    /// assert_eq!(rt; (heap.capacity(), heap.key_capacity()), (1, 31));
    /// ```
    pub fn shrink_to_fit(&mut self) -> Result<(), AllocError>
        ensures room { Shrinks (by_item J.order) D (length self.old.entries) (contents self.old)
            (contents self.new) result }
        ensures keys { self.new.keys ≡ key_bound self.old.entries }
        ensures sound { AreSound J.order D self.new.entries }
    {
        self.shrink_to(0, 0)
    }
}

/// Returns the least number that is above each key.
fn bound_of<T>(entries: &[(usize, T)]) -> usize
    requires { (i : ℕ) (entry : ℕ × T) → slice_get entries.now i ≡ Some entry → entry.0 < usize.MAX }
    ensures { result ≡ key_bound entries.now }
{
    let mut bound = 0;
    for (key, _) in entries {
        bound = bound.max(*key + 1);
    }
    bound
}
