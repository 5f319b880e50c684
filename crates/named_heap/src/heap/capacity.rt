//! How many more names a heap has room for.
ghost use Rattle.std.specs.Prelude.{◌≡◌, ◌≤◌, min, IfOk, IsOk, OnOk, []};
ghost use Rattle.named_heap.specs.Entries.{AreSound};

use super::NamedHeap;
use dary_heap::sift::Judge;
use std::alloc::{AllocError, Global};
use std::hash::{BuildHasher, Hash};

impl<K: Eq + Hash + Drop, T: Ord + Drop, const D: usize> NamedHeap<K, T, D> {
    /// Returns an empty heap with room for at least `names` names.
    ///
    /// # Errors
    ///
    /// Returns `AllocError` if memory allocation fails. For no names nothing is allocated, and the call doesn't fail.
    ///
    /// # Examples
    ///
    /// ```
    /// use named_heap::NamedHeap;
    /// let heap = NamedHeap::<&str, i32, 4>::with_capacity(alloc, 10)?;
    /// assert!(rt; heap.room() >= 10);
    /// ```
    pub fn with_capacity(alloc: Global, names: usize) -> Result<Self, AllocError>
        ensures entries { IfOk result (λ heap. heap.entries ≡ []) }
        ensures room { IfOk result (λ heap. names ≤ heap.room) }
        ensures uncounted { IfOk result (λ heap. heap.comparisons ≡ 0) }
        ensures succeeds { names ≡ 0 → IsOk result }
    {
        let mut heap = NamedHeap::new(alloc);
        heap.reserve(names)?;
        Ok(heap)
    }
}

impl<K: Eq + Hash, T, const D: usize, J: Judge<T>, S: BuildHasher> NamedHeap<K, T, D, J, S> {
    /// Returns the number of new names that there is room for: so many inserts don't fail. Takes *O*(1).
    ///
    /// A name that leaves needn't give its place back ([more](crate#room)).
    ///
    /// # Examples
    ///
    /// ```
    /// use named_heap::NamedHeap;
    /// let mut heap = NamedHeap::<_, _, 4>::new(alloc);
    /// heap.reserve(10)?;
    /// heap.insert("wash", 1)?;
    /// assert!(rt; heap.room() >= 9);
    /// ```
    pub fn room(&self) -> usize
        ensures { result ≡ self.now.room }
    {
        let entries = self.heap.capacity() - self.heap.len();
        let keys = self.heap.key_capacity().saturating_sub(self.names.len());
        (self.names.capacity() - self.names.len()).min(entries.min(keys))
    }

    /// Reserves room for at least `additional` more names.
    ///
    /// After `Ok` that many inserts don't fail. If there is room already, the call does nothing.
    ///
    /// A removal needn't give the place of its name back: only a call that allocates or [`clear`](NamedHeap::clear) does.
    /// So a heap that is emptied and filled by turns within the room that it had at first may need more
    /// ([more](crate#room)).
    ///
    /// # Errors
    ///
    /// Returns `AllocError` if memory allocation fails, which happens only if some of that room was missing. The
    /// entries stay as they are, and there is as much room or more.
    ///
    /// # Examples
    ///
    /// ```
    /// use named_heap::NamedHeap;
    /// let mut heap = NamedHeap::<&str, i32, 4>::new(alloc);
    /// heap.reserve(10)?;
    /// assert!(rt; heap.room() >= 10);
    /// ```
    pub fn reserve(&mut self, additional: usize) -> Result<(), AllocError>
        ensures entries { self.new.entries ≡ self.old.entries }
        ensures sound { AreSound K.eq J.order D self.new.entries }
        ensures uncounted { self.new.comparisons ≡ self.old.comparisons }
        ensures room { OnOk result (additional ≤ self.new.room) }
        ensures kept { self.old.room ≤ self.new.room }
        ensures succeeds { additional ≤ self.old.room → IsOk result }
        ensures unchanged { additional ≤ self.old.room → self.new ≡ self.old }
    {
        if additional <= self.room() {
            return Ok(());
        }
        let keys = self.names.len().checked_add(additional).ok_or(AllocError)?;
        self.heap.reserve(additional, keys)?;
        self.names.reserve(additional)
    }

    /// Gives room back. There stays room for `names` more names, or as much as there is if that is less. Takes *O*(*n*).
    ///
    /// If the allocator can't provide a smaller block, the one that is there is kept.
    ///
    /// # Examples
    ///
    /// ```
    /// use named_heap::NamedHeap;
    /// let mut heap = NamedHeap::<_, _, 4>::with_capacity(alloc, 100)?;
    /// heap.insert("wash", 7)?;
    /// heap.shrink_to(10);
    /// assert_eq!(rt; heap.room(), 10);
    /// ```
    pub fn shrink_to(&mut self, names: usize)
        ensures entries { self.new.entries ≡ self.old.entries }
        ensures sound { AreSound K.eq J.order D self.new.entries }
        ensures uncounted { self.new.comparisons ≡ self.old.comparisons }
        ensures kept { min names self.old.room ≤ self.new.room }
        ensures room { self.new.room ≤ names }
    {
        let capacity = self
            .names
            .len()
            .saturating_add(names)
            .min(self.names.capacity());
        self.names.shrink_to(capacity);
        let _ = self.heap.shrink_to(capacity, capacity);
    }

    /// Gives back all room for names that aren't there. Takes *O*(*n*).
    ///
    /// If the allocator can't provide a smaller block, the one that is there is kept.
    ///
    /// # Examples
    ///
    /// ```
    /// use named_heap::NamedHeap;
    /// let mut heap = NamedHeap::<_, _, 4>::with_capacity(alloc, 100)?;
    /// heap.insert("wash", 7)?;
    /// heap.shrink_to_fit();
    /// assert_eq!(rt; heap.room(), 0);
    /// ```
    pub fn shrink_to_fit(&mut self)
        ensures entries { self.new.entries ≡ self.old.entries }
        ensures sound { AreSound K.eq J.order D self.new.entries }
        ensures uncounted { self.new.comparisons ≡ self.old.comparisons }
        ensures room { self.new.room ≡ 0 }
    {
        self.shrink_to(0);
    }
}
